// After atom.rs.
ghost use Rattle.std.specs.Prelude.{◌≡◌};
ghost use Rattle.machine.specs.Answer.{edited_numbers};
ghost use Rattle.machine.specs.Edit.{store_step, SetElement};

use machine::{Edited, Refusal};

// Change request §6: sets an element that is missing.
pub fn set_element(
    store: &mut [u64],
    model: u64,
    chain: u64,
    residue: u64,
    conformer: u64,
    atom: u64,
    element: u64,
) -> Result<Edited, Refusal>
    ensures { (edited_numbers result, store.new) ≡ store_step store.old (SetElement model chain residue conformer atom element) }
{
    store::check(store)?;
    let position = [model, chain, residue, conformer, atom];
    settings::set_element(store, &position, element)
}
