// After residue.rs.
ghost use Rattle.std.specs.Prelude.{◌≡◌, [], ◌∷◌};
ghost use Rattle.machine.specs.Answer.{edited_numbers, counted_numbers};
ghost use Rattle.machine.specs.Text.{optional_of};
ghost use Rattle.machine.specs.Edit.{store_step, RemoveConformer, RemoveConformerById, JoinResidues};
ghost use Rattle.machine.specs.Find.{find_from};

use super::positions;
use machine::{Edited, Refusal};

// The hits of a tree among the atoms below, change request §4.
pub fn find(
    store: &[u64],
    model: u64,
    chain: u64,
    residue: u64,
    tree: &[u64],
    out: &mut [u64],
) -> Result<u64, Refusal>
    ensures { (counted_numbers result, out.new)
        ≡ find_from store.now (model ∷ chain ∷ residue ∷ []) tree.now out.old }
{
    let start = [model, chain, residue];
    walk::find(store, &start, tree, out)
}

pub fn remove_conformer(
    store: &mut [u64],
    model: u64,
    chain: u64,
    residue: u64,
    conformer: u64,
) -> Result<Edited, Refusal>
    ensures { (edited_numbers result, store.new) ≡ store_step store.old (RemoveConformer model chain residue conformer) }
{
    let position = [model, chain, residue, conformer];
    positions::remove_at(store, &position)
}

// The first with the name and the location as given.
pub fn remove_conformer_by_id(
    store: &mut [u64],
    model: u64,
    chain: u64,
    residue: u64,
    name: &[u8],
    flag: u64,
    location: &[u8],
) -> Result<Edited, Refusal>
    ensures { (edited_numbers result, store.new)
        ≡ store_step store.old (RemoveConformerById model chain residue name.now (optional_of flag location.now)) }
{
    store::check(store)?;
    removals::remove_conformer_by_id(store, model, chain, residue, name, flag, location)
}

pub fn join(
    store: &mut [u64],
    model: u64,
    chain: u64,
    residue: u64,
    second_model: u64,
    second_chain: u64,
    second_residue: u64,
) -> Result<Edited, Refusal>
    ensures { (edited_numbers result, store.new)
        ≡ store_step store.old (JoinResidues model chain residue second_model second_chain second_residue) }
{
    let first = [model, chain, residue];
    let second = [second_model, second_chain, second_residue];
    positions::join_at(store, &first, &second)
}
