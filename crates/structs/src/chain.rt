// After chain.rs.
ghost use Rattle.std.specs.Prelude.{◌≡◌, [], ◌∷◌};
ghost use Rattle.machine.specs.Answer.{edited_numbers, counted_numbers};
ghost use Rattle.machine.specs.Text.{optional_of};
ghost use Rattle.machine.specs.Edit.{store_step, RemoveResidue, RemoveResidueById, JoinChains};
ghost use Rattle.machine.specs.Find.{find_from};

use super::positions;
use machine::{Edited, Refusal};

// The hits of a tree among the atoms below, change request §4.
pub fn find(
    store: &[u64],
    model: u64,
    chain: u64,
    tree: &[u64],
    out: &mut [u64],
) -> Result<u64, Refusal>
    ensures { (counted_numbers result, out.new) ≡ find_from store.now (model ∷ chain ∷ []) tree.now out.old }
{
    let start = [model, chain];
    walk::find(store, &start, tree, out)
}

pub fn remove_residue(
    store: &mut [u64],
    model: u64,
    chain: u64,
    residue: u64,
) -> Result<Edited, Refusal>
    ensures { (edited_numbers result, store.new) ≡ store_step store.old (RemoveResidue model chain residue) }
{
    let position = [model, chain, residue];
    positions::remove_at(store, &position)
}

// The first with the serial number, given as its bits, and the code as given.
pub fn remove_residue_by_id(
    store: &mut [u64],
    model: u64,
    chain: u64,
    serial: u64,
    flag: u64,
    code: &[u8],
) -> Result<Edited, Refusal>
    ensures { (edited_numbers result, store.new)
        ≡ store_step store.old (RemoveResidueById model chain serial (optional_of flag code.now)) }
{
    store::check(store)?;
    removals::remove_residue_by_id(store, model, chain, serial, flag, code)
}

pub fn join(
    store: &mut [u64],
    model: u64,
    chain: u64,
    second_model: u64,
    second_chain: u64,
) -> Result<Edited, Refusal>
    ensures { (edited_numbers result, store.new) ≡ store_step store.old (JoinChains model chain second_model second_chain) }
{
    let first = [model, chain];
    let second = [second_model, second_chain];
    positions::join_at(store, &first, &second)
}
