// After conformer.rs.
ghost use Rattle.std.specs.Prelude.{◌≡◌, [], ◌∷◌};
ghost use Rattle.machine.specs.Answer.{edited_numbers, counted_numbers};
ghost use Rattle.machine.specs.Edit.{store_step, RemoveAtom, RemoveAtomBySerialNumber, JoinConformers};
ghost use Rattle.machine.specs.Find.{find_from};

use super::positions;
use machine::{Edited, Refusal};

// The hits of a tree among the atoms below, change request §4.
pub fn find(
    store: &[u64],
    model: u64,
    chain: u64,
    residue: u64,
    conformer: u64,
    tree: &[u64],
    out: &mut [u64],
) -> Result<u64, Refusal>
    ensures { (counted_numbers result, out.new)
        ≡ find_from store.now (model ∷ chain ∷ residue ∷ conformer ∷ []) tree.now out.old }
{
    let start = [model, chain, residue, conformer];
    walk::find(store, &start, tree, out)
}

pub fn remove_atom(
    store: &mut [u64],
    model: u64,
    chain: u64,
    residue: u64,
    conformer: u64,
    atom: u64,
) -> Result<Edited, Refusal>
    ensures { (edited_numbers result, store.new) ≡ store_step store.old (RemoveAtom model chain residue conformer atom) }
{
    let position = [model, chain, residue, conformer, atom];
    positions::remove_at(store, &position)
}

pub fn remove_atom_by_serial_number(
    store: &mut [u64],
    model: u64,
    chain: u64,
    residue: u64,
    conformer: u64,
    serial: u64,
) -> Result<Edited, Refusal>
    ensures { (edited_numbers result, store.new) ≡ store_step store.old (RemoveAtomBySerialNumber model chain residue conformer serial) }
{
    store::check(store)?;
    removals::remove_atom_by_serial_number(store, model, chain, residue, conformer, serial)
}

pub fn join(
    store: &mut [u64],
    model: u64,
    chain: u64,
    residue: u64,
    conformer: u64,
    second_model: u64,
    second_chain: u64,
    second_residue: u64,
    second_conformer: u64,
) -> Result<Edited, Refusal>
    ensures { (edited_numbers result, store.new)
        ≡ store_step store.old (JoinConformers model chain residue conformer second_model second_chain second_residue second_conformer) }
{
    let first = [model, chain, residue, conformer];
    let second = [second_model, second_chain, second_residue, second_conformer];
    positions::join_at(store, &first, &second)
}
