// After model.rs.
ghost use Rattle.std.specs.Prelude.{◌≡◌, [], ◌∷◌};
ghost use Rattle.machine.specs.Answer.{edited_numbers, counted_numbers};
ghost use Rattle.machine.specs.Text.{optional_of};
ghost use Rattle.machine.specs.Edit.{store_step, addition, AddAtom, RemoveChain, RemoveChainById, RemoveAtomsBy, RemoveEmpty, JoinModels};
ghost use Rattle.machine.specs.Find.{find_from};

use super::positions;
use machine::{Edited, NewAtom, Refusal};

// "Add atom, to a model". Optional texts have a flag, 0 absent or 1 present.
pub fn add_atom(
    store: &mut [u64],
    model: u64,
    chain: &[u8],
    residue: u64,
    code_flag: u64,
    code: &[u8],
    conformer: &[u8],
    location_flag: u64,
    location: &[u8],
    name: &[u8],
    values: NewAtom,
) -> Result<Edited, Refusal>
    ensures { (edited_numbers result, store.new)
        ≡ store_step store.old (AddAtom model (addition chain.now residue
        (optional_of code_flag code.now) conformer.now (optional_of location_flag location.now) name.now values)) }
{
    store::check(store)?;
    let prepared = additions::prepare(
        chain,
        residue,
        code_flag,
        code,
        conformer,
        location_flag,
        location,
        name,
        values,
    );
    additions::add_atom(store, model, prepared)
}

// The hits of a tree among the atoms below, change request §4.
pub fn find(store: &[u64], model: u64, tree: &[u64], out: &mut [u64]) -> Result<u64, Refusal>
    ensures { (counted_numbers result, out.new) ≡ find_from store.now (model ∷ []) tree.now out.old }
{
    let start = [model];
    walk::find(store, &start, tree, out)
}

pub fn remove_chain(store: &mut [u64], model: u64, chain: u64) -> Result<Edited, Refusal>
    ensures { (edited_numbers result, store.new) ≡ store_step store.old (RemoveChain model chain) }
{
    let position = [model, chain];
    positions::remove_at(store, &position)
}

// The first with the id as given.
pub fn remove_chain_by_id(store: &mut [u64], model: u64, id: &[u8]) -> Result<Edited, Refusal>
    ensures { (edited_numbers result, store.new) ≡ store_step store.old (RemoveChainById model id.now) }
{
    store::check(store)?;
    removals::remove_chain_by_id(store, model, id)
}

// "atoms at which a tree, with `add_atom_info` alone, is true"
pub fn remove_atoms_by(store: &mut [u64], model: u64, tree: &[u64]) -> Result<Edited, Refusal>
    ensures { (edited_numbers result, store.new) ≡ store_step store.old (RemoveAtomsBy model tree.now) }
{
    store::check(store)?;
    tree_removals::remove_atoms_by(store, model, tree)
}

// "conformers without atoms, then residues without conformers, then chains without residues"
pub fn remove_empty(store: &mut [u64], model: u64) -> Result<Edited, Refusal>
    ensures { (edited_numbers result, store.new) ≡ store_step store.old (RemoveEmpty model) }
{
    store::check(store)?;
    empty_removals::remove_empty(store, model)
}

pub fn join(store: &mut [u64], first: u64, second: u64) -> Result<Edited, Refusal>
    ensures { (edited_numbers result, store.new) ≡ store_step store.old (JoinModels first second) }
{
    let first_at = [first];
    let second_at = [second];
    positions::join_at(store, &first_at, &second_at)
}
