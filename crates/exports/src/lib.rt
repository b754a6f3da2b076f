// The C interface: a slice is a pointer and a length, an answer the numbers that document 01 gives it. Floats and signed numbers
// are given by their bits.
#![tactic(auto)]

ghost use Rattle.std.specs.Prelude.{◌≡◌, [], ◌∷◌};
ghost use Rattle.machine.specs.Answer.{result_number, edit_fields, find_fields, write_fields, apply_fields, lookup_fields};
ghost use Rattle.machine.specs.Text.{optional_of};
ghost use Rattle.machine.specs.Store.{read_store, open_run};
ghost use Rattle.machine.specs.Find.{find_run, find_from};
ghost use Rattle.machine.specs.Edit as Calls;
ghost use Rattle.machine.specs.Edit.{addition, store_step};
ghost use Rattle.machine.specs.Lookup.{lookup_run};
ghost use Rattle.machine.specs.Write.{write_run};
ghost use Rattle.machine.specs.Read.{read_run};
ghost use Rattle.copies.specs.Copy.{copy_run};
ghost use Rattle.edits.specs.Apply.{ran, apply_run};
ghost use Rattle.exports.specs.Version.{version};

use machine::{ApplyAnswer, EditAnswer, FindAnswer, LookupAnswer, NewAtom, WriteAnswer, number_of};

// 0.10.0: the millions are the major number, the thousands the minor one.
#[unsafe(no_mangle)]
pub extern "C" fn jubrelti_version() -> u64
    ensures { result ≡ version }
{
    10_000
}

// 0 for a good store, else the refusal's number.
#[unsafe(no_mangle)]
pub extern "C" fn jubrelti_check(store: &[u64]) -> u64
    ensures { result ≡ result_number (read_store store.now) }
{
    number_of(store::check(store))
}

#[unsafe(no_mangle)]
pub extern "C" fn jubrelti_open(store: &mut [u64]) -> u64
    ensures { ((result ∷ []), store.new) ≡ open_run store.old }
{
    number_of(structs::pdb::open(store))
}

#[unsafe(no_mangle)]
pub extern "C" fn jubrelti_copy(from: &[u64], to: &mut [u64]) -> u64
    ensures { ((result ∷ []), to.new) ≡ copy_run from.now to.old }
{
    number_of(copies::copy(from, to))
}

#[unsafe(no_mangle)]
pub extern "C" fn jubrelti_find(store: &[u64], tree: &[u64], out: &mut [u64]) -> FindAnswer
    ensures { (find_fields result, out.new) ≡ find_run store.now tree.now out.old }
{
    structs::pdb::find(store, tree, out).into()
}

#[unsafe(no_mangle)]
pub extern "C" fn jubrelti_model_find(
    store: &[u64],
    model: u64,
    tree: &[u64],
    out: &mut [u64],
) -> FindAnswer
    ensures { (find_fields result, out.new) ≡ find_from store.now (model ∷ []) tree.now out.old }
{
    structs::model::find(store, model, tree, out).into()
}

#[unsafe(no_mangle)]
pub extern "C" fn jubrelti_chain_find(
    store: &[u64],
    model: u64,
    chain: u64,
    tree: &[u64],
    out: &mut [u64],
) -> FindAnswer
    ensures { (find_fields result, out.new) ≡ find_from store.now (model ∷ chain ∷ []) tree.now out.old }
{
    structs::chain::find(store, model, chain, tree, out).into()
}

#[unsafe(no_mangle)]
pub extern "C" fn jubrelti_residue_find(
    store: &[u64],
    model: u64,
    chain: u64,
    residue: u64,
    tree: &[u64],
    out: &mut [u64],
) -> FindAnswer
    ensures { (find_fields result, out.new)
        ≡ find_from store.now (model ∷ chain ∷ residue ∷ []) tree.now out.old }
{
    structs::residue::find(store, model, chain, residue, tree, out).into()
}

#[unsafe(no_mangle)]
pub extern "C" fn jubrelti_conformer_find(
    store: &[u64],
    model: u64,
    chain: u64,
    residue: u64,
    conformer: u64,
    tree: &[u64],
    out: &mut [u64],
) -> FindAnswer
    ensures { (find_fields result, out.new)
        ≡ find_from store.now (model ∷ chain ∷ residue ∷ conformer ∷ []) tree.now out.old }
{
    structs::conformer::find(store, model, chain, residue, conformer, tree, out).into()
}

#[unsafe(no_mangle)]
pub extern "C" fn jubrelti_binary_find_atom(
    store: &[u64],
    serial: u64,
    flag: u64,
    location: &[u8],
) -> LookupAnswer
    ensures { lookup_fields result ≡ lookup_run store.now serial (optional_of flag location.now) }
{
    structs::pdb::binary_find_atom(store, serial, flag, location).into()
}

#[unsafe(no_mangle)]
pub extern "C" fn jubrelti_write_pdb(store: &[u64], out: &mut [u8]) -> WriteAnswer
    ensures { (write_fields result, out.new) ≡ write_run store.now out.old }
{
    structs::pdb::write_pdb(store, out).into()
}

#[unsafe(no_mangle)]
pub extern "C" fn jubrelti_read_pdb(text: &[u8], store: &mut [u64]) -> u64
    ensures { ((result ∷ []), store.new) ≡ read_run text.now store.old }
{
    number_of(structs::pdb::read_pdb(text, store))
}

// ---- the edits

#[unsafe(no_mangle)]
pub extern "C" fn jubrelti_add_atom(
    store: &mut [u64],
    model: u64,
    chain: &[u8],
    residue: u64,
    code_flag: u64,
    code: &[u8],
    conformer: &[u8],
    location_flag: u64,
    location: &[u8],
    name: &[u8],
    values: NewAtom,
) -> EditAnswer
    ensures { (edit_fields result, store.new)
        ≡ store_step store.old (Calls.AddAtom model (addition chain.now residue
        (optional_of code_flag code.now) conformer.now (optional_of location_flag location.now) name.now values)) }
{
    structs::model::add_atom(
        store,
        model,
        chain,
        residue,
        code_flag,
        code,
        conformer,
        location_flag,
        location,
        name,
        values,
    )
    .into()
}

#[unsafe(no_mangle)]
pub extern "C" fn jubrelti_add_model(store: &mut [u64], serial: u64) -> EditAnswer
    ensures { (edit_fields result, store.new) ≡ store_step store.old (Calls.AddModel serial) }
{
    structs::pdb::add_model(store, serial).into()
}

#[unsafe(no_mangle)]
pub extern "C" fn jubrelti_remove_chain(store: &mut [u64], model: u64, chain: u64) -> EditAnswer
    ensures { (edit_fields result, store.new) ≡ store_step store.old (Calls.RemoveChain model chain) }
{
    structs::model::remove_chain(store, model, chain).into()
}

#[unsafe(no_mangle)]
pub extern "C" fn jubrelti_remove_residue(
    store: &mut [u64],
    model: u64,
    chain: u64,
    residue: u64,
) -> EditAnswer
    ensures { (edit_fields result, store.new) ≡ store_step store.old (Calls.RemoveResidue model chain residue) }
{
    structs::chain::remove_residue(store, model, chain, residue).into()
}

#[unsafe(no_mangle)]
pub extern "C" fn jubrelti_remove_conformer(
    store: &mut [u64],
    model: u64,
    chain: u64,
    residue: u64,
    conformer: u64,
) -> EditAnswer
    ensures { (edit_fields result, store.new) ≡ store_step store.old (Calls.RemoveConformer model chain residue conformer) }
{
    structs::residue::remove_conformer(store, model, chain, residue, conformer).into()
}

#[unsafe(no_mangle)]
pub extern "C" fn jubrelti_remove_atom(
    store: &mut [u64],
    model: u64,
    chain: u64,
    residue: u64,
    conformer: u64,
    atom: u64,
) -> EditAnswer
    ensures { (edit_fields result, store.new) ≡ store_step store.old (Calls.RemoveAtom model chain residue conformer atom) }
{
    structs::conformer::remove_atom(store, model, chain, residue, conformer, atom).into()
}

#[unsafe(no_mangle)]
pub extern "C" fn jubrelti_remove_chain_by_id(
    store: &mut [u64],
    model: u64,
    id: &[u8],
) -> EditAnswer
    ensures { (edit_fields result, store.new) ≡ store_step store.old (Calls.RemoveChainById model id.now) }
{
    structs::model::remove_chain_by_id(store, model, id).into()
}

#[unsafe(no_mangle)]
pub extern "C" fn jubrelti_remove_residue_by_id(
    store: &mut [u64],
    model: u64,
    chain: u64,
    serial: u64,
    flag: u64,
    code: &[u8],
) -> EditAnswer
    ensures { (edit_fields result, store.new)
        ≡ store_step store.old (Calls.RemoveResidueById model chain serial (optional_of flag code.now)) }
{
    structs::chain::remove_residue_by_id(store, model, chain, serial, flag, code).into()
}

#[unsafe(no_mangle)]
pub extern "C" fn jubrelti_remove_conformer_by_id(
    store: &mut [u64],
    model: u64,
    chain: u64,
    residue: u64,
    name: &[u8],
    flag: u64,
    location: &[u8],
) -> EditAnswer
    ensures { (edit_fields result, store.new)
        ≡ store_step store.old (Calls.RemoveConformerById model chain residue name.now (optional_of flag location.now)) }
{
    structs::residue::remove_conformer_by_id(
        store, model, chain, residue, name, flag, location,
    ).into()
}

#[unsafe(no_mangle)]
pub extern "C" fn jubrelti_remove_atom_by_serial_number(
    store: &mut [u64],
    model: u64,
    chain: u64,
    residue: u64,
    conformer: u64,
    serial: u64,
) -> EditAnswer
    ensures { (edit_fields result, store.new)
        ≡ store_step store.old (Calls.RemoveAtomBySerialNumber model chain residue conformer serial) }
{
    structs::conformer::remove_atom_by_serial_number(
        store, model, chain, residue, conformer, serial,
    ).into()
}

#[unsafe(no_mangle)]
pub extern "C" fn jubrelti_remove_empty(store: &mut [u64], model: u64) -> EditAnswer
    ensures { (edit_fields result, store.new) ≡ store_step store.old (Calls.RemoveEmpty model) }
{
    structs::model::remove_empty(store, model).into()
}

#[unsafe(no_mangle)]
pub extern "C" fn jubrelti_join_models(store: &mut [u64], first: u64, second: u64) -> EditAnswer
    ensures { (edit_fields result, store.new) ≡ store_step store.old (Calls.JoinModels first second) }
{
    structs::model::join(store, first, second).into()
}

#[unsafe(no_mangle)]
pub extern "C" fn jubrelti_join_chains(
    store: &mut [u64],
    model: u64,
    chain: u64,
    second_model: u64,
    second_chain: u64,
) -> EditAnswer
    ensures { (edit_fields result, store.new) ≡ store_step store.old (Calls.JoinChains model chain second_model second_chain) }
{
    structs::chain::join(store, model, chain, second_model, second_chain).into()
}

#[unsafe(no_mangle)]
pub extern "C" fn jubrelti_join_residues(
    store: &mut [u64],
    model: u64,
    chain: u64,
    residue: u64,
    second_model: u64,
    second_chain: u64,
    second_residue: u64,
) -> EditAnswer
    ensures { (edit_fields result, store.new)
        ≡ store_step store.old (Calls.JoinResidues model chain residue second_model second_chain second_residue) }
{
    structs::residue::join(
        store,
        model,
        chain,
        residue,
        second_model,
        second_chain,
        second_residue,
    )
    .into()
}

#[unsafe(no_mangle)]
pub extern "C" fn jubrelti_join_conformers(
    store: &mut [u64],
    model: u64,
    chain: u64,
    residue: u64,
    conformer: u64,
    second_model: u64,
    second_chain: u64,
    second_residue: u64,
    second_conformer: u64,
) -> EditAnswer
    ensures { (edit_fields result, store.new)
        ≡ store_step store.old
        (Calls.JoinConformers model chain residue conformer second_model second_chain second_residue second_conformer) }
{
    structs::conformer::join(
        store,
        model,
        chain,
        residue,
        conformer,
        second_model,
        second_chain,
        second_residue,
        second_conformer,
    )
    .into()
}

#[unsafe(no_mangle)]
pub extern "C" fn jubrelti_remove_atoms_by(
    store: &mut [u64],
    model: u64,
    tree: &[u64],
) -> EditAnswer
    ensures { (edit_fields result, store.new) ≡ store_step store.old (Calls.RemoveAtomsBy model tree.now) }
{
    structs::model::remove_atoms_by(store, model, tree).into()
}

#[unsafe(no_mangle)]
pub extern "C" fn jubrelti_set_element(
    store: &mut [u64],
    model: u64,
    chain: u64,
    residue: u64,
    conformer: u64,
    atom: u64,
    element: u64,
) -> EditAnswer
    ensures { (edit_fields result, store.new) ≡ store_step store.old (Calls.SetElement model chain residue conformer atom element) }
{
    structs::atom::set_element(store, model, chain, residue, conformer, atom, element).into()
}

// ---- a list of edits

#[unsafe(no_mangle)]
pub extern "C" fn jubrelti_apply(store: &mut [u64], list: &[u64], out: &mut [u64]) -> ApplyAnswer
    ensures { ran (apply_fields result) store.new out.new ≡ apply_run store.old list.now out.old }
{
    edits::apply(store, list, out).into()
}
