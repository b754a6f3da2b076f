// After pdb.rs.
ghost use Rattle.std.specs.Prelude.{◌≡◌};
ghost use Rattle.machine.specs.Answer.{opened_numbers, edited_numbers, counted_numbers, looked_up_numbers};
ghost use Rattle.machine.specs.Text.{optional_of};
ghost use Rattle.machine.specs.Store.{open_run};
ghost use Rattle.machine.specs.Edit.{store_step, AddModel};
ghost use Rattle.machine.specs.Find.{find_run};
ghost use Rattle.machine.specs.Lookup.{lookup_run};
ghost use Rattle.machine.specs.Write.{write_run};
ghost use Rattle.machine.specs.Read.{read_run};

use machine::{Edited, RecordNumbers, Refusal};

// "Opening sets every word to 0" and "refuses only with 1".
pub fn open(store: &mut [u64]) -> Result<(), Refusal>
    ensures { (opened_numbers result, store.new) ≡ open_run store.old }
{
    store::open(store)
}

// "Add model: appended, given serial."
pub fn add_model(store: &mut [u64], serial: u64) -> Result<Edited, Refusal>
    ensures { (edited_numbers result, store.new) ≡ store_step store.old (AddModel serial) }
{
    store::check(store)?;
    additions::add_model(store, serial)
}

// The hits of a tree, five words each.
pub fn find(store: &[u64], tree: &[u64], out: &mut [u64]) -> Result<u64, Refusal>
    ensures { (counted_numbers result, out.new) ≡ find_run store.now tree.now out.old }
{
    walk::find(store, &[], tree, out)
}

// "Lookup (serial, alternative location as given) in the first model"
pub fn binary_find_atom(
    store: &[u64],
    serial: u64,
    flag: u64,
    location: &[u8],
) -> Result<Option<RecordNumbers>, Refusal>
    ensures { looked_up_numbers result ≡ lookup_run store.now serial (optional_of flag location.now) }
{
    store::check(store)?;
    lookup::binary_find_atom(store, serial, flag, location)
}

// The structure as PDB lines, change request §1.
pub fn write_pdb(store: &[u64], out: &mut [u8]) -> Result<u64, Refusal>
    ensures { (counted_numbers result, out.new) ≡ write_run store.now out.old }
{
    writer::write(store, out)
}

// PDB lines into a store, which is opened and filled: change request §9.
pub fn read_pdb(text: &[u8], store: &mut [u64]) -> Result<(), Refusal>
    ensures { (opened_numbers result, store.new) ≡ read_run text.now store.old }
{
    reader::read(text, store)
}
