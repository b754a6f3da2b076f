// Hits that borrow the store, after hierarchy.rs.
#![tactic(auto)]

ghost use Rattle.std.specs.Prelude.{◌≡◌, ◌<◌, get_or};
ghost use Rattle.hierarchy.specs.Hit.{record_of, is_kind, are_kinds, named_by, nth_of, hit_of, model_of, chain_of, residue_of, conformer_of, atom_of};

use machine::{AtomRec, Record, RecordNumbers};

#[derive(Clone, Copy)]
pub struct ModelRec {
    pub serial: u64,
}

#[derive(Clone, Copy)]
pub struct ChainRec {
    pub id: u64,
}

#[derive(Clone, Copy)]
pub struct ResidueRec {
    pub serial: i64,
    pub code: u64,
}

#[derive(Clone, Copy)]
pub struct ConformerRec {
    pub name: u64,
    pub location: u64,
}

// pdbtbx's `AtomConformerResidueChainModel`: "a hit that borrows the store and names five records".
#[derive(Clone, Copy)]
pub struct Hit<'a> {
    pub store: &'a [u64],
    pub model: u64,
    pub chain: u64,
    pub residue: u64,
    pub conformer: u64,
    pub atom: u64,
}

// ---- the work, on plain slices and numbers

// The word of a record, or 0 where the record doesn't stand in the store's words.
fn word(store: &[u64], number: u64, i: usize) -> u64
    requires { i < 12 }
    ensures { result ≡ get_or (record_of store.now number) i 0 }
{
    let count = store.len() / Record::WIDTH;
    let n = number as usize;
    if n < count {
        store[n * Record::WIDTH + i]
    } else {
        0
    }
}

#[tactic(auto, unfolding(crate::specs::Hit::model_of, machine::specs::Record::fields_of))]
pub fn model_at(store: &[u64], number: u64) -> ModelRec
    ensures { result ≡ model_of store.now number }
{
    ModelRec {
        serial: word(store, number, Record::SERIAL),
    }
}

#[tactic(auto, unfolding(crate::specs::Hit::chain_of, machine::specs::Record::fields_of))]
pub fn chain_at(store: &[u64], number: u64) -> ChainRec
    ensures { result ≡ chain_of store.now number }
{
    ChainRec {
        id: word(store, number, Record::CHAIN_ID),
    }
}

#[tactic(auto, unfolding(crate::specs::Hit::residue_of, machine::specs::Record::fields_of))]
pub fn residue_at(store: &[u64], number: u64) -> ResidueRec
    ensures { result ≡ residue_of store.now number }
{
    ResidueRec {
        serial: floats::int_of(word(store, number, Record::SERIAL)),
        code: word(store, number, Record::CODE),
    }
}

#[tactic(auto, unfolding(crate::specs::Hit::conformer_of, machine::specs::Record::fields_of))]
pub fn conformer_at(store: &[u64], number: u64) -> ConformerRec
    ensures { result ≡ conformer_of store.now number }
{
    ConformerRec {
        name: word(store, number, Record::CONFORMER_NAME),
        location: word(store, number, Record::LOCATION),
    }
}

#[tactic(auto, unfolding(crate::specs::Hit::atom_of, machine::specs::Record::fields_of, machine::specs::Record::read_out))]
pub fn atom_at(store: &[u64], number: u64) -> AtomRec
    ensures { result ≡ atom_of store.now number }
{
    let count = store.len() / Record::WIDTH;
    let n = number as usize;
    if n < count {
        return records::read_atom(store, n);
    }
    let none = [0u64; Record::WIDTH];
    records::read_atom(&none, 0)
}

#[tactic(auto, unfolding(crate::specs::Hit::is_kind))]
fn is_kind(store: &[u64], number: u64, kind: u64) -> bool
    ensures { result ≡ is_kind store.now number kind }
{
    word(store, number, Record::KIND) == kind
}

#[tactic(auto, unfolding(crate::specs::Hit::are_kinds))]
fn are_kinds(store: &[u64], at: RecordNumbers) -> bool
    ensures { result ≡ are_kinds store.now at }
{
    let above = is_kind(store, at.model, Record::MODEL) & is_kind(store, at.chain, Record::CHAIN);
    let below = is_kind(store, at.residue, Record::RESIDUE)
        & is_kind(store, at.conformer, Record::CONFORMER);
    above & below & is_kind(store, at.atom, Record::ATOM)
}

// Whether five numbers are those of records of the five kinds. That each stands under the one before is not looked at.
#[tactic(auto, unfolding(crate::specs::Hit::named_by))]
pub fn by_numbers(store: &[u64], at: RecordNumbers) -> Option<RecordNumbers>
    ensures { result ≡ named_by store.now at }
{
    if are_kinds(store, at) { Some(at) } else { None }
}

// The i-th hit of an output.
#[tactic(auto, unfolding(crate::specs::Hit::nth_of))]
pub fn nth(store: &[u64], out: &[u64], i: u64) -> Option<RecordNumbers>
    ensures { result ≡ nth_of store.now out.now i }
{
    let hits = out.len() / 5;
    let n = i as usize;
    if n < hits {
        let first = n * 5;
        by_numbers(
            store,
            RecordNumbers {
                model: out[first],
                chain: out[first + 1],
                residue: out[first + 2],
                conformer: out[first + 3],
                atom: out[first + 4],
            },
        )
    } else {
        None
    }
}

// ---- hits

impl<'a> Hit<'a> {
    pub fn new(store: &'a [u64], at: RecordNumbers) -> Hit<'a>
        ensures { result ≡ hit_of store.entry at }
    {
        Hit {
            store,
            model: at.model,
            chain: at.chain,
            residue: at.residue,
            conformer: at.conformer,
            atom: at.atom,
        }
    }

    pub fn model(self) -> ModelRec
        ensures { result ≡ model_of self.entry.store.now self.entry.model }
    {
        model_at(self.store, self.model)
    }

    pub fn chain(self) -> ChainRec
        ensures { result ≡ chain_of self.entry.store.now self.entry.chain }
    {
        chain_at(self.store, self.chain)
    }

    pub fn residue(self) -> ResidueRec
        ensures { result ≡ residue_of self.entry.store.now self.entry.residue }
    {
        residue_at(self.store, self.residue)
    }

    pub fn conformer(self) -> ConformerRec
        ensures { result ≡ conformer_of self.entry.store.now self.entry.conformer }
    {
        conformer_at(self.store, self.conformer)
    }

    pub fn atom(self) -> AtomRec
        ensures { result ≡ atom_of self.entry.store.now self.entry.atom }
    {
        atom_at(self.store, self.atom)
    }
}
