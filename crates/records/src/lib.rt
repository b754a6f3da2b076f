// One record of a store (document 01, "Store"): whether its twelve words are good, and an atom read out.
#![tactic(auto)]

ghost use Rattle.std.specs.Prelude.{◌≡◌, zero, ◌+◌, ◌-◌, ◌*◌, ◌≤◌, length, take, drop, replicate};
ghost use Rattle.machine.specs.Lists.{all, same};
ghost use Rattle.machine.specs.Record.{kind, finite, fields_of, good_record, read_out};

use elements::Element;
use machine::{AtomRec, Record};

// Words not named are 0: those from 3 on, in a record above the atoms.
fn unnamed_zero(r: &[u64]) -> bool
    requires { length r.now ≡ 12 }
    ensures { result ≡ same (drop 3 r.now) (replicate 9 0) }
{
    (r[3] == 0)
        & (r[4] == 0)
        & (r[5] == 0)
        & (r[6] == 0)
        & (r[7] == 0)
        & (r[8] == 0)
        & (r[9] == 0)
        & (r[10] == 0)
        & (r[11] == 0)
}

// An atom's five floats are finite.
fn finite_words(r: &[u64]) -> bool
    requires { length r.now ≡ 12 }
    ensures { result ≡ all finite (take 5 (drop 3 r.now)) }
{
    floats::is_finite(r[Record::X])
        & floats::is_finite(r[Record::Y])
        & floats::is_finite(r[Record::Z])
        & floats::is_finite(r[Record::OCCUPANCY])
        & floats::is_finite(r[Record::B_FACTOR])
}

// An atom's record. Element is 1 to 118 or 0, hetero 0 or 1, and word 11 is not named. The name is tested before the other words
// are read, which would have to be kept meanwhile.
pub fn good_atom(r: &[u64]) -> bool
    requires { length r.now ≡ 12 }
    ensures { result ≡ good_record 0 r.now }
{
    let named = stored::stored_atom_name(r[Record::ATOM_NAME]);
    (r[Record::KIND] == Record::ATOM)
        & (r[11] == 0)
        & named
        & finite_words(r)
        & Element::is_stored(r[Record::ELEMENT])
        & (r[Record::HETERO] <= 1)
}

// Whether twelve words are a good record of the kind that word 0 gives, above the atoms.
pub fn good_record(r: &[u64]) -> bool
    requires { (length r.now ≡ 12) × (kind r.now ≤ 4) }
    ensures { result ≡ good_record (5 - kind r.now) r.now }
{
    match r[Record::KIND] {
        Record::CONFORMER => {
            unnamed_zero(r)
                & stored::stored_name(r[Record::CONFORMER_NAME])
                & stored::stored_location(r[Record::LOCATION])
        }
        Record::RESIDUE => unnamed_zero(r) & stored::stored_code(r[Record::CODE]),
        Record::CHAIN => {
            (r[Record::SECOND] == 0)
                & unnamed_zero(r)
                & stored::stored_chain_id(r[Record::CHAIN_ID])
        }
        Record::MODEL => (r[Record::SECOND] == 0) & unnamed_zero(r),
        _ => false,
    }
}

// The atom at a record number, read out as its floats and numbers.
pub fn read_atom(store: &[u64], record: usize) -> AtomRec
    requires { («record» + 1) * 12 ≤ length store.now }
    ensures { result ≡ read_out (fields_of zero (take 12 (drop («record» * 12) store.now))) }
{
    let at = record * Record::WIDTH;
    let r = &store[at..at + Record::WIDTH];
    AtomRec {
        serial: r[Record::SERIAL],
        name: r[Record::ATOM_NAME],
        x: floats::float_of(r[Record::X]),
        y: floats::float_of(r[Record::Y]),
        z: floats::float_of(r[Record::Z]),
        occupancy: floats::float_of(r[Record::OCCUPANCY]),
        b_factor: floats::float_of(r[Record::B_FACTOR]),
        element: r[Record::ELEMENT],
        charge: floats::int_of(r[Record::CHARGE]),
        hetero: r[Record::HETERO] == 1,
    }
}
