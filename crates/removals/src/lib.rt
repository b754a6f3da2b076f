// Removals in place from a store that is known to be good (document 01, "Edits"): by position, and of the first by id.
#![tactic(auto)]

ghost use Rattle.std.specs.Prelude.{◌≡◌, ◌+◌, ◌≤◌, length};
ghost use Rattle.machine.specs.Answer.{edited_numbers};
ghost use Rattle.machine.specs.Edit.{step_by};
ghost use Rattle.seek.specs.Seek.{Good, Within, records_in, atom_records};
ghost use Rattle.removals.specs.Removal.{Removable, without_records, removal};
ghost use Rattle.removals.specs.Named.{id_of, is_named, sought, count_before, bad_flag, first_removal, chain_by_id, residue_by_id, conformer_by_id, atom_by_serial_number};

use machine::{Edited, Name, Record, Refusal};

// The records from number p up to q go, and the trailer is set: how many atoms went.
pub fn remove_span(store: &mut [u64], p: usize, q: usize) -> u64
    requires { Removable p q store.old }
    ensures removed { result ≡ atom_records (records_in p q store.old) }
    ensures store_after { store.new ≡ without_records p q store.old }
{
    let last = store.len() - 1;
    let end = store[last] as usize;
    let records = q - p;
    let atoms = seek::atoms_in(store, p, q);
    moves::remove_words(store, Record::WIDTH * p, Record::WIDTH * q, end);
    store[last] = (end - Record::WIDTH * records) as u64;
    atoms as u64
}

// "Remove by position": two indexes for a chain, five for an atom.
pub fn remove_at(store: &mut [u64], position: &[u64]) -> Result<Edited, Refusal>
    requires good { Good store.old }
    requires in_bounds { (2 ≤ length position.now) × (length position.now ≤ 5) }
    ensures { (edited_numbers result, store.new) ≡ step_by store.old (removal position.now) }
{
    let (p, q) = seek::locate(store, position)?;
    Ok(Edited {
        found: 1,
        removed: remove_span(store, p, q),
    })
}

// ---- by id

// Whether words 1 and 2 of a record are those of an id: chains and conformers have a name first, residues and atoms a serial
// number; a residue's code and a conformer's location are the other text. What the kind has not isn't read.
fn is_named(
    kind: u64,
    one: u64,
    two: u64,
    serial: u64,
    name: &[u8],
    flag: u64,
    other: &[u8],
) -> bool
    ensures { result ≡ is_named kind (id_of serial name.now flag other.now) one two }
{
    if kind == Record::CHAIN {
        return stored::same_text(name, one);
    }
    if kind == Record::CONFORMER {
        if stored::same_text(name, one) {
            return stored::same_optional(flag, other, two);
        }
        return false;
    }
    if one == serial {
        if kind == Record::RESIDUE {
            return stored::same_optional(flag, other, two);
        }
        return true;
    }
    false
}

// The first record of the kind that the id names, from `from` on; `end` where there is none before it.
fn first_named(
    store: &[u64],
    from: usize,
    end: usize,
    kind: u64,
    serial: u64,
    name: &[u8],
    flag: u64,
    other: &[u8],
) -> usize
    requires { Within from end store.now }
    ensures { result ≡ from + count_before (sought kind (id_of serial name.now flag other.now))
        (records_in from end store.now) }
{
    for at in from..end {
        let word = at * Record::WIDTH;
        if store[word] == kind
            && is_named(
                kind,
                store[word + Record::FIRST],
                store[word + Record::SECOND],
                serial,
                name,
                flag,
                other,
            )
        {
            return at;
        }
    }
    end
}

// A residue's id has a flag for its code, a conformer's one for its location.
fn bad_flag(kind: u64) -> Refusal
    ensures { result ≡ bad_flag kind }
{
    if kind == Record::RESIDUE {
        return Name::InsertionCode.into();
    }
    Name::AlternativeLocation.into()
}

// "Remove the first by id within its parent": the parent's position has one index for a model, four for a conformer.
fn remove_first(
    store: &mut [u64],
    position: &[u64],
    serial: u64,
    name: &[u8],
    flag: u64,
    other: &[u8],
) -> Result<Edited, Refusal>
    requires good { Good store.old }
    requires in_bounds { (1 ≤ length position.now) × (length position.now ≤ 4) }
    ensures { (edited_numbers result, store.new)
        ≡ step_by store.old (first_removal position.now (id_of serial name.now flag other.now)) }
{
    let (p, q) = seek::locate(store, position)?;
    let kind = position.len() as u64 + 1;
    if 1 < flag {
        return Err(bad_flag(kind));
    }
    let at = first_named(store, p + 1, q, kind, serial, name, flag, other);
    if q <= at {
        return Ok(Edited {
            found: 0,
            removed: 0,
        });
    }
    let stop = seek::end_of(store, at + 1, q, kind);
    Ok(Edited {
        found: 1,
        removed: remove_span(store, at, stop),
    })
}

// The four calls. A text is compared as given, and the parts of an id that a call has not are passed as 0 or as a text that isn't
// read. "None found: found 0", and nothing changes.

pub fn remove_chain_by_id(store: &mut [u64], model: u64, id: &[u8]) -> Result<Edited, Refusal>
    requires { Good store.old }
    ensures { (edited_numbers result, store.new) ≡ step_by store.old (chain_by_id model id.now) }
{
    let position = [model];
    remove_first(store, &position, 0, id, 0, id)
}

pub fn remove_residue_by_id(
    store: &mut [u64],
    model: u64,
    chain: u64,
    serial: u64,
    flag: u64,
    code: &[u8],
) -> Result<Edited, Refusal>
    requires { Good store.old }
    ensures { (edited_numbers result, store.new)
        ≡ step_by store.old (residue_by_id model chain serial (record { flag = flag; text = code.now })) }
{
    let position = [model, chain];
    remove_first(store, &position, serial, code, flag, code)
}

pub fn remove_conformer_by_id(
    store: &mut [u64],
    model: u64,
    chain: u64,
    residue: u64,
    name: &[u8],
    flag: u64,
    location: &[u8],
) -> Result<Edited, Refusal>
    requires { Good store.old }
    ensures { (edited_numbers result, store.new)
        ≡ step_by store.old (conformer_by_id model chain residue name.now (record { flag = flag; text = location.now })) }
{
    let position = [model, chain, residue];
    remove_first(store, &position, 0, name, flag, location)
}

pub fn remove_atom_by_serial_number(
    store: &mut [u64],
    model: u64,
    chain: u64,
    residue: u64,
    conformer: u64,
    serial: u64,
) -> Result<Edited, Refusal>
    requires { Good store.old }
    ensures { (edited_numbers result, store.new) ≡ step_by store.old (atom_by_serial_number model chain residue conformer serial) }
{
    let position = [model, chain, residue, conformer];
    remove_first(store, &position, serial, b"", 0, b"")
}
