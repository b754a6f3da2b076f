// Serial lookup in a store that is known to be good (document 01, "Serial lookup"). Levels count from the atom, 0, up to the
// chain, 3.
#![tactic(auto)]

ghost use Rattle.std.specs.Prelude.{◌≡◌, ◌+◌, eqb};
ghost use Rattle.machine.specs.Lists.{any, last_of};
ghost use Rattle.machine.specs.Answer.{looked_up_numbers};
ghost use Rattle.machine.specs.Text.{optional_of};
ghost use Rattle.machine.specs.Lookup.{spans};
ghost use Rattle.seek.specs.Seek.{Good, Within, held, record_at, records_in};
ghost use Rattle.lookup.specs.Level.{lookup_numbers, Level, span_wanted, atom_serials, wanted_records};

use machine::{Name, Record, RecordNumbers, Refusal};

// The serial of the last atom among the records from `from` up to `end`; `first` where there is none.
fn last_serial(store: &[u64], from: usize, end: usize, first: u64) -> u64
    requires { Within from end store.now }
    ensures { result ≡ last_of first (atom_serials (records_in from end store.now)) }
{
    for at in (from..end).rev() {
        let word = at * Record::WIDTH;
        if store[word] == Record::ATOM {
            return store[word + Record::SERIAL];
        }
    }
    first
}

// "With atoms whose first to last serial spans the number".
fn spans_serial(store: &[u64], from: usize, end: usize, serial: u64) -> bool
    requires { Within from end store.now }
    ensures { result ≡ spans serial (atom_serials (records_in from end store.now)) }
{
    for at in from..end {
        let word = at * Record::WIDTH;
        if store[word] == Record::ATOM {
            let first = store[word + Record::SERIAL];
            if serial < first {
                return false;
            }
            return serial <= last_serial(store, at + 1, end, first);
        }
    }
    false
}

// Whether an atom among the records has the serial.
fn has_serial(store: &[u64], from: usize, end: usize, serial: u64) -> bool
    requires { Within from end store.now }
    ensures { result ≡ any (eqb serial) (atom_serials (records_in from end store.now)) }
{
    for at in from..end {
        let word = at * Record::WIDTH;
        if store[word] == Record::ATOM && serial == store[word + Record::SERIAL] {
            return true;
        }
    }
    false
}

// Whether the lookup takes the branch of a level whose records are those from `at` up to `stop`.
fn is_wanted(
    store: &[u64],
    at: usize,
    stop: usize,
    level: u64,
    serial: u64,
    flag: u64,
    location: &[u8],
) -> bool
    requires { Within (at + 1) stop store.now }
    ensures { result ≡ wanted_records level serial (optional_of flag location.now) (record_at at store.now)
        (records_in (at + 1) stop store.now) }
{
    let word = at * Record::WIDTH;
    if level == 0 {
        return serial == store[word + Record::SERIAL];
    }
    if level == 1 {
        if stored::same_optional(flag, location, store[word + Record::LOCATION]) {
            if spans_serial(store, at + 1, stop, serial) {
                return has_serial(store, at + 1, stop, serial);
            }
        }
        return false;
    }
    spans_serial(store, at + 1, stop, serial)
}

// The first branch of a level that the lookup takes, of those below the record `parent`, which end at `end`. Each of their records
// is passed twice at most, and a conformer's atoms once more.
fn first_in(
    store: &[u64],
    parent: usize,
    end: usize,
    level: u64,
    serial: u64,
    flag: u64,
    location: &[u8],
) -> Option<(usize, usize)>
    requires { Level level (parent + 1) end store.now }
    ensures { result ≡ span_wanted level serial (optional_of flag location.now) (parent + 1) end store.now }
{
    let mut at: usize = parent + 1;
    while at < end {
        let stop = seek::end_of(store, at + 1, end, Record::ATOM - level);
        if is_wanted(store, at, stop, level, serial, flag, location) {
            return Some((at, stop));
        }
        at = stop;
    }
    None
}

// "In the first model: the first chain ..; in it the first such residue; in it the first conformer ..; its first such atom. Else
// none." There is no going back: what a level takes is all that the next looks into.
pub fn binary_find_atom(
    store: &[u64],
    serial: u64,
    flag: u64,
    location: &[u8],
) -> Result<Option<RecordNumbers>, Refusal>
    requires { Good store.now }
    ensures { looked_up_numbers result ≡ lookup_numbers serial (optional_of flag location.now) (held store.now) }
{
    if 1 < flag {
        return Err(Name::AlternativeLocation.into());
    }
    let count = seek::record_count(store);
    if count == 0 {
        return Ok(None);
    }
    let end = seek::end_of(store, 1, count, Record::MODEL);
    let Some((chain, end)) = first_in(store, 0, end, 3, serial, flag, location) else {
        return Ok(None);
    };
    let Some((residue, end)) = first_in(store, chain, end, 2, serial, flag, location) else {
        return Ok(None);
    };
    let Some((conformer, end)) = first_in(store, residue, end, 1, serial, flag, location) else {
        return Ok(None);
    };
    let Some((atom, _)) = first_in(store, conformer, end, 0, serial, flag, location) else {
        return Ok(None);
    };
    Ok(Some(RecordNumbers {
        model: 0,
        chain: chain as u64,
        residue: residue as u64,
        conformer: conformer as u64,
        atom: atom as u64,
    }))
}
