// The store (document 01, "Store"): its layout check, and opening.
#![tactic(auto)]

ghost use Rattle.std.specs.Prelude.{◌≡◌, cond, ◌+◌, ◌*◌, ◌/◌, ◌%◌, ◌≤◌, length, eqb};
ghost use Rattle.machine.specs.Lists.{all};
ghost use Rattle.machine.specs.Answer.{opened_numbers};
ghost use Rattle.machine.specs.Store.{chunks, read_store, open_run};
ghost use Rattle.store.specs.Store.{checked_by, counted, trailing_atoms};

use machine::{Record, Refusal};

// Where the good atoms that stand last before word `to` begin. Nearly all records are passed here.
fn atoms_start(store: &[u64], to: usize) -> usize
    requires { (to ≤ length store.now) × (to % 12 ≡ 0) }
    ensures { result + 12 * trailing_atoms (to / 12) store.now ≡ to }
{
    let mut at = to;
    while 0 < at {
        if records::good_atom(&store[at - Record::WIDTH..at]) {
            at -= Record::WIDTH;
        } else {
            return at;
        }
    }
    at
}

// The kind of the record that follows, past a run of atoms of that many words.
fn following(next: u64, run: usize) -> u64
    ensures { result ≡ cond (eqb run 0) next 5 }
{
    if run == 0 {
        return next;
    }
    Record::ATOM
}

// "The first kind is 1; each later kind is 1 to 5 and at most the previous plus 1." From the last record to the first: what is read
// last here is what a search reads first. Past a run of good atoms, an atom is a bad one. The atoms are counted on the way.
fn check_records(store: &[u64], end: usize) -> Result<u64, Refusal>
    requires { (end ≤ length store.now) × (end % 12 ≡ 0) }
    ensures { result ≡ counted (chunks (end / 12) store.now) }
{
    let mut at = end;
    let mut next: u64 = 0;
    let mut atoms: u64 = 0;
    while 0 < at {
        let from = atoms_start(store, at);
        if from == 0 {
            return Err(Refusal::BrokenLayout);
        }
        let k = store[from - Record::WIDTH];
        if Record::CONFORMER < k {
            return Err(Refusal::BrokenLayout);
        }
        if k + 1 < following(next, at - from) {
            return Err(Refusal::BrokenLayout);
        }
        if records::good_record(&store[from - Record::WIDTH..from]) {
            atoms += ((at - from) / Record::WIDTH) as u64;
            next = k;
            at = from - Record::WIDTH;
        } else {
            return Err(Refusal::BrokenLayout);
        }
    }
    if Record::MODEL < next {
        return Err(Refusal::BrokenLayout);
    }
    Ok(atoms)
}

fn all_zero(s: &[u64]) -> bool
    ensures { result ≡ all (eqb 0) s.now }
{
    s.iter().all(|word| *word == 0)
}

// How many atoms a store holds, in one pass over its words, or why it is none: 1 bad length; 2 layout broken.
pub fn check(store: &[u64]) -> Result<u64, Refusal>
    ensures { result ≡ checked_by (read_store store.now) }
{
    let n = store.len();
    if n < 1 {
        return Err(Refusal::BadLength);
    }
    if 1200001 < n {
        return Err(Refusal::BadLength);
    }
    let last = n - 1;
    let end = store[last] as usize;
    if last < end {
        return Err(Refusal::BrokenLayout);
    }
    if end % Record::WIDTH != 0 {
        return Err(Refusal::BrokenLayout);
    }
    if all_zero(&store[end..last]) {
        check_records(store, end)
    } else {
        Err(Refusal::BrokenLayout)
    }
}

// Opening sets every word to 0, and refuses only with 1.
pub fn open(store: &mut [u64]) -> Result<(), Refusal>
    ensures { (opened_numbers result, store.new) ≡ open_run store.old }
{
    let n = store.len();
    if n < 1 {
        return Err(Refusal::BadLength);
    }
    if 1200001 < n {
        return Err(Refusal::BadLength);
    }
    moves::clear(store, 0, n);
    Ok(())
}
