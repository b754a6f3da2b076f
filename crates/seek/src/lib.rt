// Where records stand in a store that is known to be good. A record's number is its word index / 12.
#![tactic(auto)]

ghost use Rattle.std.specs.Prelude.{◌≡◌, ◌+◌, ◌*◌, ◌≤◌, length};
ghost use Rattle.machine.specs.Answer as Answer;
ghost use Rattle.machine.specs.Store.{records};
ghost use Rattle.seek.specs.Seek.{Good, Within, held, records_in, descendants, child_start, child_span, atom_records, part_of, span, five_numbers};

use machine::{Record, RecordNumbers, Refusal};

// The records below a position: their numbers from `from` up to `end`, and the `depth` records above them, whose numbers are the first of `path`.
#[derive(Clone, Copy)]
pub struct Part {
    pub from: usize,
    pub end: usize,
    pub depth: u64,
    pub path: RecordNumbers,
}

// The first record of the kind or of a lower one, from `from` on; `end` where there is none before it.
pub fn end_of(store: &[u64], from: usize, end: usize, kind: u64) -> usize
    requires { Within from end store.now }
    ensures { result ≡ from + descendants kind (records_in from end store.now) }
{
    for at in from..end {
        if store[at * Record::WIDTH] <= kind {
            return at;
        }
    }
    end
}

// The index-th record of a kind among the records from `from` up to `end`, before one of a lower kind.
fn start_of(store: &[u64], from: usize, end: usize, kind: u64, index: u64) -> Option<usize>
    requires { Within from end store.now }
    ensures { result ≡ child_start kind index from (records_in from end store.now) }
{
    let mut left = index;
    for at in from..end {
        let k = store[at * Record::WIDTH];
        if k < kind {
            return None;
        }
        if k == kind {
            if left == 0 {
                return Some(at);
            }
            left -= 1;
        }
    }
    None
}

// That record, and the number after that of its last descendant.
pub fn child(
    store: &[u64],
    from: usize,
    end: usize,
    kind: u64,
    index: u64,
) -> Option<(usize, usize)>
    requires { Within from end store.now }
    ensures { result ≡ child_span kind index from (records_in from end store.now) }
{
    let at = start_of(store, from, end, kind, index)?;
    Some((at, end_of(store, at + 1, end, kind)))
}

// How many records a store has.
pub fn record_count(store: &[u64]) -> usize
    requires { Good store.now }
    ensures { result ≡ length (records (held store.now)) }
{
    store[store.len() - 1] as usize / Record::WIDTH
}

// Five numbers, from the model's down.
fn numbers(l: [u64; 5]) -> RecordNumbers
    ensures { result ≡ five_numbers l }
{
    RecordNumbers {
        model: l[0],
        chain: l[1],
        residue: l[2],
        conformer: l[3],
        atom: l[4],
    }
}

// The records below a position of none to five indexes. With no index they are all, and no record is looked at; else each is passed once at most.
pub fn follow(store: &[u64], position: &[u64]) -> Option<Part>
    requires good { Good store.now }
    requires position_len_bound { length position.now ≤ 5 }
    ensures { result ≡ part_of position.now (held store.now) }
{
    let count = record_count(store);
    let mut path: [u64; 5] = [0; 5];
    if position.len() == 0 {
        return Some(Part {
            from: 0,
            end: count,
            depth: 0,
            path: numbers(path),
        });
    }
    let mut at: usize = 0;
    for (level, index) in position.iter().enumerate() {
        let number = start_of(store, at, count, level as u64 + 1, *index)?;
        path[level] = number as u64;
        at = number + 1;
    }
    let depth = position.len() as u64;
    let end = end_of(store, at, count, depth);
    Some(Part {
        from: at,
        end,
        depth,
        path: numbers(path),
    })
}

// The branch at a position of one to five indexes: the number of its first record, and the number after that of its last. "5 no such position"
pub fn locate(store: &[u64], position: &[u64]) -> Result<(usize, usize), Refusal>
    requires good { Good store.now }
    requires in_bounds { (1 ≤ length position.now) × (length position.now ≤ 5) }
    ensures { result ≡ Answer.position (span position.now (held store.now)) }
{
    let part = follow(store, position).ok_or(Refusal::NoPosition)?;
    Ok((part.from - 1, part.end))
}

// How many of the records from `from` up to `end` are atoms.
pub fn atoms_in(store: &[u64], from: usize, end: usize) -> usize
    requires { Within from end store.now }
    ensures { result ≡ atom_records (records_in from end store.now) }
{
    let mut atoms: usize = 0;
    for at in from..end {
        if store[at * Record::WIDTH] == Record::ATOM {
            atoms += 1;
        }
    }
    atoms
}
