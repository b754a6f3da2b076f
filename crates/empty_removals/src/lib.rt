// What goes out of a model: its branches without atoms, and records that a compaction leaves out.
#![tactic(auto)]

ghost use Rattle.std.specs.Prelude.{◌≡◌, ◌++◌, ◌≤◌, ◌<◌, length, take, drop};
ghost use Rattle.machine.specs.Answer.{edited_numbers};
ghost use Rattle.machine.specs.Store.{laid, records_of};
ghost use Rattle.machine.specs.Edit.{remove_empty, step_by};
ghost use Rattle.laws.specs.Grouped.{concat};
ghost use Rattle.seek.specs.Seek.{Good, Within, record_at, records_in};
ghost use Rattle.empty_removals.specs.Prune.{Laid, stays, Gathered};

use machine::{Edited, Record, Refusal};

// The records from `to` up to `end` go: those after them move down, zeros fill what that leaves, and the trailer follows.
pub fn close_gap(store: &mut [u64], to: usize, end: usize)
    requires laid { Laid store.old }
    requires to_le_end { (to ≤ end) × (end ≤ length (records_of store.old)) }
    ensures { store.new
        ≡ laid (length store.old) (concat (take to (records_of store.old) ++ drop end (records_of store.old))) }
{
    if to == end {
        return;
    }
    let last = store.len() - 1;
    let count = store[last] as usize / Record::WIDTH;
    moves::remove_words(
        store,
        to * Record::WIDTH,
        end * Record::WIDTH,
        count * Record::WIDTH,
    );
    store[last] = ((count - (end - to)) * Record::WIDTH) as u64;
}

// Whether a record stays, where those that stay after it start at `to`: an atom does, and one that the first of them is below.
fn stays(store: &[u64], at: usize, to: usize, end: usize) -> bool
    requires { (at < end) × Within to end store.now }
    ensures { result ≡ stays (record_at at store.now) (records_in to end store.now) }
{
    let kind = store[at * Record::WIDTH];
    if kind == Record::ATOM {
        return true;
    }
    if to == end {
        return false;
    }
    kind < store[to * Record::WIDTH]
}

// Of the records from `from` up to `end` those that stay move up, so that they end at `end`. The answer is where they start.
// From the last to the first: a record comes after all that could keep it, so one pass serves the three levels.
fn gather(store: &mut [u64], from: usize, end: usize) -> usize
    requires { Within from end store.old }
    ensures { Gathered from end store.old result store.new }
{
    let mut to = end;
    for at in (from..end).rev() {
        if stays(store, at, to, end) {
            to -= 1;
            moves::move_record(store, at * Record::WIDTH, to * Record::WIDTH);
        }
    }
    to
}

// Conformers without atoms go, then residues without conformers, then chains without residues, of a model. No atom does.
pub fn remove_empty(store: &mut [u64], model: u64) -> Result<Edited, Refusal>
    requires { Good store.old }
    ensures { (edited_numbers result, store.new) ≡ step_by store.old (remove_empty model) }
{
    let position = [model];
    let (start, end) = seek::locate(store, &position)?;
    let below = start + 1;
    let first = gather(store, below, end);
    close_gap(store, below, first);
    Ok(Edited {
        found: 1,
        removed: 0,
    })
}
