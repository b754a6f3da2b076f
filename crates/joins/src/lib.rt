// The four joins of document 01, "Edits", on a store that is known to be good, in place.
#![tactic(auto)]

ghost use Rattle.std.specs.Prelude.{◌≡◌, ◌≤◌, length};
ghost use Rattle.machine.specs.Answer.{edited_numbers};
ghost use Rattle.machine.specs.Store.{records, laid};
ghost use Rattle.machine.specs.Edit.{step_by};
ghost use Rattle.laws.specs.Grouped.{concat};
ghost use Rattle.seek.specs.Seek.{Good, held};
ghost use Rattle.joins.specs.Join.{join, cut_turned, Turns};

use machine::{Edited, Record, Refusal};

// The record `gone` goes; then the records from a to m and those from m to b change places.
fn cut_turn(store: &mut [u64], gone: usize, a: usize, m: usize, b: usize)
    requires { Turns store.old gone a m b }
    ensures { store.new ≡ laid (length store.old) (concat (cut_turned gone a m b (records (held store.old)))) }
{
    let trailer = store.len() - 1;
    let count = seek::record_count(store);
    moves::remove_words(
        store,
        Record::WIDTH * gone,
        Record::WIDTH * (gone + 1),
        Record::WIDTH * count,
    );
    store[trailer] = (Record::WIDTH * (count - 1)) as u64;
    moves::rotate(
        store,
        Record::WIDTH * a,
        Record::WIDTH * m,
        Record::WIDTH * b,
    );
}

// The children of the branch at `second` are put after those of the branch at `first`, and the record at `second` goes.
// The positions' length gives the level: one index for models, four for conformers.
pub fn join_at(store: &mut [u64], first: &[u64], second: &[u64]) -> Result<Edited, Refusal>
    requires good { Good store.old }
    requires in_bounds { (1 ≤ length first.now) × (length first.now ≤ 4) × (length first.now ≡ length second.now) }
    ensures { (edited_numbers result, store.new) ≡ step_by store.old (join first.now second.now) }
{
    let (start, end) = seek::locate(store, first)?;
    let (from, to) = seek::locate(store, second)?;
    if start == from {
        return Err(Refusal::JoinWithItself);
    }
    if start < from {
        cut_turn(store, from, end, from, to - 1);
        return Ok(Edited {
            found: 1,
            removed: 0,
        });
    }
    cut_turn(store, from, from, to - 1, end - 1);
    Ok(Edited {
        found: 1,
        removed: 0,
    })
}
