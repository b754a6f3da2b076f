// Removals and joins by a position of any length.
ghost use Rattle.std.specs.Prelude.{◌≡◌, ◌≤◌, length};
ghost use Rattle.machine.specs.Answer.{edited_numbers};
ghost use Rattle.machine.specs.Edit.{step_by};
ghost use Rattle.removals.specs.Removal.{removal};
ghost use Rattle.joins.specs.Join.{join};

use machine::{Edited, Refusal};

pub fn remove_at(store: &mut [u64], position: &[u64]) -> Result<Edited, Refusal>
    requires { (2 ≤ length position.now) × (length position.now ≤ 5) }
    ensures { (edited_numbers result, store.new) ≡ step_by store.old (removal position.now) }
{
    store::check(store)?;
    removals::remove_at(store, position)
}

pub fn join_at(store: &mut [u64], first: &[u64], second: &[u64]) -> Result<Edited, Refusal>
    requires { (1 ≤ length first.now) × (length first.now ≤ 4) × (length first.now ≡ length second.now) }
    ensures { (edited_numbers result, store.new) ≡ step_by store.old (join first.now second.now) }
{
    store::check(store)?;
    joins::join_at(store, first, second)
}
