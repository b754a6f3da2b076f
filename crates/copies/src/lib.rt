// A store copied into other words, so that it gets room for more records.
#![tactic(auto, using(crate::proofs::Laws::answered))]

ghost use Rattle.std.specs.Prelude.{◌≡◌, ◌<◌, length, take};
ghost use Rattle.machine.specs.Answer.{opened_numbers};
ghost use Rattle.machine.specs.Store.{laid};
ghost use Rattle.seek.specs.Seek.{held, Good};
ghost use Rattle.copies.specs.Copy.{room, copied_into, copy_run};

use machine::{Record, Refusal};

// After the words up to `end` zeros, then the trailer.
fn end_at(to: &mut [u64], end: usize)
    requires { end < length to.old }
    ensures { to.new ≡ laid (length to.old) (take end to.old) }
{
    let last = to.len() - 1;
    moves::clear(to, end, last - end);
    to[last] = end as u64;
}

fn lay_out(words: &[u64], to: &mut [u64])
    requires { length words.now < length to.old }
    ensures { to.new ≡ laid (length to.old) words.now }
{
    moves::write_over(to, 0, words);
    end_at(to, words.len());
}

// From a store that was checked.
fn copy_good(from: &[u64], to: &mut [u64]) -> Result<(), Refusal>
    requires { Good from.now }
    ensures { (opened_numbers result, to.new) ≡ copied_into to.old (room (length to.old) (held from.now)) }
{
    let n = to.len();
    if n < 1 || 1200001 < n {
        return Err(Refusal::BadLength);
    }
    let count = seek::record_count(from);
    if (n - 1) / Record::WIDTH < count {
        return Err(Refusal::NoCapacity);
    }
    lay_out(&from[..count * Record::WIDTH], to);
    Ok(())
}

// Whatever `to` held before, it then holds the structure of `from`.
pub fn copy(from: &[u64], to: &mut [u64]) -> Result<(), Refusal>
    ensures { (opened_numbers result, to.new) ≡ copy_run from.now to.old }
{
    store::check(from)?;
    copy_good(from, to)
}
