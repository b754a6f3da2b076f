// Words moved, cleared and exchanged inside a lent slice, in place.
#![tactic(auto, using(crate::proofs::Returns::returned))]

ghost use Rattle.std.specs.Prelude.{◌≡◌, ◌+◌, ◌≤◌, length, take, drop, replicate};
ghost use Rattle.moves.specs.Over.{over, taken_out, gapped, rotated};

use machine::Record;

// The elements of `from` are written over those at `at`. Not by `copy_from_slice`: it asks the C library for `memmove`, which the archive
// for C then needs from outside.
pub fn write_over<T: Copy>(s: &mut [T], at: usize, from: &[T])
    requires { at + length from.now ≤ length s.old }
    ensures { s.new ≡ over at from.now s.old }
{
    for (i, x) in from.iter().enumerate() {
        s[at + i] = *x;
    }
}

// The n words from `from` go to `to`, which may be on either side, also where the two places overlap.
pub fn move_words(s: &mut [u64], from: usize, to: usize, n: usize)
    requires { (from + n ≤ length s.old) × (to + n ≤ length s.old) }
    ensures { s.new ≡ over to (take n (drop from s.old)) s.old }
{
    s.copy_within(from..from + n, to);
}

// The n words from `from` become zeros.
pub fn clear(s: &mut [u64], from: usize, n: usize)
    requires { from + n ≤ length s.old }
    ensures { s.new ≡ over from (replicate n 0) s.old }
{
    s[from..from + n].fill(0);
}

// One record goes to `to`, unless it stands there already. Inlined, since a compaction does it for each record that it keeps.
#[inline(always)]
pub fn move_record(s: &mut [u64], from: usize, to: usize)
    requires { (from + 12 ≤ length s.old) × (to + 12 ≤ length s.old) }
    ensures { s.new ≡ over to (take 12 (drop from s.old)) s.old }
{
    if from != to {
        move_words(s, from, to, Record::WIDTH);
    }
}

// The words from `from` to `to` go, those up to `end` move down, and zeros fill what that leaves below `end`.
pub fn remove_words(s: &mut [u64], from: usize, to: usize, end: usize)
    requires { (from ≤ to) × (to ≤ end) × (end ≤ length s.old) }
    ensures { s.new ≡ taken_out from to end s.old }
{
    move_words(s, to, from, end - to);
    clear(s, from + (end - to), to - from);
}

// The words from `at` to `end` move up by n, and zeros fill the gap.
pub fn insert_gap(s: &mut [u64], at: usize, n: usize, end: usize)
    requires { (at ≤ end) × (end + n ≤ length s.old) }
    ensures { s.new ≡ gapped at n end s.old }
{
    move_words(s, at, at + n, end - at);
    clear(s, at, n);
}

// The words from a to m and those from m to b exchange places: reversed each, and then together. `rotate_left` takes less time, and lays
// four KiB on the stack, which a caller in C may not have.
pub fn rotate(s: &mut [u64], a: usize, m: usize, b: usize)
    requires { (a ≤ m) × (m ≤ b) × (b ≤ length s.old) }
    ensures { s.new ≡ rotated a m b s.old }
{
    s[a..m].reverse();
    s[m..b].reverse();
    s[a..b].reverse();
}
