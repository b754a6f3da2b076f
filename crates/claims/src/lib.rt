// The third demand as the contract of a function: a store is opened, a list of edits applied to it, and find run from one start for A, B,
// "A and B", "A or B" and "not A", each into an output of its own.
#![tactic(auto)]

ghost use Rattle.std.specs.Prelude.{◌≡◌, [], ◌∷◌, ◌++◌, length};
ghost use Rattle.machine.specs.Answer.{counted_numbers};
ghost use Rattle.machine.specs.Find.{find_from};
ghost use Rattle.demands.specs.Queries.{runs_of};
ghost use Rattle.claims.specs.Claim.{runs_seen, seen, whole_run, Claims};

use machine::Refusal;

#[derive(Clone, Copy)]
pub struct Finds {
    pub first: Result<u64, Refusal>,
    pub second: Result<u64, Refusal>,
    pub both: Result<u64, Refusal>,
    pub either: Result<u64, Refusal>,
    pub opposite: Result<u64, Refusal>,
}

#[derive(Clone, Copy)]
pub struct Answers {
    pub opened: Result<(), Refusal>,
    pub applied: Result<u64, Refusal>,
    pub finds: Finds,
}

// Find of a tree that is put together: "The tree "A and B" is A's nodes, then B's, then a node 23". One of over 381 words is refused
// whatever it holds.
fn find_joined(
    store: &[u64],
    start: &[u64],
    a: &[u64],
    b: &[u64],
    code: u64,
    out: &mut [u64],
) -> Result<u64, Refusal>
    ensures { (counted_numbers result, out.new)
        ≡ find_from store.now start.now (a.now ++ (b.now ++ (code ∷ 0 ∷ 0 ∷ []))) out.old }
{
    let mut tree = [0u64; 384];
    let m = a.len();
    let n = b.len();
    if 381 < m {
        return walk::find(store, start, &tree, out);
    }
    if 381 - m < n {
        return walk::find(store, start, &tree, out);
    }
    let node = [code, 0, 0];
    moves::write_over(&mut tree, 0, a);
    moves::write_over(&mut tree, m, b);
    moves::write_over(&mut tree, m + n, &node);
    walk::find(store, start, &tree[..m + n + 3], out)
}

fn find_all(
    store: &[u64],
    start: &[u64],
    a: &[u64],
    b: &[u64],
    first: &mut [u64],
    second: &mut [u64],
    both: &mut [u64],
    either: &mut [u64],
    opposite: &mut [u64],
) -> Finds
    ensures { runs_seen result first.new second.new both.new either.new opposite.new
        ≡ runs_of (find_from store.now start.now) a.now b.now
        first.old second.old both.old either.old opposite.old }
{
    let in_first = walk::find(store, start, a, first);
    let in_second = walk::find(store, start, b, second);
    let in_both = find_joined(store, start, a, b, 23, both);
    let in_either = find_joined(store, start, a, b, 24, either);
    let in_opposite = find_joined(store, start, a, &a[..0], 26, opposite);
    Finds {
        first: in_first,
        second: in_second,
        both: in_both,
        either: in_either,
        opposite: in_opposite,
    }
}

// Of any store, list, start, trees and outputs. The first clause is the third demand, of what this call leaves, and the second says all that it
// leaves, refusals included, as one equation.
pub fn edit_and_find(
    store: &mut [u64],
    list: &[u64],
    answers: &mut [u64],
    start: &[u64],
    a: &[u64],
    b: &[u64],
    first: &mut [u64],
    second: &mut [u64],
    both: &mut [u64],
    either: &mut [u64],
    opposite: &mut [u64],
) -> Answers
    ensures demand3 { Claims (length store.old) list.now start.now a.now b.now
        (seen result store.new answers.new
        first.new second.new both.new either.new opposite.new) }
    ensures whole { seen result store.new answers.new
        first.new second.new both.new either.new opposite.new
        ≡ whole_run store.old list.now answers.old start.now a.now b.now
        first.old second.old both.old either.old opposite.old }
{
    let opened = structs::pdb::open(store);
    let applied = edits::apply(store, list, answers);
    let finds = find_all(store, start, a, b, first, second, both, either, opposite);
    Answers {
        opened: opened,
        applied: applied,
        finds: finds,
    }
}
