// One turn of a search's pruned pass (document 01, "Trees and find"): where the pass stands among a store's records, and whether what is
// below a record needs a look. Nothing is looked at below one where the tree is false, and nothing is evaluated below one where it is true.
#![tactic(auto)]

ghost use Rattle.std.specs.Prelude.{◌≡◌, ◌-◌, ◌≤◌, set, Ok};
ghost use Rattle.machine.specs.Query.{read_tree};
ghost use Rattle.seek.specs.Seek.{five_numbers};
ghost use Rattle.terms.specs.Levels.{Inside};
ghost use Rattle.search.specs.Nodes.{checked, topmost_from};
ghost use Rattle.descent.specs.Descent.{five, value_by, Settled, Turned};

use machine::{Record, RecordNumbers, Tri};

// The five numbers, from the model's down: the record that was last seen of each kind.
pub fn numbers_of(at: RecordNumbers) -> [u64; 5]
    ensures { result ≡ five at }
{
    [at.model, at.chain, at.residue, at.conformer, at.atom]
}

// Record n of a kind is the last that was seen.
pub fn enter(at: &mut [u64; 5], kind: u64, n: u64)
    requires { (1 ≤ kind) × (kind ≤ 5) }
    ensures { at.new ≡ set at.old (kind - 1) n }
{
    at[kind as usize - 1] = n;
}

// Beside the last records that were seen: how many of them the next one may stand under, and the kind of one at which the
// tree is true, so that what is below needs no look. No record is of a kind above 5, which stands for none.
#[derive(Clone, Copy)]
pub struct State {
    pub live: u64,
    pub settled: u64,
}

impl State {
    fn new(live: u64, settled: u64) -> State
        ensures { result ≡ record { live = live; settled = settled } }
    {
        State { live, settled }
    }
}

// After a record that is entered. What is below one where the tree is false is too deep then; "Undecided counts as a hit".
// An atom is a hit where `live` is 5. A tree that asks for none of the kinds that are known is undecided, with no look.
pub fn turn(
    store: &[u64],
    tree: &[u64],
    at: &[u64; 5],
    low: u64,
    kind: u64,
    topmost: u64,
    settled: u64,
    residues: &[u64],
    atoms: &[u64],
) -> State
    requires { (checked (read_tree tree.now) ≡ Ok tt) × Inside store.now (five_numbers at.now) × (1 ≤ kind)
        × Settled (value_by store.now tree.now low residues.now atoms.now (five_numbers at.now)) settled kind × (topmost ≡ topmost_from 5 tree.now) }
    ensures { Turned
        (value_by store.now tree.now low residues.now atoms.now (five_numbers at.now)) kind result }
{
    if settled < kind {
        return State::new(kind, settled);
    }
    if kind < topmost {
        return State::new(kind, Record::ATOM);
    }
    let above = kind - 1;
    let v = search::value(tree, store, at, low, kind, residues, atoms);
    match v {
        Tri::False => State::new(above, Record::ATOM),
        Tri::True => State::new(kind, kind),
        Tri::Undecided => State::new(kind, Record::ATOM),
    }
}
