// Queries, after pdbtbx's search.rs (document 01, "Trees and find"): a tree's nodes, its check, and its value at a place.
#![tactic(auto)]

ghost use Rattle.std.specs.Prelude.{◌≡◌, cond, Some, None, Ok, ℕ, ◌%◌, ◌≤◌, ◌<◌, length};
ghost use Rattle.machine.specs.Kleene as Kleene;
ghost use Rattle.machine.specs.Query as Query;
ghost use Rattle.machine.specs.declared.Node.TheVariants.{Single};
ghost use Rattle.seek.specs.Seek.{five_numbers};
ghost use Rattle.terms.specs.Levels.{term_value_at, Inside};
ghost use Rattle.search.specs.Nodes as Nodes;
ghost use Rattle.search.specs.Nodes.{kind_for, topmost_from, node_for, sort_for, good_node, left_by, deeper_by, depth_of, maybe_depth, checked};
ghost use Rattle.search.specs.Value.{Operand, Evaluated};

use elements::Element;
use machine::{Ops, Record, RecordNumbers, Refusal, Term, Tri};

// ---- nodes

// What sort of node a code has.
#[derive(Clone, Copy)]
enum Sort {
    Single,
    Binary(Ops),
    Not,
    Known(bool),
}

// "Node codes are sorted into terms, operators and constants by range"; no other code has a node.
#[tactic(auto, unfolding(crate::specs::Nodes::sort_for, machine::specs::Query::codes))]
fn sort_of(code: u64) -> Option<Sort>
    ensures { (p q : ℕ) → result ≡ sort_for code p q }
{
    match code {
        1..=22 => Some(Sort::Single),
        23..=25 => match code {
            23 => Some(Sort::Binary(Ops::And)),
            24 => Some(Sort::Binary(Ops::Or)),
            _ => Some(Sort::Binary(Ops::Xor)),
        },
        26 => Some(Sort::Not),
        27..=28 => Some(Sort::Known(code == 28)),
        _ => None,
    }
}

// The term of a code from 1 to 22.
#[tactic(auto, unfolding(crate::specs::Nodes::node_for, machine::specs::Query::codes))]
fn term_of(code: u64, p: u64, q: u64) -> Term
    requires { (1 ≤ code) × (code ≤ 22) }
    ensures { Single result ≡ node_for code p q }
{
    match code {
        1 => Term::ModelSerialNumber(p),
        2 => Term::ModelSerialNumberRange(p, q),
        3 => Term::ChainId(p),
        4 => Term::ChainIdRange(p, q),
        5 => Term::ResidueSerialNumber(floats::int_of(p)),
        6 => Term::ResidueSerialNumberRange(floats::int_of(p), floats::int_of(q)),
        7 => Term::ResidueInsertionCode(p),
        8 => Term::ResidueId(floats::int_of(p), q),
        9 => Term::ConformerName(p),
        10 => Term::ConformerAlternativeLocation(p),
        11 => Term::ConformerId(p, q),
        12 => Term::AtomSerialNumber(p),
        13 => Term::AtomSerialNumberRange(p, q),
        14 => Term::AtomName(p),
        15 => Term::Element(p),
        16 => Term::BFactor(floats::float_of(p)),
        17 => Term::BFactorRange(floats::float_of(p), floats::float_of(q)),
        18 => Term::Occupancy(floats::float_of(p)),
        19 => Term::OccupancyRange(floats::float_of(p), floats::float_of(q)),
        20 => Term::Backbone,
        21 => Term::SideChain,
        _ => Term::Hetero,
    }
}

// "unused ones are 0", texts are packed, elements are 1..118
#[tactic(auto, unfolding(crate::specs::Nodes::good_node, machine::specs::Query::codes))]
fn good_parameters(code: u64, p: u64, q: u64) -> bool
    requires { (1 ≤ code) × (code ≤ 28) }
    ensures { result ≡ good_node code p q }
{
    match code {
        1 | 5 | 12 | 16 | 18 => q == 0,
        2 | 6 | 13 | 17 | 19 => true,
        3 | 7 | 9 | 10 | 14 => stored::packed_text(p) & (q == 0),
        4 | 11 => stored::packed_text(p) & stored::packed_text(q),
        8 => stored::packed_text(q),
        15 => Element::from_number(p).is_some() & (q == 0),
        _ => (p == 0) & (q == 0),
    }
}

// ---- the check of a tree

// One more than the number of operands after a node, or 0 where an operand is missing: `least` is one more than it takes.
fn left_by(least: usize, d: usize) -> usize
    requires { d < 1000 }
    ensures { result ≡ left_by least d }
{
    if d < least { 0 } else { d + 2 - least }
}

// The same for a code that has a node, or the refusal of its parameters.
fn deeper(least: usize, code: u64, p: u64, q: u64, d: usize) -> Option<usize>
    requires { (1 ≤ code) × (code ≤ 28) × (d < 1000) }
    ensures { result ≡ cond (good_node code p q) (Some (left_by least d)) None }
{
    if good_parameters(code, p, q) {
        Some(left_by(least, d))
    } else {
        None
    }
}

// The same for any code: a term and a constant take no operand, an operator two, Not one.
fn deeper_by(code: u64, p: u64, q: u64, d: usize) -> Option<usize>
    requires { d < 1000 }
    ensures { result ≡ maybe_depth (deeper_by code p q d) }
{
    match sort_of(code)? {
        Sort::Single | Sort::Known(_) => deeper(1, code, p, q, d),
        Sort::Binary(_) => deeper(3, code, p, q, d),
        Sort::Not => deeper(2, code, p, q, d),
    }
}

fn depth_of(tree: &[u64]) -> Option<usize>
    requires { (length tree.now ≤ 381) × (length tree.now % 3 ≡ 0) }
    ensures { result ≡ maybe_depth (depth_of 1 tree.now) }
{
    let mut d: usize = 1;
    let mut i: usize = 0;
    while i < tree.len() {
        d = deeper_by(tree[i], tree[i + 1], tree[i + 2], d)?;
        i += 3;
    }
    Some(d)
}

// In the order length 3, nodes 4, shape 3.
pub fn check_tree(tree: &[u64]) -> Result<(), Refusal>
    ensures { result ≡ checked (Query.read_tree tree.now) }
{
    let n = tree.len();
    if n < 3 {
        return Err(Refusal::TreeShape);
    }
    if 381 < n {
        return Err(Refusal::TreeShape);
    }
    if n % 3 != 0 {
        return Err(Refusal::TreeShape);
    }
    let d = depth_of(tree).ok_or(Refusal::TreeNode)?;
    if d == 2 {
        Ok(())
    } else {
        Err(Refusal::TreeShape)
    }
}

// ---- the kinds that a tree asks for

// By code: the kind that a term asks for, the lesser where it asks for two. An operator asks nothing; a constant may decide.
const KINDS: [u64; 29] = [
    0, // no code
    Record::MODEL, // ModelSerialNumber
    Record::MODEL, // ModelSerialNumberRange
    Record::CHAIN, // ChainId
    Record::CHAIN, // ChainIdRange
    Record::RESIDUE, // ResidueSerialNumber
    Record::RESIDUE, // ResidueSerialNumberRange
    Record::RESIDUE, // ResidueInsertionCode
    Record::RESIDUE, // ResidueId
    Record::CONFORMER, // ConformerName
    Record::CONFORMER, // ConformerAlternativeLocation
    Record::CONFORMER, // ConformerId
    Record::ATOM, // AtomSerialNumber
    Record::ATOM, // AtomSerialNumberRange
    Record::ATOM, // AtomName
    Record::ATOM, // Element
    Record::ATOM, // BFactor
    Record::ATOM, // BFactorRange
    Record::ATOM, // Occupancy
    Record::ATOM, // OccupancyRange
    Record::CONFORMER, // Backbone
    Record::CONFORMER, // SideChain
    Record::ATOM, // Hetero
    Record::ATOM, // And
    Record::ATOM, // Or
    Record::ATOM, // Xor
    Record::ATOM, // Not
    0, // known false
    0, // known true
];

fn kind_for(code: u64) -> u64
    ensures { result ≡ kind_for code }
{
    if 29 <= code {
        return 0;
    }
    let kinds = KINDS;
    kinds[code as usize]
}

fn lesser(a: u64, b: u64) -> u64
    ensures { result ≡ Nodes.lesser a b }
{
    if a < b { a } else { b }
}

// The topmost kind that a tree asks for: where only kinds above it are known the tree is undecided.
pub fn topmost_kind(tree: &[u64]) -> u64
    ensures { result ≡ topmost_from 5 tree.now }
{
    let mut topmost: u64 = Record::ATOM;
    let mut i: usize = 0;
    while i < tree.len() {
        topmost = lesser(kind_for(tree[i]), topmost);
        i += 3;
    }
    topmost
}

// ---- the value of a tree

// An operand's value, and the word at which its nodes start.
#[derive(Clone, Copy)]
struct Part {
    value: Tri,
    start: usize,
}

// The operand that a constant is.
fn constant(b: bool, start: usize) -> Part
    ensures { result ≡ record { value = Kleene.decided b; start = start } }
{
    let v = terms::decided(b);
    Part { value: v, start }
}

// The operand that a Not makes of another.
fn negation(a: Part) -> Part
    ensures { result ≡ record { value = Kleene.not_t a.value; start = a.start } }
{
    let x = a.value;
    let v = terms::not_tri(x);
    Part {
        value: v,
        start: a.start,
    }
}

// The operand that And, Or or Xor makes of two, which starts where the left one does.
fn connection(o: Ops, a: Part, b: Part) -> Part
    ensures { result ≡ record { value = Kleene.apply_t o a.value b.value; start = a.start } }
{
    let x = a.value;
    let y = b.value;
    let v = terms::apply(o, x, y);
    Part {
        value: v,
        start: a.start,
    }
}

// A place's five record numbers, from the model's down.
fn numbers(place: &[u64; 5]) -> RecordNumbers
    ensures { result ≡ five_numbers place.now }
{
    RecordNumbers {
        model: place[0],
        chain: place[1],
        residue: place[2],
        conformer: place[3],
        atom: place[4],
    }
}

// The same words, lent anew: a slice that a function passes on as it came is copied wherever the function starts.
fn anew(words: &[u64]) -> &[u64]
    ensures { result.now ≡ words.now }
{
    &words[0..]
}

// The last operand of nodes in postfix order: its own last node, and before that its operands, by recursion.
fn evaluate(
    tree: &[u64],
    words: &[u64],
    place: &[u64; 5],
    low: u64,
    high: u64,
    residues: &[u64],
    atoms: &[u64],
) -> Part
    requires { Operand (term_value_at words.now (five_numbers place.now) low high residues.now atoms.now) tree.now
        × Inside words.now (five_numbers place.now) }
    ensures { Evaluated (term_value_at words.now (five_numbers place.now) low high residues.now atoms.now)
        tree.now result }
{
    let i = tree.len() - 3;
    let code = tree[i];
    match sort_of(code) {
        Some(Sort::Single) => {
            let t = term_of(code, tree[i + 1], tree[i + 2]);
            let v = terms::term_value(t, words, numbers(place), low, high, residues, atoms);
            Part { value: v, start: i }
        }
        Some(Sort::Known(b)) => constant(b, i),
        // A tree that was checked has no such node, but each arm of a match has a value.
        None => constant(false, i),
        Some(Sort::Not) => {
            let a = evaluate(&tree[..i], anew(words), place, low, high, residues, atoms);
            negation(a)
        }
        Some(Sort::Binary(o)) => {
            let b = evaluate(&tree[..i], anew(words), place, low, high, residues, atoms);
            let m = b.start;
            let a = evaluate(&tree[..m], anew(words), place, low, high, residues, atoms);
            connection(o, a, b)
        }
    }
}

// A tree's value at the place of five records, where the kinds from low to high are known.
pub fn value(
    tree: &[u64],
    words: &[u64],
    place: &[u64; 5],
    low: u64,
    high: u64,
    residues: &[u64],
    atoms: &[u64],
) -> Tri
    requires { (checked (Query.read_tree tree.now) ≡ Ok tt) × Inside words.now (five_numbers place.now) }
    ensures { result ≡ Query.tree_value
        (term_value_at words.now (five_numbers place.now) low high residues.now atoms.now) tree.now }
{
    let p = evaluate(tree, words, place, low, high, residues, atoms);
    p.value
}
