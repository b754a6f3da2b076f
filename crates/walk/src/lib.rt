// Find's pruned walk (document 01, "Trees and find"): one pass over the records below a start, which looks below none where the tree is false,
// and evaluates it below none where it is true.
#![tactic(auto)]

ghost use Rattle.std.specs.Prelude.{◌≡◌, leb, Ok};
ghost use Rattle.machine.specs.Answer.{counted_numbers};
ghost use Rattle.machine.specs.Query.{read_tree};
ghost use Rattle.machine.specs.Find.{written, find_from};
ghost use Rattle.seek.specs.Seek.{Good, held, records_in, atom_records, five_numbers};
ghost use Rattle.search.specs.Nodes.{checked};
ghost use Rattle.descent.specs.Descent.{five};
ghost use Rattle.walk.specs.Walk.{found_below, asked_below, put_hit, wrote, Ready, Asked, part_under};

use machine::{Record, Refusal};
use seek::Part;

// ---- a pass

// "A hit is five words: the record numbers of model, chain, residue, conformer, atom." One that the output has no room for isn't written.
fn put(out: &mut [u64], hit: u64, at: &[u64; 5])
    ensures { out.new ≡ put_hit hit (five (five_numbers at.now)) out.old }
{
    if out.len() as u64 / 5 <= hit {
        return;
    }
    let word = hit as usize * 5;
    out[word] = at[0];
    out[word + 1] = at[1];
    out[word + 2] = at[2];
    out[word + 3] = at[3];
    out[word + 4] = at[4];
}

// Writes the hits among the records of a part, as many as the output takes, and says how many there are. "Terms of the start's own level and above
// stay undecided."
fn find_in(
    store: &[u64],
    part: Part,
    tree: &[u64],
    residues: &[u64],
    atoms: &[u64],
    out: &mut [u64],
) -> u64
    requires { Ready store.now part tree.now }
    ensures { (result, out.new)
        ≡ wrote (found_below store.now part tree.now residues.now atoms.now) out.old }
{
    let topmost = search::topmost_kind(tree);
    let low = part.depth + 1;
    let mut at = descent::numbers_of(part.path);
    let mut live = part.depth;
    let mut settled: u64 = Record::ATOM;
    let mut found: u64 = 0;
    for n in part.from..part.end {
        let kind = store[n * Record::WIDTH];
        if kind <= live + 1 {
            descent::enter(&mut at, kind, n as u64);
            let next = descent::turn(
                store, tree, &at, low, kind, topmost, settled, residues, atoms,
            );
            live = next.live;
            settled = next.settled;
            if live == Record::ATOM {
                put(out, found, &at);
                found += 1;
            }
        }
    }
    found
}

// ---- find

// Whether there is room for all atoms of a part of a store that has `total` in all.
fn takes_all(store: &[u64], part: Part, total: u64, room: u64) -> bool
    requires { Asked store.now part total }
    ensures { result ≡ leb (atom_records (records_in part.from part.end store.now)) room }
{
    if total <= room {
        return true;
    }
    if part.depth == 0 {
        return false;
    }
    let from = part.from;
    let end = part.end;
    seek::atoms_in(store, from, end) as u64 <= room
}

// By two lists of names. Hits are counted first only where there is no room for all atoms, since "10 output shorter than 5 words per hit" leaves the
// output as it was.
fn find_below(
    store: &[u64],
    part: Part,
    tree: &[u64],
    total: u64,
    residues: &[u64],
    atoms: &[u64],
    out: &mut [u64],
) -> Result<u64, Refusal>
    requires { Asked store.now part total × (checked (read_tree tree.now) ≡ Ok tt) }
    ensures { (counted_numbers result, out.new)
        ≡ written out.old (Ok (found_below store.now part tree.now residues.now atoms.now)) }
{
    let room = out.len() as u64 / 5;
    if takes_all(store, part, total, room) {
        return Ok(find_in(store, part, tree, residues, atoms, out));
    }
    let mut nothing = [0u64; 1];
    if find_in(store, part, tree, residues, atoms, &mut nothing) <= room {
        return Ok(find_in(store, part, tree, residues, atoms, out));
    }
    Err(Refusal::ShortOutput)
}

// The tree's refusals come after those of the store and the start.
fn find_part(
    store: &[u64],
    part: Part,
    tree: &[u64],
    total: u64,
    out: &mut [u64],
) -> Result<u64, Refusal>
    requires { Asked store.now part total }
    ensures { (counted_numbers result, out.new) ≡ written out.old (asked_below store.now part tree.now) }
{
    search::check_tree(tree)?;
    let residues = reference_tables::amino_acids();
    let atoms = reference_tables::backbone_names();
    find_below(store, part, tree, total, &residues, &atoms, out)
}

// What stands under a start. A position of five indexes is an atom's, and an atom is no start.
fn part_under(store: &[u64], start: &[u64]) -> Option<Part>
    requires { Good store.now }
    ensures { result ≡ part_under start.now (held store.now) }
{
    if start.len() <= 4 {
        seek::follow(store, start)
    } else {
        None
    }
}

// From a start of none to four indexes; with none it is the whole store. Refused in order: 1 and 2 by the store, 5 by the start, 3 and 4 by the
// tree, 10 by the output.
pub fn find(store: &[u64], start: &[u64], tree: &[u64], out: &mut [u64]) -> Result<u64, Refusal>
    ensures { (counted_numbers result, out.new)
        ≡ find_from store.now start.now tree.now out.old }
{
    let total = store::check(store)?;
    let part = part_under(store, start).ok_or(Refusal::NoPosition)?;
    find_part(store, part, tree, total, out)
}
