// Atoms that a tree picks out of a model, to be removed (document 01, "Edits").
#![tactic(auto)]

ghost use Rattle.std.specs.Prelude.{◌≡◌, Ok, not, ◌+◌, ◌*◌, ◌≤◌, length};
ghost use Rattle.machine.specs.Answer.{edited_numbers};
ghost use Rattle.machine.specs.Kleene.{is_true};
ghost use Rattle.machine.specs.Query.{read_tree};
ghost use Rattle.machine.specs.Edit.{remove_atoms_by, step_by};
ghost use Rattle.seek.specs.Seek.{Good, Within, record_at};
ghost use Rattle.search.specs.Nodes.{checked};
ghost use Rattle.empty_removals.specs.Prune.{Compacted};
ghost use Rattle.tree_removals.specs.Keep.{staying};

use machine::{Edited, Record, Refusal, Tri};

// "Undecided atoms stay."
fn spares(v: Tri) -> bool
    ensures { result ≡ not (is_true v) }
{
    match v {
        Tri::False => true,
        Tri::True => false,
        Tri::Undecided => true,
    }
}

// Whether a record stays: an atom does unless the tree is true there, with the atom's kind alone known. So no number but
// the atom's is read.
fn stays(store: &[u64], number: usize, tree: &[u64], residues: &[u64], atoms: &[u64]) -> bool
    requires { (checked (read_tree tree.now) ≡ Ok tt) × (number * 12 + 12 ≤ length store.now) }
    ensures { result ≡ staying residues.now atoms.now tree.now (record_at number store.now) }
{
    let kind = store[number * Record::WIDTH];
    if kind != Record::ATOM {
        return true;
    }
    let n = number as u64;
    let place = [n, n, n, n, n];
    let only = Record::ATOM;
    let v = search::value(tree, store, &place, only, only, residues, atoms);
    spares(v)
}

// Of the records from `from` up to `end` those that stay move down, so that they start at `from`. The answer is where they end.
fn compact(
    store: &mut [u64],
    from: usize,
    end: usize,
    tree: &[u64],
    residues: &[u64],
    atoms: &[u64],
) -> usize
    requires { Within from end store.old × (checked (read_tree tree.now) ≡ Ok tt) }
    ensures { Compacted (staying residues.now atoms.now tree.now)
        from end store.old result store.new }
{
    let mut to = from;
    for at in from..end {
        if stays(store, at, tree, residues, atoms) {
            moves::move_record(store, at * Record::WIDTH, to * Record::WIDTH);
            to += 1;
        }
    }
    to
}

// The atoms of a model at which a tree is true go. Refused in order: 5 by the position, 3 and 4 by the tree.
pub fn remove_atoms_by(store: &mut [u64], model: u64, tree: &[u64]) -> Result<Edited, Refusal>
    requires { Good store.old }
    ensures { (edited_numbers result, store.new) ≡ step_by store.old (remove_atoms_by model tree.now) }
{
    let position = [model];
    let (start, end) = seek::locate(store, &position)?;
    search::check_tree(tree)?;
    let residues = reference_tables::amino_acids();
    let atoms = reference_tables::backbone_names();
    let to = compact(store, start + 1, end, tree, &residues, &atoms);
    let removed = end - to;
    empty_removals::close_gap(store, to, end);
    Ok(Edited {
        found: 1,
        removed: removed as u64,
    })
}
