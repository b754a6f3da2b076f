// PDB lines in (change request §9): whether the records of a text fit into a store, known before the store is touched.
#![tactic(auto)]

ghost use Rattle.std.specs.Prelude.{◌≡◌, true, false, [], ◌-◌, ◌/◌, ◌≤◌, ◌<◌, min, length, get_or, leb};
ghost use Rattle.machine.specs.LinesIn.{atom_in, lines_in};
ghost use Rattle.lines.specs.Numbered.{line_count_in, line_at, atoms_back};
ghost use Rattle.lines.specs.Taken.{taken_text};
ghost use Rattle.building.specs.Lacks.{lacks, ends, looked, records_from};
ghost use Rattle.building.specs.Bounds.{adding_lines};

// ---- one line

// A line's first byte: M begins a model, E ends one, and any other is an atom's.
fn kind_of(text: &[u8], n: usize) -> u8
    requires { n < line_count_in text.now }
    ensures { result ≡ get_or (line_at n text.now) 0 0 }
{
    text[n * 81]
}

// What the atom of a line lacks beside that of an earlier one.
fn lacks_at(text: &[u8], earlier: usize, n: usize) -> u64
    requires { (earlier < n) × (n < line_count_in text.now) }
    ensures { result ≡ lacks (atom_in (line_at earlier text.now)) (atom_in (line_at n text.now)) }
{
    let from = earlier * 81;
    let at = n * 81;
    scanner::lacks(&text[from..from + 81], &text[at..at + 81])
}

// ---- looking back

// 1 is the least there is. A near look also ends at another residue of the atom's chain.
fn ends(near: bool, k: u64) -> bool
    ensures { result ≡ ends near k }
{
    (k == 1) | (near & (k == 3))
}

fn smaller(a: u64, b: u64) -> u64
    ensures { result ≡ min a b }
{
    if a < b {
        return a;
    }
    b
}

// How many records an atom needs after the lines of its model before it.
fn needed(text: &[u8], from: usize, n: usize, near: bool) -> u64
    requires { (from ≤ n) × (n < line_count_in text.now) }
    ensures { (result ≡ looked near (atom_in (line_at n text.now)) (atoms_back (n - from) n text.now)) × (result ≤ 4) }
{
    let mut least: u64 = 4;
    let mut i = n;
    while from < i {
        let k = lacks_at(text, i - 1, n);
        if ends(near, k) {
            return smaller(k, least);
        }
        least = smaller(k, least);
        i -= 1;
    }
    least
}

// ---- all lines

// A look goes back as far as the open model does. After ENDMDL comes MODEL or nothing, so nothing looks back from there.
fn records_in(text: &[u8], near: bool) -> usize
    requires { taken_text text.now ≡ true }
    ensures { result ≡ records_from near [] (lines_in (length text.now / 81) text.now) }
{
    let mut count: usize = 0;
    let mut from: usize = 0;
    let mut n: usize = 0;
    while n < text.len() / 81 {
        let kind = kind_of(text, n);
        if kind == 77 {
            count += 1;
            n += 1;
            from = n;
        } else if kind == 69 {
            n += 1;
            from = n;
        } else {
            count += needed(text, from, n, near) as usize;
            n += 1;
        }
    }
    count
}

// The lines that have a record of their own: all but ENDMDL.
fn adding_lines(text: &[u8]) -> usize
    ensures { result ≡ adding_lines (lines_in (length text.now / 81) text.now) }
{
    let mut count: usize = 0;
    let mut n: usize = 0;
    while n < text.len() / 81 {
        if kind_of(text, n) == 69 {
            n += 1;
        } else {
            count += 1;
            n += 1;
        }
    }
    count
}

// The text is one of the writer's. Near looks, one pass, are exact unless a residue is left and comes again; and where not even the lines fit, nothing
// needs to be looked up. So only a text between the two bounds is looked through as far back as it takes.
pub fn fits(text: &[u8], capacity: usize) -> bool
    requires { taken_text text.now ≡ true }
    ensures { result ≡ leb (records_from false [] (lines_in (length text.now / 81) text.now)) capacity }
{
    if records_in(text, true) <= capacity {
        return true;
    }
    if capacity < adding_lines(text) {
        return false;
    }
    records_in(text, false) <= capacity
}
