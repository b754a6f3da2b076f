// PDB lines in (change request §9): the structure of a text that is the writer's. The store is opened, and each model's atoms are added chain
// by chain. So an addition moves only what its own chain has behind it, which is nothing where the chain's lines stand in the writer's order.
#![tactic(auto)]

ghost use Rattle.std.specs.Prelude.{◌≡◌, true, [], ◌∷◌, ◌++◌, ◌+◌, ◌≤◌, ◌<◌, length};
ghost use Rattle.machine.specs.Lists.{all};
ghost use Rattle.machine.specs.Store.{records, capacity, good_length, lay_out};
ghost use Rattle.machine.specs.LinesIn.{atom_in, entries_in, good_line};
ghost use Rattle.lines.specs.Taken.{taken_text};
ghost use Rattle.lines.specs.Numbered.{line_count_in, line_at, lines_from, atoms_back};
ghost use Rattle.building.specs.Build.{build};
ghost use Rattle.building.specs.Chains.{has_chain, by_chain};
ghost use Rattle.seek.specs.Seek.{Good, held};
ghost use Rattle.insertion.specs.Cursor.{Valid};
ghost use Rattle.filling.specs.Fill.{atoms_in, first_chain, model_atoms, model_of, atom_lines, in_model, Ready, Became};

use insertion::Cursor;

// Bytes of a line, with its newline.
const LINE: usize = 81;

// ENDMDL's first byte.
const END: u8 = 69;

// ---- chains

// The chain of line n.
fn chain_at(lines: &[u8], n: usize) -> u64
    requires { n < line_count_in lines.now }
    ensures { result ≡ (atom_in (line_at n lines.now)).chain.id }
{
    let start = n * LINE;
    scanner::chain_in(&lines[start..start + LINE])
}

// Whether a line before line n is of its chain. The nearest ends the look back: only a chain's first line looks at all lines before it.
fn is_seen(lines: &[u8], n: usize) -> bool
    requires { n < line_count_in lines.now }
    ensures { result ≡ has_chain (atoms_back n n lines.now) (atom_in (line_at n lines.now)).chain }
{
    let chain = chain_at(lines, n);
    let mut before = n;
    while 0 < before {
        if chain_at(lines, before - 1) == chain {
            return true;
        }
        before -= 1;
    }
    false
}

// ---- atoms

// A line's atom, to the model at an index.
fn add_line(line: &[u8], store: &mut [u64], cursor: Cursor, model: u64) -> Cursor
    requires line_len { length line.now ≡ 81 }
    requires ready { Ready model (atom_in line.now ∷ []) store.old }
    requires valid { Valid cursor store.old }
    ensures cursor_valid { Valid result store.new }
    ensures became { Became (in_model model (atom_in line.now ∷ []) (held store.old)) store.old store.new }
{
    let new = scanner::atom_in(line);
    let added = additions::add_prepared(store, cursor, model, Ok(new));
    added.cursor
}

// The atoms of the first line's chain, in their order.
fn add_chain(lines: &[u8], store: &mut [u64], cursor: Cursor, model: u64) -> Cursor
    requires some_line { 0 < line_count_in lines.now }
    requires ready { Ready model (first_chain lines.now) store.old }
    requires valid { Valid cursor store.old }
    ensures cursor_valid { Valid result store.new }
    ensures became { Became (in_model model (first_chain lines.now) (held store.old)) store.old store.new }
{
    let chain = chain_at(lines, 0);
    let count = lines.len() / LINE;
    let mut place = cursor;
    let mut at: usize = 0;
    while at < count {
        let start = at * LINE;
        if chain_at(lines, at) == chain {
            let next = add_line(&lines[start..start + LINE], store, place, model);
            place = next;
            at += 1;
        } else {
            at += 1;
        }
    }
    place
}

// All atoms of a model that has none yet, each chain where its first line stands.
fn add_chains(lines: &[u8], store: &mut [u64], model: u64)
    requires { Ready model (by_chain (atoms_in lines.now)) store.old }
    ensures { Became (in_model model (by_chain (atoms_in lines.now)) (held store.old)) store.old store.new }
{
    let count = lines.len() / LINE;
    let mut place = insertion::no_cursor();
    let mut n: usize = 0;
    while n < count {
        if is_seen(lines, n) {
            n += 1;
        } else {
            let next = add_chain(&lines[n * LINE..], store, place, model);
            place = next;
            n += 1;
        }
    }
}

// ---- models

// A model's MODEL line, and its atoms' lines.
fn add_entry(lines: &[u8], store: &mut [u64], model: u64)
    requires some_line { 0 < line_count_in lines.now }
    requires lines_good { all good_line (model_atoms lines.now) ≡ true }
    requires good { Good store.old }
    requires next_model { length (held store.old) ≡ model }
    requires room { length (records (held store.old ++ (model_of lines.now ∷ []))) ≤ capacity (length store.old) }
    ensures { Became (held store.old ++ (model_of lines.now ∷ [])) store.old store.new }
{
    let serial = scanner::model_in(&lines[0..LINE]);
    let _ = additions::add_model(store, serial);
    add_chains(&lines[LINE..], store, model);
}

// The number of the first ENDMDL line from a line on.
fn model_end(text: &[u8], from: usize) -> usize
    requires { from ≤ line_count_in text.now }
    ensures { result ≡ from + atom_lines (lines_from from text.now) }
{
    let count = text.len() / LINE;
    let mut n = from;
    while n < count {
        if text[n * LINE] == END {
            return n;
        }
        n += 1;
    }
    n
}

// Each model, into a store that is open.
fn fill_models(text: &[u8], store: &mut [u64])
    requires taken { taken_text text.now ≡ true }
    requires good { Good store.old }
    requires store_empty { held store.old ≡ [] }
    requires room { length (records (build (entries_in text.now))) ≤ capacity (length store.old) }
    ensures { Became (build (entries_in text.now)) store.old store.new }
{
    let count = text.len() / LINE;
    let mut model: u64 = 0;
    let mut n: usize = 0;
    while n < count {
        let end = model_end(text, n + 1);
        add_entry(&text[n * LINE..end * LINE], store, model);
        model += 1;
        n = end + 1;
    }
}

// The store is opened and filled. The text is one of the writer's, and its records fit.
pub fn fill(text: &[u8], store: &mut [u64])
    requires taken { taken_text text.now ≡ true }
    requires length_good { good_length (length store.old) ≡ true }
    requires room { length (records (build (entries_in text.now))) ≤ capacity (length store.old) }
    ensures { store.new ≡ lay_out (length store.old) (build (entries_in text.now)) }
{
    let _ = store::open(store);
    fill_models(text, store);
}
