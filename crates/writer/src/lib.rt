// PDB lines out (change request §1). One pass over the store decides whether every field fits and how long the text is, a second one writes it.
#![tactic(auto)]

ghost use Rattle.std.specs.Prelude.{◌≡◌, true, map, ◌+◌, ◌≤◌, length};
ghost use Rattle.machine.specs.Answer.{counted_numbers};
ghost use Rattle.machine.specs.Lists.{all, concat_map};
ghost use Rattle.machine.specs.Lines.{fitting, line_of, entry_of, writable, machine_text};
ghost use Rattle.machine.specs.Write.{write_run};
ghost use Rattle.laws.specs.Flat.{entered, ended, record_lines, line_count};
ghost use Rattle.decimals.specs.Put.{put_at};
ghost use Rattle.seek.specs.Seek.{held, Good};
ghost use Rattle.writer.specs.Writer.{parents, GoodWords, measured};

use columns::Above;
use machine::{Record, Refusal};

// Before the first record. No line takes these words: an atom comes after a chain, a residue and a conformer.
fn start() -> Above {
    Above {
        chain: 0,
        serial: 0,
        code: 0,
        name: 0,
        location: 0,
    }
}

// What the atoms after a record stand under.
fn enter(above: Above, words: &[u64]) -> Above
    requires { GoodWords words.now }
    ensures { parents result ≡ entered words.now (parents above) }
{
    let kind = words[Record::KIND];
    let mut next = above;
    if kind == Record::CHAIN {
        next.chain = words[Record::CHAIN_ID];
        return next;
    }
    if kind == Record::RESIDUE {
        next.serial = words[Record::SERIAL];
        next.code = words[Record::CODE];
        return next;
    }
    if kind == Record::CONFORMER {
        next.name = words[Record::CONFORMER_NAME];
        next.location = words[Record::LOCATION];
        return next;
    }
    next
}

// Whether a record's fields fit on the line that it makes, if it makes one.
fn fits_record(above: Above, words: &[u64]) -> bool
    requires { GoodWords words.now }
    ensures { result ≡ all (all fitting) (record_lines true (parents above) words.now) }
{
    let kind = words[Record::KIND];
    if kind == Record::ATOM {
        return columns::fits_atom(above, words);
    }
    if kind == Record::MODEL {
        return columns::fits_model(words[Record::SERIAL]);
    }
    true
}

// An atom makes a line, a model two.
fn line_count(words: &[u64]) -> u64
    requires { GoodWords words.now }
    ensures { result ≡ line_count words.now }
{
    let kind = words[Record::KIND];
    if kind == Record::ATOM {
        return 1;
    }
    if kind == Record::MODEL {
        return 2;
    }
    0
}

// How many bytes the text has, where every field fits into its columns. A chain, a residue or a conformer without an atom is on no line, so that its fields may be of any width.
pub fn measure(store: &[u64]) -> Result<u64, Refusal>
    requires { Good store.now }
    ensures { result ≡ measured (map entry_of (held store.now)) }
{
    let count = seek::record_count(store);
    let mut above = start();
    let mut lines: u64 = 0;
    let mut n: usize = 0;
    while n < count {
        let at = n * Record::WIDTH;
        let words = &store[at..at + Record::WIDTH];
        if fits_record(above, words) {
            lines += line_count(words);
            above = enter(above, words);
            n += 1;
        } else {
            return Err(Refusal::TooWide);
        }
    }
    Ok(81 * lines)
}

// ENDMDL, where a model was begun.
fn put_end(out: &mut [u8], at: usize, begun: bool) -> usize
    requires { at + length (concat_map line_of (ended begun)) ≤ length out.old }
    ensures { (result, out.new) ≡ put_at (concat_map line_of (ended begun)) at out.old }
{
    if begun {
        let line = columns::end_line();
        return decimals::put_bytes(out, at, &line);
    }
    at
}

// The lines that a record makes. A model also ends the one before it.
fn put_record(out: &mut [u8], at: usize, begun: bool, above: Above, words: &[u64]) -> usize
    requires good_words { GoodWords words.now }
    requires fits { all (all fitting) (record_lines true (parents above) words.now) ≡ true }
    requires room { at + length (concat_map line_of (record_lines begun (parents above) words.now)) ≤ length out.old }
    ensures { (result, out.new) ≡ put_at (concat_map line_of (record_lines begun (parents above) words.now)) at out.old }
{
    let kind = words[Record::KIND];
    if kind == Record::ATOM {
        let line = columns::atom_line(above, words);
        return decimals::put_bytes(out, at, &line);
    }
    if kind == Record::MODEL {
        let next = put_end(out, at, begun);
        let line = columns::model_line(words[Record::SERIAL]);
        return decimals::put_bytes(out, next, &line);
    }
    at
}

// The text from the output's first byte on; answers its length. A store's first record is a model, so that after it one was begun.
pub fn write_all(store: &[u64], out: &mut [u8]) -> usize
    requires good { Good store.now }
    requires writes { writable (map entry_of (held store.now)) ≡ true }
    requires room { length (machine_text (held store.now)) ≤ length out.old }
    ensures { (result, out.new) ≡ put_at (machine_text (held store.now)) 0 out.old }
{
    let count = seek::record_count(store);
    let mut above = start();
    let mut at: usize = 0;
    let mut n: usize = 0;
    while n < count {
        let from = n * Record::WIDTH;
        let words = &store[from..from + Record::WIDTH];
        at = put_record(out, at, 0 < n, above, words);
        above = enter(above, words);
        n += 1;
    }
    put_end(out, at, 0 < n)
}

// A good store. Both refusals are decided before a byte is written.
fn write_good(store: &[u64], out: &mut [u8]) -> Result<u64, Refusal>
    requires { Good store.now }
    ensures { (counted_numbers result, out.new) ≡ write_run store.now out.old }
{
    let length = measure(store)?;
    if length <= out.len() as u64 {
        Ok(write_all(store, out) as u64)
    } else {
        Err(Refusal::ShortText)
    }
}

// Refused in order: 1 and 2 by the store, 12 by its fields, 13 by the output.
pub fn write(store: &[u64], out: &mut [u8]) -> Result<u64, Refusal>
    ensures { (counted_numbers result, out.new) ≡ write_run store.now out.old }
{
    store::check(store)?;
    write_good(store, out)
}
