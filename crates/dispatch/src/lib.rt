// One call of a list of edits: its words are decoded, and its core is run. The store is known to be good, and the words to be a call.
#![tactic(auto)]

ghost use Rattle.std.specs.Prelude.{◌≡◌, true, ◌+◌, ◌≤◌, length, Some, option_map};
ghost use Rattle.machine.specs.Lists.{is_some};
ghost use Rattle.machine.specs.Answer.{edited_numbers};
ghost use Rattle.machine.specs.Edit.{store_step};
ghost use Rattle.seek.specs.Seek.{Good};
ghost use Rattle.insertion.specs.Cursor.{Valid};
ghost use Rattle.calls.specs.Format.{read_call};
ghost use Rattle.dispatch.specs.Words.{part_end, Narrowed, values_in};

use additions::Added;
use insertion::Cursor;
use machine::{Edited, NewAtom, Refusal};

// ---- calls with texts, a byte to a word

// The words as bytes, at the same indexes: those of a text are bytes.
pub fn narrow(words: &[u64], bytes: &mut [u8])
    requires { length words.now ≤ length bytes.old }
    ensures { Narrowed words.now bytes.new }
{
    for (i, word) in words.iter().enumerate() {
        bytes[i] = (*word % 256) as u8;
    }
}

// Where the part that starts at a word ends.
fn part_end(words: &[u64], at: usize) -> usize
    requires { part_end words.now at ≤ length words.now }
    ensures { (result ≡ part_end words.now at) × (result ≤ length words.now) }
{
    at + 1 + words[at] as usize
}

// What `AddAtom` has beside its model, residue and names.
fn values(words: &[u64]) -> NewAtom
    requires { 13 ≤ length words.now }
    ensures { result ≡ values_in words.now }
{
    NewAtom {
        serial: words[4],
        x: words[5],
        y: words[6],
        z: words[7],
        occupancy: words[8],
        b_factor: words[9],
        element: words[10],
        charge: words[11],
        hetero: words[12],
    }
}

// Each text's end has the text's name.
pub fn add_atom(store: &mut [u64], cursor: Cursor, words: &[u64], bytes: &[u8]) -> Added
    requires good { Good store.old }
    requires valid { Valid cursor store.old }
    requires reads_call { is_some (read_call 2 words.now) ≡ true }
    requires narrowed { Narrowed words.now bytes.now }
    ensures cursor_valid { Valid result.cursor store.new }
    ensures store_after { Some (edited_numbers result.edited, store.new) ≡ option_map (store_step store.old) (read_call 2 words.now) }
{
    let chain = part_end(words, 13);
    let code = part_end(words, chain);
    let conformer = part_end(words, code);
    let location = part_end(words, conformer);
    let name = part_end(words, location);
    let prepared = additions::prepare(
        &bytes[14..chain],
        words[1],
        words[2],
        &bytes[chain + 1..code],
        &bytes[code + 1..conformer],
        words[3],
        &bytes[conformer + 1..location],
        &bytes[location + 1..name],
        values(words),
    );
    additions::add_prepared(store, cursor, words[0], prepared)
}

fn remove_chain_by_id(store: &mut [u64], words: &[u64], bytes: &[u8]) -> Result<Edited, Refusal>
    requires good { Good store.old }
    requires reads_call { is_some (read_call 7 words.now) ≡ true }
    requires narrowed { Narrowed words.now bytes.now }
    ensures { Some (edited_numbers result, store.new) ≡ option_map (store_step store.old) (read_call 7 words.now) }
{
    let id = part_end(words, 1);
    removals::remove_chain_by_id(store, words[0], &bytes[2..id])
}

fn remove_residue_by_id(store: &mut [u64], words: &[u64], bytes: &[u8]) -> Result<Edited, Refusal>
    requires good { Good store.old }
    requires reads_call { is_some (read_call 8 words.now) ≡ true }
    requires narrowed { Narrowed words.now bytes.now }
    ensures { Some (edited_numbers result, store.new) ≡ option_map (store_step store.old) (read_call 8 words.now) }
{
    let code = part_end(words, 4);
    removals::remove_residue_by_id(
        store,
        words[0],
        words[1],
        words[2],
        words[3],
        &bytes[5..code],
    )
}

fn remove_conformer_by_id(store: &mut [u64], words: &[u64], bytes: &[u8]) -> Result<Edited, Refusal>
    requires good { Good store.old }
    requires reads_call { is_some (read_call 9 words.now) ≡ true }
    requires narrowed { Narrowed words.now bytes.now }
    ensures { Some (edited_numbers result, store.new) ≡ option_map (store_step store.old) (read_call 9 words.now) }
{
    let name = part_end(words, 4);
    let location = part_end(words, name);
    removals::remove_conformer_by_id(
        store,
        words[0],
        words[1],
        words[2],
        &bytes[5..name],
        words[3],
        &bytes[name + 1..location],
    )
}

// ---- calls of numbers, and of a tree

fn add_model(store: &mut [u64], words: &[u64]) -> Result<Edited, Refusal>
    requires good { Good store.old }
    requires reads_call { is_some (read_call 1 words.now) ≡ true }
    ensures { Some (edited_numbers result, store.new) ≡ option_map (store_step store.old) (read_call 1 words.now) }
{
    additions::add_model(store, words[0])
}

// The words of a removal by position are the position.
fn remove_at(store: &mut [u64], code: u64, words: &[u64]) -> Result<Edited, Refusal>
    requires good { Good store.old }
    requires reads_call { is_some (read_call code words.now) ≡ true }
    requires code_range { (3 ≤ code) × (code ≤ 6) }
    ensures { Some (edited_numbers result, store.new) ≡ option_map (store_step store.old) (read_call code words.now) }
{
    removals::remove_at(store, words)
}

fn remove_atom_by_serial_number(store: &mut [u64], words: &[u64]) -> Result<Edited, Refusal>
    requires good { Good store.old }
    requires reads_call { is_some (read_call 10 words.now) ≡ true }
    ensures { Some (edited_numbers result, store.new) ≡ option_map (store_step store.old) (read_call 10 words.now) }
{
    removals::remove_atom_by_serial_number(store, words[0], words[1], words[2], words[3], words[4])
}

fn remove_atoms_by(store: &mut [u64], words: &[u64]) -> Result<Edited, Refusal>
    requires good { Good store.old }
    requires reads_call { is_some (read_call 11 words.now) ≡ true }
    ensures { Some (edited_numbers result, store.new) ≡ option_map (store_step store.old) (read_call 11 words.now) }
{
    tree_removals::remove_atoms_by(store, words[0], &words[2..])
}

fn remove_empty(store: &mut [u64], words: &[u64]) -> Result<Edited, Refusal>
    requires good { Good store.old }
    requires reads_call { is_some (read_call 12 words.now) ≡ true }
    ensures { Some (edited_numbers result, store.new) ≡ option_map (store_step store.old) (read_call 12 words.now) }
{
    empty_removals::remove_empty(store, words[0])
}

// The words of a join are two positions, as long.
fn join(store: &mut [u64], code: u64, words: &[u64]) -> Result<Edited, Refusal>
    requires good { Good store.old }
    requires reads_call { is_some (read_call code words.now) ≡ true }
    requires code_range { (13 ≤ code) × (code ≤ 16) }
    ensures { Some (edited_numbers result, store.new) ≡ option_map (store_step store.old) (read_call code words.now) }
{
    let end = words.len();
    let half = end / 2;
    joins::join_at(store, &words[0..half], &words[half..end])
}

// The words are an atom's position, then the element.
fn set_element(store: &mut [u64], words: &[u64]) -> Result<Edited, Refusal>
    requires good { Good store.old }
    requires reads_call { is_some (read_call 17 words.now) ≡ true }
    ensures { Some (edited_numbers result, store.new) ≡ option_map (store_step store.old) (read_call 17 words.now) }
{
    settings::set_element(store, &words[0..5], words[5])
}

// ---- one call

// By the code, which is not that of `AddAtom`; the last arm has the joins, 13 to 16.
pub fn run_call(
    store: &mut [u64],
    code: u64,
    words: &[u64],
    bytes: &[u8],
) -> Result<Edited, Refusal>
    requires good { Good store.old }
    requires no_addition { code ≡ 2 → ⊥ }
    requires reads_call { is_some (read_call code words.now) ≡ true }
    requires narrowed { Narrowed words.now bytes.now }
    ensures { Some (edited_numbers result, store.new) ≡ option_map (store_step store.old) (read_call code words.now) }
{
    match code {
        1 => add_model(store, words),
        3..=6 => remove_at(store, code, words),
        7 => remove_chain_by_id(store, words, bytes),
        8 => remove_residue_by_id(store, words, bytes),
        9 => remove_conformer_by_id(store, words, bytes),
        10 => remove_atom_by_serial_number(store, words),
        11 => remove_atoms_by(store, words),
        12 => remove_empty(store, words),
        17 => set_element(store, words),
        _ => join(store, code, words),
    }
}
