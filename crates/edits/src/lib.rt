// A list of edits as one call: the store is checked once, and each call then runs its core. Consecutive additions reuse the previous
// insertion point, so a list in file order does not rescan the model.
#![tactic(auto)]

ghost use Rattle.std.specs.Prelude.{◌≡◌, true, ◌+◌, ◌*◌, ◌≤◌, length, Some, option_map};
ghost use Rattle.machine.specs.Lists.{is_some};
ghost use Rattle.machine.specs.Answer.{edited_numbers, counted_numbers};
ghost use Rattle.machine.specs.Edit.{store_step};
ghost use Rattle.moves.specs.Over.{over};
ghost use Rattle.seek.specs.Seek.{Good};
ghost use Rattle.insertion.specs.Cursor.{Valid};
ghost use Rattle.calls.specs.Format.{read_call, read_calls};
ghost use Rattle.edits.specs.Apply.{calls_of, applied, ran, run_calls, apply_run};

use additions::Added;
use insertion::Cursor;
use machine::{EditAnswer, Edited, Refusal};

// ---- one call

// The bytes are lent to the calls that have texts. Any call but an addition of an atom loses the cursor.
fn apply_call(
    store: &mut [u64],
    cursor: Cursor,
    code: u64,
    words: &[u64],
    bytes: &mut [u8],
) -> Added
    requires good { Good store.old }
    requires valid { Valid cursor store.old }
    requires reads_call { is_some (read_call code words.now) ≡ true }
    requires bytes_room { length words.now ≤ length bytes.old }
    ensures cursor_valid { Valid result.cursor store.new }
    ensures store_after { Some (edited_numbers result.edited, store.new) ≡ option_map (store_step store.old) (read_call code words.now) }
{
    dispatch::narrow(words, bytes);
    if code == 2 {
        return dispatch::add_atom(store, cursor, words, bytes);
    }
    let edited = dispatch::run_call(store, code, words, bytes);
    let no_cursor = insertion::no_cursor();
    Added {
        edited: edited,
        cursor: no_cursor,
    }
}

// ---- the list

fn put_answer(out: &mut [u64], at: usize, edited: Result<Edited, Refusal>)
    requires { at + 3 ≤ length out.old }
    ensures { out.new ≡ over at (edited_numbers edited) out.old }
{
    let edit = EditAnswer::from(edited);
    let words = [edit.result, edit.found, edit.removed];
    moves::write_over(out, at, &words);
}

// Each call in turn, and three words of the output for its answer. No call has more than 1,024 words behind its header.
fn apply_all(store: &mut [u64], list: &[u64], out: &mut [u64])
    requires good { Good store.old }
    requires reads_list { is_some (read_calls list.now) ≡ true }
    requires answers_room { 3 * length (calls_of (read_calls list.now)) ≤ length out.old }
    ensures { (store.new, out.new) ≡ applied store.old out.old (calls_of (read_calls list.now)) }
{
    let mut bytes: [u8; 1024] = [0; 1024];
    let mut cursor = insertion::no_cursor();
    let mut at: usize = 0;
    let mut written: usize = 0;
    while at < list.len() {
        let start = at + 2;
        let end = start + list[at + 1] as usize;
        let added = apply_call(store, cursor, list[at], &list[start..end], &mut bytes);
        let edited = added.edited;
        let next = added.cursor;
        put_answer(out, written, edited);
        cursor = next;
        at = end;
        written += 3;
    }
}

// On a store that was checked.
fn apply_good(store: &mut [u64], list: &[u64], out: &mut [u64]) -> Result<u64, Refusal>
    requires { Good store.old }
    ensures { ran (counted_numbers result) store.new out.new
        ≡ run_calls store.old out.old (read_calls list.now) }
{
    let calls = calls::count_calls(list).ok_or(Refusal::BadList)?;
    let room = (out.len() / 3) as u64;
    if room < calls {
        return Err(Refusal::ShortAnswers);
    }
    apply_all(store, list, out);
    Ok(calls)
}

// A refused call changes nothing, and the list goes on. A store, a list or an output that is refused changes nothing at all.
pub fn apply(store: &mut [u64], list: &[u64], out: &mut [u64]) -> Result<u64, Refusal>
    ensures { record { numbers = counted_numbers result; store = store.new; out = out.new }
        ≡ apply_run store.old list.now out.old }
{
    store::check(store)?;
    apply_good(store, list, out)
}
