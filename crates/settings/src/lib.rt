// Edits of one record's own words, in place, on a store that is known to be good.
#![tactic(auto)]

ghost use Rattle.std.specs.Prelude.{◌≡◌, ◌+◌, ◌*◌, ◌≤◌, ◌<◌, length, get_or, set};
ghost use Rattle.machine.specs.Answer.{edited_numbers};
ghost use Rattle.machine.specs.Edit.{step_by};
ghost use Rattle.seek.specs.Seek.{Good};
ghost use Rattle.settings.specs.Set.{element_set};

use elements::Element;
use machine::{Edited, Record, Refusal};

// Word k of the record of a number, read and written.

fn word(store: &[u64], at: usize, k: usize) -> u64
    requires { (at * 12 + 12 ≤ length store.now) × (k < 12) }
    ensures { result ≡ get_or store.now (at * 12 + k) 0 }
{
    store[at * Record::WIDTH + k]
}

fn put_word(store: &mut [u64], at: usize, k: usize, value: u64)
    requires { (at * 12 + 12 ≤ length store.old) × (k < 12) }
    ensures { store.new ≡ set store.old (at * 12 + k) value }
{
    store[at * Record::WIDTH + k] = value;
}

// Change request §6: the missing element of the atom at a position. Where there is one nothing changes, and found is 0.
pub fn set_element(store: &mut [u64], position: &[u64], element: u64) -> Result<Edited, Refusal>
    requires good { Good store.old }
    requires position_len { length position.now ≡ 5 }
    ensures { (edited_numbers result, store.new) ≡ step_by store.old (element_set position.now element) }
{
    let (at, _) = seek::locate(store, position)?;
    Element::from_number(element).ok_or(Refusal::BadValue)?;
    if 0 < word(store, at, Record::ELEMENT) {
        return Ok(Edited {
            found: 0,
            removed: 0,
        });
    }
    put_word(store, at, Record::ELEMENT, element);
    Ok(Edited {
        found: 1,
        removed: 0,
    })
}
