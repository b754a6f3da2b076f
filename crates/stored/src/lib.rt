// Stored words (document 01, "Identifiers" and "Store"): whether a text as given is the text of a stored word, and whether a word is in the
// stored form of an identifier.
#![tactic(auto)]

ghost use Rattle.std.specs.Prelude.{◌≡◌, ◌≤◌, ◌^◌};
ghost use Rattle.machine.specs.Text.{chain_id, insertion_code, conformer_name, alternative_location, atom_name, matches, matches_optional, stored_by, absent_or, packed_text};
ghost use Rattle.stored.specs.Word.{stored_byte, stored_text};

// ---- comparing as given

// The texts are equal byte by byte. An empty text matches nothing, and a zero byte at the end of a text isn't padding.
pub fn same_text(text: &[u8], stored: u64) -> bool
    ensures { result ≡ matches text.now stored }
{
    if let [] | [.., 0] = text {
        return false;
    }
    text.len() <= 8 && helper::pack_text(text, false) == stored
}

// An absent text matches what is stored as absent.
pub fn same_optional(flag: u64, text: &[u8], stored: u64) -> bool
    ensures { result ≡ matches_optional (record { flag = flag; text = text.now }) stored }
{
    if flag == 0 {
        stored == 0
    } else {
        same_text(text, stored)
    }
}

// ---- stored and packed forms

// Tests one byte by the number that is left from it on, so no byte is taken out of the word. `low` is 1 where the last byte may be no blank,
// `up` says that a..z are refused. The first test settles nearly all bytes, which are below a.
fn stored_byte(low: u64, up: bool, rest: u64, unit: u64) -> bool
    requires { (low ≤ 1) × (1 ≤ unit) × (unit ≤ 2 ^ 56) }
    ensures { result ≡ stored_byte low up rest unit }
{
    if rest < 97 * unit {
        (rest == 0) | (32 * unit + low <= rest)
    } else if rest < 123 * unit {
        !up
    } else {
        rest < 127 * unit
    }
}

// Tests all eight bytes. The loop goes by a byte's place and not by what is left, so the compiler knows its turns and needs no division.
fn stored_text(low: u64, up: bool, w: u64) -> bool
    requires { low ≤ 1 }
    ensures { result ≡ stored_text low up 8 w }
{
    let mut rest = w;
    for n in (0u32..8).rev() {
        if rest == 0 {
            return true;
        }
        let unit = 1u64 << (8 * n);
        if !stored_byte(low, up, rest, unit) {
            return false;
        }
        rest %= unit;
    }
    true
}

// A text of a query is packed, and every byte is 32..126.
pub fn packed_text(w: u64) -> bool
    ensures { result ≡ packed_text w }
{
    stored_text(0, false, w)
}

// A word whose first byte is 33 or more isn't empty and starts with no blank.
pub fn stored_chain_id(w: u64) -> bool
    ensures { result ≡ stored_by chain_id w }
{
    (0x2100_0000_0000_0000 <= w) & stored_text(1, false, w)
}

pub fn stored_name(w: u64) -> bool
    ensures { result ≡ stored_by conformer_name w }
{
    (0x2100_0000_0000_0000 <= w) & stored_text(1, true, w)
}

pub fn stored_code(w: u64) -> bool
    ensures { result ≡ absent_or insertion_code w }
{
    w == 0 || stored_name(w)
}

pub fn stored_location(w: u64) -> bool
    ensures { result ≡ absent_or alternative_location w }
{
    stored_code(w)
}

pub fn stored_atom_name(w: u64) -> bool
    ensures { result ≡ stored_by atom_name w }
{
    stored_code(w)
}
