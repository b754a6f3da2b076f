// Identifiers, after pdbtbx's helper.rs (document 01, "Identifiers"): what becomes of a text that is given, from the check of its bytes to
// the word that is stored.
#![tactic(auto)]

ghost use Rattle.std.specs.Prelude.{◌≡◌, cond};
ghost use Rattle.machine.specs.Lists.{all};
ghost use Rattle.machine.specs.Text.{plain, blank, to_upper, trim_start, trim, pack, fit, chain_id, uppercase_or, insertion_code, alternative_location, atom_name, by_flag};
ghost use Rattle.machine.specs.LinesIn.{word};
ghost use Rattle.helper.specs.Text.{trim_end, upper_if};
ghost use Rattle.machine.specs.declared.Prepared.TheVariants.{Bad};

use machine::Prepared;

// A byte of an identifier is 32..126.
pub fn check_char(b: u8) -> bool
    ensures { result ≡ plain b }
{
    (32..=126).contains(&b)
}

// The blanks are the bytes 9..13 and 32; `is_ascii_whitespace` leaves out 11.
pub fn is_blank(b: u8) -> bool
    ensures { result ≡ blank b }
{
    matches!(b, 9..=13 | 32)
}

// ---- checking, trimming, packing

// The text without the blanks at its front.
fn trim_start(text: &[u8]) -> &[u8]
    ensures { result.now ≡ trim_start text.now }
{
    let mut rest = text;
    while let [first, tail @ ..] = rest
        && is_blank(*first)
    {
        rest = tail;
    }
    rest
}

// The text without the blanks at its end.
fn trim_end(text: &[u8]) -> &[u8]
    ensures { result.now ≡ trim_end text.now }
{
    let mut rest = text;
    while let [head @ .., last] = rest
        && is_blank(*last)
    {
        rest = head;
    }
    rest
}

// The text without the blanks at both its ends.
fn trimmed(text: &[u8]) -> &[u8]
    ensures { result.now ≡ trim text.now }
{
    trim_end(trim_start(text))
}

// Whether every byte passes `check_char`.
fn valid_text(text: &[u8]) -> bool
    ensures { result ≡ all plain text.now }
{
    text.iter().all(|b| check_char(*b))
}

// The byte, with a..z raised if `up`.
fn upper_if(b: u8, up: bool) -> u8
    ensures { result ≡ cond up (to_upper b) b }
{
    if up { b.to_ascii_uppercase() } else { b }
}

// The first eight bytes as a word, with a..z raised if `up`. No later byte is read, however long the text is.
pub fn pack_text(text: &[u8], up: bool) -> u64
    ensures { result ≡ pack (upper_if up text.now) }
{
    let mut word = 0;
    let mut unit: u64 = 0x100_0000_0000_0000;
    for i in 0..text.len().min(8) {
        word += u64::from(upper_if(text[i], up)) * unit;
        unit /= 256;
    }
    word
}

// A text without the blanks at both its ends, as a word; no rule is asked.
pub fn trimmed_word(text: &[u8]) -> u64
    ensures { result ≡ word text.now }
{
    pack_text(trimmed(text), false)
}

// ---- preparing

// The packed text; a trimmed text of over 8 bytes is bad.
fn packed_or_bad(text: &[u8], up: bool) -> Prepared
    ensures { result ≡ fit (upper_if up text.now) }
{
    if text.len() <= 8 {
        Prepared::Stored(pack_text(text, up))
    } else {
        Prepared::Bad
    }
}

// A chain id is trimmed, then checked, and keeps its case: pdbtbx's `Model::add_atom` trims it before `prepare_identifier` checks it.
pub fn prepare_chain_id(text: &[u8]) -> Prepared
    ensures { result ≡ chain_id text.now }
{
    let t = trimmed(text);
    if valid_text(t) & !t.is_empty() {
        packed_or_bad(t, false)
    } else {
        Prepared::Bad
    }
}

// The text is checked, then trimmed and raised; a bad or blank one gives the other answer.
fn prepare_uppercase_or(text: &[u8], other: Prepared) -> Prepared
    ensures { result ≡ uppercase_or text.now other }
{
    let t = trimmed(text);
    if valid_text(text) & !t.is_empty() {
        packed_or_bad(t, true)
    } else {
        other
    }
}

// For conformer names.
pub fn prepare_identifier_uppercase(text: &[u8]) -> Prepared
    ensures { result ≡ uppercase_or text.now Bad }
{
    prepare_uppercase_or(text, Prepared::Bad)
}

// An atom name is trimmed, then checked and raised; it may be empty.
pub fn prepare_atom_name(text: &[u8]) -> Prepared
    ensures { result ≡ atom_name text.now }
{
    let t = trimmed(text);
    if valid_text(t) {
        packed_or_bad(t, true)
    } else {
        Prepared::Bad
    }
}

// With flag 0 the text isn't read; a flag over 1 is bad.
fn prepare_optional(flag: u64, text: &[u8], other: Prepared) -> Prepared
    ensures { result ≡ by_flag flag (uppercase_or text.now other) }
{
    match flag {
        0 => Prepared::Absent,
        1 => prepare_uppercase_or(text, other),
        _ => Prepared::Bad,
    }
}

pub fn prepare_optional_code(flag: u64, text: &[u8]) -> Prepared
    ensures { result ≡ by_flag flag (insertion_code text.now) }
{
    prepare_optional(flag, text, Prepared::Bad)
}

// A bad or blank alternative location is stored as absent.
pub fn prepare_optional_location(flag: u64, text: &[u8]) -> Prepared
    ensures { result ≡ by_flag flag (alternative_location text.now) }
{
    prepare_optional(flag, text, Prepared::Absent)
}
