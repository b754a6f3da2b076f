// PDB lines in (change request §9): what a line is read as, whether it is one of the writer's, and what an atom lacks beside another.
#![tactic(auto)]

ghost use Rattle.std.specs.Prelude.{◌≡◌, ◌&&◌, cond, eqb, [], ◌∷◌, ◌+◌, ◌*◌, ◌≤◌, ◌<◌, length};
ghost use Rattle.std.specs.Float.{binary64};
ghost use Rattle.std.specs.Float.Ieee.{round, to_bits};
ghost use Rattle.machine.specs.Lists.{all, same};
ghost use Rattle.machine.specs.Record.{words};
ghost use Rattle.machine.specs.Lines.{fitting, line_of};
ghost use Rattle.machine.specs.LinesIn.{with_figure, figures, has_minus, signed_bits, word, atom_in, model_in};
ghost use Rattle.lines.specs.Taken.{taken_atom, taken_model, taken_end};
ghost use Rattle.building.specs.Prepared.{prepared_of};
ghost use Rattle.building.specs.Lacks.{lacks};
ghost use Rattle.columns.specs.Put.{GoodAtom, columns_at};
ghost use Rattle.scanner.specs.Scan.{values_of, above_in, decimal_in, decimals_in, without_floats, good_above, lacks_above};

use columns::{Above, Decimal, Decimals};
use machine::{NewAtom, PreparedAddition, Record};

// ---- fields

// A digit is put behind a number; any other byte is passed over.
fn with_figure(n: u64, b: u8) -> u64
    requires { n < 10000000000 }
    ensures { (result ≡ with_figure n b) × (result ≤ n * 10 + 9) }
{
    if (48 <= b) & (b <= 57) {
        n * 10 + (b as u64 - 48)
    } else {
        n
    }
}

// The number that the digits among some bytes make.
fn figures(text: &[u8]) -> u64
    requires { length text.now ≤ 8 }
    ensures { (result ≡ figures text.now) × (result < 100000000) }
{
    let mut n: u64 = 0;
    let mut i: usize = 0;
    while i < text.len() {
        n = with_figure(n, text[i]);
        i += 1;
    }
    n
}

// A number's digits, and whether a minus stands among its bytes.
#[derive(Clone, Copy)]
struct Number {
    minus: bool,
    size: u64,
}

fn number_in(text: &[u8]) -> Number
    requires { length text.now ≤ 8 }
    ensures { (result.minus ≡ has_minus text.now) × (result.size ≡ figures text.now) × (result.size < 100000000) }
{
    let mut minus = false;
    let mut n: u64 = 0;
    let mut i: usize = 0;
    while i < text.len() {
        let b = text[i];
        minus = minus | (45 == b);
        n = with_figure(n, b);
        i += 1;
    }
    Number {
        minus: minus,
        size: n,
    }
}

// A signed number's bits.
fn signed_bits(text: &[u8]) -> u64
    requires { length text.now ≤ 8 }
    ensures { result ≡ signed_bits text.now }
{
    let number = number_in(text);
    if number.size < 1 {
        return 0;
    }
    if number.minus {
        return 0xffff_ffff_ffff_ffff - number.size + 1;
    }
    number.size
}

// The f64 nearest to a decimal that is given in units of 1 / unit.
fn decimal_bits(text: &[u8], unit: u64) -> u64
    requires { (length text.now ≤ 8) × (1 ≤ unit) × (unit ≤ 1000) }
    ensures { result ≡ to_bits binary64 (round binary64 (has_minus text.now) (figures text.now) unit) }
{
    let number = number_in(text);
    rounding::nearest_bits(number.minus, number.size, unit)
}

// A text of one column.
fn letter_word(b: u8) -> u64
    ensures { result ≡ word (b ∷ []) }
{
    if helper::is_blank(b) {
        return 0;
    }
    b as u64 * 0x0100_0000_0000_0000
}

// H is the first byte of HETATM.
fn hetero_in(b: u8) -> u64
    ensures { result ≡ cond (eqb b 72) 1 0 }
{
    if b == 72 { 1 } else { 0 }
}

// ---- lines

// A line's chain alone.
pub fn chain_in(line: &[u8]) -> u64
    requires { length line.now ≡ 81 }
    ensures { result ≡ (atom_in line.now).chain.id }
{
    letter_word(line[21])
}

// What a line's atom stands under.
fn above_in(line: &[u8]) -> Above
    requires { length line.now ≡ 81 }
    ensures { result ≡ above_in (atom_in line.now) }
{
    Above {
        chain: letter_word(line[21]),
        serial: signed_bits(&line[22..26]),
        code: letter_word(line[26]),
        name: helper::trimmed_word(&line[17..20]),
        location: letter_word(line[16]),
    }
}

// A line's numbers.
fn values_in(line: &[u8]) -> NewAtom
    requires { length line.now ≡ 81 }
    ensures { result ≡ values_of (atom_in line.now) }
{
    NewAtom {
        serial: figures(&line[6..11]),
        x: decimal_bits(&line[30..38], 1000),
        y: decimal_bits(&line[38..46], 1000),
        z: decimal_bits(&line[46..54], 1000),
        occupancy: decimal_bits(&line[54..60], 100),
        b_factor: decimal_bits(&line[60..66], 100),
        element: columns::element_of(line[76], line[77]),
        charge: signed_bits(&line[78..80]),
        hetero: hetero_in(line[0]),
    }
}

// A line's atom as an addition.
pub fn atom_in(line: &[u8]) -> PreparedAddition
    requires { length line.now ≡ 81 }
    ensures { result ≡ prepared_of (atom_in line.now) }
{
    let above = above_in(line);
    let values = values_in(line);
    PreparedAddition {
        chain: above.chain,
        residue: above.serial,
        code: above.code,
        conformer: above.name,
        location: above.location,
        name: helper::trimmed_word(&line[12..16]),
        values: values,
    }
}

// A model's serial number.
pub fn model_in(line: &[u8]) -> u64
    requires { length line.now ≡ 81 }
    ensures { result ≡ (model_in line.now).serial }
{
    figures(&line[10..14])
}

// ---- which lines are the writer's

// All bytes are compared: a loop that stopped at the first difference would take them one at a time.
fn same_bytes(first: &[u8], second: &[u8]) -> bool
    requires { length first.now ≡ length second.now }
    ensures { result ≡ same first.now second.now }
{
    let mut equal = true;
    let mut i: usize = 0;
    while i < first.len() {
        equal = equal & (first[i] == second[i]);
        i += 1;
    }
    equal
}

// A decimal as it stands in its columns: no f64 is made of it to write it again.
fn decimal_in(text: &[u8]) -> Decimal
    requires { length text.now ≤ 8 }
    ensures { result ≡ decimal_in text.now }
{
    let number = number_in(text);
    Decimal {
        minus: number.minus & (0 < number.size),
        size: number.size,
    }
}

fn decimals_in(line: &[u8]) -> Decimals
    requires { length line.now ≡ 81 }
    ensures { result ≡ decimals_in line.now }
{
    Decimals {
        x: decimal_in(&line[30..38]),
        y: decimal_in(&line[38..46]),
        z: decimal_in(&line[46..54]),
        occupancy: decimal_in(&line[54..60]),
        b_factor: decimal_in(&line[60..66]),
    }
}

// The twelve words of a line's atom, with 0 for the f64 values.
fn words_in(line: &[u8]) -> [u64; Record::WIDTH]
    requires { length line.now ≡ 81 }
    ensures { result ≡ words 0 (without_floats (atom_in line.now).atom) }
{
    [
        Record::ATOM,
        figures(&line[6..11]),
        helper::trimmed_word(&line[12..16]),
        0,
        0,
        0,
        0,
        0,
        columns::element_of(line[76], line[77]),
        signed_bits(&line[78..80]),
        hetero_in(line[0]),
        0,
    ]
}

// The identifiers of a chain, a residue and a conformer are in stored form.
fn good_above(above: Above) -> bool
    ensures { result ≡ good_above above }
{
    stored::stored_chain_id(above.chain)
        & stored::stored_code(above.code)
        & stored::stored_name(above.name)
        & stored::stored_location(above.location)
}

// Whether an atom fits, and is written as this line.
fn is_written(above: Above, atom: &[u64], decimals: Decimals, line: &[u8]) -> bool
    requires good_atom { GoodAtom atom.now }
    requires line_len { length line.now ≡ 81 }
    ensures { result ≡ all fitting (columns_at above atom.now decimals) && same (line_of (columns_at above atom.now decimals)) line.now }
{
    if columns::fits_line(above, atom, decimals) {
        let again = columns::decimal_line(above, atom, decimals);
        return same_bytes(&again, line);
    }
    false
}

// What is read of a line has good values whatever stands there: the names alone are asked for.
pub fn taken_atom(line: &[u8]) -> bool
    requires { length line.now ≡ 81 }
    ensures { result ≡ taken_atom line.now }
{
    let above = above_in(line);
    let words = words_in(line);
    if good_above(above) & stored::stored_atom_name(words[Record::ATOM_NAME]) {
        return is_written(above, &words, decimals_in(line), line);
    }
    false
}

pub fn taken_model(line: &[u8]) -> bool
    requires { length line.now ≡ 81 }
    ensures { result ≡ taken_model line.now }
{
    let serial = model_in(line);
    if columns::fits_model(serial) {
        let again = columns::model_line(serial);
        return same_bytes(&again, line);
    }
    false
}

pub fn taken_end(line: &[u8]) -> bool
    requires { length line.now ≡ 81 }
    ensures { result ≡ taken_end line.now }
{
    let again = columns::end_line();
    same_bytes(&again, line)
}

// ---- what an atom lacks

// How many records an atom needs where another's chain, residue and conformer stand.
fn lacks_above(before: Above, above: Above) -> u64
    ensures { result ≡ lacks_above before above }
{
    let chain = above.chain == before.chain;
    let residue = chain & ((above.serial == before.serial) & (above.code == before.code));
    let conformer = residue & ((above.name == before.name) & (above.location == before.location));
    if conformer {
        return 1;
    }
    if residue {
        return 2;
    }
    if chain {
        return 3;
    }
    4
}

// Columns 17 to 27 have the identifiers of conformer, chain and residue: where they are equal, none is read, and in another chain no other.
pub fn lacks(before: &[u8], line: &[u8]) -> u64
    requires { (length before.now ≡ 81) × (length line.now ≡ 81) }
    ensures { result ≡ lacks (atom_in before.now) (atom_in line.now) }
{
    if same_bytes(&before[16..27], &line[16..27]) {
        return 1;
    }
    if chain_in(line) != chain_in(before) {
        return 4;
    }
    let earlier = above_in(before);
    let later = above_in(line);
    lacks_above(earlier, later)
}
