// The columns of PDB lines, put one after the other into a line of blanks, and which fields fit into their columns.
#![tactic(auto)]

ghost use Rattle.std.specs.Prelude.{◌≡◌, true, cond, ◌++◌, [], ◌∷◌, ◌+◌, ◌-◌, ◌*◌, ◌/◌, ◌^◌, ◌≤◌, ◌<◌, leb, ltb, eqb, nat_abs, length, get_or};
ghost use Rattle.std.specs.Int.{w64};
ghost use Rattle.std.proofs.Common.{to_z};
ghost use Rattle.machine.specs.Lists.{all, bytes};
ghost use Rattle.machine.specs.Text.{text_of};
ghost use Rattle.machine.specs.Record.{finite, fields_of};
ghost use Rattle.machine.specs.Program.{decimal, newline};
ghost use Rattle.machine.specs.Lines.{at_left, at_right, column_text, fitting, blanks, line_of, dash, last_digits, pointed, charge_text, symbol, indent, name_columns, element_columns, atom_columns, model_columns, end_columns};
ghost use Rattle.machine.specs.LinesIn.{element_of};
ghost use Rattle.columns.specs.Put.{Put, Adds, GoodAtom, line_at, place_of, decimal_of, decimals_of, decimal_columns, columns_at};
ghost use Rattle.columns.specs.Cells as Cells;
ghost use Rattle.columns.specs.Cells.{symbol_columns};

use machine::Record;

// What an atom stands under: the words of its chain, residue and conformer.
#[derive(Clone, Copy)]
pub struct Above {
    pub chain: u64,
    pub serial: u64,
    pub code: u64,
    pub name: u64,
    pub location: u64,
}

// A number of units of the last decimal, with a minus or without.
#[derive(Clone, Copy)]
pub struct Decimal {
    pub minus: bool,
    pub size: u64,
}

// An atom's decimals as a line has them: coordinates to three decimals, occupancy and B-factor to two.
#[derive(Clone, Copy)]
pub struct Decimals {
    pub x: Decimal,
    pub y: Decimal,
    pub z: Decimal,
    pub occupancy: Decimal,
    pub b_factor: Decimal,
}

// ---- numbers

fn cell(shown: bool, minus: bool, n: u64) -> u8
    ensures { result ≡ Cells.cell shown minus n }
{
    if shown {
        return 48 + (n % 10) as u8;
    }
    if 0 < n {
        return 48 + (n % 10) as u8;
    }
    if minus {
        return 45;
    }
    32
}

fn to_come(shown: bool, minus: bool, n: u64) -> bool
    ensures { result ≡ Cells.to_come shown minus n }
{
    minus & (shown | (0 < n))
}

// A number at the right of its columns, with a minus or without.
fn put_number(line: &mut [u8; 81], at: usize, width: usize, minus: bool, n: u64)
    requires { (1 + length (dash minus) ≤ width) × (width ≤ 19)
        × (n < 10 ^ (width - length (dash minus))) × (at + width ≤ 81) × (length line.old ≡ 81) }
    ensures { Put at (column_text (at_right width (dash minus ++ decimal n))) line.old line.new }
{
    let mut left = width;
    let mut shown = true;
    let mut sign = minus;
    let mut rest = n;
    while 0 < left {
        left -= 1;
        line[at + left] = cell(shown, sign, rest);
        sign = to_come(shown, sign, rest);
        shown = false;
        rest = rest / 10;
    }
}

// The last digits of a number.
fn put_last(line: &mut [u8; 81], at: usize, count: usize, n: u64)
    requires { (at + count ≤ 81) × (length line.old ≡ 81) }
    ensures { Put at (last_digits count n) line.old line.new }
{
    let mut left = count;
    let mut rest = n;
    while 0 < left {
        left -= 1;
        line[at + left] = 48 + (rest % 10) as u8;
        rest = rest / 10;
    }
}

// n times 10^-d at the right of its columns, `whole` of them before the point.
fn put_decimal(
    line: &mut [u8; 81],
    at: usize,
    whole: usize,
    d: usize,
    unit: u64,
    minus: bool,
    n: u64,
)
    requires { (unit ≡ 10 ^ d) × (1 ≤ unit) × (1 + length (dash minus) ≤ whole) × (whole ≤ 19)
        × (n / 10 ^ d < 10 ^ (whole - length (dash minus))) × (at + whole + 1 + d ≤ 81) × (length line.old ≡ 81) }
    ensures { Put at (column_text (at_right (whole + (1 + d)) (dash minus ++ pointed d n))) line.old line.new }
{
    put_number(line, at, whole, minus, n / unit);
    line[at + whole] = b'.';
    put_last(line, at + whole + 1, d, n);
}

// An f64 as a decimal. "a value that rounds to zero has no minus"
fn decimal_of(bits: u64, unit: u64) -> Decimal
    requires { (1 ≤ unit) × (unit ≤ 1000) × (finite bits ≡ true) }
    ensures { result ≡ decimal_of unit bits }
{
    let n = rounding::in_units(bits, unit);
    Decimal {
        minus: (0x8000_0000_0000_0000 <= bits) & (0 < n),
        size: n,
    }
}

// "Coordinates go out to three decimals, occupancy and B-factor to two."
fn decimals_of(atom: &[u64]) -> Decimals
    requires { GoodAtom atom.now }
    ensures { result ≡ decimals_of (fields_of 0 atom.now) }
{
    Decimals {
        x: decimal_of(atom[Record::X], 1000),
        y: decimal_of(atom[Record::Y], 1000),
        z: decimal_of(atom[Record::Z], 1000),
        occupancy: decimal_of(atom[Record::OCCUPANCY], 100),
        b_factor: decimal_of(atom[Record::B_FACTOR], 100),
    }
}

// The size of a signed number, given by its two's complement bits.
fn size_of(bits: u64) -> u64
    ensures { result ≡ nat_abs (to_z w64 bits) }
{
    if bits < 0x8000_0000_0000_0000 {
        return bits;
    }
    0xffff_ffff_ffff_ffff - bits + 1
}

// ---- texts

// A packed text: its bytes from the highest down, until nothing is left of the word.
fn put_word(line: &mut [u8; 81], at: usize, word: u64)
    requires { (at + 8 ≤ 81) × (length line.old ≡ 81) }
    ensures { Put at (text_of word) line.old line.new }
{
    let mut i = at;
    let mut rest = word;
    let mut unit: u64 = 0x0100_0000_0000_0000;
    while 0 < rest {
        line[i] = (rest / unit) as u8;
        rest = rest % unit;
        unit = unit / 256;
        i += 1;
    }
}

fn bit(b: bool) -> usize
    ensures { (result ≡ cond b 1 0) × (result ≤ 1) }
{
    if b { 1 } else { 0 }
}

// How many columns a text is shorter than three.
fn short_of_three(word: u64) -> usize
    ensures { result ≡ 3 - length (text_of word) }
{
    bit(word == 0) + bit(word % 0x0100_0000_0000_0000 == 0) + bit(word % 0x0001_0000_0000_0000 == 0)
}

// Two bytes.
fn put_two(line: &mut [u8; 81], at: usize, first: u8, second: u8)
    requires { (at + 2 ≤ 81) × (length line.old ≡ 81) }
    ensures { Put at (first ∷ second ∷ []) line.old line.new }
{
    line[at] = first;
    line[at + 1] = second;
}

// ---- elements

// A byte of the element symbols, each at the right of two columns, from the missing one on.
fn symbol_byte(i: usize) -> u8
    requires { i < 238 }
    ensures { result ≡ get_or symbol_columns i 0 }
{
    let symbols =
        b"   HHELIBE B C N O FNENAMGALSI P SCLAR KCASCTI VCRMNFECONICUZNGAGEASSEBRKRRBSR YZRNBMOTCRURHPDAGCDINSNSBTE IXECSBALACEPRNDPMSMEUGDTBDYHOERTMYBLUHFTA WREOSIRPTAUHGTLPBBIPOATRNFRRAACTHPA UNPPUAMCMBKCFESFMMDNOLRRFDBSGBHHSMTDSRGCNNHFLMCLVTSOG";
    symbols[i]
}

// Whether a symbol has two letters.
fn two_letters(element: u64) -> bool
    requires { element ≤ 118 }
    ensures { result ≡ eqb (length (symbol element)) 2 }
{
    symbol_byte(element as usize * 2) != 32
}

// The element whose symbol has these bytes in its two columns, 0 where there is none.
fn find_symbol(first: u8, second: u8) -> u64
    ensures { result ≡ element_of (first ∷ second ∷ []) }
{
    let mut i: usize = 0;
    while i < 119 {
        if (first == symbol_byte(i * 2)) & (second == symbol_byte(i * 2 + 1)) {
            return i as u64;
        } else {
            i += 1;
        }
    }
    0
}

// The same; carbon, nitrogen, oxygen, hydrogen and sulphur, which nearly all atoms are, aren't looked for.
pub fn element_of(first: u8, second: u8) -> u64
    ensures { result ≡ element_of (first ∷ second ∷ []) }
{
    if first != 32 {
        return find_symbol(first, second);
    }
    match second {
        67 => 6,
        78 => 7,
        79 => 8,
        72 => 1,
        83 => 16,
        _ => find_symbol(first, second),
    }
}

fn put_symbol(line: &mut [u8; 81], at: usize, element: u64)
    requires { (element ≤ 118) × (at + 2 ≤ 81) × (length line.old ≡ 81) }
    ensures { Put at (column_text (at_right 2 (symbol element))) line.old line.new }
{
    let i = element as usize * 2;
    put_two(line, at, symbol_byte(i), symbol_byte(i + 1));
}

// "An atom name shorter than four starts in column 14, unless its element symbol has two letters": the blanks before it.
fn indent_of(name: u64, element: u64) -> usize
    requires { element ≤ 118 }
    ensures { (result ≡ indent name element) × (result ≤ 1) }
{
    bit((name % 0x0000_0100_0000_0000 == 0) & !two_letters(element))
}

// "Charge is a digit and a sign, blank at zero."
fn put_charge(line: &mut [u8; 81], at: usize, charge: u64)
    requires { (leb (length (charge_text (to_z w64 charge))) 2 ≡ true) × (at + 2 ≤ 81) × (length line.old ≡ 81) }
    ensures { Put at (column_text (at_left 2 (charge_text (to_z w64 charge)))) line.old line.new }
{
    if charge == 0 {
        put_two(line, at, 32, 32);
    } else {
        if charge < 0x8000_0000_0000_0000 {
            put_two(line, at, 48 + size_of(charge) as u8, 43);
        } else {
            put_two(line, at, 48 + size_of(charge) as u8, 45);
        }
    }
}

// ---- the parts of an atom's line

// The names of records, packed.
const ATOM: u64 = 0x4154_4f4d_0000_0000;

const HETATM: u64 = 0x4845_5441_544d_0000;

const MODEL: u64 = 0x4d4f_4445_4c00_0000;

const ENDMDL: u64 = 0x454e_444d_444c_0000;

fn record_name(hetero: u64) -> u64
    ensures { text_of result ≡ cond (eqb hetero 1) (bytes "HETATM") (bytes "ATOM") }
{
    if hetero == 1 {
        return HETATM;
    }
    ATOM
}

// Columns 1 to 16.
fn put_name_columns(line: &mut [u8; 81], atom: &[u64])
    requires { GoodAtom atom.now × (all fitting (name_columns (fields_of 0 atom.now)) ≡ true) × (length line.old ≡ 81) }
    ensures { Adds 0 16 (name_columns (fields_of 0 atom.now)) line.old line.new }
{
    put_word(line, 0, record_name(atom[Record::HETERO]));
    put_number(line, 6, 5, false, atom[Record::SERIAL]);
    let name = atom[Record::ATOM_NAME];
    put_word(line, 12 + indent_of(name, atom[Record::ELEMENT]), name);
}

// Columns 17 to 30.
fn put_place_columns(line: &mut [u8; 81], above: Above)
    requires { (all fitting (place_of above) ≡ true) × (length line.old ≡ 81) }
    ensures { Adds 16 30 (place_of above) line.old line.new }
{
    put_word(line, 16, above.location);
    put_word(line, 17 + short_of_three(above.name), above.name);
    put_word(line, 21, above.chain);
    put_number(
        line,
        22,
        4,
        0x8000_0000_0000_0000 <= above.serial,
        size_of(above.serial),
    );
    put_word(line, 26, above.code);
}

// Columns 31 to 76.
fn put_decimals(line: &mut [u8; 81], decimals: Decimals)
    requires { (all fitting (decimal_columns decimals) ≡ true) × (length line.old ≡ 81) }
    ensures { Adds 30 76 (decimal_columns decimals) line.old line.new }
{
    put_decimal(line, 30, 4, 3, 1000, decimals.x.minus, decimals.x.size);
    put_decimal(line, 38, 4, 3, 1000, decimals.y.minus, decimals.y.size);
    put_decimal(line, 46, 4, 3, 1000, decimals.z.minus, decimals.z.size);
    put_decimal(
        line,
        54,
        3,
        2,
        100,
        decimals.occupancy.minus,
        decimals.occupancy.size,
    );
    put_decimal(
        line,
        60,
        3,
        2,
        100,
        decimals.b_factor.minus,
        decimals.b_factor.size,
    );
}

// Columns 77 to 80.
fn put_element_columns(line: &mut [u8; 81], atom: &[u64])
    requires { GoodAtom atom.now × (all fitting (element_columns (fields_of 0 atom.now)) ≡ true) × (length line.old ≡ 81) }
    ensures { Adds 76 80 (element_columns (fields_of 0 atom.now)) line.old line.new }
{
    put_symbol(line, 76, atom[Record::ELEMENT]);
    put_charge(line, 78, atom[Record::CHARGE]);
}

// ---- whole lines

// Eighty blanks and a newline.
fn blank_line() -> [u8; 81]
    ensures { result ≡ blanks 80 ++ newline }
{
    let mut line = [32u8; 81];
    line[80] = 10;
    line
}

// ATOM or HETATM, with decimals in place of the words of the f64 values.
pub fn decimal_line(above: Above, atom: &[u64], decimals: Decimals) -> [u8; 81]
    requires { GoodAtom atom.now × (all fitting (columns_at above atom.now decimals) ≡ true) }
    ensures { result ≡ line_of (columns_at above atom.now decimals) }
{
    let mut line = blank_line();
    put_name_columns(&mut line, atom);
    put_place_columns(&mut line, above);
    put_decimals(&mut line, decimals);
    put_element_columns(&mut line, atom);
    line
}

// The same of these words. The parts are put here again: a call of the other would copy the line.
pub fn atom_line(above: Above, atom: &[u64]) -> [u8; 81]
    requires { GoodAtom atom.now × (all fitting (atom_columns (line_at above atom.now)) ≡ true) }
    ensures { result ≡ line_of (atom_columns (line_at above atom.now)) }
{
    let mut line = blank_line();
    put_name_columns(&mut line, atom);
    put_place_columns(&mut line, above);
    put_decimals(&mut line, decimals_of(atom));
    put_element_columns(&mut line, atom);
    line
}

// MODEL.
pub fn model_line(serial: u64) -> [u8; 81]
    requires { all fitting (model_columns (record { serial = serial })) ≡ true }
    ensures { result ≡ line_of (model_columns (record { serial = serial })) }
{
    let mut line = blank_line();
    put_word(&mut line, 0, MODEL);
    put_number(&mut line, 10, 4, false, serial);
    line
}

// ENDMDL.
pub fn end_line() -> [u8; 81]
    ensures { result ≡ line_of end_columns }
{
    let mut line = blank_line();
    put_word(&mut line, 0, ENDMDL);
    line
}

// ---- which fields fit

// A number with a minus or without: in the columns of `limit`, or of ten times as much without a minus.
fn within(minus: bool, n: u64, limit: u64) -> bool
    requires { limit ≤ 1000000 }
    ensures { result ≡ cond minus (ltb n limit) (ltb n (limit * 10)) }
{
    if minus {
        return n < limit;
    }
    n < limit * 10
}

// Three decimals in eight columns, two in six.
fn fits_decimals(decimals: Decimals) -> bool
    ensures { result ≡ all fitting (decimal_columns decimals) }
{
    within(decimals.x.minus, decimals.x.size, 1_000_000)
        & within(decimals.y.minus, decimals.y.size, 1_000_000)
        & within(decimals.z.minus, decimals.z.size, 1_000_000)
        & within(decimals.occupancy.minus, decimals.occupancy.size, 10_000)
        & within(decimals.b_factor.minus, decimals.b_factor.size, 10_000)
}

// A packed text has at most k bytes where its lowest 8 - k bytes are zero.
fn fits_place(above: Above) -> bool
    ensures { result ≡ all fitting (place_of above) }
{
    (above.location % 0x0100_0000_0000_0000 == 0)
        & (above.name % 0x0000_0100_0000_0000 == 0)
        & (above.chain % 0x0100_0000_0000_0000 == 0)
        & within(
            0x8000_0000_0000_0000 <= above.serial,
            size_of(above.serial),
            1000,
        )
        & (above.code % 0x0100_0000_0000_0000 == 0)
}

fn fits_name(atom: &[u64]) -> bool
    requires { GoodAtom atom.now }
    ensures { result ≡ all fitting (name_columns (fields_of 0 atom.now)) }
{
    (atom[Record::SERIAL] < 100_000) & (atom[Record::ATOM_NAME] % 0x0000_0001_0000_0000 == 0)
}

fn fits_element(atom: &[u64]) -> bool
    requires { GoodAtom atom.now }
    ensures { result ≡ all fitting (element_columns (fields_of 0 atom.now)) }
{
    size_of(atom[Record::CHARGE]) < 10
}

// Whether no field of an atom's line is too wide for its columns.
pub fn fits_line(above: Above, atom: &[u64], decimals: Decimals) -> bool
    requires { GoodAtom atom.now }
    ensures { result ≡ all fitting (columns_at above atom.now decimals) }
{
    fits_name(atom) & fits_place(above) & fits_decimals(decimals) & fits_element(atom)
}

pub fn fits_atom(above: Above, atom: &[u64]) -> bool
    requires { GoodAtom atom.now }
    ensures { result ≡ all fitting (atom_columns (line_at above atom.now)) }
{
    let decimals = decimals_of(atom);
    fits_line(above, atom, decimals)
}

pub fn fits_model(serial: u64) -> bool
    ensures { result ≡ all fitting (model_columns (record { serial = serial })) }
{
    serial < 10_000
}
