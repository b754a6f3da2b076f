// Terms, after pdbtbx's search.rs (document 01, "Trees and find"): Kleene's tables, and a term's value at its level and at a place.
#![tactic(auto)]

ghost use Rattle.std.specs.Prelude.{◌≡◌, cond, true, false, List, ℕ, ◌+◌, ◌*◌, ◌≤◌, ◌<◌, length, get_or, eqb, Some};
ghost use Rattle.machine.specs.Kleene as Kleene;
ghost use Rattle.machine.specs.Record.{Atom, fields_of, read_out};
ghost use Rattle.machine.specs.Query as Query;
ghost use Rattle.machine.specs.declared.Tri.TheVariants.{False, Undecided};
ghost use Rattle.seek.specs.Seek.{record_at};
ghost use Rattle.terms.specs.Levels.{at_model, at_chain, at_residue, at_conformer, at_atom, by_words, by_hetero, term_value_at, narrow, Inside};

use machine::{AtomRec, Ops, Record, RecordNumbers, Term, Tri};

// ---- Kleene's tables

pub fn decided(b: bool) -> Tri
    ensures { result ≡ Kleene.decided b }
{
    if b { Tri::True } else { Tri::False }
}

pub fn not_tri(a: Tri) -> Tri
    ensures { result ≡ Kleene.not_t a }
{
    match a {
        Tri::False => Tri::True,
        Tri::True => Tri::False,
        Tri::Undecided => Tri::Undecided,
    }
}

fn and_tri(a: Tri, b: Tri) -> Tri
    ensures { result ≡ Kleene.and_t a b }
{
    match a {
        Tri::False => Tri::False,
        Tri::True => b,
        Tri::Undecided => match b {
            Tri::False => Tri::False,
            Tri::True => Tri::Undecided,
            Tri::Undecided => Tri::Undecided,
        },
    }
}

fn or_tri(a: Tri, b: Tri) -> Tri
    ensures { result ≡ Kleene.or_t a b }
{
    match a {
        Tri::True => Tri::True,
        Tri::False => b,
        Tri::Undecided => match b {
            Tri::True => Tri::True,
            Tri::False => Tri::Undecided,
            Tri::Undecided => Tri::Undecided,
        },
    }
}

fn xor_tri(a: Tri, b: Tri) -> Tri
    ensures { result ≡ Kleene.xor_t a b }
{
    match a {
        Tri::Undecided => Tri::Undecided,
        Tri::False => b,
        Tri::True => not_tri(b),
    }
}

pub fn apply(o: Ops, a: Tri, b: Tri) -> Tri
    ensures { result ≡ Kleene.apply_t o a b }
{
    match o {
        Ops::And => and_tri(a, b),
        Ops::Or => or_tri(a, b),
        Ops::Xor => xor_tri(a, b),
    }
}

// ---- a term's value at its level

// "Ranges include both ends."
fn between(low: u64, high: u64, n: u64) -> bool
    ensures { result ≡ Query.between low high n }
{
    (low <= n) & (n <= high)
}

fn between_signed(low: i64, high: i64, n: i64) -> bool
    ensures { result ≡ Query.between_z low high n }
{
    (low <= n) & (n <= high)
}

fn between_floats(low: f64, high: f64, n: f64) -> bool
    ensures { result ≡ Query.between_f low high n }
{
    (low <= n) & (n <= high)
}

pub fn optional_matches_model(t: Term, serial: u64) -> Tri
    ensures { (names : Query.Names) → result ≡ Query.term_value names (at_model (Some (record { serial = serial }))) t }
{
    match t {
        Term::ModelSerialNumber(n) => decided(serial == n),
        Term::ModelSerialNumberRange(low, high) => decided(between(low, high, serial)),
        _ => Tri::Undecided,
    }
}

pub fn optional_matches_chain(t: Term, id: u64) -> Tri
    ensures { (names : Query.Names) → result ≡ Query.term_value names (at_chain (Some (record { id = id }))) t }
{
    match t {
        Term::ChainId(n) => decided(id == n),
        Term::ChainIdRange(low, high) => decided(between(low, high, id)),
        _ => Tri::Undecided,
    }
}

// The serial number is given as its bits.
pub fn optional_matches_residue(t: Term, serial: u64, code: u64) -> Tri
    ensures { (names : Query.Names) → result ≡ Query.term_value names (at_residue (Some (record { serial = serial; code = code }))) t }
{
    let number = floats::int_of(serial);
    match t {
        Term::ResidueSerialNumber(n) => decided(between_signed(n, n, number)),
        Term::ResidueSerialNumberRange(low, high) => decided(between_signed(low, high, number)),
        Term::ResidueInsertionCode(c) => decided(code == c),
        Term::ResidueId(n, c) => decided(between_signed(n, n, number) & (code == c)),
        _ => Tri::Undecided,
    }
}

// "false where the conformer's name isn't among" the names, else for the atom to decide
fn outside(residues: &[u64], name: u64) -> Tri
    ensures { result ≡ cond (Query.member residues.now name) Undecided False }
{
    if reference_tables::contains(residues, name) {
        return Tri::Undecided;
    }
    Tri::False
}

pub fn optional_matches_conformer(t: Term, name: u64, location: u64, residues: &[u64]) -> Tri
    ensures { (others : List ℕ)
        → result ≡ Query.term_value (record { residues = residues.entry.now; atoms = others })
        (at_conformer (Some (record { name = name; location = location }))) t }
{
    match t {
        Term::ConformerName(n) => decided(name == n),
        Term::ConformerAlternativeLocation(l) => decided(location == l),
        Term::ConformerId(n, l) => decided((name == n) & (location == l)),
        Term::Backbone => outside(residues, name),
        Term::SideChain => outside(residues, name),
        _ => Tri::Undecided,
    }
}

// "Element on an atom without one is undecided."
fn element_is(element: u64, n: u64) -> Tri
    ensures { result ≡ cond (eqb element 0) Undecided (Kleene.decided (eqb element n)) }
{
    if element == 0 {
        Tri::Undecided
    } else {
        decided(element == n)
    }
}

// The terms that go by one of the atom's floats.
fn matches_float(t: Term, atom: AtomRec) -> Tri
    ensures { (a : Atom) → atom ≡ read_out a → by_words t ≡ false → (names : Query.Names)
        → result ≡ Query.term_value names (at_atom (Some a)) t }
{
    match t {
        Term::BFactor(x) => decided(floats::close(atom.b_factor, x)),
        Term::BFactorRange(low, high) => decided(between_floats(low, high, atom.b_factor)),
        Term::Occupancy(x) => decided(floats::close(atom.occupancy, x)),
        Term::OccupancyRange(low, high) => decided(between_floats(low, high, atom.occupancy)),
        _ => Tri::Undecided,
    }
}

// The terms that ask whether the atom is hetero. Change request §8: "Hetero goes first: on a hetero atom Backbone and SideChain are false." It is
// tested in one place, before the term, so that no other term reads its word.
fn matches_hetero(t: Term, atom: AtomRec, atoms: &[u64]) -> Tri
    ensures { (a : Atom) → atom ≡ read_out a → by_hetero t ≡ true → (others : List ℕ)
        → result ≡ Query.term_value (record { residues = others; atoms = atoms.now }) (at_atom (Some a)) t }
{
    if atom.hetero {
        match t {
            Term::Backbone => Tri::False,
            Term::SideChain => Tri::False,
            Term::Hetero => Tri::True,
            _ => Tri::Undecided,
        }
    } else {
        match t {
            Term::Backbone => decided(reference_tables::contains(atoms, atom.name)),
            Term::SideChain => decided(!reference_tables::contains(atoms, atom.name)),
            Term::Hetero => Tri::False,
            _ => Tri::Undecided,
        }
    }
}

// The atom is given as it is read out of its record.
pub fn optional_matches_atom(t: Term, atom: AtomRec, atoms: &[u64]) -> Tri
    ensures { (a : Atom) → atom ≡ read_out a → (others : List ℕ)
        → result ≡ Query.term_value (record { residues = others; atoms = atoms.now }) (at_atom (Some a)) t }
{
    match t {
        Term::AtomSerialNumber(n) => decided(atom.serial == n),
        Term::AtomSerialNumberRange(low, high) => decided(between(low, high, atom.serial)),
        Term::AtomName(n) => decided(atom.name == n),
        Term::Element(n) => element_is(atom.element, n),
        Term::Backbone | Term::SideChain | Term::Hetero => matches_hetero(t, atom, atoms),
        _ => matches_float(t, atom),
    }
}

// ---- a term's value at a place

// One of the twelve words of a record.
fn word(words: &[u64], number: u64, k: usize) -> u64
    requires { (number * 12 + 12 ≤ length words.now) × (k < 12) }
    ensures { result ≡ get_or (record_at number words.now) k 0 }
{
    words[number as usize * Record::WIDTH + k]
}

// The term's value where the record of one level alone is known, or where nothing is.
fn model_value(t: Term, words: &[u64], number: u64, known: bool) -> Tri
    requires { number * 12 + 12 ≤ length words.now }
    ensures { (names : Query.Names)
        → result ≡ Query.term_value names (at_model (Query.only_if known (Some (fields_of 4 (record_at number words.now))))) t }
{
    if known {
        optional_matches_model(t, word(words, number, Record::SERIAL))
    } else {
        Tri::Undecided
    }
}

fn chain_value(t: Term, words: &[u64], number: u64, known: bool) -> Tri
    requires { number * 12 + 12 ≤ length words.now }
    ensures { (names : Query.Names)
        → result ≡ Query.term_value names (at_chain (Query.only_if known (Some (fields_of 3 (record_at number words.now))))) t }
{
    if known {
        optional_matches_chain(t, word(words, number, Record::CHAIN_ID))
    } else {
        Tri::Undecided
    }
}

fn residue_value(t: Term, words: &[u64], number: u64, known: bool) -> Tri
    requires { number * 12 + 12 ≤ length words.now }
    ensures { (names : Query.Names)
        → result ≡ Query.term_value names (at_residue (Query.only_if known (Some (fields_of 2 (record_at number words.now))))) t }
{
    if known {
        let serial = word(words, number, Record::SERIAL);
        let code = word(words, number, Record::CODE);
        optional_matches_residue(t, serial, code)
    } else {
        Tri::Undecided
    }
}

fn conformer_value(t: Term, words: &[u64], number: u64, known: bool, residues: &[u64]) -> Tri
    requires { number * 12 + 12 ≤ length words.now }
    ensures { (others : List ℕ)
        → result ≡ Query.term_value (record { residues = residues.entry.now; atoms = others })
        (at_conformer (Query.only_if known (Some (fields_of 1 (record_at number words.now))))) t }
{
    if known {
        let name = word(words, number, Record::CONFORMER_NAME);
        let location = word(words, number, Record::LOCATION);
        optional_matches_conformer(t, name, location, residues)
    } else {
        Tri::Undecided
    }
}

// The atom is read out at two places, so that its floats are made only for the terms that go by one: a float that may be no number takes
// as many steps to make as the rest of a term.
fn atom_value(t: Term, words: &[u64], number: u64, known: bool, atoms: &[u64]) -> Tri
    requires { number * 12 + 12 ≤ length words.now }
    ensures { (others : List ℕ)
        → result ≡ Query.term_value (record { residues = others; atoms = atoms.now })
        (at_atom (Query.only_if known (Some (fields_of 0 (record_at number words.now))))) t }
{
    if known {
        match t {
            Term::BFactor(_)
            | Term::BFactorRange(_, _)
            | Term::Occupancy(_)
            | Term::OccupancyRange(_, _) => {
                matches_float(t, records::read_atom(words, number as usize))
            }
            _ => optional_matches_atom(t, records::read_atom(words, number as usize), atoms),
        }
    } else {
        Tri::Undecided
    }
}

// What two levels say of a term: false if either does, else what one of them decides.
fn narrowed(a: Tri, b: Tri) -> Tri
    ensures { result ≡ narrow a b }
{
    match a {
        Tri::False => Tri::False,
        Tri::True => match b {
            Tri::False => Tri::False,
            Tri::True => Tri::True,
            Tri::Undecided => Tri::True,
        },
        Tri::Undecided => b,
    }
}

// Only the records that the term asks for are read, where their kinds are from low to high. Backbone and SideChain ask for
// two: the atom's comes first, as the conformer's names are the longer list.
pub fn term_value(
    t: Term,
    words: &[u64],
    at: RecordNumbers,
    low: u64,
    high: u64,
    residues: &[u64],
    atoms: &[u64],
) -> Tri
    requires { Inside words.now at }
    ensures { result ≡ term_value_at words.now at low high residues.now atoms.now t }
{
    match t {
        Term::ModelSerialNumber(_) | Term::ModelSerialNumberRange(_, _) => {
            model_value(t, words, at.model, between(low, high, Record::MODEL))
        }
        Term::ChainId(_) | Term::ChainIdRange(_, _) => {
            chain_value(t, words, at.chain, between(low, high, Record::CHAIN))
        }
        Term::ResidueSerialNumber(_)
        | Term::ResidueSerialNumberRange(_, _)
        | Term::ResidueInsertionCode(_)
        | Term::ResidueId(_, _) => {
            residue_value(t, words, at.residue, between(low, high, Record::RESIDUE))
        }
        _ => {
            let last = atom_value(t, words, at.atom, between(low, high, Record::ATOM), atoms);
            match last {
                Tri::False => Tri::False,
                _ => {
                    let known = between(low, high, Record::CONFORMER);
                    let above = conformer_value(t, words, at.conformer, known, residues);
                    narrowed(last, above)
                }
            }
        }
    }
}
