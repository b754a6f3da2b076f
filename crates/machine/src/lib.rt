// The types that the definitions of specs/ go by, and a record's numbers. Names are pdbtbx's where it has one.
#![tactic(auto)]

ghost use Rattle.std.specs.Prelude.{◌≡◌};
ghost use Rattle.machine.specs.Answer.{refusal_number, bad_name, result_number, edited_numbers, counted_numbers, looked_up_numbers, edit_fields, find_fields, write_fields, apply_fields, lookup_fields};

// Kleene's three values.
#[derive(Clone, Copy)]
pub enum Tri {
    False,
    True,
    Undecided,
}

// What a query may ask of an atom and of what stands above it, in pdbtbx's order: codes 1 to 22. Texts are packed.
#[derive(Clone, Copy)]
pub enum Term {
    ModelSerialNumber(u64),
    ModelSerialNumberRange(u64, u64),
    ChainId(u64),
    ChainIdRange(u64, u64),
    ResidueSerialNumber(i64),
    ResidueSerialNumberRange(i64, i64),
    ResidueInsertionCode(u64),
    ResidueId(i64, u64),
    ConformerName(u64),
    ConformerAlternativeLocation(u64),
    ConformerId(u64, u64),
    AtomSerialNumber(u64),
    AtomSerialNumberRange(u64, u64),
    AtomName(u64),
    Element(u64),
    BFactor(f64),
    BFactorRange(f64, f64),
    Occupancy(f64),
    OccupancyRange(f64, f64),
    Backbone,
    SideChain,
    Hetero,
}

#[derive(Clone, Copy)]
pub enum Ops {
    And,
    Or,
    Xor,
}

// A tree's node, in postfix order: pdbtbx's `Search` without its boxes.
#[derive(Clone, Copy)]
pub enum Node {
    Single(Term),
    Binary(Ops),
    Not,
    Known(bool),
}

// A record's width in words, its kinds, and the words at which its fields stand.
#[derive(Clone, Copy)]
pub struct Record;

impl Record {
    pub const WIDTH: usize = 12;

    pub const MODEL: u64 = 1;

    pub const CHAIN: u64 = 2;

    pub const RESIDUE: u64 = 3;

    pub const CONFORMER: u64 = 4;

    pub const ATOM: u64 = 5;

    pub const KIND: usize = 0;

    // A record's first field and its second, where they are read for several kinds at once.
    pub const FIRST: usize = 1;

    pub const SECOND: usize = 2;

    // Of a model, a residue and an atom.
    pub const SERIAL: usize = 1;

    pub const CHAIN_ID: usize = 1;

    pub const CODE: usize = 2;

    pub const CONFORMER_NAME: usize = 1;

    pub const LOCATION: usize = 2;

    pub const ATOM_NAME: usize = 2;

    pub const X: usize = 3;

    pub const Y: usize = 4;

    pub const Z: usize = 5;

    pub const OCCUPANCY: usize = 6;

    pub const B_FACTOR: usize = 7;

    pub const ELEMENT: usize = 8;

    pub const CHARGE: usize = 9;

    pub const HETERO: usize = 10;
}

// IEEE 754's classes of a float. Finite are exactly the first three.
#[derive(Clone, Copy)]
pub enum FloatClass {
    Zero,
    Subnormal,
    Normal,
    Infinite,
    NotANumber,
}

// An atom read out of its record.
#[derive(Clone, Copy)]
pub struct AtomRec {
    pub serial: u64,
    pub name: u64,
    pub x: f64,
    pub y: f64,
    pub z: f64,
    pub occupancy: f64,
    pub b_factor: f64,
    pub element: u64,
    pub charge: i64,
    pub hetero: bool,
}

// The values of an atom that is added; floats and the charge are given by their bits.
#[repr(C)]
#[derive(Clone, Copy)]
pub struct NewAtom {
    pub serial: u64,
    pub x: u64,
    pub y: u64,
    pub z: u64,
    pub occupancy: u64,
    pub b_factor: u64,
    pub element: u64,
    pub charge: u64,
    pub hetero: u64,
}

// An atom to add: the ids of what it is put under and its name, as they are stored, and its values.
#[derive(Clone, Copy)]
pub struct PreparedAddition {
    pub chain: u64,
    pub residue: u64,
    pub code: u64,
    pub conformer: u64,
    pub location: u64,
    pub name: u64,
    pub values: NewAtom,
}

// An identifier made ready for the store.
#[derive(Clone, Copy)]
pub enum Prepared {
    Stored(u64),
    Absent,
    Bad,
}

// The names that an edit or a lookup may be given.
#[derive(Clone, Copy)]
pub enum Name {
    ChainId,
    InsertionCode,
    ConformerName,
    AlternativeLocation,
    AtomName,
}

// Why a call was refused, in the order of the numbers.
#[derive(Clone, Copy)]
pub enum Refusal {
    BadLength,
    BrokenLayout,
    TreeShape,
    TreeNode,
    NoPosition,
    BadIdentifier,
    BadValue,
    NoCapacity,
    JoinWithItself,
    ShortOutput,
    BadFile,
    TooWide,
    ShortText,
    BadInsertionCode,
    BadConformer,
    BadAtomName,
    BadText,
    BadList,
    ShortAnswers,
}

// "Refusal numbers by their cause"
impl From<Refusal> for u64 {
    ghost from_gives = { λ r n. n ≡ refusal_number r };

    fn from(r: Refusal) -> u64 {
        match r {
            Refusal::BadLength => 1,
            Refusal::BrokenLayout => 2,
            Refusal::TreeShape => 3,
            Refusal::TreeNode => 4,
            Refusal::NoPosition => 5,
            Refusal::BadIdentifier => 6,
            Refusal::BadValue => 7,
            Refusal::NoCapacity => 8,
            Refusal::JoinWithItself => 9,
            Refusal::ShortOutput => 10,
            Refusal::BadFile => 11,
            Refusal::TooWide => 12,
            Refusal::ShortText => 13,
            Refusal::BadInsertionCode => 14,
            Refusal::BadConformer => 15,
            Refusal::BadAtomName => 16,
            Refusal::BadText => 17,
            Refusal::BadList => 22,
            Refusal::ShortAnswers => 23,
        }
    }
}

// Which name was bad (change request §2).
impl From<Name> for Refusal {
    ghost from_gives = { λ n r. r ≡ bad_name n };

    fn from(n: Name) -> Refusal {
        match n {
            Name::ChainId => Refusal::BadIdentifier,
            Name::InsertionCode => Refusal::BadInsertionCode,
            Name::ConformerName => Refusal::BadConformer,
            Name::AlternativeLocation => Refusal::BadConformer,
            Name::AtomName => Refusal::BadAtomName,
        }
    }
}

// What an edit did: whether it found what it was to change, and the atoms removed.
#[derive(Clone, Copy)]
pub struct Edited {
    pub found: u64,
    pub removed: u64,
}

// The record numbers of an atom and of what it stands under.
#[derive(Clone, Copy)]
pub struct RecordNumbers {
    pub model: u64,
    pub chain: u64,
    pub residue: u64,
    pub conformer: u64,
    pub atom: u64,
}

// ---- answers as their fields: "A result is 0 with its fields, or one of these."

// The number of an answer that has no fields of its own.
pub fn number_of<T: Copy>(r: Result<T, Refusal>) -> u64
    ensures { result ≡ result_number r }
{
    match r {
        Ok(_) => 0,
        Err(refusal) => refusal.into(),
    }
}

#[repr(C)]
#[derive(Clone, Copy)]
pub struct EditAnswer {
    pub result: u64,
    pub found: u64,
    pub removed: u64,
}

impl From<Result<Edited, Refusal>> for EditAnswer {
    ghost from_gives = { λ r a. edit_fields a ≡ edited_numbers r };

    fn from(r: Result<Edited, Refusal>) -> EditAnswer {
        match r {
            Ok(edited) => EditAnswer {
                result: 0,
                found: edited.found,
                removed: edited.removed,
            },
            Err(refusal) => EditAnswer {
                result: refusal.into(),
                found: 0,
                removed: 0,
            },
        }
    }
}

#[repr(C)]
#[derive(Clone, Copy)]
pub struct FindAnswer {
    pub result: u64,
    pub hits: u64,
}

impl From<Result<u64, Refusal>> for FindAnswer {
    ghost from_gives = { λ r a. find_fields a ≡ counted_numbers r };

    fn from(r: Result<u64, Refusal>) -> FindAnswer {
        match r {
            Ok(hits) => FindAnswer { result: 0, hits },
            Err(refusal) => FindAnswer {
                result: refusal.into(),
                hits: 0,
            },
        }
    }
}

#[repr(C)]
#[derive(Clone, Copy)]
pub struct WriteAnswer {
    pub result: u64,
    pub length: u64,
}

impl From<Result<u64, Refusal>> for WriteAnswer {
    ghost from_gives = { λ r a. write_fields a ≡ counted_numbers r };

    fn from(r: Result<u64, Refusal>) -> WriteAnswer {
        match r {
            Ok(length) => WriteAnswer { result: 0, length },
            Err(refusal) => WriteAnswer {
                result: refusal.into(),
                length: 0,
            },
        }
    }
}

#[repr(C)]
#[derive(Clone, Copy)]
pub struct ApplyAnswer {
    pub result: u64,
    pub calls: u64,
}

impl From<Result<u64, Refusal>> for ApplyAnswer {
    ghost from_gives = { λ r a. apply_fields a ≡ counted_numbers r };

    fn from(r: Result<u64, Refusal>) -> ApplyAnswer {
        match r {
            Ok(calls) => ApplyAnswer { result: 0, calls },
            Err(refusal) => ApplyAnswer {
                result: refusal.into(),
                calls: 0,
            },
        }
    }
}

#[repr(C)]
#[derive(Clone, Copy)]
pub struct LookupAnswer {
    pub result: u64,
    pub found: u64,
    pub model: u64,
    pub chain: u64,
    pub residue: u64,
    pub conformer: u64,
    pub atom: u64,
}

impl LookupAnswer {
    fn without_place(number: u64) -> LookupAnswer
        ensures { result ≡ record { result = number; found = 0; model = 0; chain = 0; residue = 0; conformer = 0; atom = 0 } }
    {
        LookupAnswer {
            result: number,
            found: 0,
            model: 0,
            chain: 0,
            residue: 0,
            conformer: 0,
            atom: 0,
        }
    }
}

impl From<Result<Option<RecordNumbers>, Refusal>> for LookupAnswer {
    ghost from_gives = { λ r a. lookup_fields a ≡ looked_up_numbers r };

    fn from(r: Result<Option<RecordNumbers>, Refusal>) -> LookupAnswer {
        match r {
            Ok(Some(at)) => LookupAnswer {
                result: 0,
                found: 1,
                model: at.model,
                chain: at.chain,
                residue: at.residue,
                conformer: at.conformer,
                atom: at.atom,
            },
            Ok(None) => LookupAnswer::without_place(0),
            Err(refusal) => LookupAnswer::without_place(refusal.into()),
        }
    }
}
