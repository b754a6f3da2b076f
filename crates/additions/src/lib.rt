// Additions (document 01, "Edits"): a model, and an atom with what is missing above it. The store is known to be good; new records go in
// by one move of the words behind them. A refusal writes nothing. `insertion` finds where they go.
#![tactic(auto)]

ghost use Rattle.std.specs.Prelude.{◌≡◌, ◌+◌, ◌*◌, ◌≤◌, ◌<◌, length, true, [], ◌∷◌, Ok, Some};
ghost use Rattle.machine.specs.Answer.{edited_numbers};
ghost use Rattle.machine.specs.Text.{optional_of};
ghost use Rattle.machine.specs.Record.{good_values};
ghost use Rattle.machine.specs.Store.{capacity};
ghost use Rattle.machine.specs.Edit.{accept, addition, new_atom, prepare, add_model, add_prepared, step_by};
ghost use Rattle.seek.specs.Seek.{Good, held, span};
ghost use Rattle.insertion.specs.Cursor.{Valid};
ghost use Rattle.additions.specs.Add.{column_words, put};

use elements::Element;
use insertion::Cursor;
use machine::{Edited, Name, NewAtom, Prepared, PreparedAddition, Record, Refusal};

// ---- the arguments

// What is absent is stored as 0.
fn accept(name: Name, prepared: Prepared) -> Result<u64, Refusal>
    ensures { result ≡ accept name prepared }
{
    match prepared {
        Prepared::Stored(w) => Ok(w),
        Prepared::Absent => Ok(0),
        Prepared::Bad => Err(name.into()),
    }
}

// The first bad name, of chain, code, conformer, location and atom name, is the one that is answered. No text goes further than this.
pub fn prepare(
    chain: &[u8],
    residue: u64,
    code_flag: u64,
    code: &[u8],
    conformer: &[u8],
    location_flag: u64,
    location: &[u8],
    name: &[u8],
    values: NewAtom,
) -> Result<PreparedAddition, Refusal>
    ensures { result ≡ prepare (addition chain.now residue (optional_of code_flag code.now)
        conformer.now (optional_of location_flag location.now) name.now values) }
{
    let chain = accept(Name::ChainId, helper::prepare_chain_id(chain))?;
    let code = accept(
        Name::InsertionCode,
        helper::prepare_optional_code(code_flag, code),
    )?;
    let conformer = accept(
        Name::ConformerName,
        helper::prepare_identifier_uppercase(conformer),
    )?;
    let prepared = helper::prepare_optional_location(location_flag, location);
    let location = accept(Name::AlternativeLocation, prepared)?;
    let name = accept(Name::AtomName, helper::prepare_atom_name(name))?;
    Ok(PreparedAddition {
        chain,
        residue,
        code,
        conformer,
        location,
        name,
        values,
    })
}

// "7": the floats are finite, the element is at most 118, hetero at most 1.
fn good_values(new: PreparedAddition) -> bool
    ensures { result ≡ good_values (new_atom new) }
{
    let values = new.values;
    let position = floats::is_finite(values.x)
        & floats::is_finite(values.y)
        & floats::is_finite(values.z);
    let factors = floats::is_finite(values.occupancy) & floats::is_finite(values.b_factor);
    position & factors & Element::is_stored(values.element) & (values.hetero <= 1)
}

// ---- the new records

// Where a column's residue, conformer and atom stand below its chain, and how many words it has.
const RESIDUE_AT: usize = Record::WIDTH;

const CONFORMER_AT: usize = 2 * Record::WIDTH;

const ATOM_AT: usize = 3 * Record::WIDTH;

const COLUMN: usize = 4 * Record::WIDTH;

// The words of a chain, its residue, the residue's conformer and the atom.
fn column_of(new: PreparedAddition) -> [u64; COLUMN]
    ensures { result ≡ column_words new }
{
    let values = new.values;
    let mut column = [0u64; COLUMN];
    column[Record::KIND] = Record::CHAIN;
    column[Record::CHAIN_ID] = new.chain;
    column[RESIDUE_AT + Record::KIND] = Record::RESIDUE;
    column[RESIDUE_AT + Record::SERIAL] = new.residue;
    column[RESIDUE_AT + Record::CODE] = new.code;
    column[CONFORMER_AT + Record::KIND] = Record::CONFORMER;
    column[CONFORMER_AT + Record::CONFORMER_NAME] = new.conformer;
    column[CONFORMER_AT + Record::LOCATION] = new.location;
    column[ATOM_AT + Record::KIND] = Record::ATOM;
    column[ATOM_AT + Record::SERIAL] = values.serial;
    column[ATOM_AT + Record::ATOM_NAME] = new.name;
    column[ATOM_AT + Record::X] = values.x;
    column[ATOM_AT + Record::Y] = values.y;
    column[ATOM_AT + Record::Z] = values.z;
    column[ATOM_AT + Record::OCCUPANCY] = values.occupancy;
    column[ATOM_AT + Record::B_FACTOR] = values.b_factor;
    column[ATOM_AT + Record::ELEMENT] = values.element;
    column[ATOM_AT + Record::CHARGE] = values.charge;
    column[ATOM_AT + Record::HETERO] = values.hetero;
    column
}

// How many records a store has room for.
fn capacity_of(store: &[u64]) -> usize
    requires { 1 ≤ length store.now }
    ensures { result ≡ capacity (length store.now) }
{
    (store.len() - 1) / Record::WIDTH
}

// New words at a record, among `count` records.
fn put_records(store: &mut [u64], at: usize, count: usize, new: &[u64])
    requires { (at ≤ count) × (12 * count + length new.now < length store.old) }
    ensures { store.new ≡ put at count new.now store.old }
{
    let end = Record::WIDTH * count;
    let trailer = store.len() - 1;
    moves::insert_gap(store, Record::WIDTH * at, new.len(), end);
    store[trailer] = (end + new.len()) as u64;
    moves::write_over(store, Record::WIDTH * at, new);
}

// ---- the edits

// Appended, with the serial given.
pub fn add_model(store: &mut [u64], serial: u64) -> Result<Edited, Refusal>
    requires { Good store.old }
    ensures { (edited_numbers result, store.new) ≡ step_by store.old (add_model (length store.old) serial) }
{
    let count = seek::record_count(store);
    if capacity_of(store) < count + 1 {
        return Err(Refusal::NoCapacity);
    }
    let record = [Record::MODEL, serial, 0, 0, 0, 0, 0, 0, 0, 0, 0, 0];
    put_records(store, count, count, &record);
    let edited = Edited {
        found: 1,
        removed: 0,
    };
    Ok(edited)
}

// An answer, and where the next addition may go on.
#[derive(Clone, Copy)]
pub struct Added {
    pub edited: Result<Edited, Refusal>,
    pub cursor: Cursor,
}

// The new records of an atom in the model whose span is given: its values are good.
fn put_atom(
    store: &mut [u64],
    cursor: Cursor,
    model: u64,
    start: usize,
    end: usize,
    new: PreparedAddition,
) -> Added
    requires good { Good store.old }
    requires valid { Valid cursor store.old }
    requires span_held { span (model ∷ []) (held store.old) ≡ Some (start, end) }
    requires values_good { good_values (new_atom new) ≡ true }
    ensures cursor_valid { Valid result.cursor store.new }
    ensures store_after { (edited_numbers result.edited, store.new)
        ≡ step_by store.old (add_prepared (length store.old) model (Ok new)) }
{
    let count = seek::record_count(store);
    let spot = insertion::spot_of(store, cursor, start, end, new);
    let at = spot.at;
    let first = Record::WIDTH * spot.depth;
    if capacity_of(store) < count + 4 - spot.depth {
        return Added {
            edited: Err(Refusal::NoCapacity),
            cursor: cursor,
        };
    }
    let column = column_of(new);
    put_records(store, at, count, &column[first..]);
    let next = insertion::advanced(cursor, model, start, end, new, spot);
    Added {
        edited: Ok(Edited {
            found: 1,
            removed: 0,
        }),
        cursor: next,
    }
}

// An atom, to the model at an index: "5" comes before what the preparation refuses.
pub fn add_prepared(
    store: &mut [u64],
    cursor: Cursor,
    model: u64,
    prepared: Result<PreparedAddition, Refusal>,
) -> Added
    requires good { Good store.old }
    requires valid { Valid cursor store.old }
    ensures cursor_valid { Valid result.cursor store.new }
    ensures store_after { (edited_numbers result.edited, store.new)
        ≡ step_by store.old (add_prepared (length store.old) model prepared) }
{
    let Ok((start, end)) = insertion::model_span(store, cursor, model) else {
        return Added {
            edited: Err(Refusal::NoPosition),
            cursor: cursor,
        };
    };
    match prepared {
        Ok(new) => {
            if good_values(new) {
                return put_atom(store, cursor, model, start, end, new);
            }
            Added {
                edited: Err(Refusal::BadValue),
                cursor: cursor,
            }
        }
        Err(refusal) => Added {
            edited: Err(refusal),
            cursor: cursor,
        },
    }
}

// Without a cursor.
pub fn add_atom(
    store: &mut [u64],
    model: u64,
    prepared: Result<PreparedAddition, Refusal>,
) -> Result<Edited, Refusal>
    requires { Good store.old }
    ensures { (edited_numbers result, store.new)
        ≡ step_by store.old (add_prepared (length store.old) model prepared) }
{
    let added = add_prepared(store, insertion::no_cursor(), model, prepared);
    added.edited
}
