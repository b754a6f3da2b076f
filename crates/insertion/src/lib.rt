// Where an atom's addition goes (document 01, "Edits"): the model, then the first chain, the last residue and the first conformer that
// match. The store is known to be good. Consecutive additions reuse the previous insertion point: a `Cursor` keeps it, which saves the
// scans of the model and of the chain where a list is in file order.
#![tactic(auto)]

ghost use Rattle.std.specs.Prelude.{◌≡◌, false, [], ◌∷◌, ◌+◌, ◌*◌, ◌≤◌, length};
ghost use Rattle.machine.specs.Answer.{position};
ghost use Rattle.seek.specs.Seek.{Good, Within, held, record_at, records_in, span};
ghost use Rattle.insertion.specs.Pick.{marks, pick_start, pick_span, chain_key, residue_key, conformer_key, keys_of, spot_in, found_of};
ghost use Rattle.insertion.specs.Cursor.{rank, Valid, Lands, Advances};

use machine::{PreparedAddition, Record, Refusal};

// ---- records by what marks them

// What a record below a parent is looked for by: its kind, its words 1 and 2, and whether the last of such records is meant or the first.
#[derive(Clone, Copy)]
pub struct Key {
    kind: u64,
    first: u64,
    second: u64,
    from_back: bool,
}

fn is_marked(store: &[u64], at: usize, key: Key) -> bool
    requires { at * 12 + 12 ≤ length store.now }
    ensures { result ≡ marks key (record_at at store.now) }
{
    if store[at * Record::WIDTH] != key.kind {
        return false;
    }
    if store[at * Record::WIDTH + Record::FIRST] != key.first {
        return false;
    }
    store[at * Record::WIDTH + Record::SECOND] == key.second
}

// The record that the key finds among those from `from` up to `end`.
fn find_child(store: &[u64], from: usize, end: usize, key: Key) -> Option<usize>
    requires { Within from end store.now }
    ensures { result ≡ pick_start key from (records_in from end store.now) }
{
    let mut best = None;
    for at in from..end {
        if is_marked(store, at, key) {
            if !key.from_back {
                return Some(at);
            }
            best = Some(at);
        }
    }
    best
}

// That record, with where its descendants end.
fn pick_child(store: &[u64], from: usize, end: usize, key: Key) -> Option<(usize, usize)>
    requires { Within from end store.now }
    ensures { result ≡ pick_span key from (records_in from end store.now) }
{
    let at = find_child(store, from, end, key)?;
    Some((at, seek::end_of(store, at + 1, end, key.kind)))
}

// ---- the cursor: where the previous addition went

// A model, a chain of it and the chain's last residue, by their records. If `topped` is true, no residue of the chain ranks above `top`.
// Where `known` is false the rest says nothing.
#[derive(Clone, Copy)]
pub struct Cursor {
    known: bool,
    model: u64,
    start: usize,
    model_end: usize,
    id: u64,
    chain: usize,
    chain_end: usize,
    residue: usize,
    topped: bool,
    top: u64,
}

// Nothing is known.
pub fn no_cursor() -> Cursor
    ensures { result.known ≡ false }
{
    Cursor {
        known: false,
        model: 0,
        start: 0,
        model_end: 0,
        id: 0,
        chain: 0,
        chain_end: 0,
        residue: 0,
        topped: false,
        top: 0,
    }
}

// A serial's bits in the order of the signed numbers that they are.
fn rank_of(serial: u64) -> u64
    ensures { result ≡ rank serial }
{
    if serial < 0x8000_0000_0000_0000 {
        return serial + 0x8000_0000_0000_0000;
    }
    serial - 0x8000_0000_0000_0000
}

fn highest(a: u64, b: u64) -> u64
    ensures { (a ≤ result) × (b ≤ result) }
{
    if a < b {
        return b;
    }
    a
}

// `locate` for a model.
pub fn model_span(store: &[u64], cursor: Cursor, model: u64) -> Result<(usize, usize), Refusal>
    requires good { Good store.now }
    requires valid { Valid cursor store.now }
    ensures { result ≡ position (span (model ∷ []) (held store.now)) }
{
    if cursor.known & (cursor.model == model) {
        return Ok((cursor.start, cursor.model_end));
    }
    seek::locate(store, &[model])
}

// `pick_child` for the first chain with an id, in the model at `start`.
fn chain_span(
    store: &[u64],
    cursor: Cursor,
    start: usize,
    end: usize,
    id: u64,
) -> Option<(usize, usize)>
    requires within { Within (start + 1) end store.now }
    requires valid { Valid cursor store.now }
    ensures { result ≡ pick_span (chain_key id) (start + 1) (records_in (start + 1) end store.now) }
{
    if cursor.known & (cursor.start == start) & (cursor.model_end == end) & (cursor.id == id) {
        return Some((cursor.chain, cursor.chain_end));
    }
    let key = Key {
        kind: Record::CHAIN,
        first: id,
        second: 0,
        from_back: false,
    };
    pick_child(store, start + 1, end, key)
}

// `pick_child` for the last residue with a serial and a code, in the chain at `chain`.
fn residue_span(
    store: &[u64],
    cursor: Cursor,
    chain: usize,
    end: usize,
    serial: u64,
    code: u64,
) -> Option<(usize, usize)>
    requires within { Within (chain + 1) end store.now }
    requires valid { Valid cursor store.now }
    ensures { result ≡ pick_span (residue_key serial code) (chain + 1) (records_in (chain + 1) end store.now) }
{
    let key = Key {
        kind: Record::RESIDUE,
        first: serial,
        second: code,
        from_back: true,
    };
    if cursor.known & (cursor.chain == chain) & (cursor.chain_end == end) {
        if is_marked(store, cursor.residue, key) {
            return Some((cursor.residue, end));
        }
        if cursor.topped & (cursor.top < rank_of(serial)) {
            return None;
        }
    }
    pick_child(store, chain + 1, end, key)
}

// `pick_child` for the first conformer with a name and a location, in the residue at `residue`.
fn conformer_span(
    store: &[u64],
    residue: usize,
    end: usize,
    name: u64,
    location: u64,
) -> Option<(usize, usize)>
    requires { Within (residue + 1) end store.now }
    ensures { result ≡ pick_span (conformer_key name location) (residue + 1) (records_in (residue + 1) end store.now) }
{
    let key = Key {
        kind: Record::CONFORMER,
        first: name,
        second: location,
        from_back: false,
    };
    pick_child(store, residue + 1, end, key)
}

// ---- where the new records go

// The record number at which new records go, how many of chain, residue and conformer stand already, and the chain's span if it does.
#[derive(Clone, Copy)]
pub struct Spot {
    pub at: usize,
    pub depth: usize,
    chain: usize,
    chain_end: usize,
}

// The first chain, the last residue and the first conformer that match, in the model at `start`.
pub fn spot_of(
    store: &[u64],
    cursor: Cursor,
    start: usize,
    end: usize,
    new: PreparedAddition,
) -> Spot
    requires within { Within (start + 1) end store.now }
    requires valid { Valid cursor store.now }
    ensures spot_value { found_of result ≡ spot_in (keys_of new) (start + 1) end store.now }
    ensures lands { Lands start end new.chain store.now result }
{
    let mut spot = Spot {
        at: end,
        depth: 0,
        chain: end,
        chain_end: end,
    };
    let Some((chain, chain_end)) = chain_span(store, cursor, start, end, new.chain) else {
        return spot;
    };
    spot.at = chain_end;
    spot.depth = 1;
    spot.chain = chain;
    spot.chain_end = chain_end;
    let residues = residue_span(store, cursor, chain, chain_end, new.residue, new.code);
    let Some((residue, residue_end)) = residues else {
        return spot;
    };
    spot.at = residue_end;
    spot.depth = 2;
    let conformers = conformer_span(store, residue, residue_end, new.conformer, new.location);
    let Some((_, conformer_end)) = conformers else {
        return spot;
    };
    spot.at = conformer_end;
    spot.depth = 3;
    spot
}

// The cursor once the new records stand at the spot, in the model whose span is given.
pub fn advanced(
    cursor: Cursor,
    model: u64,
    start: usize,
    end: usize,
    new: PreparedAddition,
    spot: Spot,
) -> Cursor
    requires { (end ≤ 100000) × (spot.chain_end ≤ end) × (spot.depth ≤ 3) }
    ensures { Advances cursor model start end new spot result }
{
    let mut next = no_cursor();
    next.model = model;
    next.start = start;
    next.model_end = end + 4 - spot.depth;
    next.id = new.chain;
    if spot.depth == 0 {
        next.known = true;
        next.chain = end;
        next.chain_end = end + 4;
        next.residue = end + 1;
        next.topped = true;
        next.top = rank_of(new.residue);
        return next;
    }
    next.chain = spot.chain;
    next.chain_end = spot.chain_end + 4 - spot.depth;
    let same = cursor.known & (cursor.chain == spot.chain) & (cursor.chain_end == spot.chain_end);
    if spot.depth == 1 {
        next.known = true;
        next.residue = spot.at;
        next.topped = same & cursor.topped;
        next.top = highest(cursor.top, rank_of(new.residue));
        return next;
    }
    next.known = same & (cursor.residue < spot.at);
    next.residue = cursor.residue;
    next.topped = cursor.topped;
    next.top = cursor.top;
    next
}
