// Worked cases 9 and 10 of document 01 as runs of the code, and the third demand's counts on its store S, whole and from a chain.
#![tactic(auto)]

use machine::{EditAnswer, Edited, FindAnswer, NewAtom, Record, Refusal};
use std::io;
use structs::{model, pdb};

// Result, found, removed.
fn print_edit(rt: &impl Print, edited: Result<Edited, Refusal>) -> io::Result<()> {
    let e = EditAnswer::from(edited);
    println!(rt; "{} {} {}", e.result, e.found, e.removed)
}

// Atom `N` to residue 7 of chain A, conformer ALA, in the first model.
fn add(rt: &impl Print, store: &mut [u64], flag: u64, code: &[u8], serial: u64) -> io::Result<()> {
    let values = NewAtom {
        serial,
        x: 0,
        y: 0,
        z: 0,
        occupancy: 0,
        b_factor: 0,
        element: 7,
        charge: 0,
        hetero: 0,
    };
    let edited = model::add_atom(store, 0, b"A", 7, flag, code, b"ALA", 0, b"", b"N", values);
    print_edit(rt, edited)
}

// Opens the store, and adds a model and an atom.
fn case_9(rt: &impl Print, store: &mut [u64]) -> io::Result<()> {
    let _ = pdb::open(store);
    print_edit(rt, pdb::add_model(store, 1))?;
    add(rt, store, 0, b"", 1)
}

// The first three words of each of the first records.
fn print_records(rt: &impl Print, store: &[u64], count: usize) -> io::Result<()> {
    let (records, _) = store.as_chunks::<{ Record::WIDTH }>();
    for record in records.iter().take(count) {
        println!(rt; "{} {} {}", record[0], record[1], record[2])?;
    }
    Ok(())
}

fn case_10(rt: &impl Print, store: &mut [u64]) -> io::Result<()> {
    let _ = pdb::open(store);
    print_edit(rt, pdb::add_model(store, 1))?;
    add(rt, store, 1, b"a", 1)?;
    add(rt, store, 1, b"a", 2)?;
    add(rt, store, 1, b"A", 3)?;
    print_records(rt, store, 7)
}

// How many atoms a run of find listed.
fn print_count(rt: &impl Print, found: Result<u64, Refusal>) -> io::Result<()> {
    rt.println(FindAnswer::from(found).hits)
}

// The edits that make store S: a model, atom `N` of element 7 and atom `XX` without one, each as its numbers and its texts.
static EDITS_OF_S: [u64; 54] = [
    1, 1, 1, // the model
    2, 23, 0, 7, 0, 0, 1, 0, 0, 0, 0, 0, 7, 0, 0, // `N`
    1, 65, 0, 3, 65, 76, 65, 0, 1, 78, // its texts
    2, 24, 0, 7, 0, 0, 2, 0, 0, 0, 0, 0, 0, 0, 0, // `XX`
    1, 65, 0, 3, 65, 76, 65, 0, 2, 88, 88, // its texts
];

// On store S from a start, A is Element 7 and B is ChainId `B`; the counts of A, B, "A and B", "A or B" and "not A".
fn demand_3(rt: &impl Print, start: &[u64]) -> io::Result<()> {
    let mut store = [0u64; 73];
    let mut answers = [0u64; 9];
    let a = [15, 7, 0];
    let b = [3, 0x4200_0000_0000_0000, 0];
    let mut first = [0u64; 10];
    let mut second = [0u64; 10];
    let mut both = [0u64; 10];
    let mut either = [0u64; 10];
    let mut opposite = [0u64; 10];
    let r = claims::edit_and_find(
        &mut store,
        &EDITS_OF_S,
        &mut answers,
        start,
        &a,
        &b,
        &mut first,
        &mut second,
        &mut both,
        &mut either,
        &mut opposite,
    );
    let f = r.finds;
    print_count(rt, f.first)?;
    print_count(rt, f.second)?;
    print_count(rt, f.both)?;
    print_count(rt, f.either)?;
    print_count(rt, f.opposite)
}

fn main(rt: HostRuntime) -> io::Result<()> {
    let mut enough = [0u64; 61];
    rt.println("case 9, 61 words")?;
    case_9(&rt, &mut enough)?;
    let mut short = [0u64; 60];
    rt.println("case 9, 60 words")?;
    case_9(&rt, &mut short)?;
    let mut store = [0u64; 121];
    rt.println("case 10")?;
    case_10(&rt, &mut store)?;
    rt.println("demand 3")?;
    demand_3(&rt, &[])?;
    let chain = [0, 0];
    rt.println("demand 3, from a chain")?;
    demand_3(&rt, &chain)
}
