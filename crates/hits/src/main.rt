// The hits of find on a small store, read out by `Hit`.
#![tactic(auto)]

ghost use Rattle.std.specs.Prelude.{◌≡◌};
ghost use Rattle.hierarchy.specs.Hit.{model_of, chain_of, residue_of, conformer_of, atom_of};

use hierarchy::{ChainRec, ConformerRec, Hit, ModelRec, ResidueRec};
use machine::{AtomRec, FindAnswer, NewAtom, RecordNumbers};
use std::{fmt, io};
use structs::{model, pdb};

// ---- what is printed

// A packed text: its bytes from the highest down. A dash stands for 0, which is absent.
#[derive(Clone, Copy)]
struct Text(u64);

impl fmt::Display for Text {
    fn fmt<W: fmt::Write>(&self, f: &mut fmt::Formatter<W>) -> fmt::Result {
        if self.0 == 0 {
            return f.write_char('-');
        }
        for byte in self.0.to_be_bytes() {
            if byte != 0 {
                f.write_char(char::from(byte))?;
            }
        }
        Ok(())
    }
}

// An atom. Floats stand in thousandths.
#[derive(Clone, Copy)]
struct ShownAtom(AtomRec);

impl fmt::Display for ShownAtom {
    fn fmt<W: fmt::Write>(&self, f: &mut fmt::Formatter<W>) -> fmt::Result {
        let atom = self.0;
        write!(f, "atom {} {} at", atom.serial, Text(atom.name))?;
        for x in [atom.x, atom.y, atom.z] {
            write!(f, " {}", x * 1000.0)?;
        }
        let occupancy = atom.occupancy * 1000.0;
        let b_factor = atom.b_factor * 1000.0;
        write!(f, ", occupancy {occupancy}, b factor {b_factor}")?;
        write!(f, ", element {}, charge {}", atom.element, atom.charge)?;
        if atom.hetero {
            write!(f, ", hetero")?;
        }
        Ok(())
    }
}

// The records of a hit, read out: where its atom stands, and the atom.
#[derive(Clone, Copy)]
struct Shown {
    model: ModelRec,
    chain: ChainRec,
    residue: ResidueRec,
    conformer: ConformerRec,
    atom: AtomRec,
}

impl fmt::Display for Shown {
    fn fmt<W: fmt::Write>(&self, f: &mut fmt::Formatter<W>) -> fmt::Result {
        let model = self.model.serial;
        let chain = Text(self.chain.id);
        write!(f, "model {model}, chain {chain}")?;
        let code = Text(self.residue.code);
        write!(f, ", residue {} code {code}", self.residue.serial)?;
        let name = Text(self.conformer.name);
        let location = Text(self.conformer.location);
        writeln!(f, ", conformer {name} location {location}")?;
        f.write(ShownAtom(self.atom))
    }
}

// Which record stands for which number.
fn read_out(store: &[u64], at: RecordNumbers) -> Shown
    ensures { result ≡ record {
      model = model_of store.now at.model;
      chain = chain_of store.now at.chain;
      residue = residue_of store.now at.residue;
      conformer = conformer_of store.now at.conformer;
      atom = atom_of store.now at.atom;
    } }
{
    let hit = Hit::new(store, at);
    Shown {
        model: hit.model(),
        chain: hit.chain(),
        residue: hit.residue(),
        conformer: hit.conformer(),
        atom: hit.atom(),
    }
}

// The i-th hit of an output.
fn print_nth(rt: &impl Print, store: &[u64], out: &[u64], i: u64) -> io::Result<()> {
    match hierarchy::nth(store, out, i) {
        Some(at) => rt.println(read_out(store, at)),
        None => rt.println("no hit"),
    }
}

// ---- the store and the searches

// Atom `N` to the first model: at 11.5, -2.25 and 0.125, of occupancy 1 and B-factor 20.5.
fn add_first(store: &mut [u64]) {
    let values = NewAtom {
        serial: 3,
        x: 11.5_f64.to_bits(),
        y: (-2.25_f64).to_bits(),
        z: 0.125_f64.to_bits(),
        occupancy: 1.0_f64.to_bits(),
        b_factor: 20.5_f64.to_bits(),
        element: 7,
        charge: 1,
        hetero: 0,
    };
    let _ = model::add_atom(store, 0, b"A", 7, 0, b"", b"ALA", 0, b"", b"N", values);
}

// Atom `UNKNOWN8` to the second model, to residue -9: at -1.5, 2.5 and -3, of occupancy 0.5 and B-factor 25; its charge is -2.
fn add_second(store: &mut [u64]) {
    let values = NewAtom {
        serial: 4,
        x: (-1.5_f64).to_bits(),
        y: 2.5_f64.to_bits(),
        z: (-3.0_f64).to_bits(),
        occupancy: 0.5_f64.to_bits(),
        b_factor: 25.0_f64.to_bits(),
        element: 0,
        charge: (-2_i64).cast_unsigned(),
        hetero: 1,
    };
    let residue = (-9_i64).cast_unsigned();
    let _ = model::add_atom(
        store,
        1,
        b"B",
        residue,
        1,
        b"C",
        b"HOH",
        1,
        b"D",
        b"UNKNOWN8",
        values,
    );
}

fn build(store: &mut [u64]) {
    let _ = pdb::open(store);
    let _ = pdb::add_model(store, 1);
    let _ = pdb::add_model(store, 2);
    add_first(store);
    add_second(store);
}

// The hits of a tree, and what stands after them.
fn search(rt: &impl Print, store: &[u64], tree: &[u64]) -> io::Result<()> {
    let mut out = [0u64; 15];
    let found = FindAnswer::from(pdb::find(store, tree, &mut out));
    println!(rt; "hits {}", found.hits)?;
    for i in 0..3 {
        print_nth(rt, store, &out, i)?;
    }
    Ok(())
}

fn main(rt: HostRuntime) -> io::Result<()> {
    let mut store = [0u64; 121];
    build(&mut store);
    rt.print("every atom: ")?;
    let every = [28u64, 0, 0];
    search(&rt, &store, &every)?;
    rt.print("not nitrogen: ")?;
    let not_nitrogen = [15u64, 7, 0, 26, 0, 0];
    search(&rt, &store, &not_nitrogen)
}
