// pdbtbx 0.12.0: the crate's own algorithms as definitions, to be held beside its Rust, and the second demand, which says that document 01's
// definitions are these. There is no code here.
//
// To believe: specs/, in the order Std, Structs, Words, Search, Matches, Find, Edits, Calls, then Demand, which states the theorem. Each definition
// has the Rust that it renders beside it. proofs/ has the proof, and the worked cases asked of the transcription.
//
// Regrouped:
// - by level: the five structs, `add_.._info` and `find`, the removals, `remove_empty`, `remove_atoms_by` and the joins are one definition each, over a level
//   that counts from the atom up; the crate has a copy for each level;
// - by term: the arms of the five `optional_matches_..` stand in one table of 22 terms, each with its arm at each level; an arm that isn't named is `_ => None`;
// - at a position: the way down by `models().nth(..)` and so on and the `find` there are one definition. A hit of the `find` of a model, a chain, a residue or a
//   conformer doesn't refer to what was passed on the way; the caller does, so those numbers stand before the hit's;
// - a loop with `break`, and the push that follows it, is an index and `on_current`.
//
// Asked otherwise, where document 01 differs from the crate (specs/Calls.antt): an addition's code and location are prepared, `set_element` is asked where there
// is no element, and Backbone and SideChain are given with And Not Hetero.
//
// Assumed of std, for bytes below 128: specs/Std.antt, whose head names the definitions of `machine` that stand for `str::trim`, `<=` of `str`,
// `f64::is_finite`, `==` of `isize`, `filter` and `retain`.
//
// Left out: `Atom::new`'s guess of an element; `counter`, `atf`, `modification`, `database_reference`; lookup, which differs on purpose.
#![tactic(auto)]
