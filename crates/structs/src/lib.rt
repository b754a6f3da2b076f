// The calls of document 01 (docs/SCOPE.md), in modules named as pdbtbx's files. Opening checks the store's length alone; every other call checks
// the store's layout, then does its work on a good store.
#![tactic(auto)]

pub mod atom;
pub mod chain;
pub mod conformer;
pub mod model;
pub mod pdb;
mod positions;
pub mod residue;
