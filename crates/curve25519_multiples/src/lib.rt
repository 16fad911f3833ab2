//! Multiples of the points of edwards25519 by digits: of the base point by a table, of others by a row.
//! Stands on `curve25519` and `words64`, its laws on `edwards_laws` and `group_laws`.
#![tactic(auto)]

mod digits;
mod rows;
mod table;
mod windows;

pub use table::BaseTable;
pub use windows::multiple;
