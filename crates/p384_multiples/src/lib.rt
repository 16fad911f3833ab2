//! Multiples of the points of P-384 by digits: of the base point by a table, of others by a row.
//! Stands on `p384_curve` and `wide_words`, its laws on `curve_laws` and `group_laws`.
#![tactic(auto)]

mod rows;
mod table;
mod windows;

pub use table::BaseTable;
pub use windows::multiple;
