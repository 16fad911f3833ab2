//! The filter as a program over any files and any pairs: its words, its list, and its loop, which serves each thing in
//! its turn. Stands on filter_core (the filter's steps), filter_model (which journals are legal), pair_ports, key_file
//! (the lines of the list) and key_purposes (the words of purposes).
#![tactic(auto)]

mod line;
mod list;
mod listed;
mod purposes;
mod serving;
mod status;
mod things;
mod top;
mod turn;
mod words;

pub use filter_core::{Filter, FilterEvent, Listed};
pub use filter_model::exact;
pub use key_purposes::PurposeFault;
pub use pair_ports::{Linked, PairEntry, PairReady, Pairs, Side};
pub use status::FilterStatus;
pub use top::filter_main;
