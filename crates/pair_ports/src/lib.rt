//! What a filter meets of the outside: pairs of connections, each a client's and at times one to the agent behind, as a
//! trait with a journal. Stands on world_ports, whose answers and counts these are, and on plain_lists.
#![tactic(auto)]

mod entry;
mod pairs;
mod side;

pub use entry::{Linked, PairEntry, PairReady};
pub use pairs::Pairs;
pub use side::Side;
