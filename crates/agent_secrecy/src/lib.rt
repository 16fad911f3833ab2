//! Clients' bytes don't depend on private keys: two lists of events that differ only in the contents of private fields of
//! added keys make the abstract agent owe the same bytes to every client.
#![tactic(auto)]

mod laws;
mod rows;
mod runs;

pub use laws::secrecy;
pub use rows::{a_cut_secret_is_not_seen, a_secret_is_hidden};
pub use runs::these_runs_tell_no_secret;
