//! A relay between one client and the agent: behind the constraints of each key that the client adds it
//! sets terms more, and passes everything else on as it is (docs/PROTOCOL.md, "Terms for every key").
//! `read_relay` reads its words, and `relay` is the relay over any two connections. Stands on agent_msg,
//! child_peer and add_words.
#![tactic(auto)]

mod addition;
mod fault;
mod hearing;
mod laws;
mod passing;
mod status;
mod words;

pub use fault::{BodyFault, HearStop};
pub use laws::the_same_addition;
pub use passing::relay;
pub use status::TermsStatus;
pub use words::{RelayWords, read_relay};
