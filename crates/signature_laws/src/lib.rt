//! What a helper that is the signer answers is the signature of the message that a client asked for, by the key that it
//! named, in every run.
#![tactic(auto)]

mod clients;
mod laws;
mod rows;
mod runs;
mod streams;

pub use clients::a_client_gets_the_signature_of_its_message;
pub use laws::a_signature_is_of_its_message_and_key;
pub use rows::{a_helper_begins_to_refuse, a_request_is_read_and_its_refusal_heard};
pub use runs::{events_lead_to_one_life, signers_sign_what_clients_ask_for};
pub use streams::{a_signature_that_is_heard_is_of_its_ask, what_the_signer_sends_is_its_answers};
