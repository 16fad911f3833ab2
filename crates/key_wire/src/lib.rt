//! What keys and signatures of every type have in common as SSH carries them: fields of a known length, positive
//! numbers (RFC 4251, section 5) and the end of a certificate (OpenSSH's PROTOCOL.certkeys). Stands on wire_core.
//! Nothing is copied.
#![tactic(auto)]

mod closing;
mod fault;
mod fields;
mod laws;
mod numbers;

pub use closing::{Closing, read_closing};
pub use fault::KeyFault;
pub use fields::{end, take_known, take_sized};
pub use laws::{
    a_certificate_is_closed_exactly, a_number_is_read_exactly, a_seal_is_over_the_rest,
};
pub use numbers::{read_number, read_secret_number, take_known_number};
