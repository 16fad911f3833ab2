//! The words of `ssh-add`: what is to be done, under which constraints, with which files (ssh-add(1)).
//! Stands on world_ports for lifetimes and on key_purposes for what signatures may be for.
#![tactic(auto)]

mod command;
mod count;
mod given;
mod option;
mod purposes;
mod reading;

pub use command::{AddWords, Command, WordsFault};
pub use key_purposes::PurposeFault;
pub use purposes::named_purposes;
pub use reading::read_words;
