//! The words of the command `serve`: what clap takes as one simple command, and what they say.
//! Stands on world_ports, and on clap of the kit.
#![tactic(auto)]

mod args;
mod command;
mod words;

pub use words::{ServeFault, ServeWords, begins_with_serve, read_serve};
