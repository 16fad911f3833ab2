//! Tests of the outside in memory.
//! Stands on world_ports.
#![tactic(auto)]

#[cfg(test)]
mod outside;
