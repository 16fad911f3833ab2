//! A test of a record of what happened, over a world in memory. Stands on record_world.
#![tactic(auto)]

#[cfg(test)]
mod records;
