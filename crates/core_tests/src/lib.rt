//! Tests of the agent: what is asked of it beside the bytes of its clients and child processes.
//! Stands on agent_core and world_ports.
#![tactic(auto)]

#[cfg(test)]
mod helper_tests;
#[cfg(test)]
mod memory_tests;
#[cfg(test)]
mod play;
#[cfg(test)]
mod tests;
