//! Tests of the readiness loop over scripted worlds: what many clients cost, and refused memory.
//! Stands on ready_loop, agent_core and world_ports.
#![tactic(auto)]

#[cfg(test)]
mod counted;
#[cfg(test)]
mod crowd_tests;
#[cfg(test)]
mod failing_tests;
#[cfg(test)]
mod scripts;
