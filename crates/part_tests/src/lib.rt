//! A test of identities whose memory may be refused. Stands on identity_table.
#![tactic(auto)]

#[cfg(test)]
mod identities;
