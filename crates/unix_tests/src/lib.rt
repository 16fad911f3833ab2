//! Tests of `UnixWorld` over real sockets, files, child processes and clocks: what no clause of `World` says of the
//! system. They are a crate of their own since each is proved too.
#![tactic(auto)]

#[cfg(test)]
mod calls;
#[cfg(test)]
mod children;
#[cfg(test)]
mod clocks;
#[cfg(test)]
mod connections;
#[cfg(test)]
mod ended;
#[cfg(test)]
mod files;
#[cfg(test)]
mod no_programs;
#[cfg(test)]
mod said;
