//! Patterns with `*` and `?`, and comma lists of them with negation, as in OpenSSH's ssh_config(5),
//! "PATTERNS". Stands on std alone, takes no memory and doesn't recurse.
#![tactic(auto)]

mod case;
mod list;
mod pattern;
mod piece;
mod places;
#[cfg(test)]
mod tests;

pub use list::list_matches;
pub use pattern::matches;
