//! What is under way in the agent: the link to its helper, the bindings that the helper is to verify, the child
//! processes to start, and those that were started and haven't named themselves. Each call is the abstract agent's of
//! the same name (agent_model's specs/Errands.antt, Answers.antt and Children.antt). Stands on helper_link.
#![tactic(auto)]

mod jobs;
mod state;
mod time;
mod verification;

pub use jobs::Started;
pub use state::UnderWay;
pub use time::{TimeLimits, earlier};
pub use verification::Verification;
