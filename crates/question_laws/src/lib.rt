//! What the user is asked: the bytes of a question are about the key and the message that are then
//! signed, in every run.
#![tactic(auto)]

mod laws;
mod rows;

pub use laws::a_question_is_about_what_is_signed;
pub use rows::takes_are_of_their_own_job;
