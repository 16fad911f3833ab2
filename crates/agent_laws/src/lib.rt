//! Laws of the whole agent over its actions alone: which signatures are put to the helper, said by
//! searches in what was done before, without a state. It stands on agent_model, whose definitions
//! it checks by other words.
#![tactic(auto)]

mod answers;
mod apart;
mod apart_rows;
mod consents;
mod consequences;
mod laws;
mod purposes;
mod rows;
mod runs;
mod uses;

pub use agent_secrecy::secrecy;
pub use answers::{a_proved_binding_was_asked_for, nothing_is_left_of_a_confirmation_that_ended};
pub use apart::{an_insider_leaves_the_others_alone, what_is_hidden_changes_nothing_over_runs};
pub use apart_rows::a_hidden_key_changes_no_reply_but_to_its_own_addition;
pub use consents::{a_signature_has_a_consent_of_its_own, an_addition_that_left_is_never_used};
pub use consequences::{
    a_confirmed_key_signs_with_consent, a_constrained_key_signs_where_permitted,
    a_key_for_one_host_signs_for_it, nothing_is_signed_while_locked, only_what_was_added_signs,
};
pub use laws::{a_client_gets_that_helpers_answer, history, what_is_put_is_asked_for};
pub use purposes::a_key_for_git_never_logs_in;
pub use rows::{
    the_past_tells_of_keys, the_past_tells_of_uses, the_past_tells_of_what_is_open,
    what_is_due_is_what_was_asked,
};
pub use runs::{these_runs_are_answered, these_runs_are_lawful};
pub use uses::a_key_signs_as_often_as_it_may;
