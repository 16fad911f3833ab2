//! The abstract agent: what the agent holds, what is under way, and one step of it, as definitions
//! over plain lists; `specs/Step.antt` is read first, from its end, and `specs/Dispatch.antt` has
//! the table of requests. Source: draft-miller-ssh-agent and OpenSSH's PROTOCOL.agent; what is ours
//! is said where it stands.
#![tactic(auto)]

mod asks;
mod bind_rows;
mod bindings;
mod child_rows;
mod consent_rows;
mod consents;
mod laws;
mod purpose_rows;
mod rows;
mod time_rows;
mod uses;
mod waits;

pub use asks::{
    a_client_gets_its_own_answer, a_signature_is_asked_for_exactly_where_it_may_be,
    an_ask_is_answered_at_most_once,
};
pub use bind_rows::{
    a_binding_is_its_connections_own, a_binding_is_refused_for_its_cause,
    a_binding_waits_for_the_helper, a_certificate_counts_while_it_is_valid,
    a_key_is_seen_where_its_constraints_lead, a_key_signs_where_its_constraints_permit,
};
pub use bindings::{
    a_binding_is_added_where_it_is_right, a_binding_is_verified_exactly_where_it_may_be,
    bindings_are_those_that_were_proved, what_is_not_seen_changes_no_reply,
};
pub use child_rows::{
    a_lost_helper_fails_its_asks, a_signature_goes_through_the_helper, a_ticket_names_a_job_once,
    an_answer_goes_to_its_ask, an_identity_is_used_up, jobs_and_child_processes_are_bounded,
};
pub use consent_rows::{
    a_client_that_leaves_ends_its_confirmation, a_confirmation_ends_without_consent,
    a_signature_waits_for_the_user, confirmations_are_bounded, consent_is_tested_again,
    consent_uses_an_identity_once,
};
pub use consents::{
    a_client_waits_for_its_own_consent, consent_counts_exactly_where_it_may,
    who_waits_for_the_user_is_open,
};
pub use laws::{
    a_closed_port_brings_nothing, a_failure_has_a_cause, a_lost_helper_answers_nothing,
    a_moment_is_taken_in_once, a_piece_in_two_parts, answers_go_to_who_asked,
    no_number_is_given_twice, no_number_is_used_again, ports_rise_and_are_few,
    what_was_open_and_is_not_was_closed,
};
pub use purpose_rows::a_key_signs_for_its_purposes;
pub use rows::{
    a_locked_agent_does_nothing, a_request_waits_for_the_reply_before, a_signature_is_waited_for,
    additions_are_listed, an_addition_has_room_or_is_refused, limits_are_these_numbers,
    moments_are_taken_in, refusals_are_failures,
};
pub use time_rows::{
    a_clock_that_jumps_ends_waits, a_confirmation_waits_for_five_minutes, a_late_helper_is_closed,
    an_ask_waits_for_sixty_seconds, an_ask_without_a_limit_waits, the_next_limit_is_told,
    waits_end_together,
};
pub use uses::a_key_is_used_as_its_signature_is_put;
pub use waits::{a_wait_ends_at_its_limit, the_next_end_is_told};
