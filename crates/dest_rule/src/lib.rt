//! Destination constraints: the hosts that a connection was bound to, and which keys may be seen
//! and used over them (OpenSSH's PROTOCOL.agent).
//!
//! Stands on `userauth_blob` for logins, on `constraint_rec` for the constraints, on `key_blob` for
//! host keys and on `pattern_core` for users.
#![tactic(auto)]

mod binding;
mod chain;
mod denial;
mod fault;
mod grounds;
mod host;
mod host_key;
mod laws;
mod rows;
mod rules;

pub use chain::Chain;
pub use denial::Denial;
pub use fault::{ChainFault, Next};
pub use host::login_host;
pub use laws::{
    a_bad_place_is_the_least, a_chain_has_room_for_what_is_new, a_known_session_is_never_new,
    a_long_user_is_not_signed_for, every_hop_is_permitted_by_a_constraint,
    from_the_origin_alone_there_is_no_second_hop, more_constraints_permit_no_less,
    nothing_is_signed_for_an_unbound_connection, only_the_newest_session_is_signed_for,
    the_host_of_a_login_is_that_of_a_constraint_that_permits_it,
    the_mark_counts_only_without_bindings, what_may_be_signed_is_visible,
};
pub use rows::{
    a_certificate_counts_for_its_host_in_time, a_key_is_visible_where_it_leads_on,
    a_login_is_to_the_newest_host, a_login_s_host_is_told_by_the_first_constraint,
    bindings_are_judged_in_order, each_hop_counts,
};
pub use rules::{may_sign, visible};
