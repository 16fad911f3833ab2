//! Literal rows of bindings and destination constraints: laws that are proved by computing, one a
//! cause or a limit.
#![tactic(auto, unfolding(wire_text::specs::Frames::front, wire_text::specs::Frames::split_up_to, wire_text::specs::Frames::split, wire_text::specs::Wire::uint32, wire_text::specs::Wire::uint64, wire_text::specs::Wire::string, wire_text::specs::Wire::announced_len, wire_core::specs::Fields::uint32_at, wire_core::specs::Fields::uint64_at, wire_core::specs::Fields::string_len, wire_core::specs::Fields::string_at, pattern_core::specs::Patterns::is_match, key_blob::specs::AddedKeys::blob_fields_at, key_blob::specs::AddedKeys::certificate_blob_at, key_blob::specs::AddedKeys::blob_at, key_blob::specs::AddedKeys::added_key_at, key_blob::specs::AddedKeys::private_at, key_blob::specs::Certificates::names_at, key_blob::specs::Certificates::holder_at, key_blob::specs::Certificates::times_at, key_blob::specs::Certificates::signer_at, key_blob::specs::Certificates::certificate_at, key_blob::specs::KeyTypes::form_named, key_blob::specs::Principals::are_strings_up_to, key_blob::specs::Principals::are_strings, key_blob::specs::PublicKeys::public_key_of, key_blob::specs::Reading::field_at, key_blob::specs::Reading::fields_at, key_blob::specs::Reading::after_fields, key_blob::specs::Reading::form_at, key_blob::specs::Validity::names_host_up_to, key_blob::specs::Validity::is_valid, userauth_blob::specs::Reading::after_byte, userauth_blob::specs::Reading::after_text, userauth_blob::specs::Reading::session_at, userauth_blob::specs::Reading::method_named, userauth_blob::specs::Reading::method_at, userauth_blob::specs::Reading::after_key, userauth_blob::specs::Reading::host_key_at, userauth_blob::specs::Reading::auth_of, constraint_rec::specs::Constraints::restrict_destination, constraint_rec::specs::HopReading::all_up_to, constraint_rec::specs::HopReading::all_of, constraint_rec::specs::HopReading::key_at, constraint_rec::specs::HopReading::after_reserved, constraint_rec::specs::HopReading::hop_in, constraint_rec::specs::HopReading::as_from, constraint_rec::specs::HopReading::as_to, constraint_rec::specs::HopReading::constraint_in, constraint_rec::specs::HopReading::constraint_at, constraint_rec::specs::HopReading::rules_in, constraint_rec::specs::Reading::kind_at, constraint_rec::specs::Reading::contents_at, constraint_rec::specs::Reading::next_at, constraint_rec::specs::Reading::terms_up_to, constraint_rec::specs::Reading::terms_of, agent_msg::specs::Reading::request_of_number, agent_msg::specs::Reading::request_of, agent_msg::specs::Reading::is_addition, agent_msg::specs::Requests::session_bind, agent_msg::specs::Requests::bind_front, agent_msg::specs::Requests::names_bind, child_msg::specs::Reading::from_child_of_kind, child_msg::specs::Reading::from_child_of, child_msg::specs::Reading::to_child_of_kind, child_msg::specs::Reading::to_child_of, helper_link::specs::Settling::verdict, helper_link::specs::Settling::settling, identity_table::specs::Identities::find_identity, identity_table::specs::Identities::find_number, identity_table::specs::Identities::put_identity, identity_table::specs::Identities::remove_identity, identity_table::specs::Identities::alive_at, identity_table::specs::Identities::next_death, identity_table::specs::Identities::entries_len, identity_table::specs::Identities::kept_len, identity_table::specs::Identities::HaveOwnBlobs, identity_table::specs::Identities::HaveOwnNumbers, identity_table::specs::Identities::AreShort, dest_rule::specs::Chains::judge, dest_rule::specs::Rules::is_hop, dest_rule::specs::Rules::bad_place, dest_rule::specs::Rules::visible, dest_rule::specs::Rules::denial))]

ghost use Rattle.std.specs.Prelude.{◌≡◌, [], ◌∷◌, ◌++◌, codes, length, true, false};
ghost use Rattle.world_ports.specs.declared.Door.TheVariants.{Clients, Children};
ghost use Rattle.agent_model.specs.BindRows.{add_only_to, at_wall, bind, bind_long, bind_trailing, bind_unreadable, binding, binding_to, bound_to, certified, many_more, once_more, restricted, restricted_at, right, sign_certified, sign_login, verify_frame, wrong};
ghost use Rattle.agent_model.specs.Bindings.{chain_at};
ghost use Rattle.agent_model.specs.ChildRows.{cut_short, hello, ticket};
ghost use Rattle.agent_model.specs.Events.{Ended, Heard, Joined, Started, Took};
ghost use Rattle.agent_model.specs.Rows.{add, closed_by, done, failed, list, listed, lock, none_listed, remove, remove_all, sign, unlock};
ghost use Rattle.agent_model.specs.State.{owed_of};

/// A connection is bound once the helper says that the signature is right, and not before; to the
/// same session under the same host key once.
pub fn a_binding_waits_for_the_helper()
    ensures sent { owed_of 2 (binding_to 1 (Heard 2 (right 1) ∷ Took 1 5 ∷ Heard 1 (bind 162 194 0)
        ∷ [])) ≡ verify_frame 2 162 194 }
    ensures waits { owed_of 1 (binding_to 1 []) ≡ [] }
    ensures unbound { chain_at 1 (binding_to 1 []).ports ≡ [] }
    ensures right { owed_of 1 (binding_to 1 (Heard 2 (right 1) ∷ [])) ≡ done }
    ensures bound { chain_at 1 (bound_to 1 []).ports ≡ binding 161 193 true ∷ [] }
    ensures login { chain_at 1 (bound_to 0 []).ports ≡ binding 161 193 false ∷ [] }
    ensures wrong { owed_of 1 (binding_to 1 (Heard 2 (wrong 1) ∷ [])) ≡ failed }
    ensures not_bound { chain_at 1 (binding_to 1 (Heard 2 (wrong 1) ∷ [])).ports ≡ [] }
    ensures same { owed_of 1 (bound_to 1 (Heard 1 (bind 161 193 1) ∷ Heard 2 (right 2) ∷ []))
        ≡ done }
    ensures once { chain_at 1 (bound_to 1 (once_more 2 193)).ports ≡ binding 161 193 true ∷ [] }
    ensures second { chain_at 1 (bound_to 1 (once_more 2 194)).ports
        ≡ binding 161 193 true ∷ binding 161 194 true ∷ [] }
    ensures lost { owed_of 1 (binding_to 1 (Ended 2 ∷ [])) ≡ failed }
    ensures cut { chain_at 1 (binding_to 1 (Heard 2 cut_short ∷ [])).ports ≡ [] }
{}

/// A binding that is malformed, or that the connection's bindings refuse, is a failure, and nothing
/// is put to the helper: the host key of a session stays, nothing follows a login, a session has 1
/// to 128 bytes, and 16 bindings are the most.
pub fn a_binding_is_refused_for_its_cause()
    ensures other_key { owed_of 1 (bound_to 1 (Heard 1 (bind 162 193 1) ∷ [])) ≡ failed }
    ensures not_put { owed_of 2 (bound_to 1 (Heard 1 (bind 162 193 1) ∷ [])) ≡ [] }
    ensures after_login { owed_of 1 (bound_to 0 (Heard 1 (bind 161 194 0) ∷ [])) ≡ failed }
    ensures again { owed_of 1 (bound_to 0 (Heard 1 (bind 161 193 0) ∷ [])) ≡ failed }
    ensures trailing { owed_of 1 (bound_to 1 (Heard 1 bind_trailing ∷ [])) ≡ failed }
    ensures unreadable { owed_of 1 (bound_to 1 (Heard 1 bind_unreadable ∷ [])) ≡ failed }
    ensures unread { owed_of 2 (bound_to 1 (Heard 1 bind_unreadable ∷ [])) ≡ [] }
    ensures no_session { owed_of 1 (bound_to 1 (Heard 1 (bind_long 96 0 194) ∷ [])) ≡ failed }
    ensures longest_session { owed_of 1 (bound_to 1 (Heard 1 (bind_long 224 128 194)
        ∷ Heard 2 (right 2) ∷ [])) ≡ done }
    ensures too_long { owed_of 1 (bound_to 1 (Heard 1 (bind_long 225 129 194) ∷ [])) ≡ failed }
    ensures few { length (chain_at 1 (bound_to 1 (many_more 15)).ports) ≡ 16 }
    ensures last { owed_of 1 (bound_to 1 (many_more 14 ++ Heard 1 (bind 161 99 1)
        ∷ Heard 2 (right 16) ∷ [])) ≡ done }
    ensures one_more { owed_of 1 (bound_to 1 (many_more 15 ++ Heard 1 (bind 161 99 1) ∷ []))
        ≡ failed }
    ensures none_put { owed_of 2 (bound_to 1 (many_more 15 ++ Heard 1 (bind 161 99 1) ∷ [])) ≡ [] }
    ensures known { owed_of 1 (bound_to 1 (many_more 15 ++ Heard 1 (bind 161 9 1)
        ∷ Heard 2 (right 17) ∷ [])) ≡ done }
{}

/// A locked agent verifies nothing more; what was put before binds though it was locked since.
/// Where the client has left nobody is bound, and one connection's bindings are not another's.
pub fn a_binding_is_its_connections_own()
    ensures locked { owed_of 1 (bound_to 1 (Heard 1 (lock (codes "pw")) ∷ Took 1 5
        ∷ Heard 1 (bind 161 194 1) ∷ [])) ≡ failed }
    ensures malformed { owed_of 1 (bound_to 1 (Heard 1 (lock (codes "pw")) ∷ Took 1 5
        ∷ Heard 1 bind_unreadable ∷ [])) ≡ failed }
    ensures locked_since { chain_at 1 (binding_to 1 (Joined Clients ∷ Heard 3 (lock (codes "pw"))
        ∷ Heard 2 (right 1) ∷ [])).ports ≡ binding 161 193 true ∷ [] }
    ensures told { owed_of 1 (binding_to 1 (Joined Clients ∷ Heard 3 (lock (codes "pw"))
        ∷ Heard 2 (right 1) ∷ [])) ≡ done }
    ensures left { closed_by (Heard 2 (right 1)) (binding_to 1 (Ended 1 ∷ [])) ≡ [] }
    ensures other { chain_at 3 (bound_to 1 (Joined Clients ∷ Heard 1 (bind 161 194 1)
        ∷ Heard 2 (right 2) ∷ [])).ports ≡ [] }
    ensures apart { chain_at 3 (bound_to 1 (Joined Clients ∷ Heard 3 (bind 162 193 0)
        ∷ Heard 2 (right 2) ∷ [])).ports ≡ binding 162 193 false ∷ [] }
    ensures stays { chain_at 1 (bound_to 1 (Joined Clients ∷ Heard 3 (bind 162 193 0)
        ∷ Heard 2 (right 2) ∷ [])).ports ≡ binding 161 193 true ∷ [] }
{}

/// A key with destination constraints is listed, removed and replaced by a connection that they
/// lead on from, and by no other: one that tried to bind and isn't bound sees none. All are removed
/// by any.
pub fn a_key_is_seen_where_its_constraints_lead()
    ensures unbound { owed_of 1 (restricted (Heard 1 list ∷ [])) ≡ listed 17 }
    ensures at_login { owed_of 1 (restricted_at 0 (Heard 1 list ∷ [])) ≡ listed 17 }
    ensures at_hop { owed_of 1 (restricted_at 1 (Heard 1 list ∷ [])) ≡ none_listed }
    ensures not_counted { owed_of 1 (restricted_at 1 (Heard 1 (add 18) ∷ Took 1 5 ∷ Heard 1 list
        ∷ [])) ≡ listed 18 }
    ensures not_removed { owed_of 1 (restricted_at 1 (Heard 1 (remove 17) ∷ [])) ≡ failed }
    ensures still_there { owed_of 3 (restricted_at 1 (Heard 1 (remove 17) ∷ Joined Clients
        ∷ Heard 3 list ∷ [])) ≡ listed 17 }
    ensures removed { owed_of 1 (restricted_at 0 (Heard 1 (remove 17) ∷ [])) ≡ done }
    ensures not_replaced { owed_of 1 (restricted_at 1 (Heard 1 (add 17) ∷ [])) ≡ failed }
    ensures replaced { owed_of 1 (restricted_at 0 (Heard 1 (add 17) ∷ [])) ≡ done }
    ensures all_removed { owed_of 3 (restricted_at 1 (Heard 1 remove_all ∷ Joined Clients
        ∷ Heard 3 list ∷ [])) ≡ none_listed }
    ensures tried { owed_of 1 (restricted (Heard 1 bind_trailing ∷ Took 1 5 ∷ Heard 1 list ∷ []))
        ≡ none_listed }
    ensures tried_unreadable { owed_of 1 (restricted (Heard 1 bind_unreadable ∷ Took 1 5
        ∷ Heard 1 list ∷ [])) ≡ none_listed }
    ensures tried_in_vain { owed_of 1 (restricted (Heard 1 (bind 161 193 0) ∷ Started 1 (ticket 9)
        ∷ Joined Children ∷ Heard 2 (hello 1 9) ∷ Heard 2 (wrong 1) ∷ Took 1 5 ∷ Heard 1 list ∷ []))
        ≡ none_listed }
    ensures other_tried { owed_of 2 (restricted (Heard 1 bind_trailing ∷ Joined Clients
        ∷ Heard 2 list ∷ [])) ≡ listed 17 }
    ensures while_locked { owed_of 1 (restricted (Heard 1 (lock (codes "pw")) ∷ Took 1 5
        ∷ Heard 1 bind_trailing ∷ Took 1 5 ∷ Heard 1 (unlock (codes "pw")) ∷ Took 1 5 ∷ Heard 1 list
        ∷ [])) ≡ listed 17 }
{}

/// A key with destination constraints signs what they permit: a login of that user, to the newest
/// session and its host.
pub fn a_key_signs_where_its_constraints_permit()
    ensures permitted { owed_of 1 (restricted_at 0 (Heard 1 (sign_login (codes "root") 193 161)
        ∷ [])) ≡ [] }
    ensures put { (restricted_at 0 (Heard 1 (sign_login (codes "root") 193 161)
        ∷ [])).under_way.link.last ≡ 2 }
    ensures other_user { owed_of 1 (restricted_at 0 (Heard 1 (sign_login (codes "toor") 193 161)
        ∷ [])) ≡ failed }
    ensures other_session { owed_of 1 (restricted_at 0 (Heard 1 (sign_login (codes "root") 194 161)
        ∷ [])) ≡ failed }
    ensures other_host { owed_of 1 (restricted_at 0 (Heard 1 (sign_login (codes "root") 193 162)
        ∷ [])) ≡ failed }
    ensures no_login { owed_of 1 (restricted_at 0 (Heard 1 (sign 17) ∷ [])) ≡ failed }
    ensures unbound { owed_of 1 (restricted (Heard 1 (sign_login (codes "root") 193 161) ∷ []))
        ≡ failed }
    ensures forwarded { owed_of 1 (restricted_at 1 (Heard 1 (sign_login (codes "root") 193 161)
        ∷ [])) ≡ failed }
    ensures none_put { (restricted_at 1 (Heard 1 (sign_login (codes "root") 193 161)
        ∷ [])).under_way.link.last ≡ 1 }
    ensures free { owed_of 1 (restricted_at 1 (Heard 1 (add 18) ∷ Took 1 5 ∷ Heard 1 (sign 18)
        ∷ [])) ≡ [] }
{}

/// A host's certificate counts by the wall clock of the event, not by that of the addition or of
/// the binding.
pub fn a_certificate_counts_while_it_is_valid()
    ensures early { owed_of 1 (at_wall 99 (Heard 1 list) certified) ≡ none_listed }
    ensures first { owed_of 1 (at_wall 100 (Heard 1 list) certified) ≡ listed 17 }
    ensures last { owed_of 1 (at_wall 199 (Heard 1 list) certified) ≡ listed 17 }
    ensures late { owed_of 1 (at_wall 200 (Heard 1 list) certified) ≡ none_listed }
    ensures signed { (at_wall 199 (Heard 1 sign_certified) certified).under_way.link.last ≡ 2 }
    ensures refused { owed_of 1 (at_wall 200 (Heard 1 sign_certified) certified) ≡ failed }
    ensures not_put { (at_wall 200 (Heard 1 sign_certified) certified).under_way.link.last ≡ 1 }
{}
