//! Literal rows of the user's consent: laws that are proved by computing, one a way in which a
//! confirmation ends.
#![tactic(auto, unfolding(wire_text::specs::Frames::front, wire_text::specs::Frames::split_up_to, wire_text::specs::Frames::split, wire_text::specs::Wire::uint32, wire_text::specs::Wire::uint64, wire_text::specs::Wire::string, wire_text::specs::Wire::announced_len, wire_core::specs::Fields::uint32_at, wire_core::specs::Fields::uint64_at, wire_core::specs::Fields::string_len, wire_core::specs::Fields::string_at, key_blob::specs::AddedKeys::blob_fields_at, key_blob::specs::AddedKeys::certificate_blob_at, key_blob::specs::AddedKeys::blob_at, key_blob::specs::AddedKeys::added_key_at, key_blob::specs::AddedKeys::private_at, key_blob::specs::KeyTypes::form_named, key_blob::specs::PublicKeys::public_key_of, key_blob::specs::Reading::field_at, key_blob::specs::Reading::fields_at, key_blob::specs::Reading::after_fields, key_blob::specs::Reading::form_at, constraint_rec::specs::Constraints::restrict_destination, constraint_rec::specs::Constraints::uses_name, constraint_rec::specs::Reading::kind_at, constraint_rec::specs::Reading::contents_at, constraint_rec::specs::Reading::next_at, constraint_rec::specs::Reading::terms_up_to, constraint_rec::specs::Reading::terms_of, agent_msg::specs::Reading::request_of_number, agent_msg::specs::Reading::request_of, agent_msg::specs::Reading::is_addition, agent_msg::specs::Requests::session_bind, agent_msg::specs::Requests::bind_front, agent_msg::specs::Requests::names_bind, identity_table::specs::Identities::find_identity, identity_table::specs::Identities::put_identity, identity_table::specs::Identities::remove_identity, identity_table::specs::Identities::spend_identity, identity_table::specs::Identities::alive_at, identity_table::specs::Identities::entries_len, identity_table::specs::Identities::kept_len, dest_rule::specs::Rules::visible, dest_rule::specs::Rules::denial, dest_rule::specs::Rules::bad_place, dest_rule::specs::Rules::is_hop, dest_rule::specs::Chains::judge, child_msg::specs::Reading::from_child_of_kind, child_msg::specs::Reading::from_child_of, helper_link::specs::Settling::verdict, helper_link::specs::Settling::settling, pattern_core::specs::Patterns::is_match, key_blob::specs::Certificates::names_at, key_blob::specs::Certificates::holder_at, key_blob::specs::Certificates::times_at, key_blob::specs::Certificates::signer_at, key_blob::specs::Certificates::certificate_at, key_blob::specs::Principals::are_strings_up_to, key_blob::specs::Principals::are_strings, key_blob::specs::Validity::names_host_up_to, key_blob::specs::Validity::is_valid, userauth_blob::specs::Reading::after_byte, userauth_blob::specs::Reading::after_text, userauth_blob::specs::Reading::session_at, userauth_blob::specs::Reading::method_named, userauth_blob::specs::Reading::method_at, userauth_blob::specs::Reading::after_key, userauth_blob::specs::Reading::host_key_at, userauth_blob::specs::Reading::auth_of, constraint_rec::specs::HopReading::all_up_to, constraint_rec::specs::HopReading::all_of, constraint_rec::specs::HopReading::key_at, constraint_rec::specs::HopReading::after_reserved, constraint_rec::specs::HopReading::hop_in, constraint_rec::specs::HopReading::as_from, constraint_rec::specs::HopReading::as_to, constraint_rec::specs::HopReading::constraint_in, constraint_rec::specs::HopReading::constraint_at, constraint_rec::specs::HopReading::rules_in, identity_table::specs::Identities::find_number, confirm_desk::specs::Confirmations::consent,))]

ghost use Rattle.std.specs.Prelude.{◌≡◌, [], ◌∷◌, ◌++◌, codes, take, drop, length};
ghost use Rattle.world_ports.specs.declared.Door.TheVariants.{Clients, Children};
ghost use Rattle.helper_link.specs.HelperLink.{asked_len};
ghost use Rattle.agent_model.specs.ChildRows.{hello, helper_job, refused, sign_frame, signature, signed, then, ticket};
ghost use Rattle.agent_model.specs.ConsentRows.{asked, asked_beside, asking, asking_often, at_second, both_asked, both_asked_of_two, bound_to_host, confirm_job, denied, granted, no_frame, of_size, short_lived, unanswered};
ghost use Rattle.agent_model.specs.Events.{Ended, Heard, Joined, StartFailed, Started, Took};
ghost use Rattle.agent_model.specs.Rows.{add, add_asking, closed_by, failed, list, listed, lock, remove, remove_all, sign, unlock, with_event};
ghost use Rattle.agent_model.specs.State.{owed_of, starts};

/// A key that asks for confirmation is used once the user agreed, and each signature is asked for
/// anew; meanwhile the client waits and others are served.
pub fn a_signature_waits_for_the_user()
    ensures waits { owed_of 1 (asking []) ≡ [] }
    ensures starts { starts (asking []) ≡ confirm_job 1 ∷ [] }
    ensures served { owed_of 2 (asking (Joined Clients ∷ Heard 2 list ∷ [])) ≡ listed 17 }
    ensures no_helper { starts (asked []) ≡ [] }
    ensures still { owed_of 1 (asked []) ≡ [] }
    ensures helper { starts (asked (Heard 2 (granted 1) ∷ [])) ≡ helper_job 2 ∷ [] }
    ensures closed { closed_by (Heard 2 (granted 1)) (asked []) ≡ 2 ∷ [] }
    ensures unsigned { owed_of 1 (asked (Heard 2 (granted 1) ∷ [])) ≡ [] }
    ensures put { owed_of 3 (asked (Heard 2 (granted 1) ∷ Started 2 (ticket 7) ∷ Joined Children
        ∷ Heard 3 (hello 2 7) ∷ [])) ≡ sign_frame 1 17 }
    ensures signed { owed_of 1 (asked (Heard 2 (granted 1) ∷ Started 2 (ticket 7) ∷ Joined Children
        ∷ Heard 3 (hello 2 7) ∷ Heard 3 (signed 1 (codes "sig")) ∷ [])) ≡ signature (codes "sig") }
    ensures anew { starts (asked (Heard 2 (granted 1) ∷ Started 2 (ticket 7) ∷ Joined Children
        ∷ Heard 3 (hello 2 7) ∷ Heard 3 (signed 1 (codes "sig")) ∷ Took 1 12 ∷ Heard 1 (sign 17)
        ∷ [])) ≡ confirm_job 3 ∷ [] }
    ensures in_parts { starts (asked (Heard 2 (take 6 (granted 1)) ∷ Heard 2 (drop 6 (granted 1))
        ∷ [])) ≡ helper_job 2 ∷ [] }
    ensures at_once { starts (asking (Started 1 (ticket 9) ∷ Joined Children ∷ Heard 2 (hello 1 9
        ++ granted 1) ∷ [])) ≡ helper_job 2 ∷ [] }
    ensures shut { closed_by (Heard 2 (hello 1 9 ++ granted 1))
        (asking (Started 1 (ticket 9) ∷ Joined Children ∷ []))
        ≡ 2 ∷ [] }
{}

/// What held as the signature was asked for is tested again as the user agrees: where the agent is
/// locked by then, the key removed, replaced or run out, or its destination no longer permitted,
/// the client is told SSH_AGENT_FAILURE.
pub fn consent_is_tested_again()
    ensures locked { owed_of 1 (asked_beside (Heard 2 (lock (codes "pw")) ∷ Heard 3 (granted 1)
        ∷ [])) ≡ failed }
    ensures closed { closed_by (Heard 3 (granted 1))
        (asked_beside (Heard 2 (lock (codes "pw")) ∷ [])) ≡ 3 ∷ [] }
    ensures unlocked { starts (asked_beside (Heard 2 (lock (codes "pw")) ∷ Took 2 5
        ∷ Heard 2 (unlock (codes "pw")) ∷ Heard 3 (granted 1) ∷ [])) ≡ helper_job 2 ∷ [] }
    ensures removed { owed_of 1 (asked_beside (Heard 2 (remove 17) ∷ Heard 3 (granted 1) ∷ []))
        ≡ failed }
    ensures all_removed { owed_of 1 (asked_beside (Heard 2 remove_all ∷ Heard 3 (granted 1) ∷ []))
        ≡ failed }
    ensures replaced { owed_of 1 (asked_beside (Heard 2 (add 17) ∷ Heard 3 (granted 1) ∷ []))
        ≡ failed }
    ensures replaced_alike { owed_of 1 (asked_beside (Heard 2 (add_asking 17) ∷ Heard 3 (granted 1)
        ∷ [])) ≡ failed }
    ensures no_helper { starts (asked_beside (Heard 2 (add 17) ∷ Heard 3 (granted 1) ∷ [])) ≡ [] }
    ensures lives { owed_of 1 (at_second 9 0 (Heard 2 (granted 1)) short_lived) ≡ [] }
    ensures expired { owed_of 1 (at_second 10 0 (Heard 2 (granted 1)) short_lived) ≡ failed }
    ensures permitted { owed_of 1 (at_second 0 199 (Heard 3 (granted 2)) bound_to_host) ≡ [] }
    ensures denied { owed_of 1 (at_second 0 200 (Heard 3 (granted 2)) bound_to_host) ≡ failed }
    ensures asked { (at_second 0 199 (Heard 3 (granted 2)) bound_to_host).under_way.link.last ≡ 2 }
    ensures unasked { (at_second 0 200 (Heard 3 (granted 2)) bound_to_host).under_way.link.last
        ≡ 1 }
{}

/// Of two signatures with a key that may be used once the first that the user agrees to is put to
/// the helper, and the other one fails then; with a key that may be used twice both are put. One
/// that the user refuses uses nothing.
pub fn consent_uses_an_identity_once()
    ensures first { starts (both_asked (Heard 3 (granted 1) ∷ [])) ≡ helper_job 3 ∷ [] }
    ensures closed { closed_by (Heard 3 (granted 1)) (both_asked []) ≡ 3 ∷ [] }
    ensures waits { owed_of 1 (both_asked (Heard 3 (granted 1) ∷ Heard 4 (granted 2) ∷ []))
        ≡ [] }
    ensures shut { closed_by (Heard 4 (granted 2)) (both_asked (Heard 3 (granted 1) ∷ []))
        ≡ 4 ∷ [] }
    ensures gone { owed_of 2 (both_asked (Heard 3 (granted 1) ∷ Heard 4 (granted 2) ∷ []))
        ≡ failed }
    ensures put { (both_asked (Heard 3 (granted 1) ∷ Heard 4 (granted 2)
        ∷ [])).under_way.link.last ≡ 1 }
    ensures both { (both_asked_of_two (Heard 3 (granted 1) ∷ Heard 4 (granted 2)
        ∷ [])).under_way.link.last ≡ 2 }
    ensures denied { starts (both_asked (Heard 3 (denied 1) ∷ Heard 4 (granted 2) ∷ []))
        ≡ helper_job 3 ∷ [] }
    ensures held { owed_of 1 (both_asked (Heard 3 (denied 1) ∷ Took 1 5 ∷ Heard 1 list ∷ []))
        ≡ listed 17 }
{}

/// Where the user refuses, or the child process says anything else, leaves or isn't started, the
/// client that waits is told SSH_AGENT_FAILURE, and the child process's port is closed.
pub fn a_confirmation_ends_without_consent()
    ensures refused { owed_of 1 (asked (Heard 2 (denied 1) ∷ [])) ≡ failed }
    ensures closed { closed_by (Heard 2 (denied 1)) (asked []) ≡ 2 ∷ [] }
    ensures no_helper { starts (asked (Heard 2 (denied 1) ∷ [])) ≡ [] }
    ensures other_job { owed_of 1 (asked (Heard 2 (granted 2) ∷ [])) ≡ failed }
    ensures other_kind { owed_of 1 (asked (Heard 2 (signed 1 (codes "sig")) ∷ [])) ≡ failed }
    ensures bad_length { owed_of 1 (asked (Heard 2 no_frame ∷ [])) ≡ failed }
    ensures shut { closed_by (Heard 2 no_frame) (asked []) ≡ 2 ∷ [] }
    ensures lost { owed_of 1 (asked (Ended 2 ∷ [])) ≡ failed }
    ensures not_started { owed_of 1 (asking (StartFailed 1 ∷ [])) ≡ failed }
    ensures nothing_left { starts (asking (StartFailed 1 ∷ [])) ≡ [] }
    ensures anew { starts (asked (Heard 2 (denied 1) ∷ Took 1 5 ∷ Heard 1 (sign 17) ∷ []))
        ≡ confirm_job 2 ∷ [] }
    ensures once { starts (asked (Heard 2 (denied 1 ++ granted 1) ∷ [])) ≡ [] }
    ensures whose { owed_of 2 (asked_beside (Heard 2 (sign 17) ∷ Heard 3 (denied 1) ∷ [])) ≡ [] }
    ensures its_own { owed_of 1 (asked_beside (Heard 2 (sign 17) ∷ Heard 3 (denied 1) ∷ []))
        ≡ failed }
    ensures second { owed_of 2 (asked_beside (Heard 2 (sign 17) ∷ StartFailed 2 ∷ [])) ≡ failed }
{}

/// A client that leaves ends its confirmation: one event closes its port and that of the child
/// process. Whoever comes with the ticket of a confirmation that ended is nobody.
pub fn a_client_that_leaves_ends_its_confirmation()
    ensures both { closed_by (Ended 1) (asked []) ≡ 1 ∷ 2 ∷ [] }
    ensures unstarted { closed_by (Heard 2 (hello 1 9))
        (asking (Ended 1 ∷ Started 1 (ticket 9) ∷ Joined Children ∷ []))
        ≡ 2 ∷ [] }
    ensures unnamed { closed_by (Heard 2 (hello 1 9))
        (asking (Started 1 (ticket 9) ∷ Ended 1 ∷ Joined Children ∷ []))
        ≡ 2 ∷ [] }
    ensures denied { closed_by (Heard 3 (hello 1 9)) (asked (Heard 2 (denied 1) ∷ Joined Children
        ∷ [])) ≡ 3 ∷ [] }
    ensures granted { closed_by (Heard 3 (hello 1 9)) (asked (Heard 2 (granted 1) ∷ Joined Children
        ∷ [])) ≡ 3 ∷ [] }
    ensures twice { closed_by (Heard 3 (hello 1 9)) (asked (Joined Children ∷ [])) ≡ 3 ∷ [] }
{}

/// Sixteen confirmations may be waited for, and the seventeenth is refused until one ends; where
/// 256 asks are unanswered, or the bodies of fewer have 8 MiB together, consent comes to nothing.
pub fn confirmations_are_bounded()
    ensures last { owed_of 16 (asking_often 15) ≡ [] }
    ensures one_more { owed_of 17 (asking_often 16) ≡ failed }
    ensures jobs { length (starts (asking_often 16)) ≡ 16 }
    ensures room { owed_of 17 (then (asking_often 16) (Took 17 5 ∷ StartFailed 3
        ∷ Heard 17 (sign 17) ∷ [])) ≡ [] }
    ensures asked { (with_event (Heard 2 (granted 1)) (unanswered 255)).under_way.link.last ≡ 256 }
    ensures unasked { owed_of 1 (with_event (Heard 2 (granted 1)) (unanswered 256)) ≡ failed }
    ensures size { asked_len (unanswered 2).under_way.link.asks ≡ 382 }
    ensures light { (with_event (Heard 2 (granted 1)) (of_size 8388607 (unanswered 1))).under_way.link.last ≡ 2 }
    ensures heavy { owed_of 1 (with_event (Heard 2 (granted 1)) (of_size 8388608 (unanswered 1))) ≡ failed }
    ensures heavy_together { owed_of 1 (with_event (Heard 2 (granted 1)) (of_size 4194304 (unanswered 2))) ≡ failed }
{}
