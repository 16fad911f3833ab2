//! Literal rows.
#![tactic(auto, unfolding(wire_text::specs::Frames::front, wire_text::specs::Frames::split_up_to, wire_text::specs::Frames::split, wire_text::specs::Wire::uint32, wire_text::specs::Wire::uint64, wire_text::specs::Wire::string, wire_text::specs::Wire::announced_len, wire_core::specs::Fields::uint32_at, wire_core::specs::Fields::uint64_at, wire_core::specs::Fields::string_len, wire_core::specs::Fields::string_at, pattern_core::specs::Patterns::is_match, key_blob::specs::AddedKeys::blob_fields_at, key_blob::specs::AddedKeys::certificate_blob_at, key_blob::specs::AddedKeys::blob_at, key_blob::specs::AddedKeys::added_key_at, key_blob::specs::AddedKeys::private_at, key_blob::specs::Certificates::names_at, key_blob::specs::Certificates::holder_at, key_blob::specs::Certificates::times_at, key_blob::specs::Certificates::signer_at, key_blob::specs::Certificates::certificate_at, key_blob::specs::KeyTypes::form_named, key_blob::specs::Principals::are_strings_up_to, key_blob::specs::Principals::are_strings, key_blob::specs::PublicKeys::public_key_of, key_blob::specs::Reading::field_at, key_blob::specs::Reading::fields_at, key_blob::specs::Reading::after_fields, key_blob::specs::Reading::form_at, key_blob::specs::Validity::names_host_up_to, key_blob::specs::Validity::is_valid, userauth_blob::specs::Reading::after_byte, userauth_blob::specs::Reading::after_text, userauth_blob::specs::Reading::session_at, userauth_blob::specs::Reading::method_named, userauth_blob::specs::Reading::method_at, userauth_blob::specs::Reading::after_key, userauth_blob::specs::Reading::host_key_at, userauth_blob::specs::Reading::auth_of, constraint_rec::specs::Constraints::restrict_destination, constraint_rec::specs::Constraints::uses_name, constraint_rec::specs::HopReading::all_up_to, constraint_rec::specs::HopReading::all_of, constraint_rec::specs::HopReading::key_at, constraint_rec::specs::HopReading::after_reserved, constraint_rec::specs::HopReading::hop_in, constraint_rec::specs::HopReading::as_from, constraint_rec::specs::HopReading::as_to, constraint_rec::specs::HopReading::constraint_in, constraint_rec::specs::HopReading::constraint_at, constraint_rec::specs::HopReading::rules_in, constraint_rec::specs::Reading::kind_at, constraint_rec::specs::Reading::contents_at, constraint_rec::specs::Reading::next_at, constraint_rec::specs::Reading::terms_up_to, constraint_rec::specs::Reading::terms_of, agent_msg::specs::Reading::request_of_number, agent_msg::specs::Reading::request_of, agent_msg::specs::Reading::is_addition, agent_msg::specs::Requests::session_bind, agent_msg::specs::Requests::bind_front, agent_msg::specs::Requests::names_bind, child_msg::specs::Reading::from_child_of_kind, child_msg::specs::Reading::from_child_of, child_msg::specs::Reading::to_child_of_kind, child_msg::specs::Reading::to_child_of, helper_link::specs::Settling::verdict, helper_link::specs::Settling::settling, identity_table::specs::Identities::find_identity, identity_table::specs::Identities::find_number, identity_table::specs::Identities::put_identity, identity_table::specs::Identities::remove_identity, identity_table::specs::Identities::spend_identity, identity_table::specs::Identities::alive_at, identity_table::specs::Identities::next_death, identity_table::specs::Identities::entries_len, identity_table::specs::Identities::kept_len, identity_table::specs::Identities::HaveOwnBlobs, identity_table::specs::Identities::HaveOwnNumbers, identity_table::specs::Identities::AreShort, identity_table::specs::Identities::AreUsable, dest_rule::specs::Chains::judge, dest_rule::specs::Rules::is_hop, dest_rule::specs::Rules::bad_place, dest_rule::specs::Rules::visible, dest_rule::specs::Rules::denial, confirm_desk::specs::Confirmations::consent, sshsig_blob::specs::Reading::after_preamble, sshsig_blob::specs::Reading::namespace_at, sshsig_blob::specs::Reading::digest_len, sshsig_blob::specs::Reading::hash_at, sshsig_blob::specs::Reading::digest_at, sshsig_blob::specs::Reading::signing_of, userauth_blob::specs::Logins::after_same_key, userauth_blob::specs::Logins::host_at, userauth_blob::specs::Logins::login_of, key_purposes::specs::Suspicions::is_name_of_login, key_purposes::specs::Suspicions::names_login, key_purposes::specs::Suspicions::may_log_in, key_purposes::specs::Suspicions::is_certificate_type, key_purposes::specs::Suspicions::begins_certificate, key_purposes::specs::Messages::is_by_sha1, key_purposes::specs::Messages::use_of, key_purposes::specs::Purposes::purpose_named, key_purposes::specs::Purposes::with_word, constraint_rec::specs::Constraints::purposes_name, constraint_rec::specs::PurposeReading::purpose_at, constraint_rec::specs::PurposeReading::purposes_up_to, constraint_rec::specs::PurposeReading::purposes_in))]

ghost use Rattle.std.specs.Prelude.{◌≡◌, [], ◌∷◌, codes};
ghost use Rattle.agent_model.specs.BindRows.{add_only_to, bind};
ghost use Rattle.agent_model.specs.Rows.{add, add_for_ten, add_once, lock, remove, remove_all, unlock};
ghost use Rattle.agent_laws.specs.PastRows.{asked, did, failed_to, waits_for};
ghost use Rattle.list_laws.specs.Rows.{add_again, did_at, listed_at, one, proved_to, two};

/// What the past tells of a list: the newest action stands first.
pub fn the_past_tells_of_lists()
    ensures nothing { listed_at 0 1 [] ≡ [] }
    ensures added { listed_at 0 1 (did (add 18) ∷ did (add 17) ∷ []) ≡ one 17 ∷ one 18 ∷ [] }
    ensures refused { listed_at 0 1 (failed_to (add 18) ∷ did (add 17) ∷ []) ≡ one 17 ∷ [] }
    ensures again { listed_at 0 1 (did (add_again 17) ∷ did (add 18) ∷ did (add 17) ∷ []) ≡ two 17 ∷ one 18 ∷ [] }
    ensures removed { listed_at 0 1 (did (remove 17) ∷ did (add 18) ∷ did (add 17) ∷ []) ≡ one 18 ∷ [] }
    ensures anew { listed_at 0 1 (did (add 17) ∷ did (remove 17) ∷ did (add 18) ∷ did (add 17) ∷ [])
        ≡ one 18 ∷ one 17 ∷ [] }
    ensures all_removed { listed_at 0 1 (did remove_all ∷ did (add 18) ∷ did (add 17) ∷ []) ≡ [] }
    ensures lives { listed_at 9 1 (did (add 18) ∷ did (add_for_ten 17) ∷ []) ≡ one 17 ∷ one 18 ∷ [] }
    ensures died { listed_at 10 1 (did (add 18) ∷ did (add_for_ten 17) ∷ []) ≡ one 18 ∷ [] }
    ensures again_alive { listed_at 9 1 (did_at 9 (add 17) ∷ did (add 18) ∷ did (add_for_ten 17) ∷ [])
        ≡ one 17 ∷ one 18 ∷ [] }
    ensures anew_dead { listed_at 10 1 (did_at 10 (add 17) ∷ did (add 18) ∷ did (add_for_ten 17) ∷ [])
        ≡ one 18 ∷ one 17 ∷ [] }
    ensures used_up { listed_at 0 1 (asked 1 ∷ did (add 18) ∷ did (add_once 17) ∷ []) ≡ one 18 ∷ [] }
    ensures anew_used { listed_at 0 1 (did (add 17) ∷ asked 1 ∷ did (add 18) ∷ did (add_once 17) ∷ [])
        ≡ one 18 ∷ one 17 ∷ [] }
    ensures locked { listed_at 0 1 (did (lock (codes "pw")) ∷ did (add 17) ∷ []) ≡ [] }
    ensures unlocked { listed_at 0 1 (did (unlock (codes "pw")) ∷ did (lock (codes "pw")) ∷ did (add 17) ∷ [])
        ≡ one 17 ∷ [] }
    ensures unbound { listed_at 0 1 (did (add_only_to 17) ∷ []) ≡ one 17 ∷ [] }
    ensures at_host { listed_at 0 1 (proved_to 1 161 ∷ did (add_only_to 17) ∷ []) ≡ one 17 ∷ [] }
    ensures at_other { listed_at 0 1 (proved_to 1 162 ∷ did (add 18) ∷ did (add_only_to 17) ∷ []) ≡ one 18 ∷ [] }
    ensures other_bound { listed_at 0 1 (proved_to 2 162 ∷ did (add_only_to 17) ∷ []) ≡ one 17 ∷ [] }
    ensures tried { listed_at 0 1 (waits_for (bind 161 193 0) ∷ did (add_only_to 17) ∷ []) ≡ [] }
    ensures other_tried { listed_at 0 2 (waits_for (bind 161 193 0) ∷ did (add_only_to 17) ∷ []) ≡ one 17 ∷ [] }
    ensures tried_locked { listed_at 0 1 (did (unlock (codes "pw")) ∷ failed_to (bind 161 193 0)
        ∷ did (lock (codes "pw")) ∷ did (add_only_to 17) ∷ []) ≡ one 17 ∷ [] }
{}
