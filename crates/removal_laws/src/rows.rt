//! Literal rows.
#![tactic(auto, unfolding(wire_text::specs::Frames::front, wire_text::specs::Frames::split_up_to, wire_text::specs::Frames::split, wire_text::specs::Wire::uint32, wire_text::specs::Wire::uint64, wire_text::specs::Wire::string, wire_text::specs::Wire::announced_len, wire_core::specs::Fields::uint32_at, wire_core::specs::Fields::uint64_at, wire_core::specs::Fields::string_len, wire_core::specs::Fields::string_at, pattern_core::specs::Patterns::is_match, key_blob::specs::AddedKeys::blob_fields_at, key_blob::specs::AddedKeys::certificate_blob_at, key_blob::specs::AddedKeys::blob_at, key_blob::specs::AddedKeys::added_key_at, key_blob::specs::AddedKeys::private_at, key_blob::specs::Certificates::names_at, key_blob::specs::Certificates::holder_at, key_blob::specs::Certificates::times_at, key_blob::specs::Certificates::signer_at, key_blob::specs::Certificates::certificate_at, key_blob::specs::KeyTypes::form_named, key_blob::specs::Principals::are_strings_up_to, key_blob::specs::Principals::are_strings, key_blob::specs::PublicKeys::public_key_of, key_blob::specs::Reading::field_at, key_blob::specs::Reading::fields_at, key_blob::specs::Reading::after_fields, key_blob::specs::Reading::form_at, key_blob::specs::Validity::names_host_up_to, key_blob::specs::Validity::is_valid, userauth_blob::specs::Reading::after_byte, userauth_blob::specs::Reading::after_text, userauth_blob::specs::Reading::session_at, userauth_blob::specs::Reading::method_named, userauth_blob::specs::Reading::method_at, userauth_blob::specs::Reading::after_key, userauth_blob::specs::Reading::host_key_at, userauth_blob::specs::Reading::auth_of, constraint_rec::specs::Constraints::restrict_destination, constraint_rec::specs::Constraints::uses_name, constraint_rec::specs::HopReading::all_up_to, constraint_rec::specs::HopReading::all_of, constraint_rec::specs::HopReading::key_at, constraint_rec::specs::HopReading::after_reserved, constraint_rec::specs::HopReading::hop_in, constraint_rec::specs::HopReading::as_from, constraint_rec::specs::HopReading::as_to, constraint_rec::specs::HopReading::constraint_in, constraint_rec::specs::HopReading::constraint_at, constraint_rec::specs::HopReading::rules_in, constraint_rec::specs::Reading::kind_at, constraint_rec::specs::Reading::contents_at, constraint_rec::specs::Reading::next_at, constraint_rec::specs::Reading::terms_up_to, constraint_rec::specs::Reading::terms_of, agent_msg::specs::Reading::request_of_number, agent_msg::specs::Reading::request_of, agent_msg::specs::Reading::is_addition, agent_msg::specs::Requests::session_bind, agent_msg::specs::Requests::bind_front, agent_msg::specs::Requests::names_bind, child_msg::specs::Reading::from_child_of_kind, child_msg::specs::Reading::from_child_of, child_msg::specs::Reading::to_child_of_kind, child_msg::specs::Reading::to_child_of, helper_link::specs::Settling::verdict, helper_link::specs::Settling::settling, identity_table::specs::Identities::find_identity, identity_table::specs::Identities::find_number, identity_table::specs::Identities::put_identity, identity_table::specs::Identities::remove_identity, identity_table::specs::Identities::spend_identity, identity_table::specs::Identities::alive_at, identity_table::specs::Identities::next_death, identity_table::specs::Identities::entries_len, identity_table::specs::Identities::kept_len, identity_table::specs::Identities::HaveOwnBlobs, identity_table::specs::Identities::HaveOwnNumbers, identity_table::specs::Identities::AreShort, identity_table::specs::Identities::AreUsable, dest_rule::specs::Chains::judge, dest_rule::specs::Rules::is_hop, dest_rule::specs::Rules::bad_place, dest_rule::specs::Rules::visible, dest_rule::specs::Rules::denial, confirm_desk::specs::Confirmations::consent, sshsig_blob::specs::Reading::after_preamble, sshsig_blob::specs::Reading::namespace_at, sshsig_blob::specs::Reading::digest_len, sshsig_blob::specs::Reading::hash_at, sshsig_blob::specs::Reading::digest_at, sshsig_blob::specs::Reading::signing_of, userauth_blob::specs::Logins::after_same_key, userauth_blob::specs::Logins::host_at, userauth_blob::specs::Logins::login_of, key_purposes::specs::Suspicions::is_name_of_login, key_purposes::specs::Suspicions::names_login, key_purposes::specs::Suspicions::may_log_in, key_purposes::specs::Suspicions::is_certificate_type, key_purposes::specs::Suspicions::begins_certificate, key_purposes::specs::Messages::is_by_sha1, key_purposes::specs::Messages::use_of, key_purposes::specs::Purposes::purpose_named, key_purposes::specs::Purposes::with_word, constraint_rec::specs::Constraints::purposes_name, constraint_rec::specs::PurposeReading::purpose_at, constraint_rec::specs::PurposeReading::purposes_up_to, constraint_rec::specs::PurposeReading::purposes_in))]

ghost use Rattle.std.specs.Prelude.{◌≡◌, [], Some, None};
ghost use Rattle.agent_model.specs.ChildRows.{sign_frame};
ghost use Rattle.agent_model.specs.Rows.{blob};
ghost use Rattle.agent_model.specs.State.{no_settings};
ghost use Rattle.agent_secrecy.specs.Alike.{AreAlike};
ghost use Rattle.agent_secrecy.specs.Rows.{private_string};
ghost use Rattle.removal_laws.specs.Removals.{IsDrained, last_private, past_of};
ghost use Rattle.removal_laws.specs.Rows.{asked, begun, beside, kept, left_by, removed, replaced};

/// What these runs leave doesn't depend on the secret of the key that left.
pub fn nothing_is_left_of_these_keys()
    ensures removed { left_by (removed 33) ≡ left_by (removed 34) }
    ensures beside { left_by (beside 33) ≡ left_by (beside 34) }
    ensures replaced { left_by (replaced 33) ≡ left_by (replaced 34) }
    ensures alike { AreAlike (removed 33) (removed 34) }
    ensures drained { IsDrained (left_by (removed 33)) }
    ensures none_held { (left_by (removed 33)).held.table.identities ≡ [] }
    ensures added { last_private (blob 17) (past_of no_settings (kept 33)) ≡ Some (private_string 17 33) }
    ensures gone { last_private (blob 17) (past_of no_settings (removed 33)) ≡ None }
    ensures added_again { last_private (blob 17) (past_of no_settings (replaced 33)) ≡ Some (private_string 17 34) }
{}

/// What these leave does: the key is held, the helper is owed it, or it isn't read yet.
pub fn these_keys_are_there()
    ensures held { left_by (kept 33) ≡ left_by (kept 34) → ⊥ }
    ensures owed { (left_by (asked 33)).under_way.link.owed ≡ sign_frame 1 17 }
    ensures owed_waits { IsDrained (left_by (asked 33)) → ⊥ }
    ensures unread { left_by (begun 33) ≡ left_by (begun 34) → ⊥ }
    ensures unread_waits { IsDrained (left_by (begun 33)) → ⊥ }
{}
