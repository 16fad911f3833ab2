//! The law of history, computed on runs: each refuses a wrong definition of the agent
//! (`.ci/wrong_definitions`).
#![tactic(auto, unfolding(wire_text::specs::Frames::front, wire_text::specs::Frames::split_up_to, wire_text::specs::Frames::split, wire_text::specs::Wire::uint32, wire_text::specs::Wire::uint64, wire_text::specs::Wire::string, wire_text::specs::Wire::announced_len, wire_core::specs::Fields::uint32_at, wire_core::specs::Fields::uint64_at, wire_core::specs::Fields::string_len, wire_core::specs::Fields::string_at, pattern_core::specs::Patterns::is_match, key_blob::specs::AddedKeys::blob_fields_at, key_blob::specs::AddedKeys::certificate_blob_at, key_blob::specs::AddedKeys::blob_at, key_blob::specs::AddedKeys::added_key_at, key_blob::specs::AddedKeys::private_at, key_blob::specs::Certificates::names_at, key_blob::specs::Certificates::holder_at, key_blob::specs::Certificates::times_at, key_blob::specs::Certificates::signer_at, key_blob::specs::Certificates::certificate_at, key_blob::specs::KeyTypes::form_named, key_blob::specs::Principals::are_strings_up_to, key_blob::specs::Principals::are_strings, key_blob::specs::PublicKeys::public_key_of, key_blob::specs::Reading::field_at, key_blob::specs::Reading::fields_at, key_blob::specs::Reading::after_fields, key_blob::specs::Reading::form_at, key_blob::specs::Validity::names_host_up_to, key_blob::specs::Validity::is_valid, userauth_blob::specs::Reading::after_byte, userauth_blob::specs::Reading::after_text, userauth_blob::specs::Reading::session_at, userauth_blob::specs::Reading::method_named, userauth_blob::specs::Reading::method_at, userauth_blob::specs::Reading::after_key, userauth_blob::specs::Reading::host_key_at, userauth_blob::specs::Reading::auth_of, constraint_rec::specs::Constraints::restrict_destination, constraint_rec::specs::Constraints::uses_name, constraint_rec::specs::HopReading::all_up_to, constraint_rec::specs::HopReading::all_of, constraint_rec::specs::HopReading::key_at, constraint_rec::specs::HopReading::after_reserved, constraint_rec::specs::HopReading::hop_in, constraint_rec::specs::HopReading::as_from, constraint_rec::specs::HopReading::as_to, constraint_rec::specs::HopReading::constraint_in, constraint_rec::specs::HopReading::constraint_at, constraint_rec::specs::HopReading::rules_in, constraint_rec::specs::Reading::kind_at, constraint_rec::specs::Reading::contents_at, constraint_rec::specs::Reading::next_at, constraint_rec::specs::Reading::terms_up_to, constraint_rec::specs::Reading::terms_of, agent_msg::specs::Reading::request_of_number, agent_msg::specs::Reading::request_of, agent_msg::specs::Reading::is_addition, agent_msg::specs::Requests::session_bind, agent_msg::specs::Requests::bind_front, agent_msg::specs::Requests::names_bind, child_msg::specs::Reading::from_child_of_kind, child_msg::specs::Reading::from_child_of, child_msg::specs::Reading::to_child_of_kind, child_msg::specs::Reading::to_child_of, helper_link::specs::Settling::verdict, helper_link::specs::Settling::settling, identity_table::specs::Identities::find_identity, identity_table::specs::Identities::find_number, identity_table::specs::Identities::put_identity, identity_table::specs::Identities::remove_identity, identity_table::specs::Identities::spend_identity, identity_table::specs::Identities::alive_at, identity_table::specs::Identities::next_death, identity_table::specs::Identities::entries_len, identity_table::specs::Identities::kept_len, identity_table::specs::Identities::HaveOwnBlobs, identity_table::specs::Identities::HaveOwnNumbers, identity_table::specs::Identities::AreShort, identity_table::specs::Identities::AreUsable, dest_rule::specs::Chains::judge, dest_rule::specs::Rules::is_hop, dest_rule::specs::Rules::bad_place, dest_rule::specs::Rules::visible, dest_rule::specs::Rules::denial, confirm_desk::specs::Confirmations::consent, sshsig_blob::specs::Reading::after_preamble, sshsig_blob::specs::Reading::namespace_at, sshsig_blob::specs::Reading::digest_len, sshsig_blob::specs::Reading::hash_at, sshsig_blob::specs::Reading::digest_at, sshsig_blob::specs::Reading::signing_of, userauth_blob::specs::Logins::after_same_key, userauth_blob::specs::Logins::host_at, userauth_blob::specs::Logins::login_of, key_purposes::specs::Suspicions::is_name_of_login, key_purposes::specs::Suspicions::names_login, key_purposes::specs::Suspicions::may_log_in, key_purposes::specs::Suspicions::is_certificate_type, key_purposes::specs::Suspicions::begins_certificate, key_purposes::specs::Messages::is_by_sha1, key_purposes::specs::Messages::use_of, key_purposes::specs::Purposes::purpose_named, key_purposes::specs::Purposes::with_word, constraint_rec::specs::Constraints::purposes_name, constraint_rec::specs::PurposeReading::purpose_at, constraint_rec::specs::PurposeReading::purposes_up_to, constraint_rec::specs::PurposeReading::purposes_in))]

ghost use Rattle.std.specs.Prelude.{◌≡◌, [], ◌∷◌, ◌++◌, Some, codes, true};
ghost use Rattle.world_ports.specs.declared.Door.TheVariants.{Clients};
ghost use Rattle.helper_link.specs.declared.answer.Answer.TheVariants as answer;
ghost use Rattle.agent_model.specs.BindRows.{right, sign_certified, sign_login, wrong};
ghost use Rattle.agent_model.specs.ChildRows.{cut_short, sign_frame};
ghost use Rattle.agent_model.specs.Events.{Ended, Heard, Joined, Took};
ghost use Rattle.agent_model.specs.PurposeRows.{add_for_git, sign_commit};
ghost use Rattle.agent_model.specs.Rows.{add, add_asking, add_for_ten, add_once, lock, remove, sign, unlock};
ghost use Rattle.agent_model.specs.Fates.{Gets, Unanswered};
ghost use Rattle.agent_model.specs.State.{OnAsk};
ghost use Rattle.agent_laws.specs.AnsweredRows.{at_once, bad_frame, fate_in_run, left_by, losses_in, one_asks, other_answers, put_by, sign_message, two_ask, waits_at};
ghost use Rattle.agent_laws.specs.Deciding.{asking, at, at_wall, binding, both_asking, certified, granted, lawful, lawful_then};

/// What is put to the helper on these runs is what is due.
pub fn these_runs_are_lawful()
    ensures plain { lawful (Joined Clients ∷ Heard 1 (add 17) ∷ Took 1 5 ∷ Heard 1 (sign 17) ∷ [])
        ≡ true }
    ensures locked { lawful (Joined Clients ∷ Heard 1 (add 17) ∷ Took 1 5
        ∷ Heard 1 (lock (codes "pw")) ∷ Took 1 5 ∷ Heard 1 (sign 17) ∷ []) ≡ true }
    ensures removed { lawful (Joined Clients ∷ Heard 1 (add 17) ∷ Took 1 5 ∷ Heard 1 (remove 17)
        ∷ Took 1 5 ∷ Heard 1 (sign 17) ∷ []) ≡ true }
    ensures died { lawful_then (Joined Clients ∷ Heard 1 (add_for_ten 17) ∷ Took 1 5 ∷ [])
        (at 10 (Heard 1 (sign 17)) ∷ []) ≡ true }
    ensures used_up { lawful (Joined Clients ∷ Heard 1 (add_once 17) ∷ Took 1 5 ∷ Heard 1 (sign 17)
        ∷ Joined Clients ∷ Heard 2 (sign 17) ∷ []) ≡ true }
    ensures purpose { lawful (Joined Clients ∷ Heard 1 (add_for_git 17) ∷ Took 1 5
        ∷ Heard 1 (sign_commit 17) ∷ []) ≡ true }
    ensures other_purpose { lawful (Joined Clients ∷ Heard 1 (add_for_git 17) ∷ Took 1 5
        ∷ Heard 1 (sign 17) ∷ []) ≡ true }
    ensures consented { lawful (asking (Heard 2 (granted 1) ∷ [])) ≡ true }
    ensures locked_since { lawful (asking (Joined Clients ∷ Heard 3 (lock (codes "pw"))
        ∷ Heard 2 (granted 1) ∷ [])) ≡ true }
    ensures replaced { lawful (asking (Joined Clients ∷ Heard 3 (add_asking 17)
        ∷ Heard 2 (granted 1) ∷ [])) ≡ true }
    ensures used_up_since { lawful (both_asking (Heard 3 (granted 1) ∷ Heard 4 (granted 2) ∷ []))
        ≡ true }
    ensures permitted { lawful (binding (right 1) (Heard 1 (sign_login (codes "root") 193 161)
        ∷ [])) ≡ true }
    ensures not_bound { lawful (binding (wrong 1) (Heard 1 (sign_login (codes "root") 193 161)
        ∷ [])) ≡ true }
    ensures other_user { lawful (binding (right 1) (Heard 1 (sign_login (codes "toor") 193 161)
        ∷ [])) ≡ true }
    ensures valid { lawful_then certified (at_wall 199 (Heard 1 sign_certified) ∷ []) ≡ true }
    ensures expired { lawful_then certified (at_wall 200 (Heard 1 sign_certified) ∷ []) ≡ true }
{}

/// Who asks waits; an answer counts behind the helper's HELLO, and from no other child process; each loss is counted; and
/// what is put to the helper, and is owed to it, is what was asked for.
pub fn these_runs_are_answered()
    ensures waits { waits_at 1 (one_asks []) ≡ Some (OnAsk 1) }
    ensures behind_hello { fate_in_run 1 at_once ≡ Gets (answer.Signed (7 ∷ 8 ∷ 9 ∷ [])) }
    ensures no_other { fate_in_run 1 other_answers ≡ Unanswered }
    ensures counted { (left_by bad_frame).under_way.link.faults ≡ 1 }
    ensures losses { losses_in bad_frame ≡ 1 }
    ensures put { put_by two_ask ≡ sign_message 1 17 ∷ sign_message 2 17 ∷ [] }
    ensures owed { (left_by two_ask).under_way.link.owed ≡ sign_frame 1 17 ++ sign_frame 2 17 }
{}
