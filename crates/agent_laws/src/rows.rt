//! Literal rows of the searches in the past: laws that are proved by computing.
#![tactic(auto, unfolding(wire_text::specs::Frames::front, wire_text::specs::Frames::split_up_to, wire_text::specs::Frames::split, wire_text::specs::Wire::uint32, wire_text::specs::Wire::uint64, wire_text::specs::Wire::string, wire_text::specs::Wire::announced_len, wire_core::specs::Fields::uint32_at, wire_core::specs::Fields::uint64_at, wire_core::specs::Fields::string_len, wire_core::specs::Fields::string_at, pattern_core::specs::Patterns::is_match, key_blob::specs::AddedKeys::blob_fields_at, key_blob::specs::AddedKeys::certificate_blob_at, key_blob::specs::AddedKeys::blob_at, key_blob::specs::AddedKeys::added_key_at, key_blob::specs::AddedKeys::private_at, key_blob::specs::Certificates::names_at, key_blob::specs::Certificates::holder_at, key_blob::specs::Certificates::times_at, key_blob::specs::Certificates::signer_at, key_blob::specs::Certificates::certificate_at, key_blob::specs::KeyTypes::form_named, key_blob::specs::Principals::are_strings_up_to, key_blob::specs::Principals::are_strings, key_blob::specs::PublicKeys::public_key_of, key_blob::specs::Reading::field_at, key_blob::specs::Reading::fields_at, key_blob::specs::Reading::after_fields, key_blob::specs::Reading::form_at, key_blob::specs::Validity::names_host_up_to, key_blob::specs::Validity::is_valid, userauth_blob::specs::Reading::after_byte, userauth_blob::specs::Reading::after_text, userauth_blob::specs::Reading::session_at, userauth_blob::specs::Reading::method_named, userauth_blob::specs::Reading::method_at, userauth_blob::specs::Reading::after_key, userauth_blob::specs::Reading::host_key_at, userauth_blob::specs::Reading::auth_of, constraint_rec::specs::Constraints::restrict_destination, constraint_rec::specs::Constraints::uses_name, constraint_rec::specs::HopReading::all_up_to, constraint_rec::specs::HopReading::all_of, constraint_rec::specs::HopReading::key_at, constraint_rec::specs::HopReading::after_reserved, constraint_rec::specs::HopReading::hop_in, constraint_rec::specs::HopReading::as_from, constraint_rec::specs::HopReading::as_to, constraint_rec::specs::HopReading::constraint_in, constraint_rec::specs::HopReading::constraint_at, constraint_rec::specs::HopReading::rules_in, constraint_rec::specs::Reading::kind_at, constraint_rec::specs::Reading::contents_at, constraint_rec::specs::Reading::next_at, constraint_rec::specs::Reading::terms_up_to, constraint_rec::specs::Reading::terms_of, agent_msg::specs::Reading::request_of_number, agent_msg::specs::Reading::request_of, agent_msg::specs::Reading::is_addition, agent_msg::specs::Requests::session_bind, agent_msg::specs::Requests::bind_front, agent_msg::specs::Requests::names_bind, child_msg::specs::Reading::from_child_of_kind, child_msg::specs::Reading::from_child_of, child_msg::specs::Reading::to_child_of_kind, child_msg::specs::Reading::to_child_of, helper_link::specs::Settling::verdict, helper_link::specs::Settling::settling, identity_table::specs::Identities::find_identity, identity_table::specs::Identities::find_number, identity_table::specs::Identities::put_identity, identity_table::specs::Identities::remove_identity, identity_table::specs::Identities::alive_at, identity_table::specs::Identities::next_death, identity_table::specs::Identities::entries_len, identity_table::specs::Identities::kept_len, identity_table::specs::Identities::HaveOwnBlobs, identity_table::specs::Identities::HaveOwnNumbers, identity_table::specs::Identities::AreShort, dest_rule::specs::Chains::judge, dest_rule::specs::Rules::is_hop, dest_rule::specs::Rules::bad_place, dest_rule::specs::Rules::visible, dest_rule::specs::Rules::denial))]

ghost use Rattle.std.specs.Prelude.{◌≡◌, [], ◌∷◌, codes, length, Some, None, true, false};
ghost use Rattle.agent_model.specs.Actions.{Granted, Lost, Over};
ghost use Rattle.agent_model.specs.Rows.{add, add_asking, add_for_ten, add_once, blob, lock, remove, remove_all, sign, unlock};
ghost use Rattle.agent_laws.specs.Dues.{due_signing, open_asks, proved_of, raised_at};
ghost use Rattle.agent_laws.specs.Past.{addition_count, was_locked};
ghost use Rattle.agent_laws.specs.Uses.{times_used, times_wanted};
ghost use Rattle.agent_laws.specs.PastRows.{answered, asked, asked_with, at, claim, did, failed_to, host, number_at, proved, raised, waits_for};

/// What the past tells of the lock and of the keys.
pub fn the_past_tells_of_keys()
    ensures nothing { was_locked [] ≡ false }
    ensures locked { was_locked (did (lock (codes "pw")) ∷ []) ≡ true }
    ensures not_locked { was_locked (failed_to (lock (codes "pw")) ∷ []) ≡ false }
    ensures opened { was_locked (did (unlock (codes "pw")) ∷ did (lock (codes "pw")) ∷ []) ≡ false }
    ensures not_opened { was_locked (failed_to (unlock (codes "no")) ∷ did (lock (codes "pw")) ∷ [])
        ≡ true }
    ensures count { addition_count (did (add 18) ∷ failed_to (add 17) ∷ did (add 17) ∷ []) ≡ 2 }
    ensures added { number_at 0 17 (did (add 17) ∷ []) ≡ Some 1 }
    ensures refused { number_at 0 17 (failed_to (add 17) ∷ []) ≡ None }
    ensures replaced { number_at 0 17 (did (add 17) ∷ did (add 17) ∷ []) ≡ Some 2 }
    ensures other { number_at 0 17 (did (add 18) ∷ did (add 17) ∷ []) ≡ Some 1 }
    ensures removed { number_at 0 17 (did (remove 17) ∷ did (add 17) ∷ []) ≡ None }
    ensures other_removed { number_at 0 17 (did (remove 18) ∷ did (add 17) ∷ []) ≡ Some 1 }
    ensures all_removed { number_at 0 17 (did remove_all ∷ did (add 17) ∷ []) ≡ None }
    ensures again { number_at 0 17 (did (add 17) ∷ did remove_all ∷ did (add 17) ∷ []) ≡ Some 2 }
    ensures lives { number_at 9 17 (did (add_for_ten 17) ∷ []) ≡ Some 1 }
    ensures died { number_at 10 17 (did (add_for_ten 17) ∷ []) ≡ None }
    ensures once { number_at 0 17 (did (add_once 17) ∷ []) ≡ Some 1 }
    ensures used_up { number_at 0 17 (asked 1 ∷ did (add_once 17) ∷ []) ≡ None }
    ensures other_used { number_at 0 18 (asked 1 ∷ did (add_once 18) ∷ []) ≡ Some 1 }
    ensures anew { number_at 0 17 (did (add_once 17) ∷ asked 1 ∷ did (add_once 17) ∷ []) ≡ Some 2 }
    ensures unlimited { number_at 0 17 (asked 2 ∷ asked 1 ∷ did (add 17) ∷ []) ≡ Some 1 }
{}

/// What the past tells of how often a key was used, and of how often it would have been if its uses
/// weren't counted.
pub fn the_past_tells_of_uses()
    ensures none { times_used (blob 17) (did (add_once 17) ∷ waits_for (sign 17) ∷ []) ≡ 0 }
    ensures twice { times_used (blob 17) (asked 1 ∷ did (add 17) ∷ asked 2 ∷ []) ≡ 2 }
    ensures other { times_used (blob 18) (asked 1 ∷ []) ≡ 0 }
    ensures wanted { times_wanted (blob 17) None [] (did (add_once 17) ∷ waits_for (sign 17)
        ∷ asked 1 ∷ waits_for (sign 17) ∷ []) ≡ 2 }
    ensures other_wanted { times_wanted (blob 18) None [] (did (add_once 17) ∷ waits_for (sign 17)
        ∷ []) ≡ 0 }
    ensures locked { times_wanted (blob 17) None [] (did (add_once 17) ∷ did (lock (codes "pw"))
        ∷ waits_for (sign 17) ∷ []) ≡ 0 }
    ensures removed { times_wanted (blob 17) None [] (did (add_once 17) ∷ did (remove 17)
        ∷ waits_for (sign 17) ∷ []) ≡ 0 }
{}

/// What the past tells of bindings, of asks and of what the user is asked.
pub fn the_past_tells_of_what_is_open()
    ensures bound { proved_of 1 (proved 1 8 ∷ proved 1 7 ∷ []) ≡ host 7 ∷ host 8 ∷ [] }
    ensures once { proved_of 1 (proved 1 7 ∷ proved 1 7 ∷ []) ≡ host 7 ∷ [] }
    ensures other_port { proved_of 1 (proved 2 7 ∷ []) ≡ [] }
    ensures asks { open_asks (asked_with 7 2 ∷ asked 1 ∷ []) ≡ (1, 191) ∷ (2, 7) ∷ [] }
    ensures answered { open_asks (answered 1 ∷ asked_with 7 2 ∷ asked 1 ∷ []) ≡ (2, 7) ∷ [] }
    ensures lost { open_asks (at 0 Lost ∷ asked 2 ∷ asked 1 ∷ []) ≡ [] }
    ensures after { open_asks (asked 3 ∷ at 0 Lost ∷ asked 2 ∷ []) ≡ (3, 191) ∷ [] }
    ensures none_raised { raised_at 1 (raised 2 5 ∷ []) ≡ None }
    ensures over { raised_at 1 (at 0 (Over 1) ∷ raised 1 5 ∷ []) ≡ None }
    ensures granted { raised_at 1 (at 0 (Granted 1) ∷ raised 1 5 ∷ []) ≡ None }
    ensures other_over { raised_at 2 (at 0 (Over 1) ∷ raised 2 5 ∷ [])
        ≡ raised_at 2 (raised 2 5 ∷ []) }
{}

/// Which signature is due, behind a request and behind a consent.
pub fn what_is_due_is_what_was_asked()
    ensures due { due_signing None (waits_for (sign 17) ∷ did (add 17) ∷ [])
        ≡ Some (claim 17 None) }
    ensures once { due_signing None (waits_for (sign 17) ∷ did (add_once 17) ∷ [])
        ≡ Some (claim 17 None) }
    ensures used_up { due_signing None (waits_for (sign 17) ∷ asked 1 ∷ did (add_once 17) ∷ [])
        ≡ None }
    ensures put { due_signing None (asked 1 ∷ waits_for (sign 17) ∷ did (add 17) ∷ []) ≡ None }
    ensures never { due_signing None (waits_for (sign 18) ∷ did (add 17) ∷ []) ≡ None }
    ensures locked { due_signing None (waits_for (sign 17) ∷ did (lock (codes "pw")) ∷ did (add 17)
        ∷ []) ≡ None }
    ensures removed { due_signing None (waits_for (sign 17) ∷ did (remove 17) ∷ did (add 17) ∷ [])
        ≡ None }
    ensures unconfirmed { due_signing None (waits_for (sign 17) ∷ did (add_asking 17) ∷ []) ≡ None }
    ensures consented { due_signing None (at 0 (Granted 1) ∷ raised 1 1 ∷ did (add_asking 17) ∷ [])
        ≡ Some (claim 17 (Some 1)) }
    ensures replaced { due_signing None (at 0 (Granted 1) ∷ did (add_asking 17) ∷ raised 1 1
        ∷ did (add_asking 17) ∷ []) ≡ None }
    ensures over { due_signing None (at 0 (Granted 1) ∷ at 0 (Over 1) ∷ raised 1 1
        ∷ did (add_asking 17) ∷ []) ≡ None }
    ensures twice { due_signing None (at 0 (Granted 1) ∷ at 0 (Granted 1) ∷ raised 1 1
        ∷ did (add_asking 17) ∷ []) ≡ None }
    ensures locked_since { due_signing None (at 0 (Granted 1) ∷ did (lock (codes "pw")) ∷ raised 1 1
        ∷ did (add_asking 17) ∷ []) ≡ None }
    ensures used_since { due_signing None (at 0 (Granted 1) ∷ asked 1 ∷ raised 1 1
        ∷ did (add_once 17) ∷ []) ≡ None }
    ensures light { due_signing None (waits_for (sign 17) ∷ asked_with 7 2 ∷ asked_with 8388600 1 ∷ did (add 17) ∷ [])
        ≡ Some (claim 17 None) }
    ensures heavy { due_signing None (waits_for (sign 17) ∷ asked_with 8 2 ∷ asked_with 8388600 1 ∷ did (add 17) ∷ [])
        ≡ None }
    ensures answered { due_signing None (waits_for (sign 17) ∷ answered 1 ∷ asked_with 8 2 ∷ asked_with 8388600 1
        ∷ did (add 17) ∷ []) ≡ Some (claim 17 None) }
    ensures lost { due_signing None (waits_for (sign 17) ∷ at 0 Lost ∷ asked_with 8388608 1 ∷ did (add 17) ∷ [])
        ≡ Some (claim 17 None) }
    ensures died_since { due_signing None (at 10 (Granted 1) ∷ raised 1 1 ∷ did (add_for_ten 17)
        ∷ []) ≡ None }
{}
