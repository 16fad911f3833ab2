//! Literal rows of runs with a key that a client doesn't see, and without it: laws that are proved
//! by computing.
#![tactic(auto, unfolding(wire_text::specs::Frames::front, wire_text::specs::Frames::split_up_to, wire_text::specs::Frames::split, wire_text::specs::Wire::uint32, wire_text::specs::Wire::uint64, wire_text::specs::Wire::string, wire_text::specs::Wire::announced_len, wire_core::specs::Fields::uint32_at, wire_core::specs::Fields::uint64_at, wire_core::specs::Fields::string_len, wire_core::specs::Fields::string_at, pattern_core::specs::Patterns::is_match, key_blob::specs::AddedKeys::blob_fields_at, key_blob::specs::AddedKeys::certificate_blob_at, key_blob::specs::AddedKeys::blob_at, key_blob::specs::AddedKeys::added_key_at, key_blob::specs::AddedKeys::private_at, key_blob::specs::Certificates::names_at, key_blob::specs::Certificates::holder_at, key_blob::specs::Certificates::times_at, key_blob::specs::Certificates::signer_at, key_blob::specs::Certificates::certificate_at, key_blob::specs::KeyTypes::form_named, key_blob::specs::Principals::are_strings_up_to, key_blob::specs::Principals::are_strings, key_blob::specs::PublicKeys::public_key_of, key_blob::specs::Reading::field_at, key_blob::specs::Reading::fields_at, key_blob::specs::Reading::after_fields, key_blob::specs::Reading::form_at, key_blob::specs::Validity::names_host_up_to, key_blob::specs::Validity::is_valid, userauth_blob::specs::Reading::after_byte, userauth_blob::specs::Reading::after_text, userauth_blob::specs::Reading::session_at, userauth_blob::specs::Reading::method_named, userauth_blob::specs::Reading::method_at, userauth_blob::specs::Reading::after_key, userauth_blob::specs::Reading::host_key_at, userauth_blob::specs::Reading::auth_of, constraint_rec::specs::Constraints::restrict_destination, constraint_rec::specs::HopReading::all_up_to, constraint_rec::specs::HopReading::all_of, constraint_rec::specs::HopReading::key_at, constraint_rec::specs::HopReading::after_reserved, constraint_rec::specs::HopReading::hop_in, constraint_rec::specs::HopReading::as_from, constraint_rec::specs::HopReading::as_to, constraint_rec::specs::HopReading::constraint_in, constraint_rec::specs::HopReading::constraint_at, constraint_rec::specs::HopReading::rules_in, constraint_rec::specs::Reading::kind_at, constraint_rec::specs::Reading::contents_at, constraint_rec::specs::Reading::next_at, constraint_rec::specs::Reading::terms_up_to, constraint_rec::specs::Reading::terms_of, agent_msg::specs::Reading::request_of_number, agent_msg::specs::Reading::request_of, agent_msg::specs::Reading::is_addition, agent_msg::specs::Requests::session_bind, agent_msg::specs::Requests::bind_front, agent_msg::specs::Requests::names_bind, child_msg::specs::Reading::from_child_of_kind, child_msg::specs::Reading::from_child_of, child_msg::specs::Reading::to_child_of_kind, child_msg::specs::Reading::to_child_of, helper_link::specs::Settling::verdict, helper_link::specs::Settling::settling, identity_table::specs::Identities::find_identity, identity_table::specs::Identities::find_number, identity_table::specs::Identities::put_identity, identity_table::specs::Identities::remove_identity, identity_table::specs::Identities::alive_at, identity_table::specs::Identities::next_death, identity_table::specs::Identities::entries_len, identity_table::specs::Identities::kept_len, identity_table::specs::Identities::HaveOwnBlobs, identity_table::specs::Identities::HaveOwnNumbers, identity_table::specs::Identities::AreShort, dest_rule::specs::Chains::judge, dest_rule::specs::Rules::is_hop, dest_rule::specs::Rules::bad_place, dest_rule::specs::Rules::visible, dest_rule::specs::Rules::denial))]

ghost use Rattle.std.specs.Prelude.{◌≡◌, [], ◌∷◌};
ghost use Rattle.agent_model.specs.Events.{Heard, Took};
ghost use Rattle.agent_model.specs.Rows.{add, list, listed, remove};
ghost use Rattle.agent_laws.specs.ApartRows.{behind_key, blinded, owed_to_second};

/// A list and a removal by name are answered alike with the key and without it; a client that sees
/// it is shown it; and an addition of that very key says more.
pub fn a_hidden_key_changes_no_reply_but_to_its_own_addition()
    ensures without { owed_to_second (blinded (Heard 2 list ∷ []))
        ≡ 0 ∷ 0 ∷ 0 ∷ 5 ∷ 12 ∷ 0 ∷ 0 ∷ 0 ∷ 0 ∷ [] }
    ensures with { owed_to_second (blinded (behind_key (Heard 2 list ∷ [])))
        ≡ 0 ∷ 0 ∷ 0 ∷ 5 ∷ 12 ∷ 0 ∷ 0 ∷ 0 ∷ 0 ∷ [] }
    ensures added_and_removed { owed_to_second (blinded (behind_key (Heard 1 (remove 17) ∷ Took 1 5
        ∷ Heard 2 list ∷ []))) ≡ 0 ∷ 0 ∷ 0 ∷ 5 ∷ 12 ∷ 0 ∷ 0 ∷ 0 ∷ 0 ∷ [] }
    ensures not_removed { owed_to_second (blinded (behind_key (Heard 2 (remove 17) ∷ [])))
        ≡ 0 ∷ 0 ∷ 0 ∷ 1 ∷ 5 ∷ [] }
    ensures not_there { owed_to_second (blinded (Heard 2 (remove 17) ∷ []))
        ≡ 0 ∷ 0 ∷ 0 ∷ 1 ∷ 5 ∷ [] }
    ensures seen { owed_to_second (behind_key (Heard 2 list ∷ [])) ≡ listed 17 }
    ensures held { owed_to_second (blinded (behind_key (Heard 2 (add 17) ∷ [])))
        ≡ 0 ∷ 0 ∷ 0 ∷ 1 ∷ 5 ∷ [] }
    ensures free { owed_to_second (blinded (Heard 2 (add 17) ∷ [])) ≡ 0 ∷ 0 ∷ 0 ∷ 1 ∷ 6 ∷ [] }
{}
