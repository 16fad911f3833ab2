//! Literal rows, each a law that is proved by computing.
#![tactic(auto, unfolding(wire_text::specs::Frames::front, wire_text::specs::Frames::split_up_to, wire_text::specs::Frames::split, wire_text::specs::Wire::uint32, wire_text::specs::Wire::uint64, wire_text::specs::Wire::string, wire_text::specs::Wire::announced_len, wire_core::specs::Fields::uint32_at, wire_core::specs::Fields::uint64_at, wire_core::specs::Fields::string_len, wire_core::specs::Fields::string_at, key_blob::specs::AddedKeys::blob_fields_at, key_blob::specs::AddedKeys::certificate_blob_at, key_blob::specs::AddedKeys::blob_at, key_blob::specs::AddedKeys::added_key_at, key_blob::specs::AddedKeys::private_at, key_blob::specs::KeyTypes::form_named, key_blob::specs::PublicKeys::public_key_of, key_blob::specs::Reading::field_at, key_blob::specs::Reading::fields_at, key_blob::specs::Reading::after_fields, key_blob::specs::Reading::form_at, constraint_rec::specs::Constraints::restrict_destination, constraint_rec::specs::Constraints::uses_name, constraint_rec::specs::Reading::kind_at, constraint_rec::specs::Reading::contents_at, constraint_rec::specs::Reading::next_at, constraint_rec::specs::Reading::terms_up_to, constraint_rec::specs::Reading::terms_of, agent_msg::specs::Reading::request_of_number, agent_msg::specs::Reading::request_of, agent_msg::specs::Reading::is_addition, agent_msg::specs::Requests::session_bind, agent_msg::specs::Requests::bind_front, agent_msg::specs::Requests::names_bind, identity_table::specs::Identities::find_identity, identity_table::specs::Identities::put_identity, identity_table::specs::Identities::remove_identity, identity_table::specs::Identities::spend_identity, identity_table::specs::Identities::alive_at, identity_table::specs::Identities::entries_len, identity_table::specs::Identities::kept_len, dest_rule::specs::Rules::visible, dest_rule::specs::Rules::denial, dest_rule::specs::Rules::bad_place, dest_rule::specs::Rules::is_hop, dest_rule::specs::Chains::judge, child_msg::specs::Reading::from_child_of_kind, child_msg::specs::Reading::from_child_of, helper_link::specs::Settling::verdict, helper_link::specs::Settling::settling, pattern_core::specs::Patterns::is_match, key_blob::specs::Certificates::names_at, key_blob::specs::Certificates::holder_at, key_blob::specs::Certificates::times_at, key_blob::specs::Certificates::signer_at, key_blob::specs::Certificates::certificate_at, key_blob::specs::Principals::are_strings_up_to, key_blob::specs::Principals::are_strings, key_blob::specs::Validity::names_host_up_to, key_blob::specs::Validity::is_valid, userauth_blob::specs::Reading::after_byte, userauth_blob::specs::Reading::after_text, userauth_blob::specs::Reading::session_at, userauth_blob::specs::Reading::method_named, userauth_blob::specs::Reading::method_at, userauth_blob::specs::Reading::after_key, userauth_blob::specs::Reading::host_key_at, userauth_blob::specs::Reading::auth_of, constraint_rec::specs::HopReading::all_up_to, constraint_rec::specs::HopReading::all_of, constraint_rec::specs::HopReading::key_at, constraint_rec::specs::HopReading::after_reserved, constraint_rec::specs::HopReading::hop_in, constraint_rec::specs::HopReading::as_from, constraint_rec::specs::HopReading::as_to, constraint_rec::specs::HopReading::constraint_in, constraint_rec::specs::HopReading::constraint_at, constraint_rec::specs::HopReading::rules_in, identity_table::specs::Identities::find_number, confirm_desk::specs::Confirmations::consent, identity_table::specs::Identities::next_death, core::specs::Fmt::digits))]

ghost use Rattle.std.specs.Prelude.{◌≡◌, [], ◌∷◌, ◌++◌, codes, length, ◌<◌, ◌^◌};
ghost use Rattle.world_ports.specs.declared.Door.TheVariants.{Clients};
ghost use Rattle.agent_model.specs.Events.{Ended, Heard, Joined, Took};
ghost use Rattle.agent_model.specs.Rows.{done, failed, listed as list_of_one, none_listed};
ghost use Rattle.agent_model.specs.State.{first_state, no_settings};
ghost use Rattle.agent_model.specs.TimeRows.{limited};
ghost use Rattle.replay_laws.specs.Replaying.{AreRead, IsRecorded, first_replay, recording_of};
ghost use Rattle.agent_model.specs.Runs.{AllFit};
ghost use Rattle.agent_secrecy.specs.Pieces.{AreOfBytes};
ghost use Rattle.replay_laws.specs.Rows.{all_at_5, asked, carded, late, listed, locked, refused};
ghost use Rattle.replay_laws.specs.Rows.{seen, seen_again, told, unlocked};

/// Passphrases are told by their numbers, and unlock as they did.
pub fn a_lock_is_replayed()
    ensures told { told no_settings (all_at_5 locked) ≡ (Joined Clients ∷ [])
        ∷ (Heard 1 (0 ∷ 0 ∷ 0 ∷ 6 ∷ 22 ∷ 0 ∷ 0 ∷ 0 ∷ 1 ∷ 49 ∷ []) ∷ []) ∷ (Took 1 5 ∷ [])
        ∷ (Heard 1 (0 ∷ 0 ∷ 0 ∷ 6 ∷ 23 ∷ 0 ∷ 0 ∷ 0 ∷ 1 ∷ 50 ∷ []) ∷ []) ∷ [] }
    ensures wrong { seen no_settings (all_at_5 locked) ≡ (1 ∷ []) ∷ failed ∷ [] }
    ensures wrong_again { seen_again no_settings (all_at_5 locked) ≡ (1 ∷ []) ∷ failed ∷ [] }
    ensures right { seen no_settings (all_at_5 unlocked) ≡ (1 ∷ []) ∷ done ∷ [] }
    ensures right_again { seen_again no_settings (all_at_5 unlocked) ≡ (1 ∷ []) ∷ done ∷ [] }
{}

/// An addition is told where it is whole, and the key is listed as it was.
pub fn an_addition_is_replayed()
    ensures seen { seen no_settings (all_at_5 listed) ≡ (1 ∷ []) ∷ list_of_one 17 ∷ [] }
    ensures again { seen_again no_settings (all_at_5 listed) ≡ (1 ∷ []) ∷ list_of_one 17 ∷ [] }
{}

/// What isn't read is told by its number, and a bad length by its four bytes.
pub fn what_is_refused_is_replayed()
    ensures told { told no_settings (all_at_5 refused) ≡ (Joined Clients ∷ [])
        ∷ (Heard 1 (0 ∷ 0 ∷ 0 ∷ 1 ∷ 22 ∷ 0 ∷ 0 ∷ 0 ∷ 0 ∷ []) ∷ []) ∷ (Took 1 5 ∷ []) ∷ [] }
    ensures seen { seen no_settings (all_at_5 refused) ≡ [] ∷ [] ∷ [] }
    ensures again { seen_again no_settings (all_at_5 refused) ≡ [] ∷ [] ∷ [] }
{}

/// What isn't served is told by its number, and refused as it was.
pub fn what_is_not_served_is_replayed()
    ensures told { told no_settings (all_at_5 carded) ≡ (Joined Clients ∷ [])
        ∷ (Heard 1 (0 ∷ 0 ∷ 0 ∷ 1 ∷ 20 ∷ []) ∷ []) ∷ [] }
    ensures seen { seen no_settings (all_at_5 carded) ≡ (1 ∷ []) ∷ failed ∷ [] }
    ensures again { seen_again no_settings (all_at_5 carded) ≡ (1 ∷ []) ∷ failed ∷ [] }
{}

/// Such a run meets what the law asks for.
pub fn a_list_is_recorded()
    ensures premise { IsRecorded limited (all_at_5 asked) }
    ensures seen { seen_again limited (all_at_5 asked) ≡ (1 ∷ []) ∷ none_listed ∷ [] }
{}

/// The end of a port that the tick of its moment closed is told and passed over, in a run that meets
/// what the law asks for.
pub fn a_late_port_is_passed_over()
    ensures fit { AllFit (first_state limited) late }
    ensures bytes { AreOfBytes late }
    ensures read { AreRead late }
    ensures passphrases { length (recording_of (first_replay limited) late).passphrases < 2 ^ 64 }
    ensures seen { seen limited late ≡ (1 ∷ []) ∷ failed ∷ [] }
    ensures again { seen_again limited late ≡ (1 ∷ []) ∷ failed ∷ [] }
{}
