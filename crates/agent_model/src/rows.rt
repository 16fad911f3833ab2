//! Literal rows of the table of requests: laws that are proved by computing, one a row, a cause or
//! a limit.
#![tactic(auto, unfolding(wire_text::specs::Frames::front, wire_text::specs::Frames::split_up_to, wire_text::specs::Frames::split, wire_text::specs::Wire::uint32, wire_text::specs::Wire::uint64, wire_text::specs::Wire::string, wire_text::specs::Wire::announced_len, wire_core::specs::Fields::uint32_at, wire_core::specs::Fields::uint64_at, wire_core::specs::Fields::string_len, wire_core::specs::Fields::string_at, key_blob::specs::AddedKeys::blob_fields_at, key_blob::specs::AddedKeys::certificate_blob_at, key_blob::specs::AddedKeys::blob_at, key_blob::specs::AddedKeys::added_key_at, key_blob::specs::AddedKeys::private_at, key_blob::specs::KeyTypes::form_named, key_blob::specs::PublicKeys::public_key_of, key_blob::specs::Reading::field_at, key_blob::specs::Reading::fields_at, key_blob::specs::Reading::after_fields, key_blob::specs::Reading::form_at, constraint_rec::specs::Constraints::restrict_destination, constraint_rec::specs::Constraints::uses_name, constraint_rec::specs::Reading::kind_at, constraint_rec::specs::Reading::contents_at, constraint_rec::specs::Reading::next_at, constraint_rec::specs::Reading::terms_up_to, constraint_rec::specs::Reading::terms_of, agent_msg::specs::Reading::request_of_number, agent_msg::specs::Reading::request_of, agent_msg::specs::Reading::is_addition, agent_msg::specs::Requests::session_bind, agent_msg::specs::Requests::bind_front, agent_msg::specs::Requests::names_bind, identity_table::specs::Identities::find_identity, identity_table::specs::Identities::put_identity, identity_table::specs::Identities::remove_identity, identity_table::specs::Identities::spend_identity, identity_table::specs::Identities::alive_at, identity_table::specs::Identities::entries_len, identity_table::specs::Identities::kept_len, dest_rule::specs::Rules::visible, dest_rule::specs::Rules::denial, dest_rule::specs::Rules::bad_place, dest_rule::specs::Rules::is_hop, dest_rule::specs::Chains::judge,))]

ghost use Rattle.std.specs.Prelude.{◌≡◌, ◌<◌, ◌≤◌, ◌==◌, ℕ, List, [], ◌∷◌, ◌++◌, codes, true, false, None};
ghost use Rattle.world_ports.specs.declared.Door.TheVariants.{Clients};
ghost use Rattle.agent_msg.specs.Requests.{Add, Addition};
ghost use Rattle.identity_table.specs.Identities.{answer_len, find_identity, identities_with, kept_len, added};
ghost use Rattle.agent_model.specs.Dispatch.{Asker, Served, answers, refuses, serve_unlocked};
ghost use Rattle.agent_model.specs.KeyStates.{KeyState};
ghost use Rattle.agent_model.specs.Limits.{last_number};
ghost use Rattle.agent_model.specs.State.{UnderWay};
ghost use Rattle.agent_model.specs.Verdicts.{ListFull, Success};
ghost use Rattle.agent_model.specs.Events.{Heard, Joined, Took, Tick};
ghost use Rattle.agent_model.specs.State.{client_count, owed_of, starts, wants};
ghost use Rattle.world_ports.specs.declared.JobKind.TheVariants as kinds;
ghost use Rattle.agent_model.specs.Rows.{add, add_asking, add_for_ten, add_never, add_once, add_once_twice, add_unknown, at, closed_by, done, extension, failed, heard, heard_and_took, joined_often, list, listed, lock, lock_empty, none_listed, now, one_client, remove, remove_all, replies, sign, state_after, ticked, unlock, with_event};

/// An identity is listed once it was added, until it is removed.
pub fn additions_are_listed()
    ensures empty { replies (now list ∷ []) ≡ none_listed ∷ [] }
    ensures added { replies (now (add 17) ∷ now list ∷ []) ≡ done ∷ listed 17 ∷ [] }
    ensures replaced { replies (now (add 17) ∷ now (add 17) ∷ now list ∷ [])
        ≡ done ∷ done ∷ listed 17 ∷ [] }
    ensures removed { replies (now (add 17) ∷ now (remove 17) ∷ now list ∷ [])
        ≡ done ∷ done ∷ none_listed ∷ [] }
    ensures all_removed { replies (now (add 17) ∷ now remove_all ∷ now list ∷ [])
        ≡ done ∷ done ∷ none_listed ∷ [] }
    ensures lived { replies (at 5 (add_for_ten 17) ∷ at 14 list ∷ at 3 list ∷ at 15 list ∷ [])
        ≡ done ∷ listed 17 ∷ listed 17 ∷ none_listed ∷ [] }
    ensures once { replies (now (add_once 17) ∷ now list ∷ []) ≡ done ∷ listed 17 ∷ [] }
    ensures numbered { (state_after (now (add 17) ∷ now remove_all ∷ now (add 18)
        ∷ [])).held.table.last ≡ 2 }
{}

/// An addition is refused where the identities would take more than 8 MiB, and taken where they
/// take no more and one message of 262144 bytes lists them.
pub fn an_addition_has_room_or_is_refused()
    ensures refused { (addition : Addition) (asker : Asker) (held : KeyState) (under_way : UnderWay)
        → find_identity addition.key.blob held.table.identities ≡ None
        → 8388608 < kept_len (identities_with held.table addition.key addition.terms
        addition.comment asker.mono)
        → serve_unlocked (Add addition) asker held under_way ≡ refuses ListFull held under_way }
    ensures taken { (addition : Addition) (asker : Asker) (held : KeyState) (under_way : UnderWay)
        → find_identity addition.key.blob held.table.identities ≡ None
        → kept_len (identities_with held.table addition.key addition.terms addition.comment
        asker.mono) ≤ 8388608
        → answer_len (identities_with held.table addition.key addition.terms addition.comment
        asker.mono) ≤ 262144
        → (held.table.last == last_number) ≡ false
        → serve_unlocked (Add addition) asker held under_way
        ≡ answers Success (record held {
          table = added held.table addition.key addition.terms addition.comment asker.mono;
        }) under_way }
{}

/// What isn't done is answered SSH_AGENT_FAILURE.
pub fn refusals_are_failures()
    ensures not_held { replies (now (add 17) ∷ now (sign 18) ∷ now (remove 18) ∷ [])
        ≡ done ∷ failed ∷ failed ∷ [] }
    ensures constraint { replies (now (add_unknown 17) ∷ now list ∷ []) ≡ failed ∷ none_listed
        ∷ [] }
    ensures never { replies (now (add_never 17) ∷ now list ∷ []) ≡ failed ∷ none_listed ∷ [] }
    ensures once_twice { replies (now (add_once_twice 17) ∷ now list ∷ [])
        ≡ failed ∷ none_listed ∷ [] }
    ensures extension { replies (now extension ∷ []) ≡ failed ∷ [] }
    ensures unknown { replies (now (0 ∷ 0 ∷ 0 ∷ 1 ∷ 200 ∷ []) ∷ []) ≡ failed ∷ [] }
    ensures short { replies (now (0 ∷ 0 ∷ 0 ∷ 1 ∷ 13 ∷ []) ∷ []) ≡ failed ∷ [] }
    ensures trailing { replies (now (0 ∷ 0 ∷ 0 ∷ 2 ∷ 11 ∷ 0 ∷ []) ∷ []) ≡ failed ∷ [] }
    ensures not_locked { replies (now (unlock (codes "pw")) ∷ []) ≡ failed ∷ [] }
    ensures no_passphrase { replies (now lock_empty ∷ now remove_all ∷ []) ≡ failed ∷ done ∷ [] }
{}

/// A locked agent lists nothing and does nothing but open with its passphrase.
pub fn a_locked_agent_does_nothing()
    ensures listed { replies (now (add 17) ∷ now (lock (codes "pw")) ∷ now list ∷ [])
        ≡ done ∷ done ∷ none_listed ∷ [] }
    ensures refused { replies (now (lock (codes "pw")) ∷ now (add 17) ∷ now (remove 17)
        ∷ now remove_all ∷ now (sign 17) ∷ now (lock (codes "no")) ∷ now extension ∷ [])
        ≡ done ∷ failed ∷ failed ∷ failed ∷ failed ∷ failed ∷ failed ∷ [] }
    ensures constraint { replies (now (lock (codes "pw")) ∷ now (add_unknown 17) ∷ [])
        ≡ done ∷ failed ∷ [] }
    ensures opened { replies (now (add 17) ∷ now (lock (codes "pw")) ∷ now (unlock (codes "no"))
        ∷ now (unlock (codes "pw")) ∷ now list ∷ [])
        ≡ done ∷ done ∷ failed ∷ done ∷ listed 17 ∷ [] }
{}

/// The limits of clients and bodies, as numbers, at both sides.
pub fn limits_are_these_numbers()
    ensures last_client { closed_by (Joined Clients) (joined_often 127) ≡ [] }
    ensures one_more { closed_by (Joined Clients) (joined_often 128) ≡ 129 ∷ [] }
    ensures clients { client_count (joined_often 129).ports ≡ 128 }
    ensures longest_body { closed_by (Heard 1 (0 ∷ 4 ∷ 0 ∷ 0 ∷ [])) one_client ≡ [] }
    ensures too_long { closed_by (Heard 1 (0 ∷ 4 ∷ 0 ∷ 1 ∷ [])) one_client ≡ 1 ∷ [] }
    ensures empty { closed_by (Heard 1 (0 ∷ 0 ∷ 0 ∷ 0 ∷ [])) one_client ≡ 1 ∷ [] }
{}

/// A signature with a key that is held waits for the helper, which is started for it.
pub fn a_signature_is_waited_for()
    ensures owed { replies (now (add 17) ∷ now (sign 17) ∷ []) ≡ done ∷ [] ∷ [] }
    ensures starts { starts (state_after (now (add 17) ∷ now (sign 17) ∷ []))
        ≡ record { number = 1; kind = kinds.Helper } ∷ [] }
{}

/// One request at a time is taken of a client, and it is read until the next one is whole; while it
/// waits for an answer or has yet to take a reply, only until the next one has begun.
pub fn a_request_waits_for_the_reply_before()
    ensures unfinished { wants 1 (heard (0 ∷ 0 ∷ 0 ∷ [])) ≡ true }
    ensures owed { wants 1 (heard list) ≡ true }
    ensures whole { wants 1 (heard (list ++ remove_all)) ≡ false }
    ensures begun { wants 1 (heard (list ++ 0 ∷ [])) ≡ false }
    ensures taken_in_part { wants 1 (heard_and_took (list ++ 0 ∷ []) 8) ≡ false }
    ensures taken { wants 1 (heard_and_took (list ++ 0 ∷ []) 9) ≡ true }
    ensures waits { wants 1 (state_after (now (add 17) ∷ now (sign 17) ∷ [])) ≡ true }
    ensures waits_begun { wants 1 (state_after (now (add 17) ∷ now (sign 17 ++ 0 ∷ []) ∷ []))
        ≡ false }
    ensures first { owed_of 1 (heard (list ++ remove_all)) ≡ none_listed }
    ensures rest { owed_of 1 (heard_and_took (list ++ remove_all) 4) ≡ 12 ∷ 0 ∷ 0 ∷ 0 ∷ 0 ∷ [] }
    ensures second { owed_of 1 (heard_and_took (list ++ remove_all) 9) ≡ done }
    ensures bad { closed_by (Heard 1 (list ++ 0 ∷ 0 ∷ 0 ∷ 0 ∷ [])) one_client ≡ [] }
    ensures closed { closed_by (Took 1 9) (heard (list ++ 0 ∷ 0 ∷ 0 ∷ 0 ∷ [])) ≡ 1 ∷ [] }
    ensures forgotten { closed_by Tick (heard (0 ∷ 0 ∷ 0 ∷ 0 ∷ [])) ≡ [] }
{}

/// The monotonic clock counts as never falling, and the wall clock as it is given.
pub fn moments_are_taken_in()
    ensures rises { (ticked (record { mono = 9; wall = 3 } ∷ record { mono = 7; wall = 8 }
        ∷ [])).moment ≡ record { mono = 9; wall = 3 } }
    ensures falls { (ticked (record { mono = 7; wall = 8 } ∷ record { mono = 9; wall = 3 }
        ∷ [])).moment ≡ record { mono = 9; wall = 8 } }
{}
