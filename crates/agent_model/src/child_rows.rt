//! Literal rows of child processes: laws that are proved by computing, one a way in which an ask
//! ends.
#![tactic(auto, unfolding(wire_text::specs::Frames::front, wire_text::specs::Frames::split_up_to, wire_text::specs::Frames::split, wire_text::specs::Wire::uint32, wire_text::specs::Wire::uint64, wire_text::specs::Wire::string, wire_text::specs::Wire::announced_len, wire_core::specs::Fields::uint32_at, wire_core::specs::Fields::uint64_at, wire_core::specs::Fields::string_len, wire_core::specs::Fields::string_at, key_blob::specs::AddedKeys::blob_fields_at, key_blob::specs::AddedKeys::certificate_blob_at, key_blob::specs::AddedKeys::blob_at, key_blob::specs::AddedKeys::added_key_at, key_blob::specs::AddedKeys::private_at, key_blob::specs::KeyTypes::form_named, key_blob::specs::PublicKeys::public_key_of, key_blob::specs::Reading::field_at, key_blob::specs::Reading::fields_at, key_blob::specs::Reading::after_fields, key_blob::specs::Reading::form_at, constraint_rec::specs::Constraints::restrict_destination, constraint_rec::specs::Constraints::uses_name, constraint_rec::specs::Reading::kind_at, constraint_rec::specs::Reading::contents_at, constraint_rec::specs::Reading::next_at, constraint_rec::specs::Reading::terms_up_to, constraint_rec::specs::Reading::terms_of, agent_msg::specs::Reading::request_of_number, agent_msg::specs::Reading::request_of, agent_msg::specs::Reading::is_addition, agent_msg::specs::Requests::session_bind, agent_msg::specs::Requests::bind_front, agent_msg::specs::Requests::names_bind, identity_table::specs::Identities::find_identity, identity_table::specs::Identities::put_identity, identity_table::specs::Identities::remove_identity, identity_table::specs::Identities::spend_identity, identity_table::specs::Identities::alive_at, identity_table::specs::Identities::entries_len, identity_table::specs::Identities::kept_len, dest_rule::specs::Rules::visible, dest_rule::specs::Rules::denial, dest_rule::specs::Rules::bad_place, dest_rule::specs::Rules::is_hop, dest_rule::specs::Chains::judge, child_msg::specs::Reading::from_child_of_kind, child_msg::specs::Reading::from_child_of, helper_link::specs::Settling::verdict, helper_link::specs::Settling::settling,))]

ghost use Rattle.std.specs.Prelude.{◌≡◌, [], ◌∷◌, ◌++◌, codes, take, drop};
ghost use Rattle.world_ports.specs.declared.Door.TheVariants.{Clients, Children};
ghost use Rattle.agent_model.specs.ChildRows.{children, cut_short, hello, helper_job, holding, holding_for_two, holding_once, lost, refused, sign_frame, signature, signed, then, ticket, two_wait};
ghost use Rattle.agent_model.specs.Events.{Ended, Heard, Joined, StartFailed, Started, Took};
ghost use Rattle.agent_model.specs.Rows.{add, add_once, closed_by, failed, list, listed, none_listed, sign, with_event};
ghost use Rattle.agent_model.specs.State.{owed_of, starts};

/// A helper is started for the first signature, and is sent the request once it named itself; its
/// answer goes to the client as it is.
pub fn a_signature_goes_through_the_helper()
    ensures started { starts (holding (Heard 1 (sign 17) ∷ [])) ≡ helper_job 1 ∷ [] }
    ensures unnamed { owed_of 2 (holding (Heard 1 (sign 17) ∷ Started 1 (ticket 9) ∷ Joined Children
        ∷ [])) ≡ [] }
    ensures sent { owed_of 2 (holding (Heard 1 (sign 17) ∷ Started 1 (ticket 9) ∷ Joined Children
        ∷ Heard 2 (hello 1 9) ∷ [])) ≡ sign_frame 1 17 }
    ensures answered { owed_of 1 (holding (Heard 1 (sign 17) ∷ Started 1 (ticket 9)
        ∷ Joined Children ∷ Heard 2 (hello 1 9) ∷ Took 2 195 ∷ Heard 2 (signed 1 (codes "sig"))
        ∷ [])) ≡ signature (codes "sig") }
    ensures at_once { owed_of 1 (holding (Heard 1 (sign 17) ∷ Started 1 (ticket 9) ∷ Joined Children
        ∷ Heard 2 (hello 1 9 ++ signed 1 (codes "sig")) ∷ [])) ≡ signature (codes "sig") }
    ensures still_sent { owed_of 2 (holding (Heard 1 (sign 17) ∷ Started 1 (ticket 9)
        ∷ Joined Children ∷ Heard 2 (hello 1 9 ++ signed 1 (codes "sig")) ∷ [])) ≡ sign_frame 1 17 }
{}

/// What the helper refuses is a failure, and its port stays open; an answer goes to the client that
/// asked, whichever comes first.
pub fn an_answer_goes_to_its_ask()
    ensures refused { owed_of 1 (holding (Heard 1 (sign 17) ∷ Started 1 (ticket 9) ∷ Joined Children
        ∷ Heard 2 (hello 1 9) ∷ Heard 2 (refused 1) ∷ [])) ≡ failed }
    ensures stays { closed_by (Heard 2 (refused 1)) (holding (Heard 1 (sign 17)
        ∷ Started 1 (ticket 9) ∷ Joined Children ∷ Heard 2 (hello 1 9) ∷ [])) ≡ [] }
    ensures later { owed_of 2 (holding (Joined Clients ∷ Heard 1 (sign 17) ∷ Heard 2 (sign 17)
        ∷ Started 1 (ticket 9) ∷ Joined Children ∷ Heard 3 (hello 1 9) ∷ Heard 3 (signed 2
        (codes "two")) ∷ [])) ≡ signature (codes "two") }
    ensures waits { owed_of 1 (holding (Joined Clients ∷ Heard 1 (sign 17) ∷ Heard 2 (sign 17)
        ∷ Started 1 (ticket 9) ∷ Joined Children ∷ Heard 3 (hello 1 9) ∷ Heard 3 (signed 2
        (codes "two")) ∷ [])) ≡ [] }
    ensures first { owed_of 1 (holding (Joined Clients ∷ Heard 1 (sign 17) ∷ Heard 2 (sign 17)
        ∷ Started 1 (ticket 9) ∷ Joined Children ∷ Heard 3 (hello 1 9) ∷ Heard 3 (signed 2
        (codes "two") ++ signed 1 (codes "one")) ∷ [])) ≡ signature (codes "one") }
    ensures left { owed_of 1 (holding (Heard 1 (sign 17) ∷ Started 1 (ticket 9) ∷ Joined Children
        ∷ Heard 2 (hello 1 9) ∷ Ended 1 ∷ Heard 2 (signed 1 (codes "sig")) ∷ [])) ≡ [] }
{}

/// A key that may be used once is gone as its signature is put to the helper, and one that may be
/// used twice as its second one is; the signature is answered, and the next one fails. What isn't
/// put uses nothing, and a replacement may be used anew.
pub fn an_identity_is_used_up()
    ensures started { starts (holding_once (Heard 1 (sign 17) ∷ [])) ≡ helper_job 1 ∷ [] }
    ensures gone { owed_of 2 (holding_once (Heard 1 (sign 17) ∷ Joined Clients ∷ Heard 2 list
        ∷ [])) ≡ none_listed }
    ensures left { owed_of 2 (holding_for_two (Heard 1 (sign 17) ∷ Joined Clients ∷ Heard 2 list
        ∷ [])) ≡ listed 17 }
    ensures last { owed_of 3 (holding_for_two (Heard 1 (sign 17) ∷ Joined Clients
        ∷ Heard 2 (sign 17) ∷ Joined Clients ∷ Heard 3 list ∷ [])) ≡ none_listed }
    ensures put { owed_of 2 (holding_once (Heard 1 (sign 17) ∷ Started 1 (ticket 9)
        ∷ Joined Children ∷ Heard 2 (hello 1 9) ∷ [])) ≡ sign_frame 1 17 }
    ensures signed { owed_of 1 (holding_once (Heard 1 (sign 17) ∷ Started 1 (ticket 9)
        ∷ Joined Children ∷ Heard 2 (hello 1 9) ∷ Heard 2 (signed 1 (codes "sig")) ∷ []))
        ≡ signature (codes "sig") }
    ensures again { owed_of 1 (holding_once (Heard 1 (sign 17) ∷ Started 1 (ticket 9)
        ∷ Joined Children ∷ Heard 2 (hello 1 9) ∷ Heard 2 (signed 1 (codes "sig")) ∷ Took 1 12
        ∷ Heard 1 (sign 17) ∷ [])) ≡ failed }
    ensures lost { owed_of 1 (holding_once (Heard 1 (sign 17) ∷ StartFailed 1 ∷ Took 1 5
        ∷ Heard 1 (sign 17) ∷ [])) ≡ failed }
    ensures other { owed_of 1 (holding_once (Heard 1 (sign 18) ∷ Took 1 5 ∷ Heard 1 list ∷ []))
        ≡ listed 17 }
    ensures anew { owed_of 1 (holding_once (Joined Clients ∷ Heard 2 (sign 17)
        ∷ Heard 1 (add_once 17) ∷ Took 1 5 ∷ Heard 1 list ∷ [])) ≡ listed 17 }
    ensures unlimited { owed_of 1 (holding_once (Joined Clients ∷ Heard 1 (add 17) ∷ Took 1 5
        ∷ Heard 2 (sign 17) ∷ Heard 1 list ∷ [])) ≡ listed 17 }
{}

/// Where the helper is lost, by its end or by a faulty frame, its port is closed and each client
/// that waits for it is told SSH_AGENT_FAILURE; what it answered before the faulty frame counts.
/// The next signature starts another helper.
pub fn a_lost_helper_fails_its_asks()
    ensures ended { owed_of 1 (lost (Ended 3)) ++ owed_of 2 (lost (Ended 3)) ≡ failed ++ failed }
    ensures closed { closed_by (Ended 3) two_wait ≡ 3 ∷ [] }
    ensures faulty { owed_of 1 (lost (Heard 3 cut_short)) ++ owed_of 2 (lost (Heard 3 cut_short))
        ≡ failed ++ failed }
    ensures shut { closed_by (Heard 3 cut_short) two_wait ≡ 3 ∷ [] }
    ensures twice { owed_of 1 (lost (Heard 3 (signed 1 (codes "one") ++ signed 1 (codes "one"))))
        ++ owed_of 2 (lost (Heard 3 (signed 1 (codes "one") ++ signed 1 (codes "one"))))
        ≡ signature (codes "one") ++ failed }
    ensures again { starts (then (lost (Ended 3)) (Took 1 5 ∷ Heard 1 (sign 17) ∷ []))
        ≡ helper_job 2 ∷ [] }
    ensures numbered { owed_of 4 (then (lost (Ended 3)) (Took 1 5 ∷ Heard 1 (sign 17)
        ∷ Started 2 (ticket 7) ∷ Joined Children ∷ Heard 4 (hello 2 7) ∷ [])) ≡ sign_frame 3 17 }
{}

/// A child process names itself by number and ticket of a started job that none has named; any
/// other first frame closes its port, and the job can still be named.
pub fn a_ticket_names_a_job_once()
    ensures other_ticket { closed_by (Heard 2 (hello 1 8))
        (holding (Heard 1 (sign 17) ∷ Started 1 (ticket 9) ∷ Joined Children ∷ [])) ≡ 2 ∷ [] }
    ensures other_job { closed_by (Heard 2 (hello 2 9))
        (holding (Heard 1 (sign 17) ∷ Started 1 (ticket 9) ∷ Joined Children ∷ [])) ≡ 2 ∷ [] }
    ensures too_early { closed_by (Heard 2 (hello 1 9))
        (holding (Heard 1 (sign 17) ∷ Joined Children ∷ [])) ≡ 2 ∷ [] }
    ensures no_hello { closed_by (Heard 2 (refused 1))
        (holding (Heard 1 (sign 17) ∷ Started 1 (ticket 9) ∷ Joined Children ∷ [])) ≡ 2 ∷ [] }
    ensures in_parts { owed_of 2 (holding (Heard 1 (sign 17) ∷ Started 1 (ticket 9)
        ∷ Joined Children ∷ Heard 2 (take 20 (hello 1 9)) ∷ Heard 2 (drop 20 (hello 1 9)) ∷ []))
        ≡ sign_frame 1 17 }
    ensures after_another { owed_of 3 (holding (Heard 1 (sign 17) ∷ Started 1 (ticket 9)
        ∷ Joined Children ∷ Heard 2 (hello 1 8) ∷ Joined Children ∷ Heard 3 (hello 1 9) ∷ []))
        ≡ sign_frame 1 17 }
    ensures used { closed_by (Heard 3 (hello 1 9)) (holding (Heard 1 (sign 17)
        ∷ Started 1 (ticket 9) ∷ Joined Children ∷ Heard 2 (hello 1 9) ∷ Joined Children ∷ []))
        ≡ 3 ∷ [] }
{}

/// At most 32 child processes that have not named themselves are open; where a job fails to start,
/// who waits for it is told SSH_AGENT_FAILURE, and the next signature starts another.
pub fn jobs_and_child_processes_are_bounded()
    ensures last_unnamed { closed_by (Joined Children) (children 31) ≡ [] }
    ensures one_more { closed_by (Joined Children) (children 32) ≡ 33 ∷ [] }
    ensures room_again { closed_by (Joined Children) (with_event (Ended 32) (children 32)) ≡ [] }
    ensures failed { owed_of 1 (holding (Heard 1 (sign 17) ∷ StartFailed 1 ∷ [])) ≡ failed }
    ensures over { starts (holding (Heard 1 (sign 17) ∷ StartFailed 1 ∷ [])) ≡ [] }
    ensures another { starts (holding (Heard 1 (sign 17) ∷ StartFailed 1 ∷ Took 1 5
        ∷ Heard 1 (sign 17) ∷ [])) ≡ helper_job 2 ∷ [] }
    ensures one_job { starts (holding (Joined Clients ∷ Heard 1 (sign 17) ∷ Heard 2 (sign 17) ∷ []))
        ≡ helper_job 1 ∷ [] }
{}
