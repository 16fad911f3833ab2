//! Literal rows of what may be waited for: laws that are proved by computing, to the second.
#![tactic(auto, unfolding(wire_text::specs::Frames::front, wire_text::specs::Frames::split_up_to, wire_text::specs::Frames::split, wire_text::specs::Wire::uint32, wire_text::specs::Wire::uint64, wire_text::specs::Wire::string, wire_text::specs::Wire::announced_len, wire_core::specs::Fields::uint32_at, wire_core::specs::Fields::uint64_at, wire_core::specs::Fields::string_len, wire_core::specs::Fields::string_at, key_blob::specs::AddedKeys::blob_fields_at, key_blob::specs::AddedKeys::certificate_blob_at, key_blob::specs::AddedKeys::blob_at, key_blob::specs::AddedKeys::added_key_at, key_blob::specs::AddedKeys::private_at, key_blob::specs::KeyTypes::form_named, key_blob::specs::PublicKeys::public_key_of, key_blob::specs::Reading::field_at, key_blob::specs::Reading::fields_at, key_blob::specs::Reading::after_fields, key_blob::specs::Reading::form_at, constraint_rec::specs::Constraints::restrict_destination, constraint_rec::specs::Constraints::uses_name, constraint_rec::specs::Reading::kind_at, constraint_rec::specs::Reading::contents_at, constraint_rec::specs::Reading::next_at, constraint_rec::specs::Reading::terms_up_to, constraint_rec::specs::Reading::terms_of, agent_msg::specs::Reading::request_of_number, agent_msg::specs::Reading::request_of, agent_msg::specs::Reading::is_addition, agent_msg::specs::Requests::session_bind, agent_msg::specs::Requests::bind_front, agent_msg::specs::Requests::names_bind, identity_table::specs::Identities::find_identity, identity_table::specs::Identities::put_identity, identity_table::specs::Identities::remove_identity, identity_table::specs::Identities::spend_identity, identity_table::specs::Identities::alive_at, identity_table::specs::Identities::entries_len, identity_table::specs::Identities::kept_len, dest_rule::specs::Rules::visible, dest_rule::specs::Rules::denial, dest_rule::specs::Rules::bad_place, dest_rule::specs::Rules::is_hop, dest_rule::specs::Chains::judge, child_msg::specs::Reading::from_child_of_kind, child_msg::specs::Reading::from_child_of, helper_link::specs::Settling::verdict, helper_link::specs::Settling::settling, pattern_core::specs::Patterns::is_match, key_blob::specs::Certificates::names_at, key_blob::specs::Certificates::holder_at, key_blob::specs::Certificates::times_at, key_blob::specs::Certificates::signer_at, key_blob::specs::Certificates::certificate_at, key_blob::specs::Principals::are_strings_up_to, key_blob::specs::Principals::are_strings, key_blob::specs::Validity::names_host_up_to, key_blob::specs::Validity::is_valid, userauth_blob::specs::Reading::after_byte, userauth_blob::specs::Reading::after_text, userauth_blob::specs::Reading::session_at, userauth_blob::specs::Reading::method_named, userauth_blob::specs::Reading::method_at, userauth_blob::specs::Reading::after_key, userauth_blob::specs::Reading::host_key_at, userauth_blob::specs::Reading::auth_of, constraint_rec::specs::HopReading::all_up_to, constraint_rec::specs::HopReading::all_of, constraint_rec::specs::HopReading::key_at, constraint_rec::specs::HopReading::after_reserved, constraint_rec::specs::HopReading::hop_in, constraint_rec::specs::HopReading::as_from, constraint_rec::specs::HopReading::as_to, constraint_rec::specs::HopReading::constraint_in, constraint_rec::specs::HopReading::constraint_at, constraint_rec::specs::HopReading::rules_in, identity_table::specs::Identities::find_number, confirm_desk::specs::Confirmations::consent, identity_table::specs::Identities::next_death,))]

ghost use Rattle.std.specs.Prelude.{◌≡◌, ◌^◌, ◌-◌, [], ◌∷◌, ◌++◌, codes, false, None, Some};
ghost use Rattle.world_ports.specs.declared.Door.TheVariants.{Clients, Children};
ghost use Rattle.agent_model.specs.Actions.{Lost, Over};
ghost use Rattle.agent_model.specs.ChildRows.{hello, helper_job, refused, signature, signed, ticket};
ghost use Rattle.agent_model.specs.ConsentRows.{confirm_job, denied, granted};
ghost use Rattle.agent_model.specs.Events.{Heard, Joined, StartFailed, Started, Tick, Took};
ghost use Rattle.agent_model.specs.Rows.{add_for_ten, failed, sign};
ghost use Rattle.agent_model.specs.State.{is_open, next_due, owed_of, starts};
ghost use Rattle.agent_model.specs.TimeRows.{all_wait, asked, asked_by, asking, asks_limited, brings, consents_limited, helped, holding_by, limited, on, ticks, two_wait, waiting, waiting_for_ever};

/// An ask that is unanswered for 60 seconds loses the helper, not a second before: the client is
/// told SSH_AGENT_FAILURE, and that counts as one fault. The job that is still to start stays until
/// it is told; whatever comes of it brings nothing, and the next signature starts another helper.
pub fn an_ask_waits_for_sixty_seconds()
    ensures starts { starts (waiting []) ≡ helper_job 1 ∷ [] }
    ensures before { owed_of 1 (waiting (ticks 59 ∷ [])) ≡ [] }
    ensures nothing { (brings (waiting []) 59 Tick).actions ≡ [] }
    ensures failed { owed_of 1 (waiting (ticks 59 ∷ ticks 60 ∷ [])) ≡ failed }
    ensures at_once { owed_of 1 (waiting (ticks 60 ∷ [])) ≡ failed }
    ensures lost { (brings (waiting []) 60 Tick).actions ≡ Lost ∷ [] }
    ensures unclosed { (brings (waiting []) 60 Tick).closes ≡ [] }
    ensures no_fault { (waiting (ticks 59 ∷ [])).under_way.link.faults ≡ 0 }
    ensures one_fault { (waiting (ticks 60 ∷ ticks 120 ∷ [])).under_way.link.faults ≡ 1 }
    ensures to_start { starts (waiting (ticks 60 ∷ [])) ≡ helper_job 1 ∷ [] }
    ensures not_started { (brings (waiting (ticks 60 ∷ [])) 60 (StartFailed 1)).actions ≡ [] }
    ensures left { starts (waiting (ticks 60 ∷ on 60 (StartFailed 1) ∷ [])) ≡ [] }
    ensures started { (waiting (ticks 60 ∷ on 60 (Started 1 (ticket 9))
        ∷ [])).under_way.started ≡ [] }
    ensures left_too { starts (waiting (ticks 60 ∷ on 60 (Started 1 (ticket 9)) ∷ [])) ≡ [] }
    ensures again { starts (waiting (ticks 60 ∷ on 60 (StartFailed 1) ∷ on 60 (Took 1 5)
        ∷ on 60 (Heard 1 (sign 17)) ∷ [])) ≡ helper_job 2 ∷ [] }
    ensures both { starts (waiting (ticks 60 ∷ on 60 (Took 1 5) ∷ on 60 (Heard 1 (sign 17)) ∷ []))
        ≡ helper_job 1 ∷ helper_job 2 ∷ [] }
    ensures other { owed_of 1 (waiting (ticks 60 ∷ on 60 (Took 1 5) ∷ on 60 (Heard 1 (sign 17))
        ∷ on 60 (StartFailed 1) ∷ [])) ≡ [] }
    ensures its_own { owed_of 1 (waiting (ticks 60 ∷ on 60 (Took 1 5) ∷ on 60 (Heard 1 (sign 17))
        ∷ on 60 (StartFailed 2) ∷ [])) ≡ failed }
    ensures anew { owed_of 1 (waiting (ticks 60 ∷ on 60 (Took 1 5) ∷ on 70 (Heard 1 (sign 17))
        ∷ ticks 129 ∷ [])) ≡ [] }
    ensures late_anew { owed_of 1 (waiting (ticks 60 ∷ on 60 (Took 1 5) ∷ on 70 (Heard 1 (sign 17))
        ∷ ticks 130 ∷ [])) ≡ failed }
{}

/// Without a limit an ask waits for ever.
pub fn an_ask_without_a_limit_waits()
    ensures minute { owed_of 1 (waiting_for_ever (ticks 60 ∷ [])) ≡ [] }
    ensures year { (brings (waiting_for_ever []) 31536000 Tick).actions ≡ [] }
    ensures other_limit { owed_of 1 (holding_by consents_limited (on 0 (Heard 1 (sign 17))
        ∷ ticks 31536000 ∷ [])) ≡ [] }
    ensures own_limit { owed_of 1 (holding_by asks_limited (on 0 (Heard 1 (sign 17))
        ∷ ticks 60 ∷ [])) ≡ failed }
{}

/// A helper that came is closed as its limit is reached, whatever it sends in that second; a second
/// before its answer counts. The oldest ask decides. A child process that names the job behind its
/// limit is nobody.
pub fn a_late_helper_is_closed()
    ensures closed { (brings (helped []) 60 Tick).closes ≡ 2 ∷ [] }
    ensures shut { is_open 2 (helped (ticks 60 ∷ [])) ≡ false }
    ensures failed { owed_of 1 (helped (ticks 60 ∷ [])) ≡ failed }
    ensures one_fault { (helped (ticks 60 ∷ [])).under_way.link.faults ≡ 1 }
    ensures answered { owed_of 1 (helped (on 59 (Heard 2 (signed 1 (codes "sig"))) ∷ []))
        ≡ signature (codes "sig") }
    ensures too_late { owed_of 1 (helped (on 60 (Heard 2 (signed 1 (codes "sig"))) ∷ [])) ≡ failed }
    ensures unheard { (brings (helped []) 60 (Heard 2 (signed 1 (codes "sig")))).actions
        ≡ Lost ∷ [] }
    ensures closed_at_it { (brings (helped []) 60 (Heard 2 (signed 1 (codes "sig")))).closes
        ≡ 2 ∷ [] }
    ensures after { (brings (helped (ticks 60 ∷ [])) 60 (Heard 2 (signed 1 (codes "sig")))).actions
        ≡ [] }
    ensures nothing_late { (brings (helped (on 59 (Heard 2 (signed 1 (codes "sig"))) ∷ [])) 60
        Tick).actions ≡ [] }
    ensures oldest { owed_of 2 (two_wait (ticks 60 ∷ [])) ≡ failed }
    ensures both { owed_of 1 (two_wait (ticks 60 ∷ [])) ≡ failed }
    ensures before { (brings (two_wait []) 59 Tick).actions ≡ [] }
    ensures next { (brings (two_wait (on 59 (Heard 3 (signed 1 (codes "sig"))) ∷ [])) 89
        Tick).actions ≡ [] }
    ensures next_late { (brings (two_wait (on 59 (Heard 3 (signed 1 (codes "sig"))) ∷ [])) 90
        Tick).actions ≡ Lost ∷ [] }
    ensures unnamed { (brings (waiting (on 0 (Started 1 (ticket 9)) ∷ on 0 (Joined Children)
        ∷ ticks 60 ∷ [])) 60 (Heard 2 (hello 1 9))).closes ≡ 2 ∷ [] }
    ensures unnamed_at_it { (brings (waiting (on 0 (Started 1 (ticket 9)) ∷ on 0 (Joined Children)
        ∷ [])) 60 (Heard 2 (hello 1 9))).closes ≡ 2 ∷ [] }
    ensures named { (brings (waiting (on 0 (Started 1 (ticket 9)) ∷ on 0 (Joined Children) ∷ []))
        59 (Heard 2 (hello 1 9))).closes ≡ [] }
{}

/// The seconds are those of the monotonic clock, which counts as never falling: one that falls
/// shortens no wait and lengthens none, and one that jumps ends it.
pub fn a_clock_that_jumps_ends_waits()
    ensures jumps { owed_of 1 (waiting (ticks 18446744073709551615 ∷ [])) ≡ failed }
    ensures falls { owed_of 1 (waiting (ticks 59 ∷ ticks 3 ∷ [])) ≡ [] }
    ensures fell { owed_of 1 (waiting (ticks 59 ∷ ticks 3 ∷ ticks 60 ∷ [])) ≡ failed }
    ensures put_later { owed_of 1 (holding_by limited (ticks 100 ∷ on 50 (Heard 1 (sign 17))
        ∷ ticks 159 ∷ [])) ≡ [] }
    ensures late_later { owed_of 1 (holding_by limited (ticks 100 ∷ on 50 (Heard 1 (sign 17))
        ∷ ticks 160 ∷ [])) ≡ failed }
{}

/// A confirmation that is open for 300 seconds ends without consent, not a second before: the
/// client is told SSH_AGENT_FAILURE and stays, the child process's port is closed, and what comes
/// there then brings nothing. One that wasn't started by then is nobody's.
pub fn a_confirmation_waits_for_five_minutes()
    ensures starts { starts (asking []) ≡ confirm_job 1 ∷ [] }
    ensures before { owed_of 1 (asked (ticks 299 ∷ [])) ≡ [] }
    ensures nothing { (brings (asked []) 299 Tick).actions ≡ [] }
    ensures failed { owed_of 1 (asked (ticks 300 ∷ [])) ≡ failed }
    ensures closed { (brings (asked []) 300 Tick).closes ≡ 2 ∷ [] }
    ensures over { (brings (asked []) 300 Tick).actions ≡ Over 1 ∷ [] }
    ensures shut { is_open 2 (asked (ticks 300 ∷ [])) ≡ false }
    ensures after { (brings (asked (ticks 300 ∷ [])) 300 (Heard 2 (granted 1))).actions ≡ [] }
    ensures unasked { starts (asked (ticks 300 ∷ on 300 (Heard 2 (granted 1)) ∷ [])) ≡ [] }
    ensures granted { starts (asked (on 299 (Heard 2 (granted 1)) ∷ [])) ≡ helper_job 2 ∷ [] }
    ensures too_late { (brings (asked []) 300 (Heard 2 (granted 1))).actions ≡ Over 1 ∷ [] }
    ensures too_late_closes { (brings (asked []) 300 (Heard 2 (granted 1))).closes ≡ 2 ∷ [] }
    ensures too_late_starts { starts (asked (on 300 (Heard 2 (granted 1)) ∷ [])) ≡ [] }
    ensures no_fault { (asked (ticks 300 ∷ [])).under_way.link.faults ≡ 0 }
    ensures again { starts (asked (ticks 300 ∷ on 300 (Took 1 5) ∷ on 300 (Heard 1 (sign 17))
        ∷ [])) ≡ confirm_job 2 ∷ [] }
    ensures to_start { starts (asking (ticks 300 ∷ [])) ≡ confirm_job 1 ∷ [] }
    ensures left { starts (asking (ticks 300 ∷ on 300 (Started 1 (ticket 9)) ∷ [])) ≡ [] }
    ensures not_started { (brings (asking (ticks 300 ∷ [])) 300 (StartFailed 1)).actions ≡ [] }
    ensures unnamed { (brings (asking (on 0 (Started 1 (ticket 9)) ∷ on 0 (Joined Children)
        ∷ ticks 300 ∷ [])) 300 (Heard 2 (hello 1 9))).closes ≡ 2 ∷ [] }
    ensures unlimited { owed_of 1 (asked_by asks_limited (ticks 31536000 ∷ [])) ≡ [] }
    ensures own_limit { owed_of 1 (asked_by consents_limited (ticks 300 ∷ [])) ≡ failed }
{}

/// The helper's limit and those of two confirmations are reached in one second: the helper is lost
/// first, and then the confirmations end in the order of their jobs.
pub fn waits_end_together()
    ensures nothing { (brings (all_wait []) 299 Tick).actions ≡ [] }
    ensures all { (brings (all_wait []) 300 Tick).actions ≡ Lost ∷ Over 1 ∷ Over 2 ∷ [] }
    ensures closed { (brings (all_wait []) 300 Tick).closes ≡ 5 ∷ 6 ∷ 7 ∷ [] }
    ensures failed { owed_of 1 (all_wait (ticks 300 ∷ [])) ++ owed_of 2 (all_wait (ticks 300 ∷ []))
        ++ owed_of 3 (all_wait (ticks 300 ∷ [])) ++ owed_of 4 (all_wait (ticks 300 ∷ []))
        ≡ failed ++ failed ++ failed ++ failed }
    ensures one_fault { (all_wait (ticks 300 ∷ [])).under_way.link.faults ≡ 1 }
    ensures once { (brings (all_wait (ticks 300 ∷ [])) 300 Tick).actions ≡ [] }
    ensures left { (brings (all_wait (on 299 (Heard 5 (denied 1)) ∷ [])) 300 Tick).actions
        ≡ Lost ∷ Over 2 ∷ [] }
    ensures answered { (brings (all_wait (on 299 (Heard 7 (refused 1 ++ refused 2)) ∷ [])) 300
        Tick).actions ≡ Over 1 ∷ Over 2 ∷ [] }
{}

/// When a limit is reached is told beforehand, and of several the next one; one that the clock
/// doesn't come to is none.
pub fn the_next_limit_is_told()
    ensures none { next_due (holding_by limited []) ≡ None }
    ensures ask { next_due (holding_by limited (on 7 (Heard 1 (sign 17)) ∷ [])) ≡ Some 67 }
    ensures oldest { next_due (two_wait []) ≡ Some 60 }
    ensures next { next_due (two_wait (on 59 (Heard 3 (signed 1 (codes "sig"))) ∷ []))
        ≡ Some 90 }
    ensures over { next_due (waiting (ticks 60 ∷ [])) ≡ None }
    ensures confirmation { next_due (asked []) ≡ Some 300 }
    ensures all { next_due (all_wait []) ≡ Some 300 }
    ensures death { next_due (waiting (on 0 (Joined Clients) ∷ on 0 (Heard 2 (add_for_ten 18))
        ∷ [])) ≡ Some 10 }
    ensures unlimited { next_due (waiting_for_ever []) ≡ None }
    ensures last { next_due (holding_by limited (on (2 ^ 64 - 61) (Heard 1 (sign 17)) ∷ []))
        ≡ Some (2 ^ 64 - 1) }
    ensures never { next_due (holding_by limited (on (2 ^ 64 - 60) (Heard 1 (sign 17)) ∷ []))
        ≡ None }
{}
