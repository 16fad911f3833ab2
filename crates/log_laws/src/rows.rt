//! Literal rows of what came of a request: laws that are proved by computing.
#![tactic(auto, unfolding(wire_text::specs::Wire::uint32, wire_text::specs::Wire::string, wire_text::specs::Wire::announced_len, wire_core::specs::Fields::uint32_at, wire_core::specs::Fields::string_len, wire_core::specs::Fields::string_at, agent_msg::specs::Reading::request_of_number, agent_msg::specs::Reading::request_of))]

ghost use Rattle.std.specs.Prelude.{◌≡◌, ◌∷◌, [], None, Some, false, true};
ghost use Rattle.agent_model.specs.Actions.{ForSignature, Granted, Lost, Over};
ghost use Rattle.agent_model.specs.Binds.{agent_request_of};
ghost use Rattle.agent_model.specs.Events.{Ended, Heard, Took};
ghost use Rattle.agent_model.specs.State.{Nothing, OnAsk, OnConfirmation};
ghost use Rattle.log_laws.specs.EndRows.{asked, asks, at, body, came, owes, puts, raises, reading, reason, refuses, signs, verifies, waits, went};
ghost use Rattle.log_laws.specs.Ends.{Failed, Left, Refused, Signed, came_at, last_request, readings_of, went_by};
ghost use Rattle.log_laws.specs.Refusals.{Answer, Loss};
ghost use Rattle.log_laws.specs.Whys.{purpose_by};

/// A request is signed where the helper answered its client's ask with a signature, before it was lost; a refusal says
/// whether one was put.
pub fn what_the_helper_made_of_it()
    ensures unasked { came [] ≡ Refused }
    ensures signed { came (puts 3 1 ∷ signs 3 ∷ []) ≡ Signed }
    ensures refused { came (puts 3 1 ∷ refuses 3 ∷ []) ≡ Failed }
    ensures lost { came (puts 3 1 ∷ Lost ∷ signs 3 ∷ []) ≡ Failed }
    ensures lost_before { came (Lost ∷ puts 3 1 ∷ signs 3 ∷ []) ≡ Signed }
    ensures lost_after { came (puts 3 1 ∷ signs 3 ∷ Lost ∷ []) ≡ Signed }
    ensures other_ask { came (puts 3 1 ∷ signs 2 ∷ []) ≡ Failed }
    ensures other_client { came (puts 3 2 ∷ signs 3 ∷ []) ≡ Refused }
{}

/// A refusal behind an ask is the helper's where it answered that ask and wasn't lost behind it.
pub fn the_helper_refused_or_was_lost()
    ensures unasked { reason [] ≡ None }
    ensures unanswered { reason (puts 3 1 ∷ []) ≡ None }
    ensures refused { reason (puts 3 1 ∷ refuses 3 ∷ []) ≡ Some Answer }
    ensures lost { reason (puts 3 1 ∷ Lost ∷ []) ≡ Some Loss }
    ensures lost_before { reason (Lost ∷ puts 3 1 ∷ refuses 3 ∷ []) ≡ Some Answer }
    ensures lost_after { reason (puts 3 1 ∷ refuses 3 ∷ Lost ∷ []) ≡ Some Loss }
    ensures other_ask { reason (puts 3 1 ∷ refuses 2 ∷ []) ≡ None }
    ensures other_client { reason (puts 3 2 ∷ refuses 3 ∷ []) ≡ None }
{}

/// How far the request of the client at port 1 went, by what was done behind it.
pub fn a_request_goes_so_far()
    ensures nowhere { went_by 1 [] ≡ went false false }
    ensures raised { went_by 1 (raises 1 ∷ []) ≡ went true false }
    ensures put { went_by 1 (puts 3 1 ∷ []) ≡ went false true }
    ensures agreed { went_by 1 (raises 1 ∷ Granted 2 ∷ puts 3 1 ∷ []) ≡ went true true }
    ensures denied { went_by 1 (raises 1 ∷ Over 2 ∷ []) ≡ went true false }
    ensures others { went_by 1 (raises 2 ∷ puts 3 2 ∷ []) ≡ went false false }
    ensures verified { went_by 1 (verifies 3 1 ∷ []) ≡ went false false }
{}

/// What is put for a request is what it asks for.
pub fn a_request_is_put_as_it_is()
    ensures { purpose_by (agent_request_of body)
        ≡ Some (ForSignature (record { blob = 107 ∷ []; message = 109 ∷ []; flags = 0 })) }
{}

/// A client's last request counts, with what was done behind it.
pub fn the_last_request_counts()
    ensures none { last_request 1 [] ≡ None }
    ensures one { last_request 1 (at 5 (asks 1) ∷ []) ≡ asked 5 [] }
    ensures behind { last_request 1 (at 5 (asks 1) ∷ at 5 (puts 3 1) ∷ at 7 (signs 3) ∷ [])
        ≡ asked 5 (puts 3 1 ∷ signs 3 ∷ []) }
    ensures last { last_request 1 (at 5 (asks 1) ∷ at 7 (signs 3) ∷ at 9 (asks 1) ∷ []) ≡ asked 9 [] }
    ensures other { last_request 1 (at 5 (asks 1) ∷ at 9 (asks 2) ∷ []) ≡ asked 5 (asks 2 ∷ []) }
    ensures read { readings_of (record { wall = 5; body = body; later = [] }) ≡ reading 5 ∷ [] }
{}

/// A request ends where its client took all that it is owed, or where its port ends while it waits.
pub fn an_event_ends_a_request()
    ensures all { came_at 1 (owes (7 ∷ 8 ∷ [])) (puts 3 1 ∷ signs 3 ∷ []) (Took 1 2) ≡ Some Signed }
    ensures part { came_at 1 (owes (7 ∷ 8 ∷ [])) (puts 3 1 ∷ signs 3 ∷ []) (Took 1 1) ≡ None }
    ensures others_took { came_at 1 (owes (7 ∷ 8 ∷ [])) (puts 3 1 ∷ signs 3 ∷ []) (Took 2 2) ≡ None }
    ensures untaken { came_at 1 (owes (7 ∷ [])) (puts 3 1 ∷ signs 3 ∷ []) (Ended 1) ≡ Some Left }
    ensures by_helper { came_at 1 (waits (OnAsk 3)) (puts 3 1 ∷ []) (Ended 1) ≡ Some Left }
    ensures by_user { came_at 1 (waits (OnConfirmation 2)) [] (Ended 1) ≡ Some Left }
    ensures other_ended { came_at 1 (waits (OnAsk 3)) (puts 3 1 ∷ []) (Ended 2) ≡ None }
    ensures idle { came_at 1 (waits Nothing) (puts 3 1 ∷ signs 3 ∷ []) (Ended 1) ≡ None }
    ensures heard { came_at 1 (waits (OnAsk 3)) (puts 3 1 ∷ signs 3 ∷ []) (Heard 1 (7 ∷ [])) ≡ None }
{}
