//! The law of history.

ghost use Rattle.std.specs.Prelude.{List, []};
ghost use Rattle.agent_model.specs.Events.{Timed};
ghost use Rattle.agent_model.specs.Runs as runs;
ghost use Rattle.agent_model.specs.State.{Settings, first_state};
ghost use Rattle.agent_laws.specs.Answered.{IsAnswered};
ghost use Rattle.agent_laws.specs.History.{ArePutWhereDue, HasNumbers, IsLawful};
ghost use Rattle.agent_laws.specs.Puts.{IsPutAsAsked};

/// Whatever happened, a signature is put to the helper directly behind a request or a consent only
/// where what was done before says so; and while the numbers of asks and jobs are not spent exactly
/// there, and nowhere else. It says so where, by the locks and unlocks that succeeded, the agent
/// isn't locked; by the additions and removals that succeeded and by its lifetime, the key is held,
/// and if it has a number of uses, fewer signatures with it were put to the helper since; its
/// purposes, if it has any, have the message, which isn't signed by SHA-1 then; its destination
/// constraints permit the signature for the bindings that were proved on that connection; fewer
/// than 256 asks are open, whose bodies have less than 8 MiB together; and either the key asks for
/// no confirmation, or the user consented to this very request and addition.
pub fn history()
    ensures lawful { (settings : Settings) (events : List Timed)
        → HasNumbers (runs.run (first_state settings) events)
        → IsLawful settings.life [] (runs.history (first_state settings) events) }
    ensures only { (settings : Settings) (events : List Timed)
        → ArePutWhereDue settings.life [] (runs.history (first_state settings) events) }
{}

/// Whatever happened, and while its port stays: a client for which an ask is put waits for it. It is owed nothing, and goes
/// on waiting until the helper's first answer to that ask, of which it is told as the helper gave it, or until the helper is
/// lost, of which it is told SSH_AGENT_FAILURE. An answer comes of the helper's stream alone: of a piece at its port, or of
/// what a piece has behind its HELLO. The count of link faults is how often the helper was lost, up to 2^64 - 1.
pub fn a_client_gets_that_helpers_answer()
    ensures { (settings : Settings) (events : List Timed)
        → IsAnswered (first_state settings) events }
{}

/// Whatever happened: the messages that are put to the helper are, in order, those of the asks that the actions tell, each
/// with the ask's number, a signature's with what is to be signed and the private string of the key's last addition, a
/// verification's with what the request to bind has; and an event appends their frames, and nothing else, to what is left of
/// what the helper was owed.
pub fn what_is_put_is_asked_for()
    ensures { (settings : Settings) (events : List Timed)
        → IsPutAsAsked (first_state settings) events }
{}
