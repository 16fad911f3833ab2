//! What the law of history means to a user.

ghost use Rattle.std.specs.Prelude.{◌≡◌, ◌++◌, ◌∷◌, ◌<◌, ℕ, List, [], length, None, Some, true, false};
ghost use Rattle.std.specs.List.{sum_by};
ghost use Rattle.agent_msg.specs.Requests.{Signing};
ghost use Rattle.constraint_rec.specs.declared.constraint.Constraint.{Constraint};
ghost use Rattle.dest_rule.specs.Rules.{denial_under};
ghost use Rattle.agent_model.specs.Events.{Timed};
ghost use Rattle.agent_model.specs.Runs.{Stamped, run};
ghost use Rattle.agent_model.specs.State.{Settings, first_state};
ghost use Rattle.agent_laws.specs.Dues.{open_asks, proved_of};
ghost use Rattle.agent_laws.specs.History.{HasNumbers, IsConsented, IsLoginTo, IsPutBehind, NoneAdds, NoneUnlocks, Removes, onto};
ghost use Rattle.agent_laws.specs.Past.{DidLock, PastAddition, done_of, last_addition, was_locked};

/// After a lock succeeded and until an unlock does, no signature is put to the helper, also none
/// that the user consents to: whatever is put, the agent was unlocked.
pub fn nothing_is_signed_while_locked()
    ensures unlocked { (before : List Stamped) (port : ℕ) (signing : Signing) (settings : Settings)
        (events : List Timed) → HasNumbers (run (first_state settings) events)
        → IsPutBehind before port signing settings events → was_locked (onto [] before) ≡ false }
    ensures until_unlocked { (before between : List Stamped) (lock : Stamped) (port : ℕ)
        (signing : Signing) (settings : Settings) (events : List Timed)
        → HasNumbers (run (first_state settings) events) → done_of lock.action ≡ DidLock
        → NoneUnlocks between → IsPutBehind (before ++ lock ∷ between) port signing settings events
        → ⊥ }
{}

/// No signature is put to the helper with a key that was never added, nor after it was removed and
/// until it is added again.
pub fn only_what_was_added_signs()
    ensures added { (before : List Stamped) (port : ℕ) (signing : Signing) (settings : Settings)
        (events : List Timed) → HasNumbers (run (first_state settings) events)
        → IsPutBehind before port signing settings events
        → (past : PastAddition) × (last_addition signing.blob (onto [] before) ≡ Some past) }
    ensures never { (before : List Stamped) (port : ℕ) (signing : Signing) (settings : Settings)
        (events : List Timed) → HasNumbers (run (first_state settings) events)
        → NoneAdds signing.blob before → IsPutBehind before port signing settings events → ⊥ }
    ensures removed { (before between : List Stamped) (removal : Stamped) (port : ℕ)
        (signing : Signing) (settings : Settings) (events : List Timed)
        → HasNumbers (run (first_state settings) events) → Removes signing.blob removal.action
        → NoneAdds signing.blob between
        → IsPutBehind (before ++ removal ∷ between) port signing settings events → ⊥ }
{}

/// With a key that is to be confirmed a signature is put to the helper only behind the user's
/// consent to this very request, under the addition that is held.
pub fn a_confirmed_key_signs_with_consent()
    ensures { (before : List Stamped) (port : ℕ) (signing : Signing) (settings : Settings)
        (events : List Timed) (past : PastAddition) → HasNumbers (run (first_state settings) events)
        → IsPutBehind before port signing settings events
        → last_addition signing.blob (onto [] before)
        ≡ Some past → past.addition.terms.confirm ≡ true
        → IsConsented (onto [] before) port past.number signing }
{}

/// With a key that has destination constraints a signature is put to the helper only where they
/// permit it for the bindings that were proved on that connection, at the wall clock of the event;
/// and fewer than 256 asks are open, whose bodies have less than 8 MiB together.
pub fn a_constrained_key_signs_where_permitted()
    ensures permitted { (before rest : List Stamped) (newest : Stamped) (port : ℕ)
        (signing : Signing) (settings : Settings) (events : List Timed) (past : PastAddition)
        → HasNumbers (run (first_state settings) events)
        → IsPutBehind before port signing settings events
        → onto [] before ≡ newest ∷ rest → last_addition signing.blob (onto [] before) ≡ Some past
        → denial_under past.addition.terms.rules signing.blob (proved_of port (onto [] before))
        signing.message newest.moment.wall ≡ None }
    ensures few { (before : List Stamped) (port : ℕ) (signing : Signing) (settings : Settings)
        (events : List Timed) → HasNumbers (run (first_state settings) events)
        → IsPutBehind before port signing settings events
        → length (open_asks (onto [] before)) < 256 }
    ensures light { (before : List Stamped) (port : ℕ) (signing : Signing) (settings : Settings)
        (events : List Timed) → HasNumbers (run (first_state settings) events)
        → IsPutBehind before port signing settings events
        → sum_by (λ (one : ℕ × ℕ). one.1) (open_asks (onto [] before)) < 8388608 }
{}

/// With a key whose only constraint leads from the agent's own host to one host, each message that
/// is put to the helper is a login to the session of the one binding that was proved on that
/// connection, and that constraint's host has its host key at this moment.
pub fn a_key_for_one_host_signs_for_it()
    ensures { (before rest : List Stamped) (newest : Stamped) (port : ℕ) (signing : Signing)
        (settings : Settings) (events : List Timed) (past : PastAddition) (rule : Constraint)
        → HasNumbers (run (first_state settings) events)
        → IsPutBehind before port signing settings events
        → onto [] before ≡ newest ∷ rest → last_addition signing.blob (onto [] before) ≡ Some past
        → past.addition.terms.rules ≡ rule ∷ [] → rule.from.keys ≡ []
        → IsLoginTo rule (proved_of port (onto [] before)) signing newest.moment.wall }
{}
