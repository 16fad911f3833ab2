//! A key that may be used a number of times is used so often, and no more.

ghost use Rattle.std.specs.Prelude.{◌≡◌, ◌++◌, ◌∷◌, ◌<◌, ◌≤◌, ℕ, List, [], Some};
ghost use Rattle.agent_msg.specs.Requests.{Addition, Signing};
ghost use Rattle.agent_model.specs.Events.{Timed};
ghost use Rattle.agent_model.specs.Runs.{Stamped, run};
ghost use Rattle.agent_model.specs.Runs as runs;
ghost use Rattle.agent_model.specs.State.{Settings, first_state};
ghost use Rattle.agent_laws.specs.History.{HasNumbers, IsPutBehind, NoneAdds, onto};
ghost use Rattle.agent_laws.specs.Past.{DidAdd, done_of};
ghost use Rattle.agent_laws.specs.Uses.{times_used, times_wanted};

/// Whatever happens, locks, confirmations and lost helpers among it: behind an addition with a
/// number of uses, and until the key is added again, signatures with it are put to the helper at
/// most so often. A signature is put only while fewer were.
///
/// And while the numbers of asks and jobs are not spent, it is exactly as often as requests and
/// consents meet all other conditions, or, where so many or more do, exactly as often as the key
/// may be used: the first ones are put.
pub fn a_key_signs_as_often_as_it_may()
    ensures most { (before later rest : List Stamped) (one : Stamped) (addition : Addition)
        (uses : ℕ) (settings : Settings) (events : List Timed)
        → runs.history (first_state settings) events ≡ before ++ one ∷ (later ++ rest)
        → done_of one.action ≡ DidAdd addition → addition.terms.uses ≡ Some uses
        → NoneAdds addition.key.blob later → times_used addition.key.blob later ≤ uses }
    ensures fewer { (before between : List Stamped) (one : Stamped) (addition : Addition)
        (uses port : ℕ) (signing : Signing) (settings : Settings) (events : List Timed)
        → done_of one.action ≡ DidAdd addition → addition.key.blob ≡ signing.blob
        → addition.terms.uses ≡ Some uses → NoneAdds signing.blob between
        → IsPutBehind (before ++ one ∷ between) port signing settings events
        → times_used signing.blob between < uses }
    ensures each { (before later : List Stamped) (one : Stamped) (addition : Addition) (uses : ℕ)
        (settings : Settings) (events : List Timed) → HasNumbers (run (first_state settings) events)
        → runs.history (first_state settings) events ≡ before ++ one ∷ later
        → done_of one.action ≡ DidAdd addition → addition.terms.uses ≡ Some uses
        → NoneAdds addition.key.blob later
        → times_wanted addition.key.blob settings.life (one ∷ onto [] before) later ≤ uses
        → times_used addition.key.blob later
        ≡ times_wanted addition.key.blob settings.life (one ∷ onto [] before) later }
    ensures all { (before later : List Stamped) (one : Stamped) (addition : Addition) (uses : ℕ)
        (settings : Settings) (events : List Timed) → HasNumbers (run (first_state settings) events)
        → runs.history (first_state settings) events ≡ before ++ one ∷ later
        → done_of one.action ≡ DidAdd addition → addition.terms.uses ≡ Some uses
        → NoneAdds addition.key.blob later
        → uses ≤ times_wanted addition.key.blob settings.life (one ∷ onto [] before) later
        → times_used addition.key.blob later ≡ uses }
{}
