//! What a question's child process gets.

ghost use Rattle.std.specs.Prelude.{List};
ghost use Rattle.agent_model.specs.Actions.{Raised, Raising};
ghost use Rattle.agent_model.specs.Events.{Timed};
ghost use Rattle.agent_model.specs.Grants.{IsAmong};
ghost use Rattle.agent_model.specs.Runs.{run};
ghost use Rattle.agent_model.specs.State.{Settings, first_state};
ghost use Rattle.agent_model.specs.Step.{step};
ghost use Rattle.question_laws.specs.Questions.{AreAskedSo, IsAsked};

/// Wherever in a run a confirmation is raised, and whatever comes later: the bytes that the child
/// process of its job takes, one take after another, are a front of exactly the question about the
/// key that is held then under the addition that the raising names, and about the message that it
/// names. That raising's signing is what is put once the user agrees
/// (`a_signature_has_a_consent_of_its_own` in agent_laws).
///
/// `by_the_past`: this key is the last addition of the blob that is to sign, by what was done before
/// alone, so that the question has the comment and the purposes which that addition's request had.
pub fn a_question_is_about_what_is_signed()
    ensures asked { (settings : Settings) (before later : List Timed) (one : Timed) (raising : Raising)
        → IsAmong (Raised raising) (step (run (first_state settings) before) one.moment one.event).actions
        → IsAsked (run (first_state settings) before) one later raising }
    ensures by_the_past { (settings : Settings) (events : List Timed) → AreAskedSo settings events }
{}
