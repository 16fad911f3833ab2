//! Laws of specs/Verdicts.antt, specs/Prompts.antt and specs/Transcript.antt.

ghost use Rattle.std.specs.Prelude.{◌≡◌, ◌↔◌, ℕ, ℤ, true, List, Some};
ghost use Rattle.child_msg.specs.Messages.{Granted};
ghost use Rattle.relay_core.specs.Laws.{ConsentsBy, IsConsent, IsPromptOf};
ghost use Rattle.relay_core.specs.Prompts.{prompt_of};
ghost use Rattle.relay_core.specs.Transcript.{RunAnswer, is_granted, verdict_message};
ghost use Rattle.relay_core.specs.Verdicts.{verdict_of};

/// The agent is told GRANTED exactly where the run came to its end with the status 0 and the word `yes`
/// or none: no other status, as after a signal, and no failed run is a consent.
pub fn granted_only_by_a_consent()
    ensures verdict { (status : ℤ) (output : List ℕ)
        → (verdict_of status output ≡ true) ↔ IsConsent status output }
    ensures granted { (job : ℕ) (answer : RunAnswer)
        → (verdict_message job (is_granted answer) ≡ Granted job) ↔ ConsentsBy answer }
{}

/// A prompt is shown exactly where the body asks for this job by a plain one.
pub fn a_prompt_is_plain_and_of_the_job()
    ensures { (job : ℕ) (body prompt : List ℕ)
        → (prompt_of job body ≡ Some prompt) ↔ IsPromptOf job body prompt }
{}
