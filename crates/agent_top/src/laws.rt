//! What follows for runs of the commands.

ghost use Rattle.std.specs.Prelude.{List};
ghost use Rattle.agent_model.specs.Events.{Timed};
ghost use Rattle.agent_model.specs.Runs.{outcomes};
ghost use Rattle.agent_model.specs.State.{Settings, State, first_state};
ghost use Rattle.agent_secrecy.specs.Alike.{AreAlike};
ghost use Rattle.agent_secrecy.specs.Frames.{AreAlikePut};
ghost use Rattle.agent_secrecy.specs.Secrecy.{AreAlikeSeen};
ghost use Rattle.agent_top.specs.LawfulRun.{IsLawfulRun};

/// Two runs of commands, whichever they are, that are alike but in the contents of private fields give after each event
/// what tells none of them, and put messages to the helper that differ in these alone.
pub fn lawful_runs_tell_no_secret()
    ensures seen { (settings : Settings) (one other : List Timed) (end : State) → AreAlike one other
        → IsLawfulRun settings one end
        → AreAlikeSeen (outcomes (first_state settings) one) (outcomes (first_state settings) other) }
    ensures put { (settings : Settings) (one other : List Timed) (end other_end : State) → AreAlike one other
        → IsLawfulRun settings one end → IsLawfulRun settings other other_end
        → AreAlikePut (outcomes (first_state settings) one) (outcomes (first_state settings) other) }
{}
