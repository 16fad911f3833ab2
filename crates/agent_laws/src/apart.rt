//! Noninterference over runs: what a client doesn't see changes nothing that it gets.

ghost use Rattle.std.specs.Prelude.{◌≡◌, ℕ, List, Some, false};
ghost use Rattle.world_ports.specs.declared.Door.TheVariants.{Clients};
ghost use Rattle.world_ports.specs.declared.Moment.{Moment};
ghost use Rattle.agent_model.specs.Children.{heard_more};
ghost use Rattle.agent_model.specs.Events.{Heard, Timed, Took};
ghost use Rattle.agent_model.specs.Runs.{run};
ghost use Rattle.agent_model.specs.State.{Port, Settings, State, find_port, first_state, owed_of};
ghost use Rattle.agent_model.specs.Step.{step, took_some};
ghost use Rattle.agent_model.specs.Time.{at_moment};
ghost use Rattle.agent_laws.specs.Apart.{AreAlike, AreAlikeRuns, Insiders, IsInside};

/// Two runs whose events are the same, but for what insiders send and take, and for the additions
/// and removals by which they leave the states alike: each other client is owed the same bytes, and
/// so are the child processes.
///
/// The states are alike where their ports are, but for what insiders sent and are owed, their
/// identities, but for hidden ones and for the numbers of additions, their locks, and all that is
/// under way; nothing is to be confirmed, and no two identities of a state have one blob or one
/// number, as over all events. An event that both runs have is of no insider's
/// connection. Where it has a request taken, no hidden key is seen on its connection in either run;
/// and where that is an addition, it is of no hidden key, asks for no confirmation, and is refused
/// for room or for want of numbers in both runs or in none.
pub fn what_is_hidden_changes_nothing_over_runs()
    ensures owed { (who : Insiders) (one two : State) (ones twos : List Timed) (number : ℕ)
        → AreAlikeRuns who one ones two twos → AreAlike who one two
        → who.is_insider number ≡ false
        → owed_of number (run one ones) ≡ owed_of number (run two twos) }
    ensures alike { (who : Insiders) (one two : State) (ones twos : List Timed)
        → AreAlikeRuns who one ones two twos → AreAlike who one two
        → AreAlike who (run one ones) (run two twos) }
    ensures first { (who : Insiders) (settings : Settings)
        → AreAlike who (first_state settings) (first_state settings) }
{}

/// What an insider sends and takes leaves a state alike, at the moment that it has: where no
/// request is taken of it, or one that doesn't read, or a listing, or an addition or a removal of a
/// hidden key, whatever it is answered.
pub fn an_insider_leaves_the_others_alone()
    ensures heard { (who : Insiders) (state : State) (moment : Moment) (number : ℕ)
        (piece : List ℕ) (port : Port) → at_moment moment state ≡ state
        → AreAlike who state state → find_port number state.ports ≡ Some port
        → port.door ≡ Clients → IsInside who port (heard_more piece port)
        → AreAlike who state (step state moment (Heard number piece)).state }
    ensures took { (who : Insiders) (state : State) (moment : Moment) (number count : ℕ)
        (port : Port) → at_moment moment state ≡ state
        → AreAlike who state state → find_port number state.ports ≡ Some port
        → port.door ≡ Clients → IsInside who port (took_some count port)
        → AreAlike who state (step state moment (Took number count)).state }
{}
