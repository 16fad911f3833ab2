//! An event and the tick of its moment.

ghost use Rattle.std.specs.Prelude.{◌≡◌, List};
ghost use Rattle.world_ports.specs.declared.Moment.{Moment};
ghost use Rattle.agent_model.specs.Events.{Happening, Timed};
ghost use Rattle.agent_model.specs.Runs.{run};
ghost use Rattle.agent_model.specs.Sound.{IsSteady};
ghost use Rattle.agent_model.specs.State.{Fits, State};
ghost use Rattle.agent_model.specs.Step.{step};
ghost use Rattle.replay_laws.specs.Replaying.{FitsUnless};
ghost use Rattle.replay_laws.specs.Ticks.{is_passed_over, ticked, with_ticks};

/// The tick of a moment and then an event at it are the event: the same state, and the same put to
/// the helper. So are runs with a tick before each event.
pub fn a_tick_before_an_event_changes_nothing()
    ensures state { (state : State) (moment : Moment) (event : Happening)
        → (step (ticked moment state).state moment event).state ≡ (step state moment event).state }
    ensures put { (state : State) (moment : Moment) (event : Happening)
        → (step (ticked moment state).state moment event).put ≡ (step state moment event).put }
    ensures runs { (state : State) (events : List Timed)
        → run state (with_ticks events) ≡ run state events }
{}

/// An event that may come may come behind the tick of its moment too, unless that tick closed its
/// port.
pub fn what_fits_fits_behind_its_tick()
    ensures fits { (event : Happening) (moment : Moment) (state : State) → IsSteady state
        → Fits event state
        → FitsUnless (is_passed_over moment event state) event (ticked moment state).state }
{}
