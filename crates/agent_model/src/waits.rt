//! Laws of how long may be waited: what a limit ends, and when.

ghost use Rattle.std.specs.Prelude.{◌≡◌, ◌≢◌, ◌↔◌, ◌^◌, ◌<◌, ℕ, [], None, Some, max, true};
ghost use Rattle.world_ports.specs.declared.Moment.{Moment};
ghost use Rattle.confirm_desk.specs.Confirmations.{Confirmation, find_job};
ghost use Rattle.agent_model.specs.Actions.{Lost, Over, stay};
ghost use Rattle.agent_model.specs.Events.{Happening};
ghost use Rattle.agent_model.specs.Grants.{IsAmong};
ghost use Rattle.agent_model.specs.Sound.{IsSteady};
ghost use Rattle.agent_model.specs.State.{State, next_limit};
ghost use Rattle.agent_model.specs.Step.{handle, in_order, step};
ghost use Rattle.agent_model.specs.Time.{IsAhead, IsOnTime, IsReached, at_moment, is_helper_late, is_late, taken_in, time_passes};

/// Whatever happened before: a moment loses the helper exactly where the oldest unanswered ask has
/// waited for its limit, and ends a confirmation without consent exactly where that has; it puts
/// nothing to the helper, and leaves nothing late.
pub fn a_wait_ends_at_its_limit()
    ensures lost { (moment : Moment) (state : State)
        → IsAmong Lost (time_passes moment state).actions
        ↔ (is_helper_late (taken_in moment state).under_way ≡ true) }
    ensures over { (moment : Moment) (state : State) (job : ℕ) (one : Confirmation)
        → IsSteady state → find_job job state.under_way.confirmations ≡ Some one
        → IsAmong (Over job) (time_passes moment state).actions
        ↔ (is_late (taken_in moment state).under_way one ≡ true) }
    ensures put { (moment : Moment) (state : State) → (time_passes moment state).put ≡ [] }
    ensures prompt { (moment : Moment) (state : State)
        → IsOnTime moment (at_moment moment state) }
{}

/// The next second at which something ends is told: before it a moment ends nothing, so that an
/// event brings what it brings without limits, and from it on something ends. Where no limit is
/// set nothing ever does.
pub fn the_next_end_is_told()
    ensures before { (moment : Moment) (state : State)
        → max state.moment.mono moment.mono < 2 ^ 64
        → IsAhead (max state.moment.mono moment.mono) (next_limit state.under_way)
        → time_passes moment state ≡ stay (taken_in moment state) }
    ensures event { (moment : Moment) (state : State) (event : Happening)
        → max state.moment.mono moment.mono < 2 ^ 64
        → IsAhead (max state.moment.mono moment.mono) (next_limit state.under_way)
        → step state moment event ≡ in_order (handle event (taken_in moment state)) }
    ensures reached { (moment : Moment) (state : State)
        → IsReached (max state.moment.mono moment.mono) (next_limit state.under_way)
        → (time_passes moment state).actions ≢ [] }
    ensures unlimited { (moment : Moment) (state : State) → state.under_way.limits.ask ≡ None
        → state.under_way.limits.confirmation ≡ None
        → time_passes moment state ≡ stay (taken_in moment state) }
{}
