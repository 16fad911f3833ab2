//! Laws of the runs of specs/.

ghost use Rattle.std.specs.Prelude.{◌≡◌, List, ℕ, [], false};
ghost use Rattle.world_ports.specs.declared.Moment.{Moment};
ghost use Rattle.agent_model.specs.Sound.{IsSteady};
ghost use Rattle.agent_model.specs.Events.{Tick};
ghost use Rattle.agent_model.specs.State.{State, no_limits, owed_of};
ghost use Rattle.replay_run.specs.Holding.{is_held};
ghost use Rattle.replay_run.specs.Settling.{closed_at, settled};

/// After a settling nothing is owed to a port that isn't held, in every state whose ports have
/// numbers that rise, and whose confirmations have jobs that rise.
pub fn nothing_is_owed_after_settling()
    ensures { (moment : Moment) (held : List ℕ) (state : State) (port : ℕ)
        → IsSteady state → is_held port held ≡ false
        → owed_of port (settled moment held state) ≡ [] }
{}

/// Without limits of time a moment closes no port. So in format 1 every line for a port that isn't open is refused.
pub fn a_moment_without_limits_closes_nothing()
    ensures { (moment : Moment) (state : State) → state.under_way.limits ≡ no_limits
        → closed_at moment state Tick ≡ [] }
{}
