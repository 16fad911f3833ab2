//! Laws of what an event puts.

ghost use Rattle.std.specs.Prelude.{◌≡◌, ℕ, List, map};
ghost use Rattle.world_ports.specs.declared.Moment.{Moment as AMoment};
ghost use Rattle.agent_model.specs.Events.{Happening};
ghost use Rattle.agent_model.specs.Runs.{history};
ghost use Rattle.agent_model.specs.State.{Settings, State, first_state};
ghost use Rattle.audit_core.specs.Newest.{PutsItsNewest};
ghost use Rattle.audit_core.specs.Puts.{puts, signed_in, without_line};
ghost use Rattle.replay_run.specs.Replay.{events_of, settings_of};

/// In whatever state and at whatever moment an event comes, it puts one ask at most. Where the number of the last ask is
/// another one behind it, the ask is the newest of those that are unanswered.
pub fn an_event_puts_its_newest_ask()
    ensures { (state : State) (moment : AMoment) (event : Happening) → PutsItsNewest state moment event }
{}

/// A report lists all signing requests that were put in the run that it is of, in their order, and no others: they are
/// those of the history of which agent_laws' law speaks.
pub fn all_that_is_put_is_listed()
    ensures { (settings : Settings) (text : List ℕ) → map without_line (puts settings text)
        ≡ signed_in (history (first_state (settings_of settings text)) (events_of settings text)) }
{}
