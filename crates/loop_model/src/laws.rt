//! Laws of legal journals.

ghost use Rattle.std.specs.Prelude.{◌≡◌, ◌++◌, ◌∷◌, ◌^◌, ◌<◌, max, ℕ, List, Option, Result, Some, false, true};
ghost use Rattle.world_ports.specs.declared.answers.Polled.{Polled};
ghost use Rattle.world_ports.specs.declared.answers.Ready.{Ready};
ghost use Rattle.world_ports.specs.declared.answers.WorldFault.{WorldFault};
ghost use Rattle.world_ports.specs.declared.entry.Entry.{Entry};
ghost use Rattle.world_ports.specs.declared.entry.Entry.TheVariants as entry;
ghost use Rattle.world_ports.specs.declared.events.Moment.{Moment};
ghost use Rattle.agent_model.specs.Events.{Happening};
ghost use Rattle.agent_model.specs.Runs.{AllFit, AreInRange};
ghost use Rattle.agent_model.specs.Sound.{IsRising};
ghost use Rattle.agent_model.specs.State.{Settings, State, first_state, wants};
ghost use Rattle.agent_model.specs.Step.{step};
ghost use Rattle.loop_model.specs.Dues.{Free};
ghost use Rattle.loop_model.specs.Elsewhere.{ends_waits, is_due, is_of, may_end, stands};
ghost use Rattle.loop_model.specs.Fitting.{AreOfOneRead, AreTyped, journal_events};
ghost use Rattle.loop_model.specs.Fronts.{HasFront, RestsAfter};
ghost use Rattle.loop_model.specs.LegalJournal.{LoopState, after_entries, in_state};
ghost use Rattle.loop_model.specs.Lines.{Line};
ghost use Rattle.loop_model.specs.Orderly.{IsOrderly};
ghost use Rattle.loop_model.specs.Servable.{is_servable};
ghost use Rattle.loop_model.specs.declared.thing.Thing.{Thing};

/// Every front of a legal journal is legal, and the rest is legal from where it leads to.
pub fn every_front_is_legal()
    ensures { (from to : LoopState) (first later : List Entry)
        → after_entries from (first ++ later) ≡ Some to → HasFront from to first later }
{}

/// No poll stands in a legal journal where something can be served, a job waits or a port is to be closed.
pub fn nothing_waits_at_a_poll()
    ensures { (state : State) (line : Line) (to : LoopState) (first later : List Entry) (wait : Option ℕ)
        (items : List Ready) (answer : Result Polled WorldFault)
        → after_entries (in_state state line Free) (first ++ entry.Poll wait items answer ∷ later) ≡ Some to
        → RestsAfter (in_state state line Free) first }
{}

/// An event lets no other port than its own be read that wasn't to be read before. The numbers of the open ports rise
/// in every state that events lead to.
pub fn an_event_wants_no_other_port()
    ensures { (state : State) (moment : Moment) (event : Happening) (port : ℕ)
        → IsRising 0 state.last_port state.ports → is_of event state.last_port port ≡ false
        → wants port (step state moment event).state ≡ true → wants port state ≡ true }
{}

/// At a moment before the second that the agent tells as the next one at which something is due no wait ends. The clock
/// has 64 bits.
pub fn no_wait_ends_before_it_is_due()
    ensures { (state : State) (moment : Moment) → max state.moment.mono moment.mono < 2 ^ 64
        → is_due moment state ≡ false → ends_waits moment state ≡ false }
{}

/// What can be served can be served after an event, unless it was closed, or its own service brought the event; a
/// listener can't be once the last number is taken.
pub fn an_event_leaves_what_can_be_served()
    ensures { (state : State) (moment : Moment) (event : Happening) (thing : Thing) → IsOrderly state
        → may_end event thing ≡ false → is_servable state thing ≡ true
        → stands thing (step state moment event).state ≡ true
        → is_servable (step state moment event).state thing ≡ true }
{}

/// The jobs of child processes and the clients that wait fit what is under way, before the first event and after each.
pub fn an_event_leaves_an_orderly_agent()
    ensures first { (settings : Settings) → IsOrderly (first_state settings) }
    ensures later { (state : State) (moment : Moment) (event : Happening) → IsOrderly state
        → IsOrderly (step state moment event).state }
{}

/// In a legal journal each event may come in the state that it finds, and a piece of bytes is no more than one read has
/// room for. Where the entries have the numbers of their types, so have the events.
pub fn the_events_of_a_journal_fit()
    ensures fit { (state : State) (line : Line) (to : LoopState) (entries : List Entry)
        → after_entries (in_state state line Free) entries ≡ Some to
        → AllFit state (journal_events (in_state state line Free) entries) }
    ensures read { (state : State) (line : Line) (to : LoopState) (entries : List Entry)
        → after_entries (in_state state line Free) entries ≡ Some to
        → AreOfOneRead (journal_events (in_state state line Free) entries) }
    ensures range { (state : State) (line : Line) (to : LoopState) (entries : List Entry) → AreTyped entries
        → after_entries (in_state state line Free) entries ≡ Some to
        → AreInRange (journal_events (in_state state line Free) entries) }
{}
