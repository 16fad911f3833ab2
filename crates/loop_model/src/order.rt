//! Laws of the order in which things are served.

ghost use Rattle.std.specs.Prelude.{◌≡◌, ◌++◌, ◌∷◌, [], ℕ, List, None, Option, Some, false, true};
ghost use Rattle.std.specs.List.{list_any};
ghost use Rattle.std.specs.Option.{option_map_or};
ghost use Rattle.world_ports.specs.declared.entry.Entry.{Entry};
ghost use Rattle.world_ports.specs.declared.events.Moment.{Moment};
ghost use Rattle.loop_model.specs.Aside.{things_aside};
ghost use Rattle.loop_model.specs.Things.{same_thing, set_of};
ghost use Rattle.loop_model.specs.declared.thing.Thing.{Thing};
ghost use Rattle.loop_model.specs.Dues.{is_free};
ghost use Rattle.loop_model.specs.Fairness.{GoesRound, KeepsOrder, is_service, starts_first, waits_on};
ghost use Rattle.loop_model.specs.LegalJournal.{LoopState, after_entries, after_if_legal};
ghost use Rattle.agent_model.specs.Events.{Happening};
ghost use Rattle.agent_model.specs.Sound.{IsRising};
ghost use Rattle.agent_model.specs.State.{State, starts};
ghost use Rattle.agent_model.specs.Step.{step};
ghost use Rattle.loop_model.specs.Lines.{IsListed, IsOrdered, IsQuiet, Line, after_event};
ghost use Rattle.loop_model.specs.Queues.{AreApart, dropped, is_next};
ghost use Rattle.loop_model.specs.Servable.{has_job, is_servable};

/// What the list holds can be served, and what is set aside can't be, where that was so before, as when a run begins.
pub fn the_list_holds_what_can_be_served()
    ensures ordered { (from to : LoopState) (entries : List Entry) → after_entries from entries ≡ Some to
        → IsOrdered from.state from.line → IsOrdered to.state to.line }
    ensures quiet { (from to : LoopState) (entries : List Entry) → after_entries from entries ≡ Some to
        → IsQuiet from.state from.line → IsQuiet to.state to.line }
{}

/// What stood in the list before an event, what was served, and what was set aside stands in the list after it where it
/// can be served then. The numbers of the open ports rise in every state that events lead to.
pub fn nothing_that_is_ready_is_lost()
    ensures listed { (left : State) (closes : List ℕ) (own : Option ℕ) (hand : Option Thing)
        (line : Line) (thing : Thing) → set_of line.queue thing ≡ true → is_servable left thing ≡ true
        → set_of (after_event left closes own hand line).queue thing ≡ true }
    ensures served { (left : State) (closes : List ℕ) (own : Option ℕ) (line : Line) (thing : Thing)
        → is_servable left thing ≡ true
        → set_of (after_event left closes own (Some thing) line).queue thing ≡ true }
    ensures aside { (state : State) (moment : Moment) (event : Happening) (own : Option ℕ)
        (hand : Option Thing) (line : Line) (thing : Thing) → IsRising 0 state.last_port state.ports
        → set_of (things_aside line.aside) thing ≡ true
        → is_servable (step state moment event).state thing ≡ true
        → set_of (after_event (step state moment event).state (step state moment event).closes
        own hand line).queue thing ≡ true }
{}

/// Between two services of one thing each other thing was served that was ready and could be served all the while.
pub fn all_wait_their_turn()
    ensures { (from to : LoopState) (thing other : Thing) (first last : Entry) (between : List Entry)
        → IsQuiet from.state from.line → after_entries from (first ∷ (between ++ last ∷ [])) ≡ Some to
        → is_service thing first ≡ true → is_service thing last ≡ true → same_thing thing other ≡ false
        → option_map_or (λ after. waits_on other after between) (after_if_legal from first) true ≡ true
        → list_any (is_service other) between ≡ true }
{}

/// Where a job waits to be started and any call may come, the next call starts the first of the jobs that wait.
pub fn a_job_is_started_first()
    ensures { (reading after : LoopState) (next : Entry) → is_free reading.due ≡ true
        → has_job (starts reading.state) ≡ true → after_if_legal reading next ≡ Some after
        → starts_first (starts reading.state) next ≡ true }
{}

/// After an event that came of a thing's service: those of the others that can be served yet keep their order, before
/// all that the event lets be served, and what was served stands last where it can be served. So it is where the event
/// ended the port of what was served, so that it can't be, and of all that stand in the list where nothing was served.
pub fn the_list_goes_round()
    ensures round { (left : State) (closes : List ℕ) (own : Option ℕ) (line : Line) (thing : Thing)
        (before : List Thing) → before ≡ thing ∷ line.queue
        → GoesRound thing before (after_event left closes own (Some thing) line).queue }
    ensures ended { (left : State) (closes : List ℕ) (own : Option ℕ) (line : Line) (thing : Thing)
        (before : List Thing) → before ≡ thing ∷ line.queue → is_servable left thing ≡ false
        → GoesRound thing before (after_event left closes own None line).queue }
    ensures alone { (left : State) (closes : List ℕ) (own : Option ℕ) (line : Line)
        → KeepsOrder line.queue (after_event left closes own None line).queue }
    ensures first { (state : State) (thing : Thing) (queue : List Thing) → IsListed state queue
        → AreApart queue → is_next state queue thing ≡ true → queue ≡ thing ∷ dropped thing queue }
{}
