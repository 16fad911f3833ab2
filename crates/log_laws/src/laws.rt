//! Laws of what is seen of a run.

ghost use Rattle.std.specs.Prelude.{List};
ghost use Rattle.world_ports.specs.declared.Moment.{Moment as AMoment};
ghost use Rattle.agent_model.specs.Events.{Happening, Timed};
ghost use Rattle.agent_model.specs.State.{Settings, State};
ghost use Rattle.log_laws.specs.Tellings.{TellsWhatCame};
ghost use Rattle.log_laws.specs.Puts.{SeesPuts, SeesRaises};
ghost use Rattle.log_laws.specs.Raised.{RaisesItsOwn};
ghost use Rattle.log_laws.specs.Reads.{TellsWhatIsRead};
ghost use Rattle.log_laws.specs.Whys.{PutsWhatWasRead};

/// In whatever state and at whatever moment an event comes, the user is asked about a request only of the client that
/// the event is of, and exactly where the event began a job to ask him.
pub fn an_event_asks_about_its_own_client()
    ensures { (state : State) (moment : AMoment) (event : Happening) → RaisesItsOwn state moment event }
{}

/// The signing requests that are seen to be put to the helper in a run are those that its history puts, for the same
/// clients and in the same order: each once, and no other.
pub fn what_is_put_is_seen()
    ensures { (state : State) (events : List Timed) → SeesPuts state events }
{}

/// The same of the requests about which the user is asked.
pub fn what_is_asked_is_seen()
    ensures { (state : State) (events : List Timed) → SeesRaises state events }
{}

/// Whatever happened, each ask that was put to the helper for a client since its last request is for what that request
/// asks for: at once, or behind the user's consent, for a signature of that message by the key of that blob with those
/// flags.
pub fn what_is_put_was_read()
    ensures { (settings : Settings) (events : List Timed) → PutsWhatWasRead settings events }
{}

/// Of each client the requests for signatures that are told in a run are those that the agent read of it, each once and
/// in the order in which it read them, with the second of the reading, the key and the message.
pub fn what_is_told_was_read()
    ensures { (settings : Settings) (events : List Timed) → TellsWhatIsRead settings events }
{}

/// The requests for signatures that are told in a run stand in the order of its events: of each event those that it
/// ends, of each client and no other, and behind them those that wait in the end. Of each is told what came of it by
/// the run's history: it was signed where the helper answered its ask with a signature and the client took that,
/// refused where the client took another reply, and left where its port ended before. A refusal says that the request
/// was put to the helper exactly where it was; and that the user was asked is told exactly where he was. A refusal of
/// what was put says that the helper was lost exactly where it was, behind the ask and before the client took the
/// refusal, whatever it had answered before; else the helper had answered the ask. So far as the agent counts losses.
pub fn what_is_told_is_what_came()
    ensures { (settings : Settings) (events : List Timed) → TellsWhatCame settings events }
{}
