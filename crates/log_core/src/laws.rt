//! Laws of a record's log.

ghost use Rattle.std.specs.Prelude.{◌≡◌, ◌++◌, ℕ, List, [], length, map};
ghost use Rattle.agent_model.specs.Events.{Timed};
ghost use Rattle.agent_model.specs.Runs.{history};
ghost use Rattle.agent_model.specs.State.{Settings, first_state};
ghost use Rattle.audit_core.specs.Puts.{puts};
ghost use Rattle.audit_core.specs.Reports.{Agrees, verdict_of};
ghost use Rattle.audit_core.specs.declared.put.Put.{Put as Listed};
ghost use Rattle.log_core.specs.Logs.{requests_of, sights_of};
ghost use Rattle.log_core.specs.Lines.{whole_lines};
ghost use Rattle.log_laws.specs.Tellings.{TellsEnds};
ghost use Rattle.log_laws.specs.Puts.{counted, put_seen};
ghost use Rattle.log_laws.specs.Reads.{reads_of, told_of_client};
ghost use Rattle.log_laws.specs.Sights.{run_sights, told_in};
ghost use Rattle.log_laws.specs.Whys.{PutsWhatWasRead};
ghost use Rattle.replay_run.specs.Replay.{events_of, settings_of};

/// What is seen of a schedule is what is seen of the abstract agent over its events, so the signing requests of a
/// record's log are those of that run. The laws of log_laws say of it that the requests which are seen to be put to the
/// helper, and those about which the user is seen to be asked, are those of the run's history. And of each client the
/// requests of the log are the requests for signatures that the history says were read of it, each once and in their
/// order, with the second, the key and the message. And they stand in the order of the run's events: of each event
/// those that it ends, with what came of them by the history (signed, refused before it was put to the helper, by the
/// helper or where that was lost, or left by the client) and whether the user was asked, and behind them those that
/// wait. What was put for a client since its last request is what that request asks for, behind each front of the run.
pub fn a_log_is_of_the_records_run()
    ensures seen { (settings : Settings) (text : List ℕ) → sights_of settings text
        ≡ run_sights (first_state (settings_of settings text)) (events_of settings text) }
    ensures told { (settings : Settings) (text : List ℕ) → requests_of settings text
        ≡ told_in (first_state (settings_of settings (whole_lines text))) (events_of settings (whole_lines text)) }
    ensures read { (settings : Settings) (text : List ℕ) (port : ℕ)
        → told_of_client port (requests_of settings text)
        ≡ reads_of port (history (first_state (settings_of settings (whole_lines text)))
        (events_of settings (whole_lines text))) }
    ensures came { (settings : Settings) (text : List ℕ)
        → TellsEnds [] (first_state (settings_of settings (whole_lines text)))
        (events_of settings (whole_lines text)) (requests_of settings text) }
    ensures put { (settings : Settings) (text : List ℕ) (before later : List Timed)
        → before ++ later ≡ events_of settings (whole_lines text)
        → PutsWhatWasRead (settings_of settings (whole_lines text)) before }
{}

/// A log and an audit tell of the same requests: what is seen of a schedule to be put to the helper is what an audit of
/// it lists, for the same clients and in the same order. So of a record without a cut line, for which an audit says yes,
/// a log sees as many put as that yes counts.
pub fn a_log_sees_what_an_audit_lists()
    ensures ports { (settings : Settings) (text : List ℕ) → counted put_seen (sights_of settings text)
        ≡ map (λ (put : Listed). put.port) (puts settings text) }
    ensures number { (settings : Settings) (text deeds : List ℕ) (listed : List Listed)
        → whole_lines text ≡ text → verdict_of settings text deeds ≡ Agrees listed
        → length (counted put_seen (sights_of settings (whole_lines text))) ≡ length listed }
{}
