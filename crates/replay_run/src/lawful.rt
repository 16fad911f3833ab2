//! The law of history over the run of a schedule, and over that of a drill.

ghost use Rattle.std.specs.Prelude.{◌≡◌, ◌≤◌, ℕ, List, [], None, Option};
ghost use Rattle.agent_laws.specs.History.{HasNumbers, IsLawful};
ghost use Rattle.agent_model.specs.Runs as runs;
ghost use Rattle.agent_model.specs.State.{Settings, first_state, no_settings};
ghost use Rattle.agent_secrecy.specs.Pieces.{AreOfBytes};
ghost use Rattle.replay_run.specs.Drill.{agent_of, drilled};
ghost use Rattle.replay_run.specs.Replay.{events_of, run_of, settings_of};

/// The run of a schedule is that of the events which its lines and their settlings bring, each of which may come in the
/// state that it finds, and lets bytes be heard; and in it a signature is put to the helper exactly where the actions
/// before say so.
pub fn a_schedule_is_lawful()
    ensures run { (settings : Settings) (text : List ℕ)
        → (run_of settings text).agent ≡ runs.run (first_state (settings_of settings text)) (events_of settings text) }
    ensures lawful { (settings : Settings) (text : List ℕ) → HasNumbers (run_of settings text).agent
        → IsLawful settings.life [] (runs.history (first_state (settings_of settings text)) (events_of settings text)) }
    ensures fits { (settings : Settings) (text : List ℕ)
        → runs.AllFit (first_state (settings_of settings text)) (events_of settings text) }
    ensures bytes { (settings : Settings) (text : List ℕ) → AreOfBytes (events_of settings text) }
{}

/// The events of a drill may come in the states that they find, and let bytes be heard, and in their run a signature is
/// put to the helper exactly where the actions before say so.
pub fn a_drill_is_lawful()
    ensures lawful { (rounds seed : ℕ) → HasNumbers (agent_of (drilled rounds seed))
        → IsLawful None [] (runs.history (first_state no_settings) (drilled rounds seed).events) }
    ensures fits { (rounds seed : ℕ) → rounds ≤ 100000
        → runs.AllFit (first_state no_settings) (drilled rounds seed).events }
    ensures bytes { (rounds seed : ℕ) → rounds ≤ 100000 → AreOfBytes (drilled rounds seed).events }
{}
