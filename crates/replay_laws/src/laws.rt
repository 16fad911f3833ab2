//! The law of records.

ghost use Rattle.replay_laws.specs.Replaying.{EachReplays};

/// The record of a run is the same run again: its events fit, and after each event of the run both
/// have the same open ports, the same bytes owed to every client, the same jobs to be started and
/// the same count of lost helpers.
pub fn replays()
    ensures replays { EachReplays }
{}
