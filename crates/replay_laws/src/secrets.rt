//! What a record hides.

ghost use Rattle.std.specs.Prelude.{◌≡◌, ℕ, List};
ghost use Rattle.world_ports.specs.declared.entry.Entry.{Entry};
ghost use Rattle.record_world.specs.Recording.{record_of};
ghost use Rattle.replay_laws.specs.AlikeJournals.{AreAlikeJournals};
ghost use Rattle.replay_laws.specs.AlikeRows.{doubled, lock_a, lock_aa, sending};
ghost use Rattle.replay_laws.specs.Redacting.{IsRenaming};

/// Journals that differ in the contents of private fields of added keys, and in which passphrases
/// lock and unlock, as long as the same ones are the same, have one record.
pub fn a_record_tells_no_secret()
    ensures { (rename : List ℕ → List ℕ) → IsRenaming rename → (one other : List Entry)
        → AreAlikeJournals rename one other → record_of one ≡ record_of other }
{}

/// Two such journals: a client locks with "a", or with "aa", where each byte stands twice in the
/// other names.
pub fn a_lock_has_another_name()
    ensures renaming { IsRenaming doubled }
    ensures alike { AreAlikeJournals doubled (sending lock_a) (sending lock_aa) }
{}
