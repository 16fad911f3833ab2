//! What a recorder tells of a client's bytes.

ghost use Rattle.std.specs.Prelude.{◌≡◌, ◌++◌, ◌<◌, ◌^◌, ℕ, List, length};
ghost use Rattle.record_world.specs.Recording.{Port, taken};
ghost use Rattle.replay_laws.specs.Naming.{IsFrontOf, Keeps, name_in};
ghost use Rattle.replay_laws.specs.Redacting.{IsRenaming};
ghost use Rattle.replay_laws.specs.Telling.{told_bytes};

/// What a recorder tells of a client's piece is what is told of all its bytes with the piece,
/// behind what was told of them before, in whatever pieces they come; and it keeps what it needs
/// for the next one. Its numbers of passphrases rename them one to one.
pub fn a_recorder_tells_what_was_sent()
    ensures told { (heard piece : List ℕ) (port : Port) (early all : List (List ℕ))
        → Keeps heard port → IsFrontOf (taken port piece early).passphrases all
        → told_bytes (name_in all) (heard ++ piece)
        ≡ told_bytes (name_in all) heard ++ (taken port piece early).bytes }
    ensures keeps { (heard piece : List ℕ) (port : Port) (early : List (List ℕ))
        → Keeps heard port → Keeps (heard ++ piece) (taken port piece early).port }
    ensures names { (all : List (List ℕ)) → length all < 2 ^ 64 → IsRenaming (name_in all) }
{}
