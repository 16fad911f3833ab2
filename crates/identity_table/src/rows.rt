//! Examples, written out, of the room that identities take.

ghost use Rattle.std.specs.Prelude.{◌≡◌, ◌≤◌, ◌+◌, ◌*◌, true, false, [], ◌∷◌, codes, replicate};
ghost use Rattle.identity_table.specs.Identities.{HeldKey, answer_len, hop_len, is_full, kept_by, max_answer};

/// A hop takes its user, its host eight times and its keys, and 64 bytes for itself and for each key.
pub fn a_hop_is_counted_to_the_byte()
    ensures origin { hop_len (record { user = []; host = []; keys = [] }) ≡ 64 }
    ensures host { hop_len (record {
      user = codes "ab";
      host = codes "web";
      keys = record { blob = codes "12345"; authority = false }
          ∷ record { blob = []; authority = true } ∷ [];
    }) ≡ 64 + 2 + 8 * 3 + 64 + 5 + 64 }
{}

/// 32 identities that take 262144 bytes each fill the table, and one byte more is too much.
pub fn a_table_has_room_for_8_mib()
    ensures fits { (key : HeldKey) → kept_by key ≡ 262144
        → answer_len (replicate 32 key) ≤ max_answer → is_full (replicate 32 key) ≡ false }
    ensures above { (key one : HeldKey) → kept_by key ≡ 262144 → kept_by one ≡ 1
        → is_full (one ∷ replicate 32 key) ≡ true }
{}
