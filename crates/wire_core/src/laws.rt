//! Laws of specs/Fields.antt: what is put and what is taken are the same.

ghost use Rattle.std.specs.Prelude.{◌≡◌, ℕ, ◌^◌, ◌<◌, Bool, List, ◌++◌, length, Some};
ghost use Rattle.wire_text.specs.Wire.{IsBytes, boolean, uint32, uint64, string};
ghost use Rattle.wire_core.specs.Fields.{boolean_at, uint32_at, uint64_at, string_at};

/// What was put is taken, whatever follows it.
pub fn what_was_put_is_taken()
    ensures boolean { (value : Bool) (rest : List ℕ)
        → boolean_at (boolean value ++ rest) ≡ Some (value, rest) }
    ensures uint32 { (value : ℕ) (rest : List ℕ) → value < 2 ^ 32
        → uint32_at (uint32 value ++ rest) ≡ Some (value, rest) }
    ensures uint64 { (value : ℕ) (rest : List ℕ) → value < 2 ^ 64
        → uint64_at (uint64 value ++ rest) ≡ Some (value, rest) }
    ensures string { (text rest : List ℕ) → length text < 2 ^ 32
        → string_at (string text ++ rest) ≡ Some (text, rest) }
{}

/// What is taken from bytes stood in front of what is left, as it is put.
pub fn what_is_taken_stood_in_front()
    ensures uint32 { (bytes : List ℕ) (value : ℕ) (rest : List ℕ) → IsBytes bytes
        → uint32_at bytes ≡ Some (value, rest)
        → (bytes ≡ uint32 value ++ rest) × (value < 2 ^ 32) }
    ensures uint64 { (bytes : List ℕ) (value : ℕ) (rest : List ℕ) → IsBytes bytes
        → uint64_at bytes ≡ Some (value, rest)
        → (bytes ≡ uint64 value ++ rest) × (value < 2 ^ 64) }
    ensures string { (bytes text rest : List ℕ) → IsBytes bytes
        → string_at bytes ≡ Some (text, rest)
        → (bytes ≡ string text ++ rest) × (length text < 2 ^ 32) }
{}
