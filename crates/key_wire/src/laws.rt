//! Laws of the definitions: what is read is what the grammar has, and as nothing else.

ghost use Rattle.std.specs.Prelude.{◌≡◌, ◌↔◌, ℕ, List, ◌++◌, length, Ok};
ghost use Rattle.key_wire.specs.Closings.{Seal, seal_at, sealed};
ghost use Rattle.key_wire.specs.Grammar.{IsClosing};
ghost use Rattle.key_wire.specs.Numbers.{IsMagnitude, IsSecretMpint, magnitude, secret_magnitude, signed};
ghost use Rattle.wire_text.specs.Wire.{IsBytes, string};

/// The bytes behind a certified key are read with the seal that closes them, and with no other.
pub fn a_certificate_is_closed_exactly()
    ensures { (bytes : List ℕ) (seal : Seal) → IsBytes bytes → (seal_at bytes ≡ Ok seal) ↔ IsClosing bytes seal }
{}

/// What an authority signs is all of the certificate but its signature.
pub fn a_seal_is_over_the_rest()
    ensures { (front bytes : List ℕ) (seal : Seal) → IsClosing bytes seal
        → front ++ bytes ≡ sealed (front ++ bytes) seal ++ string seal.signature }
{}

/// A number is read from its mpint alone: a public one from the shortest, a private one behind any zeros.
pub fn a_number_is_read_exactly()
    ensures public { (text bytes : List ℕ) → (magnitude text ≡ Ok bytes)
        ↔ (IsMagnitude bytes × (text ≡ signed bytes)) }
    ensures secret { (text bytes : List ℕ) → (secret_magnitude text ≡ Ok bytes) ↔ IsSecretMpint text bytes }
{}
