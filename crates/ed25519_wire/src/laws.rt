//! Laws of specs/Reading.antt.

ghost use Rattle.std.specs.Prelude.{◌≡◌, ◌↔◌, ℕ, List, Ok, Some, true};
ghost use Rattle.ed25519_wire.specs.Grammar.{IsPair, IsSignature};
ghost use Rattle.ed25519_wire.specs.Names.{is_certified_name, is_plain_name};
ghost use Rattle.ed25519_wire.specs.Reading.{KeyPair, authority_key, certified_key_at, pair_in, signature_in};
ghost use Rattle.wire_core.specs.Fields.{string_at};
ghost use Rattle.wire_text.specs.Wire.{IsBytes};

/// A private string and a blob are read as the pair of which they are a key's, and as no other.
pub fn keys_are_read_exactly()
    ensures found { (private blob : List ℕ) (pair : KeyPair) → IsBytes private → IsBytes blob
        → pair_in private blob ≡ Ok pair → IsPair private blob pair }
    ensures only { (private blob : List ℕ) (pair : KeyPair)
        → IsPair private blob pair → pair_in private blob ≡ Ok pair }
{}

/// The public key of a pair is the one that its blob is read with by itself.
pub fn a_pair_has_the_key_of_its_blob()
    ensures plain { (private blob : List ℕ) (name : List ℕ × List ℕ) (pair : KeyPair)
        → string_at blob ≡ Some name → is_plain_name name.0 ≡ true
        → pair_in private blob ≡ Ok pair → authority_key blob ≡ Ok pair.public }
    ensures certified { (private blob : List ℕ) (name : List ℕ × List ℕ) (pair : KeyPair)
        → string_at blob ≡ Some name → is_certified_name name.0 ≡ true
        → pair_in private blob ≡ Ok pair
        → (behind : List ℕ) × (certified_key_at name.1 ≡ Ok (pair.public, behind)) }
{}

/// A signature is read as the 64 bytes that it carries, and as no others.
pub fn signatures_are_read_exactly()
    ensures { (text bytes : List ℕ) → IsBytes text → (signature_in text ≡ Ok bytes) ↔ IsSignature text bytes }
{}
