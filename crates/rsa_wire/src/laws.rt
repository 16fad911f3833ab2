//! Laws of specs/Reading.antt.

ghost use Rattle.std.specs.Prelude.{◌≡◌, ◌↔◌, ℕ, List, Ok, Some};
ghost use Rattle.rsa_wire.specs.declared.names.KeyType.TheVariants.{Certified, Plain};
ghost use Rattle.rsa_wire.specs.Grammar.{IsPair, IsSignature};
ghost use Rattle.rsa_wire.specs.Names.{type_named};
ghost use Rattle.rsa_wire.specs.Reading.{KeyPair, SignatureBytes, certified_public_at, pair_in, public_in, signature_in};
ghost use Rattle.wire_core.specs.Fields.{string_at};
ghost use Rattle.wire_text.specs.Wire.{IsBytes};

/// A private string and a blob are read as the pair of which they are a key's, and as no other.
pub fn keys_are_read_exactly()
    ensures { (private blob : List ℕ) (pair : KeyPair) → IsBytes private → IsBytes blob
        → (pair_in private blob ≡ Ok pair) ↔ IsPair private blob pair }
{}

/// The public key of a pair is the one that its blob is read with by itself.
pub fn a_pair_has_the_key_of_its_blob()
    ensures plain { (private blob : List ℕ) (name : List ℕ × List ℕ) (pair : KeyPair)
        → string_at blob ≡ Some name → type_named name.0 ≡ Some Plain
        → pair_in private blob ≡ Ok pair → public_in blob ≡ Ok pair.public }
    ensures certified { (private blob : List ℕ) (name : List ℕ × List ℕ) (pair : KeyPair)
        → string_at blob ≡ Some name → type_named name.0 ≡ Some Certified
        → pair_in private blob ≡ Ok pair
        → (behind : List ℕ) × (certified_public_at name.1 ≡ Ok (pair.public, behind)) }
{}

/// A signature is read as the algorithm and the bytes that it carries, and as no others.
pub fn signatures_are_read_exactly()
    ensures { (text : List ℕ) (signature : SignatureBytes) → IsBytes text
        → (signature_in text ≡ Ok signature) ↔ IsSignature text signature }
{}
