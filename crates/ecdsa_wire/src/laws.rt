//! Laws of specs/Reading.antt.

ghost use Rattle.std.specs.Prelude.{◌≡◌, ◌↔◌, ℕ, List, Ok, Some};
ghost use Rattle.ecdsa_wire.specs.declared.names.Curve.{Curve};
ghost use Rattle.ecdsa_wire.specs.declared.names.KeyType.TheVariants.{Certified, Plain};
ghost use Rattle.ecdsa_wire.specs.Grammar.{IsPair, IsSignature};
ghost use Rattle.ecdsa_wire.specs.Names.{type_named};
ghost use Rattle.ecdsa_wire.specs.Reading.{KeyPair, SignatureNumbers, certified_point_at, pair_in, pair_public, public_in, signature_in};
ghost use Rattle.wire_core.specs.Fields.{string_at};
ghost use Rattle.wire_text.specs.Wire.{IsBytes};

/// A private string and a blob are read as the pair of which they are a key's, and as no other.
pub fn keys_are_read_exactly()
    ensures { (private blob : List ℕ) (pair : KeyPair) → IsBytes private → IsBytes blob
        → (pair_in private blob ≡ Ok pair) ↔ IsPair private blob pair }
{}

/// The public key of a pair is the one that its blob is read with by itself.
pub fn a_pair_has_the_key_of_its_blob()
    ensures plain { (private blob : List ℕ) (name : List ℕ × List ℕ) (curve : Curve) (pair : KeyPair)
        → string_at blob ≡ Some name → type_named name.0 ≡ Some (Plain curve)
        → pair_in private blob ≡ Ok pair → public_in blob ≡ Ok (pair_public pair) }
    ensures certified { (private blob : List ℕ) (name : List ℕ × List ℕ) (curve : Curve) (pair : KeyPair)
        → string_at blob ≡ Some name → type_named name.0 ≡ Some (Certified curve)
        → pair_in private blob ≡ Ok pair
        → (behind : List ℕ) × (certified_point_at pair.curve name.1 ≡ Ok (pair.point, behind)) }
{}

/// A signature is read as the two numbers that it carries, and as no others.
pub fn signatures_are_read_exactly()
    ensures { (curve : Curve) (text : List ℕ) (numbers : SignatureNumbers) → IsBytes text
        → (signature_in curve text ≡ Ok numbers) ↔ IsSignature curve text numbers }
{}
