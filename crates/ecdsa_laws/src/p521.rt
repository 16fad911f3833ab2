//! What is signed with ECDSA over P-521 verifies, in numbers and in bytes.

ghost use Rattle.std.specs.Prelude.{◌≡◌, ℕ, List, Some, true};
ghost use Rattle.sha2.specs.Sha512.{sha512};
ghost use Rattle.p521_curve.specs.declared.point.Point.{Point as APoint};
ghost use Rattle.p521_curve.specs.Points.{base_x, base_y};
ghost use Rattle.p521_ecdsa.specs.Keys.{in_range, public_key};
ghost use Rattle.p521_ecdsa.specs.Signatures.{is_usable, signature, signed_with};
ghost use Rattle.p521_ecdsa.specs.Verification.{accepts, meets};
ghost use Rattle.curve_laws.specs.P521.{Affine, At, Infinity, IsGroupSum, StandsFor};
ghost use Rattle.group_laws.specs.Groups.{IsMultiple};

/// The r and s of a private key d, a hash's number e and a nonce k that is in range are in range where they are
/// usable, and meet the check of the public key [d]G, in any coordinates.
pub fn what_is_signed_verifies()
    ensures r { (d e k : ℕ) → is_usable (signed_with d e k) ≡ true → in_range (signed_with d e k).r ≡ true }
    ensures s { (d e k : ℕ) → is_usable (signed_with d e k) ≡ true → in_range (signed_with d e k).s ≡ true }
    ensures meets { (d e k : ℕ) (public_key : APoint) (z : Affine)
        → IsMultiple IsGroupSum Infinity (At base_x base_y) d z → StandsFor public_key z
        → in_range k ≡ true → is_usable (signed_with d e k) ≡ true
        → meets (Some public_key) e (signed_with d e k).r (signed_with d e k).s ≡ true }
{}

/// A signature by the private key d of a message's hash is accepted as one of this message, of the public key of d.
pub fn what_is_signed_is_accepted()
    ensures { (d : ℕ) (message bytes : List ℕ) → in_range d ≡ true
        → signature d (sha512 message) ≡ Some bytes → accepts (public_key d) message bytes ≡ true }
{}
