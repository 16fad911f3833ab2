//! What is signed with Ed25519 is accepted, in bytes.

ghost use Rattle.std.specs.Prelude.{◌≡◌, ℕ, List, true};
ghost use Rattle.ed25519.specs.Keys.{public_key};
ghost use Rattle.ed25519.specs.Signatures.{signature};
ghost use Rattle.ed25519.specs.Verification.{accepts};

/// The signature of a message by a seed is accepted as one of this message, of the seed's public key.
pub fn what_is_signed_is_accepted()
    ensures { (seed message : List ℕ) → accepts (public_key seed) message (signature seed message) ≡ true }
{}
