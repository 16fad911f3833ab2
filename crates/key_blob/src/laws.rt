//! Laws of keys, beside the readers.

ghost use Rattle.std.specs.Prelude.{◌≡◌, ◌↔◌, ℕ, ◌^◌, ◌<◌, ◌≤◌, List, ◌++◌, length, None};
ghost use Rattle.wire_text.specs.Wire.{IsBytes, string};
ghost use Rattle.key_blob.specs.declared.added.AddedKey.{AddedKey};
ghost use Rattle.key_blob.specs.AddedKeys.{IsAddedKey};
ghost use Rattle.key_blob.specs.Digits.{HasDigits, number_of};
ghost use Rattle.key_blob.specs.KeySizes.{bits_of};
ghost use Rattle.key_blob.specs.KeyTypes.{key_type, number};
ghost use Rattle.key_blob.specs.PublicKeys.{IsPublicKey, KeyParts};
ghost use Rattle.key_blob.specs.Reading.{IsContent};

/// A blob is that of one key.
pub fn a_blob_is_one_key()
    ensures { (blob : List ℕ) (a b : KeyParts) → IsPublicKey blob a → IsPublicKey blob b → a ≡ b }
{}

/// No addition begins another, and each is that of one key.
pub fn no_addition_begins_another()
    ensures { (a b : AddedKey) (s t : List ℕ) → IsAddedKey a → IsAddedKey b
        → a.private ++ s ≡ b.private ++ t → (a ≡ b) × (s ≡ t) }
{}

/// The blob of an added key is that of a public key, and no longer than the addition.
pub fn an_addition_has_a_public_key()
    ensures public { (key : AddedKey) → IsAddedKey key
        → (parts : KeyParts) × IsPublicKey key.blob parts }
    ensures no_longer { (key : AddedKey) → IsAddedKey key
        → length key.blob ≤ length key.private }
{}

/// An addition may have a number exactly where it is below 2 to the 16384, with zeros in front or not.
pub fn a_number_of_an_addition_has_at_most_16384_digits()
    ensures { (content : List ℕ) → IsBytes content
        → IsContent number content ↔ (number_of content < 2 ^ 16384) }
{}

/// The size of a key whose type doesn't tell it, an RSA key with the exponent `e` and the modulus
/// `n`, is the number of the binary digits of `n`, of which a number has one.
pub fn a_size_is_the_digits_of_the_modulus()
    ensures digits { (key : KeyParts) (e n rest : List ℕ) → (key_type key.kind).bits ≡ None
        → key.fields ≡ string e ++ (string n ++ rest) → length e < 2 ^ 32 → length n < 2 ^ 32
        → IsBytes n → HasDigits (number_of n) (bits_of key) }
    ensures unique { (number a b : ℕ) → HasDigits number a → HasDigits number b → a ≡ b }
{}
