//! Literal rows, each a law that is proved by computing.
#![tactic(auto, unfolding(wire_text::specs::Wire::uint32, wire_text::specs::Wire::string, wire_text::specs::Wire::announced_len, wire_core::specs::Fields::uint32_at, wire_core::specs::Fields::string_len, wire_core::specs::Fields::string_at, crate::specs::AddedKeys::blob_fields_at, crate::specs::AddedKeys::blob_at, crate::specs::AddedKeys::private_at, crate::specs::KeyTypes::form_named, crate::specs::Reading::field_at, crate::specs::Reading::fields_at, crate::specs::Reading::after_fields, crate::specs::Reading::form_at))]

ghost use Rattle.std.specs.Prelude.{◌≡◌, [], ◌∷◌, ◌++◌, codes, replicate, Ok, Err};
ghost use Rattle.wire_text.specs.Wire.{string};
ghost use Rattle.key_blob.specs.AddedKeys.{private_from};
ghost use Rattle.key_blob.specs.KeyTypes.{number};
ghost use Rattle.key_blob.specs.Reading.{checked};
ghost use Rattle.key_blob.specs.declared.fault.KeyFault.TheVariants.{BadLength};

/// A number of 2048 bytes is taken, with a zero in front or not, and one of more is a bad length.
pub fn a_number_of_2048_bytes_is_taken()
    ensures taken { checked number (replicate 2048 255, 7 ∷ []) ≡ Ok (replicate 2048 255, 7 ∷ []) }
    ensures behind_zero { checked number (0 ∷ replicate 2048 255, 7 ∷ []) ≡ Ok (0 ∷ replicate 2048 255, 7 ∷ []) }
    ensures refused { checked number (replicate 2049 1, 7 ∷ []) ≡ Err BadLength }
{}

/// Where the private fields of additions start: behind the type and the public fields.
pub fn private_fields_stand_behind_the_public()
    ensures ed25519 { private_from (string (codes "ssh-ed25519") ++ string (replicate 32 1) ++ string (replicate 64 2)) ≡ 51 }
    ensures rsa { private_from (string (codes "ssh-rsa") ++ string (3 ∷ 1 ∷ []) ++ string (5 ∷ []) ++ string (2 ∷ [])
        ++ string (4 ∷ []) ++ string (6 ∷ []) ++ string (7 ∷ [])) ≡ 22 }
    ensures ecdsa { private_from (string (codes "ecdsa-sha2-nistp256") ++ string (codes "nistp256") ++ string (4 ∷ 1 ∷ [])
        ++ string (9 ∷ [])) ≡ 41 }
{}
