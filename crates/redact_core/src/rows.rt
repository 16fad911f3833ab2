//! Literal rows, each a law that is proved by computing.
#![tactic(auto, unfolding(wire_text::specs::Wire::uint32, wire_text::specs::Wire::uint64, wire_text::specs::Wire::string, wire_text::specs::Wire::announced_len, wire_core::specs::Fields::uint32_at, wire_core::specs::Fields::uint64_at, wire_core::specs::Fields::string_len, wire_core::specs::Fields::string_at, key_blob::specs::AddedKeys::blob_fields_at, key_blob::specs::AddedKeys::certificate_blob_at, key_blob::specs::AddedKeys::blob_at, key_blob::specs::AddedKeys::added_key_at, key_blob::specs::AddedKeys::private_at, key_blob::specs::Certificates::names_at, key_blob::specs::Certificates::holder_at, key_blob::specs::Certificates::times_at, key_blob::specs::Certificates::signer_at, key_blob::specs::Certificates::certificate_at, key_blob::specs::KeyTypes::form_named, key_blob::specs::Principals::are_strings_up_to, key_blob::specs::Principals::are_strings, key_blob::specs::PublicKeys::public_key_of, key_blob::specs::Reading::field_at, key_blob::specs::Reading::fields_at, key_blob::specs::Reading::after_fields, key_blob::specs::Reading::form_at, constraint_rec::specs::Constraints::restrict_destination, constraint_rec::specs::Constraints::uses_name, constraint_rec::specs::Reading::kind_at, constraint_rec::specs::Reading::contents_at, constraint_rec::specs::Reading::next_at, constraint_rec::specs::Reading::terms_up_to, constraint_rec::specs::Reading::terms_of, agent_msg::specs::Reading::request_of_number, agent_msg::specs::Reading::request_of, agent_msg::specs::Requests::session_bind))]

ghost use Rattle.std.specs.Prelude.{◌≡◌, [], ◌∷◌, ◌++◌, codes};
ghost use Rattle.wire_text.specs.Wire.{string};
ghost use Rattle.redact_core.specs.Redaction.{redacted, redacted_all};
ghost use Rattle.redact_core.specs.Rows.{card, certified, ed25519, left, lock, nine, old_key, rsa, stand_in, three, unlock};

/// An addition has zeros for its private fields; the public ones, the comment and the constraints
/// stay.
pub fn additions_are_blanked()
    ensures ed25519 { (redacted (17 ∷ ed25519 7) []).body ≡ 17 ∷ ed25519 0 }
    ensures stand_in { (redacted (17 ∷ stand_in 7) []).body ≡ 17 ∷ stand_in 0 }
    ensures rsa { (redacted (17 ∷ rsa 7) []).body ≡ 17 ∷ rsa 0 }
    ensures constrained { (redacted (25 ∷ (stand_in 7 ++ 2 ∷ [])) []).body
        ≡ 25 ∷ (stand_in 0 ++ 2 ∷ []) }
    ensures kept { (redacted (17 ∷ ed25519 7) (codes "a" ∷ [])).passphrases ≡ codes "a" ∷ [] }
{}

/// So has one with a certificate.
pub fn certified_additions_are_blanked()
    ensures certified { (redacted (17 ∷ certified 7) []).body ≡ 17 ∷ certified 0 }
{}

/// A passphrase is the number under which it first came, in a lock or in an unlock.
pub fn passphrases_are_numbered()
    ensures first { redacted (lock (codes "pw")) []
        ≡ left (lock (codes "1")) (codes "pw" ∷ []) }
    ensures again { redacted (unlock (codes "pw")) (codes "pw" ∷ [])
        ≡ left (unlock (codes "1")) (codes "pw" ∷ []) }
    ensures other { redacted (unlock (codes "no")) (codes "pw" ∷ [])
        ≡ left (unlock (codes "2")) (codes "pw" ∷ codes "no" ∷ []) }
    ensures tenth { (redacted (lock (codes "j")) nine).body ≡ lock (codes "10") }
    ensures empty { redacted (lock []) (codes "pw" ∷ []) ≡ left (lock []) (codes "pw" ∷ []) }
    ensures in_turn { (redacted_all three []).body
        ≡ string (lock (codes "1")) ++ string (unlock (codes "2")) ++ string (unlock (codes "1")) }
{}

/// A body of a number that isn't served is its number: those with a PIN, the old ones with a private key or a challenge,
/// and any other.
pub fn what_is_not_served_is_its_number()
    ensures card { redacted (20 ∷ card) [] ≡ left (20 ∷ []) [] }
    ensures removed_card { redacted (21 ∷ card) [] ≡ left (21 ∷ []) [] }
    ensures constrained_card { redacted (26 ∷ (card ++ 1 ∷ 0 ∷ 0 ∷ 0 ∷ 60 ∷ [])) [] ≡ left (26 ∷ []) [] }
    ensures old_addition { redacted (7 ∷ old_key) [] ≡ left (7 ∷ []) [] }
    ensures old_constrained { redacted (24 ∷ (old_key ++ 2 ∷ [])) [] ≡ left (24 ∷ []) [] }
    ensures old_challenge { redacted (3 ∷ old_key) [] ≡ left (3 ∷ []) [] }
    ensures other { redacted (255 ∷ 1 ∷ []) (codes "pw" ∷ []) ≡ left (255 ∷ []) (codes "pw" ∷ []) }
    ensures bare { redacted (20 ∷ []) [] ≡ left (20 ∷ []) [] }
{}

/// An addition, a lock or an unlock that isn't read is its number; every other body of a number that is served stays.
pub fn other_bodies_stay()
    ensures trailing { redacted (lock (codes "pw") ++ 0 ∷ []) [] ≡ left (22 ∷ []) [] }
    ensures short { redacted (23 ∷ 0 ∷ 0 ∷ 0 ∷ 9 ∷ codes "pw") [] ≡ left (23 ∷ []) [] }
    ensures addition { (redacted (17 ∷ (ed25519 7 ++ 0 ∷ [])) []).body ≡ 17 ∷ [] }
    ensures constraint { (redacted (25 ∷ (stand_in 7 ++ 99 ∷ [])) []).body ≡ 25 ∷ [] }
    ensures list { (redacted (11 ∷ codes "x") []).body ≡ 11 ∷ codes "x" }
    ensures sign { (redacted (13 ∷ 0 ∷ []) []).body ≡ 13 ∷ 0 ∷ [] }
    ensures remove { (redacted (18 ∷ string (codes "blob")) []).body ≡ 18 ∷ string (codes "blob") }
    ensures extension { (redacted (27 ∷ string (codes "query")) []).body ≡ 27 ∷ string (codes "query") }
    ensures nothing { (redacted [] []).body ≡ [] }
{}
