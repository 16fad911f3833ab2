//! Laws of what is signed, beside the reader.

ghost use Rattle.std.specs.Prelude.{◌≡◌, ◌↔◌, ◌^◌, ◌<◌, List, ℕ, length, Ok};
ghost use Rattle.wire_text.specs.Wire.{IsBytes};
ghost use Rattle.userauth_blob.specs.Logins.{IsLogin};
ghost use Rattle.userauth_blob.specs.UserAuths.{Login};
ghost use Rattle.sshsig_blob.specs.FileSignatures.{Signing, IsSshsig};
ghost use Rattle.sshsig_blob.specs.Reading.{signing_of};

/// What the reading of bytes gives is signed for a file, and each such is given.
pub fn a_reading_is_an_sshsig()
    ensures { (message : List ℕ) (signed : Signing) → IsBytes message
        → (signing_of message ≡ Ok signed) ↔ IsSshsig message signed }
{}

/// A message is signed in one namespace, for one digest.
pub fn a_message_is_in_one_namespace()
    ensures { (message : List ℕ) (signed other : Signing) → IsSshsig message signed
        → IsSshsig message other → signed ≡ other }
{}

/// No message of less than 2^30 bytes is signed both for a login, by any blob of its key, and for a file: the first four
/// letters of `SSHSIG` would be the length of a session identifier, which is longer.
pub fn a_login_is_no_sshsig()
    ensures { (message blob : List ℕ) (auth : Login) (signed : Signing) → length message < 2 ^ 30
        → IsLogin message blob auth → IsSshsig message signed → ⊥ }
{}
