//! Laws of what is signed, beside the readers.

ghost use Rattle.std.specs.Prelude.{◌≡◌, ◌↔◌, List, ℕ, Ok};
ghost use Rattle.wire_text.specs.Wire.{IsBytes};
ghost use Rattle.userauth_blob.specs.Logins.{IsLogin, IsSameKey, login_of};
ghost use Rattle.userauth_blob.specs.UserAuths.{Login, IsUserAuth};
ghost use Rattle.userauth_blob.specs.Reading.{auth_of};

/// What a reading of bytes gives is a login that they are signed for, and each such is given: by the very blob, and by
/// any blob of its key.
pub fn a_reading_is_a_login()
    ensures by_blob { (message blob : List ℕ) (auth : Login) → IsBytes message
        → (auth_of message blob ≡ Ok auth) ↔ IsUserAuth message blob auth }
    ensures by_key { (message blob : List ℕ) (auth : Login) → IsBytes message → IsBytes blob
        → (login_of message blob ≡ Ok auth) ↔ IsLogin message blob auth }
{}

/// What is signed for a login by its very blob is one by any blob of its key, and the same.
pub fn what_a_reader_of_its_own_blob_takes_is_a_login()
    ensures { (message blob : List ℕ) (auth : Login) → IsUserAuth message blob auth → IsLogin message blob auth }
{}

/// A message is signed by one key and for one login at most: by one blob, or by blobs of one key.
pub fn a_message_is_for_one_login()
    ensures by_blob { (message blob other_blob : List ℕ) (auth other : Login) → IsUserAuth message blob auth
        → IsUserAuth message other_blob other → (blob ≡ other_blob) × (auth ≡ other) }
    ensures by_key { (message blob other_blob : List ℕ) (auth other : Login) → IsLogin message blob auth
        → IsLogin message other_blob other → IsSameKey blob other_blob × (auth ≡ other) }
{}
