//! Laws of key files, beside the readers.

ghost use Rattle.std.specs.Prelude.{◌≡◌, ◌↔◌, ◌^◌, ◌<◌, List, ℕ, length, Ok, Some};
ghost use Rattle.wire_text.specs.Wire.{IsBytes};
ghost use Rattle.key_file.specs.declared.private_part.KeyFile.{KeyFile};
ghost use Rattle.key_file.specs.Base64.{IsBase64, bytes_of, without_blanks};
ghost use Rattle.key_file.specs.Bodies.{IsBody, IsBodyText, IsWritable, body_bytes};
ghost use Rattle.key_file.specs.BodyReading.{body_of, file_of};
ghost use Rattle.key_file.specs.PublicLines.{IsPublicLine, line_key};

/// A text is read as base64 exactly where it is that of some bytes, and as these: bits that are
/// left over in its last character are zero, and `=` fills the last four characters.
pub fn base64_is_read_exactly()
    ensures { (text bytes : List ℕ) → IsBytes text
        → (bytes_of text ≡ Some bytes) ↔ IsBase64 text bytes }
{}

/// What the reading of a body gives is what the bytes hold, and each such is given.
pub fn a_reading_is_a_body()
    ensures { (bytes : List ℕ) (file : KeyFile) → IsBytes bytes
        → (body_of bytes ≡ Ok file) ↔ IsBody bytes file }
{}

/// What the reading of a text gives is what it holds, and each such is given.
pub fn a_reading_is_a_text()
    ensures { (text : List ℕ) (file : KeyFile) → IsBytes text
        → (file_of text ≡ Ok file) ↔ IsBodyText text file }
{}

/// A body that holds a key and a comment is that key and comment, written again under its check
/// number: nothing else of it is free.
pub fn a_body_is_written_again()
    ensures { (bytes : List ℕ) (file : KeyFile) → IsBody bytes file
        → (check : ℕ) × (check < 2 ^ 32) × IsWritable file × (bytes ≡ body_bytes check file) }
{}

/// A key and a comment that can be written are read again, under any check number.
pub fn a_written_body_is_read()
    ensures { (file : KeyFile) (check : ℕ) → check < 2 ^ 32 → IsWritable file
        → body_of (body_bytes check file) ≡ Ok file }
{}

/// Blanks change nothing, wherever they stand.
pub fn blanks_change_nothing()
    ensures { (text other : List ℕ) → without_blanks text ≡ without_blanks other
        → file_of text ≡ file_of other }
{}

/// What the reading of a public key's line gives is its key, and each such is given.
pub fn a_reading_is_a_line()
    ensures { (text blob : List ℕ) → IsBytes text
        → (line_key text ≡ Ok blob) ↔ IsPublicLine text blob }
{}
