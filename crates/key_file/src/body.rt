//! The body of a private key's file.

ghost use Rattle.std.specs.Prelude.{◌≡◌, ◌≢◌, ◌≤◌, length, take, IfOk, MatchOption, MatchResult, Err, Some, None};
ghost use Rattle.base64.specs.Decode.{decoded_estimate};
ghost use Rattle.key_blob.specs.declared.fault.KeyFault.TheVariants.{Memory as NoMemory};
ghost use Rattle.key_file.specs.declared.fault.KeyFileFault.TheVariants.{Key, Memory};
ghost use Rattle.key_file.specs.declared.private_part.KeyFile.{KeyFile};
ghost use Rattle.key_file.specs.Base64.{bytes_of};
ghost use Rattle.key_file.specs.Bodies.{IsBodyText};
ghost use Rattle.key_file.specs.BodyReading.{IsAnswer, body_of, encoded_file, file_of};

use crate::encoding::unblanked;
use crate::fault::KeyFileFault;
use crate::fields::{take_blocks, take_count, take_magic, take_text};
use crate::private_part::{KeyFile, read_private};
use base64::decoded_len_estimate;
use base64::engine::general_purpose::STANDARD;
use std::alloc::Global;
use wiped_bytes::WipedBytes;
use wire_core::Cursor;

/// The key and the comment of a body that was decoded.
#[tactic(auto, unfolding(crate::specs::BodyReading::body_of))]
fn file_in(alloc: Global, body: &[u8]) -> Result<KeyFile, KeyFileFault>
    ensures { IsAnswer result (body_of body.now) }
{
    let mut from = Cursor::new(body);
    take_magic(&mut from)?;
    take_text(&mut from, b"none")?;
    take_text(&mut from, b"none")?;
    take_text(&mut from, b"")?;
    take_count(&mut from)?;
    let blob = from.take_string()?;
    let part = take_blocks(&mut from)?;
    if !from.at_end() {
        return Err(KeyFileFault::Trailing);
    }
    let file = read_private(alloc, part)?;
    if file.key.blob.as_slice() != blob {
        return Err(KeyFileFault::OtherKey);
    }
    Ok(file)
}

/// Writes the bytes whose base64 `text` is over the first ones, and gives their number. Where it is
/// that of none, some of the bytes may be written over too.
#[tactic(auto, unfolding(crate::specs::Base64::bytes_of))]
fn decode(text: &[u8], bytes: &mut WipedBytes) -> Option<usize>
    requires { decoded_estimate (length text.now) ≤ length bytes.old }
    ensures value { MatchOption result (bytes_of text.now ≡ None)
        (λ count. bytes_of text.now ≡ Some (take count bytes.new)) }
    ensures within { MatchOption result (Unit {0}) (λ count. count ≤ length bytes.new) }
{
    STANDARD
        .decode_slice_unchecked(text, bytes.as_mut_slice())
        .ok()
}

/// The key and the comment of a body in base64, without blanks.
#[tactic(auto, unfolding(crate::specs::BodyReading::encoded_file))]
fn encoded(alloc: Global, text: &[u8]) -> Result<KeyFile, KeyFileFault>
    ensures { IsAnswer result (encoded_file text.now) }
{
    let mut body = WipedBytes::zeros(alloc, decoded_len_estimate(text.len()))?;
    match decode(text, &mut body) {
        Some(count) => file_in(alloc, &body.as_slice()[..count]),
        None => Err(KeyFileFault::Base64),
    }
}

/// Reads the text between the armour lines of a private key's file that isn't encrypted and holds
/// one key (OpenSSH's PROTOCOL.key): base64, with spaces, TABs, CRs and LFs anywhere.
///
/// What the text holds passes through memory that is wiped before it is given back.
pub fn read_body(alloc: Global, text: &[u8]) -> Result<KeyFile, KeyFileFault>
    // What is read is what the text holds.
    ensures found { IfOk result (λ file. IsBodyText text.now file) }

    // What a text holds is read, unless memory runs out.
    ensures only { (file : KeyFile) → IsBodyText text.now file →
        MatchResult result (λ read. read ≡ file) (λ fault. fault ≡ Memory) }

    // Which fault it is.
    ensures exact { IsAnswer result (file_of text.now) }
    ensures own_memory { result ≢ Err (Key NoMemory) }
{
    let kept = unblanked(alloc, text)?;
    encoded(alloc, kept.live())
}
