//! The line of a public key.

ghost use Rattle.std.specs.Prelude.{◌≡◌, ◌≢◌, ◌⊎◌, ℕ, List, [], ◌∷◌, IfOk, MatchOption, MatchResult, Ok, Err};
ghost use Rattle.key_blob.specs.declared.fault.KeyFault.TheVariants.{Memory as NoMemory};
ghost use Rattle.key_file.specs.declared.fault.PubFault.TheVariants.{Key, Memory};
ghost use Rattle.key_file.specs.PublicLines.{IsTyped, IsPublicLine, typed_key, parts, line_key};

use crate::encoding::decoded;
use crate::fault::PubFault;
use key_blob::read_public;
use std::alloc::Global;

#[tactic(auto, unfolding(crate::specs::PublicLines::typed_key))]
fn typed_in(alloc: Global, type_name: &[u8], text: &[u8]) -> Result<Vec<u8>, PubFault>
    ensures { MatchResult result (λ blob. typed_key type_name.now text.now ≡ Ok blob.items)
        (λ fault. (fault ≡ Memory) ⊎ (typed_key type_name.now text.now ≡ Err fault)) }
{
    let Some(blob) = decoded(alloc, text)? else {
        return Err(PubFault::Base64);
    };
    if read_public(&blob)?.type_name != type_name {
        return Err(PubFault::OtherType);
    }
    Ok(blob)
}

/// Reads the blob of a public key or a certificate whose type has this name, from its base64.
pub fn read_typed(alloc: Global, type_name: &[u8], text: &[u8]) -> Result<Vec<u8>, PubFault>
    // What is read is the blob of a key of the type.
    ensures found { IfOk result (λ blob. IsTyped type_name.now text.now blob.items) }

    // The blob of a key of the type is read, unless memory runs out.
    ensures only { (blob : List ℕ) → IsTyped type_name.now text.now blob →
        MatchResult result (λ read. read.items ≡ blob) (λ fault. fault ≡ Memory) }

    // Which fault it is.
    ensures exact { MatchResult result (λ blob. typed_key type_name.now text.now ≡ Ok blob.items)
        (λ fault. (fault ≡ Memory) ⊎ (typed_key type_name.now text.now ≡ Err fault)) }
    ensures own_memory { result ≢ Err (Key NoMemory) }
{
    typed_in(alloc, type_name, text)
}

/// The bytes in front of the first `mark`, and those behind it where there is one.
fn cut(text: &[u8], mark: u8) -> (&[u8], Option<&[u8]>)
    ensures { MatchOption result.1 (parts mark text.now ≡ result.0.now ∷ [])
        (λ rest. parts mark text.now ≡ result.0.now ∷ parts mark rest.now) }
{
    match text.iter().position(|byte| *byte == mark) {
        Some(end) => (&text[..end], Some(&text[end + 1..])),
        None => (text, None),
    }
}

#[tactic(auto, unfolding(crate::specs::PublicLines::line_key))]
fn key_in(alloc: Global, text: &[u8]) -> Result<Vec<u8>, PubFault>
    ensures { MatchResult result (λ blob. line_key text.now ≡ Ok blob.items)
        (λ fault. (fault ≡ Memory) ⊎ (line_key text.now ≡ Err fault)) }
{
    let (line, _) = cut(text, b'\n');
    let (type_name, Some(rest)) = cut(line, b' ') else {
        return Err(PubFault::Words);
    };
    let (encoded, _) = cut(rest, b' ');
    read_typed(alloc, type_name, encoded)
}

/// Reads the blob of the public key whose line `text` begins with: type, base64 and a comment, with
/// single spaces between them. The comment isn't read.
pub fn read_pub_line(alloc: Global, text: &[u8]) -> Result<Vec<u8>, PubFault>
    // What is read is the key of the first line.
    ensures found { IfOk result (λ blob. IsPublicLine text.now blob.items) }

    // The key of a line is read, unless memory runs out.
    ensures only { (blob : List ℕ) → IsPublicLine text.now blob →
        MatchResult result (λ read. read.items ≡ blob) (λ fault. fault ≡ Memory) }

    // Which fault it is.
    ensures exact { MatchResult result (λ blob. line_key text.now ≡ Ok blob.items)
        (λ fault. (fault ≡ Memory) ⊎ (line_key text.now ≡ Err fault)) }
    ensures own_memory { result ≢ Err (Key NoMemory) }
{
    key_in(alloc, text)
}
