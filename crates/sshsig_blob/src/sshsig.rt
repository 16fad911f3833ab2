//! The signed data, whole.

ghost use Rattle.std.specs.Prelude.{◌≡◌, IfOk, IsOkAnd, MatchResult, Ok, Err};
ghost use Rattle.sshsig_blob.specs.FileSignatures.{Signing, signing, IsSshsig};
ghost use Rattle.sshsig_blob.specs.Reading.{signing_of};
ghost use Rattle.wire_core.specs.Readings.{IsAnswer};

use crate::fault::SshsigFault;
use crate::fields::{fields_of, take_digest, take_hash, take_namespace};
use wire_core::Cursor;

/// What a key signs for a file, in the message that it borrows from.
#[derive(Clone, Copy, Debug, PartialEq, Eq)]
pub struct SignedData<'a> {
    /// What the signature is for, as `git` or `file`; not empty.
    pub namespace: &'a [u8],
    /// Kept for later versions of the format; any bytes.
    pub reserved: &'a [u8],
    /// `sha256` or `sha512`.
    pub hash_algorithm: &'a [u8],
    /// The file's digest by this algorithm: 32 bytes, or 64.
    pub digest: &'a [u8],
}

#[tactic(auto, unfolding(crate::specs::Reading::signing_of))]
fn signed_data(message: &[u8]) -> Result<SignedData<'_>, SshsigFault>
    ensures { IsAnswer signing result (signing_of message.now) }
{
    let mut from = Cursor::new(fields_of(message)?);
    let namespace = take_namespace(&mut from)?;
    let reserved = from.take_string()?;
    let (hash_algorithm, len) = take_hash(&mut from)?;
    let digest = take_digest(&mut from, len)?;
    if !from.at_end() {
        return Err(SshsigFault::Trailing);
    }
    Ok(SignedData {
        namespace,
        reserved,
        hash_algorithm,
        digest,
    })
}

/// What `message`, all of its bytes, has a key sign for a file.
///
/// Takes no memory. OpenSSH's PROTOCOL.sshsig, "Signed Data, of which the signature goes into the
/// blob above".
pub fn read_sshsig(message: &[u8]) -> Result<SignedData<'_>, SshsigFault>
    // What is read is the signed data of a file's signature.
    ensures found { IfOk result (λ lent. IsSshsig message.now (signing lent)) }

    // The signed data of a file's signature is read.
    ensures only { (signed : Signing) → IsSshsig message.now signed
        → IsOkAnd result (λ lent. signing lent ≡ signed) }

    // Which fault it is.
    ensures exact { IsAnswer signing result (signing_of message.now) }
{
    signed_data(message)
}
