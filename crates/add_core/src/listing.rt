//! The lists that `-l` and `-L` write: an identity a line, as fingerprint or as public key.

ghost use Rattle.std.specs.Prelude.{◌≡◌, ◌++◌, ℕ, List, Some, OnOk, map, codes, decimal};
ghost use Rattle.add_core.specs.Listings.{columns, identity_line, key_line, lines_of, list_reply, list_step, listed};
ghost use Rattle.add_core.specs.Steps.{Follows, HasPeerCause, HasSinkCause, IsOfOutput, IsOfTalk};
ghost use Rattle.agent_msg.specs.ReplyReading.{lent, reply_of};
ghost use Rattle.key_blob.specs.Fingerprints.{fingerprint_of};
ghost use Rattle.key_blob.specs.KeySizes.{bits_of};
ghost use Rattle.key_blob.specs.KeyTypes.{type_of};
ghost use Rattle.key_blob.specs.PublicKeys.{form_of, parts_of};
ghost use Rattle.world_ports.specs.Streams.{StreamView};

use crate::exchange::exchange;
use crate::fault::{AddFault, Stop};
use agent_msg::{Reply, ReplyFault, Request, read_reply, write_request};
use base64::engine::general_purpose::STANDARD;
use itoa::Buffer;
use key_blob::{PublicKey, bits, fingerprint, read_public, type_word};
use secret_buf::ScrubBuf;
use std::alloc::{AllocError, Global};
use world_ports::{Sink, Source, write_all};

/// How identities are listed.
#[derive(Clone, Copy, Debug, PartialEq, Eq)]
pub enum Listing {
    /// By size, fingerprint, comment and type.
    Fingerprints,
    /// By type, public key and comment.
    Keys,
}

/// Appends three texts with single spaces between them.
fn put_columns(
    out: &mut Vec<u8>,
    first: &[u8],
    second: &[u8],
    third: &[u8],
) -> Result<(), AllocError>
    ensures { OnOk result (out.new.items
        ≡ out.old.items ++ columns first.now second.now third.now) }
{
    out.extend_from_slice(first)?;
    out.extend_from_slice(b" ")?;
    out.extend_from_slice(second)?;
    out.extend_from_slice(b" ")?;
    out.extend_from_slice(third)
}

/// Appends a key type's word, and ends the line.
fn put_type(out: &mut Vec<u8>, word: &[u8]) -> Result<(), AllocError>
    ensures { OnOk result (out.new.items
        ≡ out.old.items ++ (codes " (" ++ (word.now ++ codes ")\n"))) }
{
    out.extend_from_slice(b" (")?;
    out.extend_from_slice(word)?;
    out.extend_from_slice(b")\n")
}

fn put_fingerprint(
    alloc: Global,
    out: &mut Vec<u8>,
    key: &PublicKey<'_>,
    comment: &[u8],
) -> Result<(), AllocError>
    ensures { OnOk result (out.new.items ≡ out.old.items
        ++ (columns (decimal (bits_of (parts_of key.now))) (fingerprint_of (parts_of key.now)) comment.now
        ++ (codes " (" ++ ((type_of (form_of (parts_of key.now))).word ++ codes ")\n")))) }
{
    let mut digits = Buffer::new();
    let bits = digits.format(bits(key)).as_bytes();
    let fingerprint = fingerprint(alloc, key)?;
    put_columns(out, bits, fingerprint.as_bytes(), comment)?;
    put_type(out, type_word(key).as_bytes())
}

fn put_key(
    alloc: Global,
    out: &mut Vec<u8>,
    key: &PublicKey<'_>,
    blob: &[u8],
    comment: &[u8],
) -> Result<(), AllocError>
    ensures { OnOk result (out.new.items ≡ out.old.items
        ++ key_line Listing.Keys (parts_of key.now) (blob.now, comment.now)) }
{
    let encoded = STANDARD.encode(alloc, blob)?;
    put_columns(out, key.type_name, encoded.as_bytes(), comment)?;
    out.extend_from_slice(b"\n")
}

/// Appends the line of an identity, where its blob is read.
fn put_identity(
    alloc: Global,
    out: &mut Vec<u8>,
    listing: Listing,
    blob: &[u8],
    comment: &[u8],
) -> Result<(), AllocError>
    ensures { OnOk result (out.new.items
        ≡ out.old.items ++ identity_line listing (blob.now, comment.now)) }
{
    let Ok(key) = read_public(blob) else {
        return Ok(());
    };
    match listing {
        Listing::Fingerprints => put_fingerprint(alloc, out, &key, comment),
        Listing::Keys => put_key(alloc, out, &key, blob, comment),
    }
}

fn put_identities(
    alloc: Global,
    out: &mut Vec<u8>,
    listing: Listing,
    identities: &[(&[u8], &[u8])],
) -> Result<(), AllocError>
    ensures { OnOk result (out.new.items
        ≡ out.old.items ++ lines_of listing (map lent identities.now)) }
{
    'identities: for identity in identities {
        put_identity(alloc, out, listing, identity.0, identity.1)?;
    }
    Ok(())
}

/// Writes the identities, or that there are none.
fn write_identities<O: Sink>(
    alloc: Global,
    output: &mut O,
    listing: Listing,
    identities: &[(&[u8], &[u8])],
) -> Result<(), Stop>
    ensures told { (left : List ℕ) (peer : StreamView) → peer.left ≡ Some left
        → Follows result (listed listing (map lent identities.now) left)
        peer peer (O.seen output.old) (O.seen output.new) }
    ensures cause { HasSinkCause result (O.seen output.old) (O.seen output.new) }
    ensures own { IsOfOutput result }
{
    if identities.is_empty() {
        write_all(output, b"The agent has no identities.\n")?;
        return Err(Stop::Fault(AddFault::NoIdentities));
    }
    let mut text = Vec::new(alloc);
    put_identities(alloc, &mut text, listing, identities)?;
    write_all(output, &text)?;
    Ok(())
}

/// Writes what the reply of this body says.
fn write_reply<O: Sink>(
    alloc: Global,
    output: &mut O,
    listing: Listing,
    body: &[u8],
) -> Result<(), Stop>
    ensures told { (left : List ℕ) (peer : StreamView) → peer.left ≡ Some left
        → Follows result (list_reply listing (reply_of body.now) left)
        peer peer (O.seen output.old) (O.seen output.new) }
    ensures cause { HasSinkCause result (O.seen output.old) (O.seen output.new) }
    ensures own { IsOfOutput result }
{
    match read_reply(alloc, body) {
        Ok(Reply::Identities(identities)) => {
            write_identities(alloc, output, listing, &identities)
        }
        Ok(Reply::Failure) => Err(Stop::Fault(AddFault::Refused)),
        Err(ReplyFault::Memory) => Err(Stop::Memory),
        _ => Err(Stop::Fault(AddFault::BadReply)),
    }
}

/// Asks for the identities, and writes them.
pub fn list<P: Source + Sink, O: Sink>(
    alloc: Global,
    peer: &mut P,
    output: &mut O,
    listing: Listing,
) -> Result<(), Stop>
    ensures told { (replies : List ℕ) → (P.seen peer.old).left ≡ Some replies
        → Follows result (list_step listing replies)
        (P.seen peer.old) (P.seen peer.new) (O.seen output.old) (O.seen output.new) }
    ensures peer { HasPeerCause result (P.seen peer.old) (P.seen peer.new) }
    ensures output { HasSinkCause result (O.seen output.old) (O.seen output.new) }
    ensures talk { IsOfTalk result }
{
    let mut frame = ScrubBuf::new(alloc);
    write_request(alloc, &mut frame, &Request::List)?;
    let body = exchange(alloc, peer, frame.live())?;
    write_reply(alloc, output, listing, &body)
}
