//! The helper that signs, over a connection and a helper behind in memory: one signature is made here, and one
//! with a key of another type behind. The frames are written out from docs/PROTOCOL.md; key, message and signature are
//! TEST 2 of RFC 8032, section 7.1.

use helper_core::{HelperStatus, ListBehind};
use plain_lists::Bytes;
use signer_keys::{SignerKeys, signer_main};
use std::alloc::{AllocError, Global};
use std::test::Fail;
use world_ports::{MemPeer, SliceSource, VecSink};

/// HELLO of job 1 and a ticket of sixteen zeros.
const HELLO: &str = "0000001d0100000000000000010000001000000000000000000000000000000000";

/// SIGN, number 1, of the message 72.
const SIGN: &str =
    "000000c4010000000000000001000000770000000b7373682d65643235353139000000203d4017c3e843895a92b70aa74d1b7ebc9c982ccf2ec4968cc0cd55f12af4660c000000404ccd089b28ff96da9db6c346ec114e0f5b8a319f35aba624da8cf6ed4fb8a6fb3d4017c3e843895a92b70aa74d1b7ebc9c982ccf2ec4968cc0cd55f12af4660c000000330000000b7373682d65643235353139000000203d4017c3e843895a92b70aa74d1b7ebc9c982ccf2ec4968cc0cd55f12af4660c000000017200000000";

/// SIGNED, number 1.
const SIGNED: &str =
    "00000060650000000000000001000000530000000b7373682d656432353531390000004092a009a9f0d4cab8720e820b5f642540a2b27b5416503f8fb3762223ebdb69da085ac1e43e15996e458f3613d0f11d8c387b2eaeb4302aeeb00d291612bb0c00";

/// The body of SIGN, number 2, with a key of the type keyed-sha256@example.com, and its length in a frame.
const SIGN_OTHER: &str =
    "01000000000000000200000064000000186b657965642d736861323536406578616d706c652e636f6d00000020111111111111111111111111111111111111111111111111111111111111111100000020212121212121212121212121212121212121212121212121212121212121212100000040000000186b657965642d736861323536406578616d706c652e636f6d00000020111111111111111111111111111111111111111111111111111111111111111100000008486920546865726500000000";

const LENGTH_OF_OTHER: &str = "000000c5";

/// The body of SIGNED, number 2, by 32 bytes 31, and its length in a frame.
const REPLY: &str =
    "65000000000000000200000040000000186b657965642d736861323536406578616d706c652e636f6d000000203131313131313131313131313131313131313131313131313131313131313131";

const LENGTH_OF_REPLY: &str = "0000004d";

/// The body of SIGNED, number 1, by 32 bytes 31.
const REPLY_TO_ANOTHER: &str =
    "65000000000000000100000040000000186b657965642d736861323536406578616d706c652e636f6d000000203131313131313131313131313131313131313131313131313131313131313131";

/// VERIFY, number 3, of that signature.
const VERIFY: &str =
    "0000009c020000000000000003000000330000000b7373682d65643235353139000000203d4017c3e843895a92b70aa74d1b7ebc9c982ccf2ec4968cc0cd55f12af4660c000000530000000b7373682d656432353531390000004092a009a9f0d4cab8720e820b5f642540a2b27b5416503f8fb3762223ebdb69da085ac1e43e15996e458f3613d0f11d8c387b2eaeb4302aeeb00d291612bb0c000000000172";

/// REFUSED, number 2.
const REFUSED: &str = "00000009660000000000000002";

/// TRUE, number 3.
const TRUE: &str = "00000009670000000000000003";

const TICKET: &str = "00000000000000000000000000000000";

// The bytes of these texts in hexadecimal, one after another.
fn bytes(alloc: Global, texts: &[&str]) -> Result<Vec<u8>, Fail> {
    let mut all = Vec::new(alloc);
    'texts: for text in texts {
        all.extend_from_slice(&hex::decode(alloc, *text)?)?;
    }
    Ok(all)
}

fn words(alloc: Global) -> Result<Vec<String>, AllocError> {
    let mut words = Vec::new(alloc);
    'words: for word in ["-", "1", TICKET, "behind"] {
        words.push(String::from_str(alloc, word)?)?;
    }
    Ok(words)
}

#[test]
fn a_known_key_signs_here_and_another_behind(rt: HostRuntime) -> Result<(), Fail> {
    let alloc = rt.alloc();
    let keys = SignerKeys::new(alloc);
    let words = words(alloc)?;
    let stream = bytes(alloc, &[SIGN, LENGTH_OF_OTHER, SIGN_OTHER, VERIFY])?;
    let request = bytes(alloc, &[SIGN_OTHER])?;
    let handed_back = bytes(alloc, &[HELLO, SIGNED, LENGTH_OF_REPLY, REPLY, TRUE])?;
    // A reply counts only under the request's own number.
    let refused = bytes(alloc, &[HELLO, SIGNED, REFUSED, TRUE])?;
    for (reply, wanted) in [(REPLY, &handed_back), (REPLY_TO_ANOTHER, &refused)] {
        let reply = Bytes::from_vec(bytes(alloc, &[reply])?);
        let mut behind = ListBehind::new(alloc, vec![in alloc; Some(reply)]?);
        let source = SliceSource::new(&stream, 4096, Vec::new(alloc));
        let sink = VecSink::new(alloc, 4096, Vec::new(alloc))?;
        let mut peer = MemPeer::new(source, sink);
        let status = signer_main(&rt, alloc, &words, &keys, &mut behind, &mut peer);
        assert_eq!(rt; status, HelperStatus::Done);
        assert!(rt; peer.written() == wanted.as_slice());
        assert_eq!(rt; behind.made().len(), 1);
        for exchange in behind.made() {
            assert!(rt; exchange.request.as_slice() == request.as_slice());
        }
    }
    Ok(())
}
