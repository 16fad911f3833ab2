//! What no clause says: the bytes of requests and answers, written out from docs/PROTOCOL.md, with signatures by
//! Python's hmac and hashlib; each end once.

ghost use Rattle.std.specs.Prelude.{◌<◌};

use crate::{HelperStatus, helper_main};
use std::alloc::{AllocError, Global};
use std::sync::Wait;
use std::test::Fail;
use world_ports::{MapFiles, MemPeer, SliceSource, VecSink};

/// HELLO of job 1 and a ticket of sixteen zeros.
const HELLO: &str = "0000001d0100000000000000010000001000000000000000000000000000000000";

/// SIGN, number 1, of "Hi There", by a secret of 20 bytes.
const SIGN_SHORT: &str =
    "000000b901000000000000000100000058000000186b657965642d736861323536406578616d706c652e636f6d000000201111111111111111111111111111111111111111111111111111111111111111000000140b0b0b0b0b0b0b0b0b0b0b0b0b0b0b0b0b0b0b0b00000040000000186b657965642d736861323536406578616d706c652e636f6d00000020111111111111111111111111111111111111111111111111111111111111111100000008486920546865726500000000";

/// The same by 32 bytes 21, with the blob of another key.
const SIGN_OTHER: &str =
    "000000c501000000000000000100000064000000186b657965642d736861323536406578616d706c652e636f6d00000020111111111111111111111111111111111111111111111111111111111111111100000020212121212121212121212121212121212121212121212121212121212121212100000040000000186b657965642d736861323536406578616d706c652e636f6d00000020121212121212121212121212121212121212121212121212121212121212121200000008486920546865726500000000";

/// The same with its own blob.
const SIGN: &str =
    "000000c501000000000000000100000064000000186b657965642d736861323536406578616d706c652e636f6d00000020111111111111111111111111111111111111111111111111111111111111111100000020212121212121212121212121212121212121212121212121212121212121212100000040000000186b657965642d736861323536406578616d706c652e636f6d00000020111111111111111111111111111111111111111111111111111111111111111100000008486920546865726500000000";

/// REFUSED, number 1.
const REFUSED: &str = "00000009660000000000000001";

/// SIGNED, number 1.
const SIGNED: &str =
    "0000004d65000000000000000100000040000000186b657965642d736861323536406578616d706c652e636f6d00000020d681060441dfd9307eaa8034533bf52862ab063045084cf7b00bd1622ab8b515";

/// A line of the data file: 32 bytes a1 and 32 bytes 31.
const HOST: &[u8] =
    b"a1a1a1a1a1a1a1a1a1a1a1a1a1a1a1a1a1a1a1a1a1a1a1a1a1a1a1a1a1a1a1a1 3131313131313131313131313131313131313131313131313131313131313131\n";

/// VERIFY, number 2, of 32 bytes c1 by that host.
const VERIFY: &str =
    "000000b502000000000000000200000040000000186b657965642d736861323536406578616d706c652e636f6d00000020a1a1a1a1a1a1a1a1a1a1a1a1a1a1a1a1a1a1a1a1a1a1a1a1a1a1a1a1a1a1a1a100000040000000186b657965642d736861323536406578616d706c652e636f6d00000020c7cc8869e58475aaf53e1f709e68f82b7303b530b9cd0b8a0c67e91fd0a323a900000020c1c1c1c1c1c1c1c1c1c1c1c1c1c1c1c1c1c1c1c1c1c1c1c1c1c1c1c1c1c1c1c1";

/// VERIFY, number 3, of 32 bytes c2 with the same signature.
const VERIFY_OTHER: &str =
    "000000b502000000000000000300000040000000186b657965642d736861323536406578616d706c652e636f6d00000020a1a1a1a1a1a1a1a1a1a1a1a1a1a1a1a1a1a1a1a1a1a1a1a1a1a1a1a1a1a1a1a100000040000000186b657965642d736861323536406578616d706c652e636f6d00000020c7cc8869e58475aaf53e1f709e68f82b7303b530b9cd0b8a0c67e91fd0a323a900000020c2c2c2c2c2c2c2c2c2c2c2c2c2c2c2c2c2c2c2c2c2c2c2c2c2c2c2c2c2c2c2c2";

/// TRUE, number 2.
const TRUE: &str = "00000009670000000000000002";

/// FALSE, number 3.
const FALSE: &str = "00000009680000000000000003";

/// CONFIRM, job 1, which is no request to a helper.
const CONFIRM: &str = "0000000f030000000000000001000000026f6b";

const TICKET: &str = "00000000000000000000000000000000";

const NONE: (u64, u64, u64) = (0, 0, 0);

// How a run ends, and what was sent. A read brings at most `cut` bytes; `failing` are the numbers, from 1, of the
// calls that fail: of files, of reads, of writes, and 0 for none.
fn told<R: Wait>(
    rt: &R,
    alloc: Global,
    words: &[&str],
    data_file: &[u8],
    stream: &[u8],
    cut: u32,
    failing: (u64, u64, u64),
) -> Result<(HelperStatus, Vec<u8>), AllocError>
    requires { 0 < cut }
{
    let words = texts(alloc, words)?;
    let file = (
        String::from_str(alloc, "hosts")?,
        Vec::from_slice(alloc, data_file)?,
    );
    let mut files = MapFiles::new(vec![in alloc; file]?, [failing.0].to_vec(alloc)?);
    let source = SliceSource::new(stream, cut, [failing.1].to_vec(alloc)?);
    let sink = VecSink::new(alloc, 4096, [failing.2].to_vec(alloc)?)?;
    let mut peer = MemPeer::new(source, sink);
    let status = helper_main(rt, alloc, &words, &mut files, &mut peer);
    let sent = Vec::from_slice(alloc, peer.written())?;
    Ok((status, sent))
}

fn texts(alloc: Global, words: &[&str]) -> Result<Vec<String>, AllocError> {
    let mut texts = Vec::new(alloc);
    'words: for word in words {
        texts.push(String::from_str(alloc, word)?)?;
    }
    Ok(texts)
}

// The bytes of these texts in hexadecimal, one after another.
fn bytes(alloc: Global, texts: &[&str]) -> Result<Vec<u8>, Fail> {
    let mut all = Vec::new(alloc);
    'texts: for text in texts {
        all.extend_from_slice(&hex::decode(alloc, *text)?)?;
    }
    Ok(all)
}

#[test]
fn requests_are_answered_however_they_are_cut(rt: HostRuntime) -> Result<(), Fail> {
    let alloc = rt.alloc();
    let stream = bytes(alloc, &[SIGN_SHORT, SIGN_OTHER, SIGN, VERIFY, VERIFY_OTHER])?;
    let wanted = bytes(alloc, &[HELLO, REFUSED, REFUSED, SIGNED, TRUE, FALSE])?;
    for cut in [1, 7, 4096] {
        let words = ["s", "1", TICKET, "hosts"];
        let (status, sent) = told(&rt, alloc, &words, HOST, &stream, cut, NONE)?;
        assert_eq!(rt; status, HelperStatus::Done, "in pieces of {cut}");
        assert!(rt; sent == wanted, "in pieces of {cut}");
    }
    Ok(())
}

#[test]
fn other_words_and_files_are_refused(rt: HostRuntime) -> Result<(), Fail> {
    let alloc = rt.alloc();
    for words in [["s", "01", TICKET], ["s", "+1", TICKET], ["s", "1", "00"]] {
        let (status, _) = told(&rt, alloc, &words, HOST, &[], 4096, NONE)?;
        assert_eq!(rt; status, HelperStatus::Usage, "of {words:?}");
    }
    let longer = vec![in alloc; 0; 1048577]?;
    let missing = told(
        &rt,
        alloc,
        &["s", "1", TICKET, "else"],
        HOST,
        &[],
        4096,
        NONE,
    )?;
    assert_eq!(rt; missing.0, HelperStatus::FileFault);
    let words = ["s", "1", TICKET, "hosts"];
    let failed = told(&rt, alloc, &words, HOST, &[], 4096, (1, 0, 0))?;
    assert_eq!(rt; failed.0, HelperStatus::FileFault);
    let long = told(&rt, alloc, &words, &longer, &[], 4096, NONE)?;
    assert_eq!(rt; long.0, HelperStatus::FileTooLong);
    let of_the_bound = told(&rt, alloc, &words, &longer[1..], &[], 4096, NONE)?;
    assert_eq!(rt; of_the_bound.0, HelperStatus::BadFile);
    let torn = told(&rt, alloc, &words, &HOST[..129], &[], 4096, NONE)?;
    assert_eq!(rt; torn.0, HelperStatus::BadFile);
    Ok(())
}

#[test]
fn each_end_of_a_talk_has_its_status(rt: HostRuntime) -> Result<(), Fail> {
    let alloc = rt.alloc();
    let sign = bytes(alloc, &[SIGN])?;
    let confirm = bytes(alloc, &[CONFIRM])?;
    let words = ["s", "1", TICKET];
    let bad = told(&rt, alloc, &words, HOST, &confirm, 4096, NONE)?;
    assert_eq!(rt; bad.0, HelperStatus::BadFrame);
    let above = told(&rt, alloc, &words, HOST, &[0, 16, 0, 1], 4096, NONE)?;
    assert_eq!(rt; above.0, HelperStatus::BadFrame);
    let of_the_bound = told(&rt, alloc, &words, HOST, &[0, 16, 0, 0], 4096, NONE)?;
    assert_eq!(rt; of_the_bound.0, HelperStatus::TornEnd);
    let unread = told(&rt, alloc, &words, HOST, &sign, 4096, (0, 2, 0))?;
    assert_eq!(rt; unread.0, HelperStatus::ReadFault);
    let unwritten = told(&rt, alloc, &words, HOST, &sign, 4096, (0, 0, 2))?;
    assert_eq!(rt; unwritten.0, HelperStatus::WriteFault);
    Ok(())
}
