//! What no clause says: the bytes of requests and verdicts, written out from docs/PROTOCOL.md; each end once.

ghost use Rattle.std.specs.Prelude.{◌<◌};

use crate::{RelayStatus, relay_main, verdict};
use plain_lists::Bytes;
use std::alloc::{AllocError, Global};
use std::test::Fail;
use world_ports::{ListSpawner, MemPeer, Ran, SliceSource, VecSink};

const TICKET: &str = "00000000000000000000000000000000";

/// HELLO of job 1 and a ticket of sixteen zeros.
const HELLO: [u8; 33] = [
    0, 0, 0, 29, 1, 0, 0, 0, 0, 0, 0, 0, 1, 0, 0, 0, 16, 0, 0, 0, 0, 0, 0, 0, 0, 0, 0, 0, 0, 0, 0,
    0, 0,
];

/// CONFIRM, job 1, with the prompt "ok".
const CONFIRM: [u8; 19] = [
    0, 0, 0, 15, 3, 0, 0, 0, 0, 0, 0, 0, 1, 0, 0, 0, 2, b'o', b'k',
];

/// GRANTED and DENIED, job 1.
const GRANTED: [u8; 13] = [0, 0, 0, 9, 105, 0, 0, 0, 0, 0, 0, 0, 1];

const DENIED: [u8; 13] = [0, 0, 0, 9, 106, 0, 0, 0, 0, 0, 0, 0, 1];

const NONE: (u64, u64, u64) = (0, 0, 0);

fn texts(alloc: Global, words: &[&str]) -> Result<Vec<String>, AllocError> {
    let mut texts = Vec::new(alloc);
    'words: for word in words {
        texts.push(String::from_str(alloc, word)?)?;
    }
    Ok(texts)
}

// How a relay of the words `s 1 TICKET ask` ends, and what it sent, where its runs end with 0 and
// `yes`. A read brings at most `cut` bytes; `failing` are the numbers, from 1, of the calls that fail: of runs, of
// reads, of writes, and 0 for none. Checks that the runs are so many, each of `ask` with the word `ok`.
fn told(
    alloc: Global,
    stream: &[u8],
    cut: u32,
    failing: (u64, u64, u64),
    runs: usize,
) -> Result<(RelayStatus, Vec<u8>), Fail>
    requires { 0 < cut }
{
    let words = texts(alloc, &["s", "1", TICKET, "ask"])?;
    let answer = Ran {
        status: 0,
        output: Bytes::from_vec(Vec::from_slice(alloc, b"yes")?),
    };
    let mut spawner = ListSpawner::new(alloc, vec![in alloc; answer]?, [failing.0].to_vec(alloc)?);
    let source = SliceSource::new(stream, cut, [failing.1].to_vec(alloc)?);
    let sink = VecSink::new(alloc, 4096, [failing.2].to_vec(alloc)?)?;
    let mut peer = MemPeer::new(source, sink);
    let status = relay_main(alloc, &words, &mut spawner, &mut peer);
    if spawner.made().len() != runs {
        return Err(Fail::from("another number of runs"));
    }
    for run in spawner.made() {
        if run.program.as_slice() != b"ask".as_slice() || run.word.as_slice() != b"ok".as_slice() {
            return Err(Fail::from("another run"));
        }
    }
    Ok((status, Vec::from_slice(alloc, peer.written())?))
}

#[test]
fn a_yes_is_status_0_and_yes_or_nothing(rt: HostRuntime) {
    assert!(rt; verdict(0, b""));
    assert!(rt; verdict(0, b"YES\n"));
    assert!(rt; !verdict(0, b"no"));
    assert!(rt; !verdict(1, b"yes"));
    assert!(rt; verdict(0, b"\nno"));
    assert!(rt; verdict(0, b"yEs\r\nno"));
    assert!(rt; !verdict(-1, b"yes"));
    assert!(rt; !verdict(0, b"yes please"));
}

#[test]
fn the_agent_is_told_what_the_user_said(rt: HostRuntime) -> Result<(), Fail> {
    let alloc = rt.alloc();
    let mut granted = Vec::from_slice(alloc, &HELLO)?;
    granted.extend_from_slice(&GRANTED)?;
    let mut denied = Vec::from_slice(alloc, &HELLO)?;
    denied.extend_from_slice(&DENIED)?;
    for cut in [1, 7, 4096] {
        let (status, sent) = told(alloc, &CONFIRM, cut, NONE, 1)?;
        assert_eq!(rt; status, RelayStatus::Done);
        assert!(rt; sent == granted);
    }
    let (status, sent) = told(alloc, &CONFIRM, 4096, (1, 0, 0), 1)?;
    assert_eq!(rt; status, RelayStatus::Done);
    assert!(rt; sent == denied);
    Ok(())
}

#[test]
fn each_end_has_its_status(rt: HostRuntime) -> Result<(), Fail> {
    let alloc = rt.alloc();
    let escape = [0, 0, 0, 14, 3, 0, 0, 0, 0, 0, 0, 0, 1, 0, 0, 0, 1, 27];
    assert_eq!(rt;
        told(alloc, &escape, 4096, NONE, 0)?.0,
        RelayStatus::BadFrame
    );
    let other = [
        0, 0, 0, 15, 3, 0, 0, 0, 0, 0, 0, 0, 2, 0, 0, 0, 2, b'o', b'k',
    ];
    assert_eq!(rt;
        told(alloc, &other, 4096, NONE, 0)?.0,
        RelayStatus::BadFrame
    );
    assert_eq!(rt;
        told(alloc, &[0, 16, 0, 1], 4096, NONE, 0)?.0,
        RelayStatus::BadFrame
    );
    assert_eq!(rt; told(alloc, &[], 4096, NONE, 0)?.0, RelayStatus::TornEnd);
    assert_eq!(rt;
        told(alloc, &CONFIRM[..18], 4096, NONE, 0)?.0,
        RelayStatus::TornEnd
    );
    assert_eq!(rt;
        told(alloc, &CONFIRM, 4096, (0, 1, 0), 0)?.0,
        RelayStatus::ReadFault
    );
    assert_eq!(rt;
        told(alloc, &CONFIRM, 4096, (0, 0, 1), 0)?.0,
        RelayStatus::WriteFault
    );
    assert_eq!(rt;
        told(alloc, &CONFIRM, 4096, (0, 0, 2), 1)?.0,
        RelayStatus::WriteFault
    );
    Ok(())
}
