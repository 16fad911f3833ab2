//! Tests of looking at frames and putting them, by the request for the list of identities.

use super::*;
use secret_buf::ScrubBuf;
use std::test::*;

/// A request for the list of identities (draft-miller-ssh-agent, "Requesting a list of keys"): the
/// number 11 alone.
const LIST_REQUEST: [u8; 5] = [0, 0, 0, 1, 11];

#[test]
fn a_list_request_is_whole_whatever_follows(rt: HostRuntime) {
    assert_eq!(rt; look(&LIST_REQUEST, 262144), Look::Whole { body: 1 });
    assert_eq!(rt;
        look(&[0, 0, 0, 1, 11, 0, 0], 262144),
        Look::Whole { body: 1 }
    );
}

#[test]
fn every_front_of_a_frame_is_unfinished(rt: HostRuntime) {
    for end in 0..5 {
        assert_eq!(rt; look(&LIST_REQUEST[..end], 262144), Look::More, "at {end}");
    }
}

#[test]
fn a_length_of_zero_or_above_the_limit_is_bad(rt: HostRuntime) {
    let cases = [
        ([0, 0, 0, 0], Look::Bad { announced: 0 }),
        ([0, 0, 0, 9], Look::Bad { announced: 9 }),
        ([0, 0, 0, 8], Look::More),
        (
            [9, 0, 0, 0],
            Look::Bad {
                announced: 150994944,
            },
        ),
        (
            [255, 255, 255, 255],
            Look::Bad {
                announced: 4294967295,
            },
        ),
    ];
    for (bytes, want) in cases {
        assert_eq!(rt; look(&bytes, 8), want, "at {bytes:?}");
    }
}

#[test]
fn a_put_frame_is_its_length_and_its_body(rt: HostRuntime) -> Result<(), Fail> {
    let mut out = ScrubBuf::new(rt.alloc());
    put_frame(&mut out, &[11])?;
    assert_eq!(rt; out.live(), LIST_REQUEST.as_slice());
    put_frame(&mut out, &[])?;
    out.consume(5);
    assert_eq!(rt; out.live(), [0, 0, 0, 0].as_slice());
    assert_eq!(rt; look(out.live(), 262144), Look::Bad { announced: 0 });
    Ok(())
}
