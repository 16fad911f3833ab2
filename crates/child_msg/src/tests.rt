//! Bodies written out byte by byte from the tables of docs/PROTOCOL.md, "Messages of child processes".

use super::*;
use secret_buf::ScrubBuf;
use std::test::Fail;

const SIGNED: [u8; 16] = [101, 0, 0, 0, 0, 0, 0, 0, 1, 0, 0, 0, 3, b's', b'i', b'g'];

#[test]
fn a_child_s_bodies_are_read(rt: HostRuntime) {
    let mut hello = [0; 29];
    hello[0] = 1;
    hello[8] = 7;
    hello[12] = 16;
    hello[28] = 9;
    let mut ticket = [0; 16];
    ticket[15] = 9;
    assert!(rt; read_from_child(&hello) == Ok(FromChild::Hello { job: 7, ticket }));
    let signature = b"sig".as_slice();
    assert!(rt; read_from_child(&SIGNED) == Ok(FromChild::Signed { ask: 1, signature }));
    let cases = [
        (102, FromChild::Refused { ask: 2 }),
        (103, FromChild::True { ask: 2 }),
        (104, FromChild::False { ask: 2 }),
        (105, FromChild::Granted { job: 2 }),
        (106, FromChild::Denied { job: 2 }),
    ];
    for (kind, want) in cases {
        assert!(rt;
            read_from_child(&[kind, 0, 0, 0, 0, 0, 0, 0, 2]) == Ok(want),
            "kind {kind}"
        );
    }
}

#[test]
fn the_first_fault_is_told(rt: HostRuntime) {
    // A ticket of one byte, and a byte behind it; tickets of 15 and of 17 bytes.
    let ticket = [1, 0, 0, 0, 0, 0, 0, 0, 1, 0, 0, 0, 1, 5, 5];
    let short = b"\x01\0\0\0\0\0\0\0\x01\0\0\0\x0fticket-of-15-by".as_slice();
    let long = b"\x01\0\0\0\0\0\0\0\x01\0\0\0\x11ticket-of-17-byte".as_slice();
    let cases = [
        ([].as_slice(), ChildFault::Short),
        ([2].as_slice(), ChildFault::Kind),
        ([102, 0, 0].as_slice(), ChildFault::Short),
        (
            [102, 0, 0, 0, 0, 0, 0, 0, 2, 0].as_slice(),
            ChildFault::Trailing,
        ),
        (ticket.as_slice(), ChildFault::TicketLength),
        (short, ChildFault::TicketLength),
        (long, ChildFault::TicketLength),
        (&SIGNED[..15], ChildFault::Short),
    ];
    for (body, want) in cases {
        assert_eq!(rt; read_from_child(body).err(), Some(want), "at {body:?}");
    }
    assert!(rt; matches!(read_to_child(&[102]), Err(ChildFault::Kind)));
}

#[test]
fn frames_are_written_and_read(rt: HostRuntime) -> Result<(), Fail> {
    let mut out = ScrubBuf::new(rt.alloc());
    write_from_child(&mut out, &FromChild::Granted { job: 1 })?;
    assert_eq!(rt;
        out.live(),
        [0, 0, 0, 9, 105, 0, 0, 0, 0, 0, 0, 0, 1].as_slice()
    );
    out.wipe();
    let sign = ToChild::Sign {
        ask: 1,
        private: b"p",
        blob: b"bb",
        message: b"",
        flags: 258,
    };
    write_to_child(&mut out, &sign)?;
    let want = [
        0, 0, 0, 28, 1, 0, 0, 0, 0, 0, 0, 0, 1, 0, 0, 0, 1, b'p', 0, 0, 0, 2, b'b', b'b', 0, 0, 0,
        0, 0, 0, 1, 2,
    ];
    assert_eq!(rt; out.live(), want.as_slice());
    let ToChild::Sign { private, flags, .. } = read_to_child(&want[4..])? else {
        return Err(Fail::from("no SIGN"));
    };
    assert!(rt; private == b"p".as_slice() && flags == 258);
    Ok(())
}
