//! Tests of the buffer and of secret bytes: their order, their growth, and refused memory.

use crate::{ScrubBuf, SecretBytes};
use std::test::Fail;

#[test]
fn a_buffer_gives_the_bytes_that_were_pushed(rt: HostRuntime) -> Result<(), Fail> {
    let mut buffer = ScrubBuf::new(rt.alloc());
    buffer.reserve(4)?;
    buffer.push_reserved(b"abcd");
    buffer.push_slice(b"ef")?;
    assert_eq!(rt; buffer.live(), "abcdef".as_bytes());
    buffer.consume(4);
    assert_eq!(rt; buffer.live(), "ef".as_bytes());
    buffer.wipe();
    assert_eq!(rt; buffer.live(), "".as_bytes());
    buffer.push_slice(b"gh")?;
    assert_eq!(rt; buffer.live(), "gh".as_bytes());
    Ok(())
}

#[test]
fn bytes_keep_their_order_through_growth_and_moves(rt: HostRuntime) -> Result<(), Fail> {
    let mut buffer = ScrubBuf::new(rt.alloc());
    let mut pushed: u8 = 0;
    let mut consumed: u8 = 0;
    for _ in 0..1000 {
        buffer.push_slice(&[pushed, pushed.wrapping_add(1), pushed.wrapping_add(2)])?;
        pushed = pushed.wrapping_add(3);
        assert_eq!(rt;
            &buffer.live()[..2],
            [consumed, consumed.wrapping_add(1)].as_slice()
        );
        buffer.consume(2);
        consumed = consumed.wrapping_add(2);
    }
    assert_eq!(rt; buffer.live().len(), 1000);
    Ok(())
}

#[test]
fn a_refused_push_leaves_the_buffer(rt: HostRuntime) -> Result<(), Fail> {
    let mut buffer = ScrubBuf::new(rt.alloc());
    buffer.push_slice(b"abc")?;
    for more in [usize::MAX, usize::MAX / 2, usize::MAX / 4] {
        assert!(rt; buffer.reserve(more).is_err(), "at {more}");
        assert_eq!(rt; buffer.live(), "abc".as_bytes());
    }
    Ok(())
}

#[test]
fn a_secret_is_appended_and_compared(rt: HostRuntime) -> Result<(), Fail> {
    let secret = SecretBytes::from_slice(rt.alloc(), b"secret")?;
    assert_eq!(rt; secret.len(), 6);
    assert!(rt; secret.same(b"secret"));
    for other in ["secreT", "Secret", "secre", "secrets", ""] {
        assert!(rt; !secret.same(other.as_bytes()), "at {other}");
    }
    let mut buffer = ScrubBuf::new(rt.alloc());
    buffer.push_slice(b"a ")?;
    secret.append_to(&mut buffer)?;
    assert_eq!(rt; buffer.live(), "a secret".as_bytes());
    secret.wipe();
    assert!(rt; SecretBytes::from_slice(rt.alloc(), b"")?.same(b""));
    Ok(())
}
