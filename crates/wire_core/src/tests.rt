//! The examples of RFC 4251, section 5, written out, and the numbers of a refusal.

use super::*;
use std::test::Fail;

/// A name-list, an mpint and a string are stored alike: contents, and how they are stored.
const STRINGS: [(&[u8], &[u8]); 6] = [
    (b"", b"\0\0\0\0"),
    (b"testing", b"\0\0\0\x07testing"),
    (b"zlib,none", b"\0\0\0\x09zlib,none"),
    (
        b"\x09\xa3\x78\xf9\xb2\xe3\x32\xa7",
        b"\0\0\0\x08\x09\xa3\x78\xf9\xb2\xe3\x32\xa7",
    ),
    (b"\x00\x80", b"\0\0\0\x02\x00\x80"),
    (b"\xff\x21\x52\x41\x11", b"\0\0\0\x05\xff\x21\x52\x41\x11"),
];

#[test]
fn the_examples_of_the_standard_are_put_and_taken(rt: HostRuntime) -> Result<(), Fail> {
    for (contents, stored) in STRINGS {
        let mut out = Vec::new(rt.alloc());
        put_string(&mut out, contents)?;
        assert_eq!(rt; out.as_slice(), stored);
        assert_eq!(rt; Cursor::new(stored).take_string(), Ok(contents));
    }
    let mut out = Vec::new(rt.alloc());
    put_u32(&mut out, 699921578)?;
    assert_eq!(rt; out.as_slice(), b"\x29\xb7\xf4\xaa".as_slice());
    assert_eq!(rt; Cursor::new(b"\x29\xb7\xf4\xaa").take_u32(), Ok(699921578));
    Ok(())
}

#[test]
fn fields_follow_one_another(rt: HostRuntime) -> Result<(), Fail> {
    let mut out = Vec::new(rt.alloc());
    put_u8(&mut out, 27)?;
    put_u64(&mut out, 0x0102030405060708)?;
    put_u8(&mut out, 2)?;
    assert_eq!(rt;
        out.as_slice(),
        b"\x1b\x01\x02\x03\x04\x05\x06\x07\x08\x02".as_slice()
    );
    let mut cursor = Cursor::new(&out);
    assert_eq!(rt; cursor.take_u8(), Ok(27));
    assert_eq!(rt; cursor.take_u64(), Ok(0x0102030405060708));
    assert_eq!(rt; cursor.rest(), b"\x02".as_slice());
    assert_eq!(rt; cursor.take_bool(), Ok(true));
    assert!(rt; cursor.at_end());
    Ok(())
}

#[test]
fn a_refusal_has_both_numbers_and_moves_nothing(rt: HostRuntime) {
    let mut cursor = Cursor::new(b"\0\0\0\x07test");
    assert_eq!(rt; cursor.take_string(), Err(Short { wanted: 11, had: 8 }));
    assert_eq!(rt; cursor.rest().len(), 8);
    let mut cursor = Cursor::new(b"\0\0\x07");
    assert_eq!(rt; cursor.take_string(), Err(Short { wanted: 4, had: 3 }));
    assert_eq!(rt; cursor.take_u64(), Err(Short { wanted: 8, had: 3 }));
    assert_eq!(rt; cursor.rest().len(), 3);
}
