//! Real logins, and texts with a fault or two in the order of the fields.

mod vectors;

use super::*;
use std::alloc::{AllocError, Global};
use std::test::Fail;
use vectors::{USER, VECTORS};

#[test]
fn logins_of_openssh_are_read(rt: HostRuntime) {
    for vector in &VECTORS {
        let login = UserAuth {
            session: vector.session,
            user: USER,
            host_key: vector.host_key,
        };
        assert_eq!(rt; read_userauth(vector.message, vector.blob), Ok(login));
    }
}

/// A key of the type for tests: its name and 32 bytes of tag.
const BLOB: &[u8] = b"\0\0\0\x18keyed-sha256@example.com\
    \0\0\0\x2011111111111111111111111111111111";

const PLAIN: &[u8] = b"\0\0\0\x09publickey";

/// A host-bound login, field by field, written out from OpenSSH's PROTOCOL.
const FIELDS: [&[u8]; 9] = [
    b"\0\0\0\x03sid",
    b"\x32",
    b"\0\0\0\x04root",
    b"\0\0\0\x0essh-connection",
    b"\0\0\0\x23publickey-hostbound-v00@openssh.com",
    b"\x01",
    b"\0\0\0\x18keyed-sha256@example.com",
    b"\0\0\0\x40\0\0\0\x18keyed-sha256@example.com\
        \0\0\0\x2011111111111111111111111111111111",
    b"\0\0\0\x40\0\0\0\x18keyed-sha256@example.com\
        \0\0\0\x2022222222222222222222222222222222",
];

const SESSION: usize = 0;

const NUMBER: usize = 1;

const USER_NAME: usize = 2;

const SERVICE: usize = 3;

const METHOD: usize = 4;

const FLAG: usize = 5;

const ALGORITHM: usize = 6;

const KEY: usize = 7;

const HOST_KEY: usize = 8;

/// The login with fields changed.
fn changed(alloc: Global, changes: &[(usize, &[u8])]) -> Result<Vec<u8>, AllocError> {
    let mut text = Vec::new(alloc);
    for (place, field) in FIELDS.iter().enumerate() {
        let change = changes.iter().find(|change| change.0 == place);
        text.extend_from_slice(change.map_or(*field, |change| change.1))?;
    }
    Ok(text)
}

const EMPTY: &[u8] = b"\0\0\0\0";

const LONG: &[u8] = b"\0\0\x01\0";

const TEXT: &[u8] = b"\0\0\0\x03key";

#[test]
fn each_fault_is_answered(rt: HostRuntime) -> Result<(), Fail> {
    let cases: [(usize, &[u8], AuthFault); 15] = [
        (SESSION, EMPTY, AuthFault::EmptySession),
        (SESSION, LONG, AuthFault::Short),
        (NUMBER, b"\x33", AuthFault::NotRequest),
        (USER_NAME, LONG, AuthFault::Short),
        (SERVICE, b"\0\0\0\x0cssh-userauth", AuthFault::Service),
        (METHOD, b"\0\0\0\x08password", AuthFault::Method),
        (METHOD, PLAIN, AuthFault::Trailing),
        (FLAG, b"\0", AuthFault::NoSignatureFlag),
        (FLAG, b"\x02", AuthFault::NoSignatureFlag),
        (ALGORITHM, b"\0\0\0\x0bssh-ed25519", AuthFault::Algorithm),
        (ALGORITHM, LONG, AuthFault::Short),
        (KEY, TEXT, AuthFault::OtherKey),
        (HOST_KEY, b"", AuthFault::Short),
        (HOST_KEY, TEXT, AuthFault::HostKey),
        (HOST_KEY, LONG, AuthFault::Short),
    ];
    for (place, field, fault) in cases {
        let text = changed(rt.alloc(), &[(place, field)])?;
        assert_eq!(rt;
            read_userauth(&text, BLOB).err(),
            Some(fault),
            "at {place} {field:?}"
        );
    }
    Ok(())
}

#[test]
fn the_first_of_two_faults_is_answered(rt: HostRuntime) -> Result<(), Fail> {
    let other: &[u8] = b"\0\0\0\x05other";
    let cases: [(usize, &[u8], usize, &[u8], AuthFault); 9] = [
        (SESSION, EMPTY, NUMBER, b"\0", AuthFault::EmptySession),
        (NUMBER, b"\0", SERVICE, other, AuthFault::NotRequest),
        (SERVICE, other, METHOD, other, AuthFault::Service),
        (METHOD, other, FLAG, b"\0", AuthFault::Method),
        (FLAG, b"\0", ALGORITHM, other, AuthFault::NoSignatureFlag),
        (ALGORITHM, other, KEY, other, AuthFault::OtherKey),
        (ALGORITHM, other, KEY, LONG, AuthFault::Short),
        (ALGORITHM, other, HOST_KEY, TEXT, AuthFault::Algorithm),
        (
            HOST_KEY,
            b"\0\0\0\x01k\0",
            NUMBER,
            b"\x32",
            AuthFault::HostKey,
        ),
    ];
    for (place, field, later, later_field, fault) in cases {
        let text = changed(rt.alloc(), &[(place, field), (later, later_field)])?;
        assert_eq!(rt;
            read_userauth(&text, BLOB).err(),
            Some(fault),
            "at {place} {later}"
        );
    }
    Ok(())
}

#[test]
fn nothing_follows_either_method(rt: HostRuntime) -> Result<(), Fail> {
    let bound = changed(rt.alloc(), &[])?;
    let plain = changed(rt.alloc(), &[(METHOD, PLAIN), (HOST_KEY, b"")])?;
    for text in [&bound, &plain] {
        assert!(rt; read_userauth(text, BLOB).is_ok());
        let mut longer = text.clone()?;
        longer.push(0)?;
        assert_eq!(rt;
            read_userauth(&longer, BLOB).err(),
            Some(AuthFault::Trailing)
        );
    }
    Ok(())
}

#[test]
fn a_blob_that_is_no_key_has_no_algorithm(rt: HostRuntime) -> Result<(), Fail> {
    let text = changed(rt.alloc(), &[(KEY, TEXT)])?;
    assert_eq!(rt;
        read_userauth(&text, b"key").err(),
        Some(AuthFault::Algorithm)
    );
    Ok(())
}
