//! What RFC 8032, sections 5.1.3 and 5.1.7, refuses. The signature of 64 bytes below is right under the key
//! of the neutral point for each message, since R is then [S]B: B itself, and S = 1.

use ed25519::{BaseTable, public_key, sign_checked, verify};

// The encoding of the base point: y = 4/5 (RFC 8032, section 5.1).
const BASE: [u8; 32] = [
    0x58, 0x66, 0x66, 0x66, 0x66, 0x66, 0x66, 0x66, 0x66, 0x66, 0x66, 0x66, 0x66, 0x66, 0x66, 0x66,
    0x66, 0x66, 0x66, 0x66, 0x66, 0x66, 0x66, 0x66, 0x66, 0x66, 0x66, 0x66, 0x66, 0x66, 0x66, 0x66,
];

// L, the lowest byte first (RFC 8032, section 5.1).
const ORDER: [u8; 32] = [
    0xed, 0xd3, 0xf5, 0x5c, 0x1a, 0x63, 0x12, 0x58, 0xd6, 0x9c, 0xf7, 0xa2, 0xde, 0xf9, 0xde, 0x14,
    0, 0, 0, 0, 0, 0, 0, 0, 0, 0, 0, 0, 0, 0, 0, 0x10,
];

// A key whose lowest byte, highest byte and bytes between are these.
fn key_of(lowest: u8, between: u8, highest: u8) -> [u8; 32] {
    let mut key = [between; 32];
    key[0] = lowest;
    key[31] = highest;
    key
}

// R = B, and S = 1 plus so many times L, of 0 or 1.
fn signature_of(more: u8) -> [u8; 64] {
    let mut signature = [0; 64];
    for place in 0..32 {
        signature[place] = BASE[place];
        signature[32 + place] = if more == 1 { ORDER[place] } else { 0 };
    }
    signature[32] = if more == 1 { 0xee } else { 1 };
    signature
}

#[test]
fn a_response_that_is_not_below_the_order_is_refused(rt: HostRuntime) {
    let table = BaseTable::new(rt.alloc()).expect(&rt, "memory");
    let neutral = key_of(1, 0, 0);
    assert!(rt; verify(&table, &neutral, b"any", &signature_of(0)));
    assert!(rt; !verify(&table, &neutral, b"any", &signature_of(1)));
}

#[test]
fn keys_that_are_no_encodings_are_refused(rt: HostRuntime) {
    let table = BaseTable::new(rt.alloc()).expect(&rt, "memory");
    let right = signature_of(0);
    // The neutral point with the sign of x set, and with y = p + 1; and y = 2, to which no x belongs.
    assert!(rt; !verify(&table, &key_of(1, 0, 0x80), b"any", &right));
    assert!(rt; !verify(&table, &key_of(0xee, 0xff, 0x7f), b"any", &right));
    assert!(rt; !verify(&table, &key_of(2, 0, 0), b"any", &right));
}

#[test]
fn nothing_is_signed_under_the_public_key_of_another(rt: HostRuntime) {
    let table = BaseTable::new(rt.alloc()).expect(&rt, "memory");
    let other = public_key(&table, &[2; 32]);
    assert!(rt; sign_checked(&table, &[1; 32], &other, b"any").is_none());
}
