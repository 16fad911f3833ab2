//! RFC 6979, section A.2.5: P-256 with SHA-256.

use hex::FromHex;
use p256_ecdsa::{BaseTable, public_key, sign_checked, verify};

const PRIVATE: &str = "c9afa9d845ba75166b5c215767b1d6934e50c3db36e89b127b8a622b120f6721";

// 04, Ux and Uy.
const PUBLIC: &str =
    "0460fed4ba255a9d31c961eb74c6356d68c049b8923b61fa6ce669622e60f29fb67903fe1008b8bc99a41ae9e95628bc64f2f1b20c2d7e9f5177a3c294d4462299";

// Message, and r and s.
const ROWS: [(&str, &str); 2] = [
    (
        "sample",
        "efd48b2aacb6a8fd1140dd9cd45e81d69d2c877b56aaf991c34d0ea84eaf3716f7cb1c942d657c41d436c7a1b6e29f65f3e900dbb9aff4064dc4ab2f843acda8",
    ),
    (
        "test",
        "f1abb023518351cd71d881567b1ea663ed3efcf6c5132b354f28d3b0b7d38367019f4113742a2b14bd25926b49c649155f267e60d3814b4c0cc84250e46f0083",
    ),
];

// Whether the three calls give what a row says.
fn agrees(table: &BaseTable, message: &str, signed: &str) -> bool {
    let Ok(private) = <[u8; 32] as FromHex>::from_hex(PRIVATE) else {
        return false;
    };
    let Ok(public) = <[u8; 65] as FromHex>::from_hex(PUBLIC) else {
        return false;
    };
    let Ok(signature) = <[u8; 64] as FromHex>::from_hex(signed) else {
        return false;
    };
    let message = message.as_bytes();
    public_key(table, &private) == Some(public)
        && sign_checked(table, &private, &public, message) == Some(signature)
        && verify(table, &public, message, &signature)
}

#[test]
fn the_vectors_of_rfc_6979_come_out(rt: HostRuntime) {
    let table = BaseTable::new(rt.alloc()).expect(&rt, "memory");
    for (message, signed) in ROWS {
        assert!(rt; agrees(&table, message, signed), "{message}");
    }
}
