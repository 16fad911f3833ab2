//! What FIPS 186-5, section 6.4.2, and SEC 1, section 2.3.4, refuse. The key and the signature are
//! those of RFC 6979, section A.2.5, for "test".

use hex::FromHex;
use p256_ecdsa::{BaseTable, public_key, sign_checked, verify};

const PUBLIC: &str =
    "0460fed4ba255a9d31c961eb74c6356d68c049b8923b61fa6ce669622e60f29fb67903fe1008b8bc99a41ae9e95628bc64f2f1b20c2d7e9f5177a3c294d4462299";

const R: &str = "f1abb023518351cd71d881567b1ea663ed3efcf6c5132b354f28d3b0b7d38367";

const S: &str = "019f4113742a2b14bd25926b49c649155f267e60d3814b4c0cc84250e46f0083";

// n and p (SP 800-186, section 3.2.1).
const ORDER: &str = "ffffffff00000000ffffffffffffffffbce6faada7179e84f3b9cac2fc632551";

const PRIME: &str = "ffffffff00000001000000000000000000000000ffffffffffffffffffffffff";

const ZERO: &str = "0000000000000000000000000000000000000000000000000000000000000000";

// x, and y less 1, of that key: beside the curve.
const X: &str = "60fed4ba255a9d31c961eb74c6356d68c049b8923b61fa6ce669622e60f29fb6";

const BESIDE: &str = "7903fe1008b8bc99a41ae9e95628bc64f2f1b20c2d7e9f5177a3c294d4462298";

// The bytes of a word, or zeros where it is none.
fn half(word: &str) -> [u8; 32] {
    <[u8; 32] as FromHex>::from_hex(word).unwrap_or([0; 32])
}

// r and s, one after the other.
fn signature_of(r: &str, s: &str) -> [u8; 64] {
    let (r, s) = (half(r), half(s));
    let mut both = [0; 64];
    for place in 0..32 {
        both[place] = r[place];
        both[32 + place] = s[place];
    }
    both
}

// A first byte, x and y.
fn key_of(first: u8, x: &str, y: &str) -> [u8; 65] {
    let (x, y) = (half(x), half(y));
    let mut key = [first; 65];
    for place in 0..32 {
        key[1 + place] = x[place];
        key[33 + place] = y[place];
    }
    key
}

// The right key.
fn right_key() -> [u8; 65] {
    <[u8; 65] as FromHex>::from_hex(PUBLIC).unwrap_or([0; 65])
}

#[test]
fn numbers_out_of_range_are_refused(rt: HostRuntime) {
    let table = BaseTable::new(rt.alloc()).expect(&rt, "memory");
    let key = right_key();
    assert!(rt; verify(&table, &key, b"test", &signature_of(R, S)));
    for (r, s) in [
        (ZERO, S),
        (R, ZERO),
        (ORDER, S),
        (R, ORDER),
        (ZERO, ZERO),
        (S, R),
    ] {
        assert!(rt;
            !verify(&table, &key, b"test", &signature_of(r, s)),
            "{r} {s}"
        );
    }
    assert!(rt; !verify(&table, &key, b"tests", &signature_of(R, S)));
}

#[test]
fn keys_that_are_no_points_are_refused(rt: HostRuntime) {
    let table = BaseTable::new(rt.alloc()).expect(&rt, "memory");
    let right = signature_of(R, S);
    let mut marked = right_key();
    marked[0] = 6;
    assert!(rt; !verify(&table, &marked, b"test", &right));
    for (x, y) in [(X, BESIDE), (PRIME, BESIDE), (X, PRIME), (ZERO, ZERO)] {
        assert!(rt;
            !verify(&table, &key_of(4, x, y), b"test", &right),
            "{x} {y}"
        );
    }
}

#[test]
fn nothing_is_signed_without_a_pair(rt: HostRuntime) {
    let table = BaseTable::new(rt.alloc()).expect(&rt, "memory");
    let key = right_key();
    for private in [ZERO, ORDER] {
        assert!(rt; public_key(&table, &half(private)).is_none(), "{private}");
        assert!(rt;
            sign_checked(&table, &half(private), &key, b"any").is_none(),
            "{private}"
        );
    }
    assert!(rt; sign_checked(&table, &[1; 32], &key, b"any").is_none());
}
