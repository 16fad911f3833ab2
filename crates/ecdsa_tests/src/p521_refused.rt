//! What FIPS 186-5, section 6.4.2, and SEC 1, section 2.3.4, refuse. The key and the signature are
//! those of RFC 6979, section A.2.7, for "test".

use hex::FromHex;
use p521_ecdsa::{BaseTable, public_key, sign_checked, verify};

const PUBLIC: &str =
    "0401894550d0785932e00eaa23b694f213f8c3121f86dc97a04e5a7167db4e5bcd371123d46e45db6b5d5370a7f20fb633155d38ffa16d2bd761dcac474b9a2f5023a400493101c962cd4d2fddf782285e64584139c2f91b47f87ff82354d6630f746a28a0db25741b5b34a828008b22acc23f924faafbd4d33f81ea66956dfeaa2bfdfcf5";

const R: &str =
    "013e99020abf5cee7525d16b69b229652ab6bdf2affcaef38773b4b7d08725f10cdb93482fdcc54edcee91eca4166b2a7c6265ef0ce2bd7051b7cef945babd47ee6d";

const S: &str =
    "01fbd0013c674aa79cb39849527916ce301c66ea7ce8b80682786ad60f98f7e78a19ca69eff5c57400e3b3a0ad66ce0978214d13baf4e9ac60752f7b155e2de4dce3";

// n and p (SP 800-186, section 3.2.1).
const ORDER: &str =
    "01fffffffffffffffffffffffffffffffffffffffffffffffffffffffffffffffffa51868783bf2f966b7fcc0148f709a5d03bb5c9b8899c47aebb6fb71e91386409";

const PRIME: &str =
    "01ffffffffffffffffffffffffffffffffffffffffffffffffffffffffffffffffffffffffffffffffffffffffffffffffffffffffffffffffffffffffffffffffff";

const ZERO: &str =
    "000000000000000000000000000000000000000000000000000000000000000000000000000000000000000000000000000000000000000000000000000000000000";

// x, and y less 1, of that key: beside the curve.
const X: &str =
    "01894550d0785932e00eaa23b694f213f8c3121f86dc97a04e5a7167db4e5bcd371123d46e45db6b5d5370a7f20fb633155d38ffa16d2bd761dcac474b9a2f5023a4";

const BESIDE: &str =
    "00493101c962cd4d2fddf782285e64584139c2f91b47f87ff82354d6630f746a28a0db25741b5b34a828008b22acc23f924faafbd4d33f81ea66956dfeaa2bfdfcf4";

// The bytes of a word, or zeros where it is none.
fn half(word: &str) -> [u8; 66] {
    <[u8; 66] as FromHex>::from_hex(word).unwrap_or([0; 66])
}

// r and s, one after the other.
fn signature_of(r: &str, s: &str) -> [u8; 132] {
    let (r, s) = (half(r), half(s));
    let mut both = [0; 132];
    for place in 0..66 {
        both[place] = r[place];
        both[66 + place] = s[place];
    }
    both
}

// A first byte, x and y.
fn key_of(first: u8, x: &str, y: &str) -> [u8; 133] {
    let (x, y) = (half(x), half(y));
    let mut key = [first; 133];
    for place in 0..66 {
        key[1 + place] = x[place];
        key[67 + place] = y[place];
    }
    key
}

// The right key.
fn right_key() -> [u8; 133] {
    <[u8; 133] as FromHex>::from_hex(PUBLIC).unwrap_or([0; 133])
}

#[test]
fn numbers_out_of_range_are_refused(rt: HostRuntime) {
    let table = BaseTable::new(rt.alloc()).expect(&rt, "memory");
    let key = right_key();
    assert!(rt; verify(&table, &key, b"test", &signature_of(R, S)));
    for (r, s) in [
        (ZERO, S),
        (R, ZERO),
        (ORDER, S),
        (R, ORDER),
        (ZERO, ZERO),
        (S, R),
    ] {
        assert!(rt;
            !verify(&table, &key, b"test", &signature_of(r, s)),
            "{r} {s}"
        );
    }
    assert!(rt; !verify(&table, &key, b"tests", &signature_of(R, S)));
}

#[test]
fn keys_that_are_no_points_are_refused(rt: HostRuntime) {
    let table = BaseTable::new(rt.alloc()).expect(&rt, "memory");
    let right = signature_of(R, S);
    let mut marked = right_key();
    marked[0] = 6;
    assert!(rt; !verify(&table, &marked, b"test", &right));
    for (x, y) in [(X, BESIDE), (PRIME, BESIDE), (X, PRIME), (ZERO, ZERO)] {
        assert!(rt;
            !verify(&table, &key_of(4, x, y), b"test", &right),
            "{x} {y}"
        );
    }
}

#[test]
fn nothing_is_signed_without_a_pair(rt: HostRuntime) {
    let table = BaseTable::new(rt.alloc()).expect(&rt, "memory");
    let key = right_key();
    for private in [ZERO, ORDER] {
        assert!(rt; public_key(&table, &half(private)).is_none(), "{private}");
        assert!(rt;
            sign_checked(&table, &half(private), &key, b"any").is_none(),
            "{private}"
        );
    }
    assert!(rt; sign_checked(&table, &[1; 66], &key, b"any").is_none());
}
