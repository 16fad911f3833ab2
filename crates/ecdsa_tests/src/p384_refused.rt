//! What FIPS 186-5, section 6.4.2, and SEC 1, section 2.3.4, refuse. The key and the signature are
//! those of RFC 6979, section A.2.6, for "test".

use hex::FromHex;
use p384_ecdsa::{BaseTable, public_key, sign_checked, verify};

const PUBLIC: &str =
    "04ec3a4e415b4e19a4568618029f427fa5da9a8bc4ae92e02e06aae5286b300c64def8f0ea9055866064a254515480bc138015d9b72d7d57244ea8ef9ac0c621896708a59367f9dfb9f54ca84b3f1c9db1288b231c3ae0d4fe7344fd2533264720";

const R: &str =
    "8203b63d3c853e8d77227fb377bcf7b7b772e97892a80f36ab775d509d7a5feb0542a7f0812998da8f1dd3ca3cf023db";

const S: &str =
    "ddd0760448d42d8a43af45af836fce4de8be06b485e9b61b827c2f13173923e06a739f040649a667bf3b828246baa5a5";

// n and p (SP 800-186, section 3.2.1).
const ORDER: &str =
    "ffffffffffffffffffffffffffffffffffffffffffffffffc7634d81f4372ddf581a0db248b0a77aecec196accc52973";

const PRIME: &str =
    "fffffffffffffffffffffffffffffffffffffffffffffffffffffffffffffffeffffffff0000000000000000ffffffff";

const ZERO: &str =
    "000000000000000000000000000000000000000000000000000000000000000000000000000000000000000000000000";

// x, and y less 1, of that key: beside the curve.
const X: &str =
    "ec3a4e415b4e19a4568618029f427fa5da9a8bc4ae92e02e06aae5286b300c64def8f0ea9055866064a254515480bc13";

const BESIDE: &str =
    "8015d9b72d7d57244ea8ef9ac0c621896708a59367f9dfb9f54ca84b3f1c9db1288b231c3ae0d4fe7344fd253326471f";

// The bytes of a word, or zeros where it is none.
fn half(word: &str) -> [u8; 48] {
    <[u8; 48] as FromHex>::from_hex(word).unwrap_or([0; 48])
}

// r and s, one after the other.
fn signature_of(r: &str, s: &str) -> [u8; 96] {
    let (r, s) = (half(r), half(s));
    let mut both = [0; 96];
    for place in 0..48 {
        both[place] = r[place];
        both[48 + place] = s[place];
    }
    both
}

// A first byte, x and y.
fn key_of(first: u8, x: &str, y: &str) -> [u8; 97] {
    let (x, y) = (half(x), half(y));
    let mut key = [first; 97];
    for place in 0..48 {
        key[1 + place] = x[place];
        key[49 + place] = y[place];
    }
    key
}

// The right key.
fn right_key() -> [u8; 97] {
    <[u8; 97] as FromHex>::from_hex(PUBLIC).unwrap_or([0; 97])
}

#[test]
fn numbers_out_of_range_are_refused(rt: HostRuntime) {
    let table = BaseTable::new(rt.alloc()).expect(&rt, "memory");
    let key = right_key();
    assert!(rt; verify(&table, &key, b"test", &signature_of(R, S)));
    for (r, s) in [
        (ZERO, S),
        (R, ZERO),
        (ORDER, S),
        (R, ORDER),
        (ZERO, ZERO),
        (S, R),
    ] {
        assert!(rt;
            !verify(&table, &key, b"test", &signature_of(r, s)),
            "{r} {s}"
        );
    }
    assert!(rt; !verify(&table, &key, b"tests", &signature_of(R, S)));
}

#[test]
fn keys_that_are_no_points_are_refused(rt: HostRuntime) {
    let table = BaseTable::new(rt.alloc()).expect(&rt, "memory");
    let right = signature_of(R, S);
    let mut marked = right_key();
    marked[0] = 6;
    assert!(rt; !verify(&table, &marked, b"test", &right));
    for (x, y) in [(X, BESIDE), (PRIME, BESIDE), (X, PRIME), (ZERO, ZERO)] {
        assert!(rt;
            !verify(&table, &key_of(4, x, y), b"test", &right),
            "{x} {y}"
        );
    }
}

#[test]
fn nothing_is_signed_without_a_pair(rt: HostRuntime) {
    let table = BaseTable::new(rt.alloc()).expect(&rt, "memory");
    let key = right_key();
    for private in [ZERO, ORDER] {
        assert!(rt; public_key(&table, &half(private)).is_none(), "{private}");
        assert!(rt;
            sign_checked(&table, &half(private), &key, b"any").is_none(),
            "{private}"
        );
    }
    assert!(rt; sign_checked(&table, &[1; 48], &key, b"any").is_none());
}
