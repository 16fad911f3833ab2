//! The first key and its first signature of RSA Laboratories' "Test vectors for RSA PKCS#1 v1.5 Signature"
//! (pkcs1v15sign-vectors.txt, which Debian's python3-cryptography-vectors has), by SHA-1, and what has to be
//! refused beside them.

use rsa_sign::{Key, sign};
use rsa_verify::{Hash, verify};

// n.
const MODULUS: &str =
    "a56e4a0e701017589a5187dc7ea841d156f2ec0e36ad52a44dfeb1e61f7ad991d8c51056ffedb162b4c0f283a12a88a394dff526ab7291cbb307ceabfce0b1dfd5cd9508096d5b2b8b6df5d671ef6377c0921cb23c270a70e2598e6ff89d19f105acc2d3f0cb35f29280e1386b6f64c4ef22e1e1f20d0ce8cffb2249bd9a2137";

// d. The public exponent is 65537.
const EXPONENT: &str =
    "33a5042a90b27d4f5451ca9bbbd0b44771a101af884340aef9885f2a4bbe92e894a724ac3c568c8f97853ad07c0266c8c6a3ca0929f1e8f11231884429fc4d9ae55fee896a10ce707c3ed7e734e44727a39574501a532683109c2abacaba283c31b4bd2f53c3ee37e352cee34f9e503bd80c0622ad79c6dcee883547c6a3b325";

// Prime 1.
const P: &str =
    "e7e8942720a877517273a356053ea2a1bc0c94aa72d55c6e86296b2dfc967948c0a72cbccca7eacb35706e09a1df55a1535bd9b3cc34160b3b6dcd3eda8e6443";

// Prime 2.
const Q: &str =
    "b69dca1cf7d4d7ec81e75b90fcca874abcde123fd2700180aa90479b6e48de8d67ed24f9f19d85ba275874f542cd20dc723e6963364a1f9425452b269a6799fd";

// The inverse of prime 2 modulo prime 1.
const COEFFICIENT: &str =
    "27156aba4126d24a81f3a528cbfb27f56886f840a9f6e86e17a44b94fe9319584b8e22fdde1e5a2e3bd8aa5ba8d8584194eb2190acf832b847f13a3d24a79f4d";

// The message.
const MESSAGE: &str =
    "cdc87da223d786df3b45e0bbbc721326d1ee2af806cc315475cc6f0d9c66e1b62371d45ce2392e1ac92844c310102f156a0d8d52c1f4c40ba3aa65095786cb769757a6563ba958fed0bcc984e8b517a3d5f515b23b8a41e74aa867693f90dfb061a6e86dfaaee64472c00e5f20945729cbebe77f06ce78e08f4098fba41f9d6193c0317e8b60d4b6084acb42d29e3808a3bc372d85e331170fcbf7cc72d0b71c296648b3a4d10f416295d0807aa625cab2744fd9ea8fd223c42537029828bd16be02546f130fd2e33b936d2676e08aed1b73318b750a0167d0";

// Its signature.
const SIGNATURE: &str =
    "6bc3a06656842930a247e30d5864b4d819236ba7c68965862ad7dbc4e24af28e86bb531f03358be5fb74777c6086f850caef893f0d6fcc2d0c91ec013693b4ea00b80cd49aac4ecb5f8911afe539ada4a8f3823d1d13e472d1490547c659c7617f3d24087ddb6f2b72096167fc097cab18e9a458fcb634cdce8ee35894c484d7";

const E: u64 = 65537;

// Bytes in hexadecimal, none of other text.
fn bytes(rt: &impl AllocGlobal, text: &str) -> Vec<u8> {
    match hex::decode(rt.alloc(), text) {
        Ok(bytes) => bytes,
        Err(_) => Vec::new(rt.alloc()),
    }
}

// Whether a signature under the modulus of these octets is one of the message.
fn accepts(rt: &impl AllocGlobal, modulus: &str, e: u64, hash: Hash, signature: &[u8]) -> bool {
    let modulus = bytes(rt, modulus);
    let message = bytes(rt, MESSAGE);
    match verify(rt.alloc(), &modulus, e, hash, &message, signature) {
        Ok(holds) => holds,
        Err(_) => false,
    }
}

// The signature of the message by these factors, or none.
fn made(rt: &impl AllocGlobal, e: u64, p: &str, q: &str) -> Vec<u8> {
    let modulus = bytes(rt, MODULUS);
    let d = bytes(rt, EXPONENT);
    let p = bytes(rt, p);
    let q = bytes(rt, q);
    let iqmp = bytes(rt, COEFFICIENT);
    let message = bytes(rt, MESSAGE);
    let key = Key {
        modulus: &modulus,
        e,
        d: &d,
        p: &p,
        q: &q,
        iqmp: &iqmp,
    };
    match sign(rt.alloc(), &key, Hash::Sha1, &message) {
        Ok(Some(signature)) => signature,
        _ => Vec::new(rt.alloc()),
    }
}

#[test]
fn the_vector_comes_out(rt: HostRuntime) {
    let signature = bytes(&rt, SIGNATURE);
    assert!(rt; made(&rt, E, P, Q) == signature);
    assert!(rt; accepts(&rt, MODULUS, E, Hash::Sha1, &signature));
}

#[test]
fn another_hash_exponent_or_length_is_refused(rt: HostRuntime) {
    let signature = bytes(&rt, SIGNATURE);
    assert!(rt; !accepts(&rt, MODULUS, E, Hash::Sha256, &signature));
    assert!(rt; !accepts(&rt, MODULUS, 65539, Hash::Sha1, &signature));
    assert!(rt; !accepts(&rt, MODULUS, E, Hash::Sha1, &bytes(&rt, P)));
    assert!(rt; !accepts(&rt, P, E, Hash::Sha1, &signature));
}

#[test]
fn a_key_that_fits_not_together_signs_nothing(rt: HostRuntime) {
    assert!(rt; made(&rt, E, P, P).is_empty());
    assert!(rt; made(&rt, E, Q, P).is_empty());
    assert!(rt; made(&rt, 65538, P, Q).is_empty());
    assert!(rt; made(&rt, E, P, "03").is_empty());
}
