//! The vectors of RFC 4231, section 4, and of RFC 2202, section 3.

use super::*;

// Whether the text is the digest in hexadecimal.
fn shows(digest: &[u8], text: &str) -> bool {
    let digits = b"0123456789abcdef";
    let text = text.as_bytes();
    if text.len() / 2 != digest.len() {
        return false;
    }
    for (place, byte) in digest.iter().enumerate() {
        let high = digits[(byte / 16) as usize];
        let low = digits[(byte % 16) as usize];
        if text[2 * place] != high || text[2 * place + 1] != low {
            return false;
        }
    }
    true
}

// The key of the fourth case in both RFCs: the bytes 01 to 19.
fn rising_key() -> [u8; 25] {
    let mut key = [0; 25];
    for place in 0..25 {
        key[place] = place as u8 + 1;
    }
    key
}

/// Keys of one block of 64 bytes, which is not hashed, and of one byte more, which is, by Python:
/// hmac.new(b"\xaa" * 64, b"A key of one block", "sha256").hexdigest(), and so on.
const ONE_BLOCK: [(usize, &str, &str); 2] = [
    (
        64,
        "b5b86f81df168468b268232499050165f50178f034d3e22b81c4e2d7b6623d15",
        "090d737322d8d64c275a5b69cc1efa2772fe364c",
    ),
    (
        65,
        "f2a2548c27e3eb2f9076b5e3af7c9bcbbd918e2565da84bb92e60d5fb654cd34",
        "fab2db9c93628e5968a7ade22e24a1c169905a2b",
    ),
];

#[test]
fn a_key_of_one_block_is_not_hashed(rt: HostRuntime) {
    let key = [0xaa; 65];
    for (len, sha256, sha1) in ONE_BLOCK {
        let key = &key[..len];
        let message = b"A key of one block".as_slice();
        assert!(rt;
            shows(hmac_sha256(key, message).as_slice(), sha256),
            "{len}"
        );
        assert!(rt; shows(hmac_sha1(key, message).as_slice(), sha1), "{len}");
    }
}

#[test]
fn sha256_gives_the_vectors_of_rfc_4231(rt: HostRuntime) {
    let rising = rising_key();
    let cases = [
        (
            [0x0b; 20].as_slice(),
            b"Hi There".as_slice(),
            "b0344c61d8db38535ca8afceaf0bf12b881dc200c9833da726e9376c2e32cff7",
        ),
        (
            b"Jefe".as_slice(),
            b"what do ya want for nothing?".as_slice(),
            "5bdcc146bf60754e6a042426089575c75a003f089d2739839dec58b964ec3843",
        ),
        (
            [0xaa; 20].as_slice(),
            [0xdd; 50].as_slice(),
            "773ea91e36800e46854db8ebd09181a72959098b3ef8c122d9635514ced565fe",
        ),
        (
            rising.as_slice(),
            [0xcd; 50].as_slice(),
            "82558a389a443c0ea4cc819899f2083a85f0faa3e578f8077a2e3ff46729665b",
        ),
        (
            [0xaa; 131].as_slice(),
            b"Test Using Larger Than Block-Size Key - Hash Key First".as_slice(),
            "60e431591ee0b67f0d8a26aacbf5b77f8e0bc6213728c5140546040f0ee37f54",
        ),
        (
            [0xaa; 131].as_slice(),
            b"This is a test using a larger than block-size key and a larger than block-size data. The key needs to be hashed before being used by the HMAC algorithm.".as_slice(),
            "9b09ffa71b942fcb27635fbcd5b0e944bfdc63644f0713938a7f51535c3a35e2",
        ),
    ];
    for (key, message, want) in cases {
        assert!(rt; shows(hmac_sha256(key, message).as_slice(), want), "{want}");
    }
}

#[test]
fn sha1_gives_the_vectors_of_rfc_2202(rt: HostRuntime) {
    let rising = rising_key();
    let cases = [
        (
            [0x0b; 20].as_slice(),
            b"Hi There".as_slice(),
            "b617318655057264e28bc0b6fb378c8ef146be00",
        ),
        (
            b"Jefe".as_slice(),
            b"what do ya want for nothing?".as_slice(),
            "effcdf6ae5eb2fa2d27416d5f184df9c259a7c79",
        ),
        (
            [0xaa; 20].as_slice(),
            [0xdd; 50].as_slice(),
            "125d7342b9ac11cd91a39af48aa17b4f63f175d3",
        ),
        (
            rising.as_slice(),
            [0xcd; 50].as_slice(),
            "4c9007f4026250c6bc8414f9bf50c86c2d7235da",
        ),
        (
            [0xaa; 80].as_slice(),
            b"Test Using Larger Than Block-Size Key - Hash Key First".as_slice(),
            "aa4ae5e15272d00e95705637ce8a3b55ed402112",
        ),
        (
            [0xaa; 80].as_slice(),
            b"Test Using Larger Than Block-Size Key and Larger Than One Block-Size Data".as_slice(),
            "e8e99d0f45237d786d6bbaa7965c7808bbff1a91",
        ),
    ];
    for (key, message, want) in cases {
        assert!(rt; shows(hmac_sha1(key, message).as_slice(), want), "{want}");
    }
}
