//! The vectors of RFC 4231, section 4.

use super::*;

// Whether the text is the digest in hexadecimal.
fn shows(digest: &[u8], text: &str) -> bool {
    let digits = b"0123456789abcdef";
    let text = text.as_bytes();
    if text.len() / 2 != digest.len() {
        return false;
    }
    for (place, byte) in digest.iter().enumerate() {
        let high = digits[(byte / 16) as usize];
        let low = digits[(byte % 16) as usize];
        if text[2 * place] != high || text[2 * place + 1] != low {
            return false;
        }
    }
    true
}

// The key of the fourth case in both RFCs: the bytes 01 to 19.
fn rising_key() -> [u8; 25] {
    let mut key = [0; 25];
    for place in 0..25 {
        key[place] = place as u8 + 1;
    }
    key
}

/// Keys of one block of 128 bytes, which is not hashed, and of one byte more, which is, by Python:
/// hmac.new(b"\xaa" * 128, b"A key of one block", "sha384").hexdigest(), and so on.
const ONE_BLOCK: [(usize, &str, &str); 2] = [
    (
        128,
        "45cfb1dd4cc79b7e85e65f66cf6e6f0957ab026ddecdc3f130a758f50823fedb05d626adea9b07e980866f40c4ecc573",
        "7fe3a33b961232d7af42dade1b64025bc8ef95989e7d619ad3b329af3255e52c9a342d55b30c7bf2c90d43582554e659337a5cec31a1ff4e1d0b9b0a8c2880f0",
    ),
    (
        129,
        "f2b3598ae664dc589c8e1b8051a41db8e9f889d7d6232aea21e666b1ed7fa00093ba4ff84d8f2e7a84c85b6790783eef",
        "7cd2d1aa7e23bebd19ae96faa51b4c9df7335abc1afa18a7ffeb2c0ca59fa75970d218b2f5ee8fac2b0e9e3407b51ae8d03bdf812a5d1ee90399e0490712c9fe",
    ),
];

#[test]
fn a_key_of_one_block_is_not_hashed(rt: HostRuntime) {
    let key = [0xaa; 129];
    for (len, sha384, sha512) in ONE_BLOCK {
        let key = &key[..len];
        let message = b"A key of one block".as_slice();
        assert!(rt;
            shows(hmac_sha384(key, message).as_slice(), sha384),
            "{len}"
        );
        assert!(rt;
            shows(hmac_sha512(key, message).as_slice(), sha512),
            "{len}"
        );
    }
}

#[test]
fn both_give_the_vectors_of_rfc_4231(rt: HostRuntime) {
    let rising = rising_key();
    let cases = [
        (
            [0x0b; 20].as_slice(),
            b"Hi There".as_slice(),
            "afd03944d84895626b0825f4ab46907f15f9dadbe4101ec682aa034c7cebc59cfaea9ea9076ede7f4af152e8b2fa9cb6",
            "87aa7cdea5ef619d4ff0b4241a1d6cb02379f4e2ce4ec2787ad0b30545e17cdedaa833b7d6b8a702038b274eaea3f4e4be9d914eeb61f1702e696c203a126854",
        ),
        (
            b"Jefe".as_slice(),
            b"what do ya want for nothing?".as_slice(),
            "af45d2e376484031617f78d2b58a6b1b9c7ef464f5a01b47e42ec3736322445e8e2240ca5e69e2c78b3239ecfab21649",
            "164b7a7bfcf819e2e395fbe73b56e0a387bd64222e831fd610270cd7ea2505549758bf75c05a994a6d034f65f8f0e6fdcaeab1a34d4a6b4b636e070a38bce737",
        ),
        (
            [0xaa; 20].as_slice(),
            [0xdd; 50].as_slice(),
            "88062608d3e6ad8a0aa2ace014c8a86f0aa635d947ac9febe83ef4e55966144b2a5ab39dc13814b94e3ab6e101a34f27",
            "fa73b0089d56a284efb0f0756c890be9b1b5dbdd8ee81a3655f83e33b2279d39bf3e848279a722c806b485a47e67c807b946a337bee8942674278859e13292fb",
        ),
        (
            rising.as_slice(),
            [0xcd; 50].as_slice(),
            "3e8a69b7783c25851933ab6290af6ca77a9981480850009cc5577c6e1f573b4e6801dd23c4a7d679ccf8a386c674cffb",
            "b0ba465637458c6990e5a8c5f61d4af7e576d97ff94b872de76f8050361ee3dba91ca5c11aa25eb4d679275cc5788063a5f19741120c4f2de2adebeb10a298dd",
        ),
        (
            [0xaa; 131].as_slice(),
            b"Test Using Larger Than Block-Size Key - Hash Key First".as_slice(),
            "4ece084485813e9088d2c63a041bc5b44f9ef1012a2b588f3cd11f05033ac4c60c2ef6ab4030fe8296248df163f44952",
            "80b24263c7c1a3ebb71493c1dd7be8b49b46d1f41b4aeec1121b013783f8f3526b56d037e05f2598bd0fd2215d6a1e5295e64f73f63f0aec8b915a985d786598",
        ),
        (
            [0xaa; 131].as_slice(),
            b"This is a test using a larger than block-size key and a larger than block-size data. The key needs to be hashed before being used by the HMAC algorithm.".as_slice(),
            "6617178e941f020d351e2f254e8fd32c602420feb0b8fb9adccebb82461e99c5a678cc31e799176d3860e6110c46523e",
            "e37b6a775dc87dbaa4dfa9f96e5e3ffddebd71f8867289865df5a32d20cdc944b6022cac3c4982b10d5eeb55c3e4de15134676fb6de0446065c97440fa8c6a58",
        ),
    ];
    for (key, message, sha384, sha512) in cases {
        assert!(rt;
            shows(hmac_sha384(key, message).as_slice(), sha384),
            "{sha384}"
        );
        assert!(rt;
            shows(hmac_sha512(key, message).as_slice(), sha512),
            "{sha512}"
        );
    }
}
