//! RFC 6979, section A.2.6: P-384 with SHA-384.

use hex::FromHex;
use p384_ecdsa::{BaseTable, public_key, sign_checked, verify};

const PRIVATE: &str =
    "6b9d3dad2e1b8c1c05b19875b6659f4de23c3b667bf297ba9aa47740787137d896d5724e4c70a825f872c9ea60d2edf5";

// 04, Ux and Uy.
const PUBLIC: &str =
    "04ec3a4e415b4e19a4568618029f427fa5da9a8bc4ae92e02e06aae5286b300c64def8f0ea9055866064a254515480bc138015d9b72d7d57244ea8ef9ac0c621896708a59367f9dfb9f54ca84b3f1c9db1288b231c3ae0d4fe7344fd2533264720";

// Message, and r and s.
const ROWS: [(&str, &str); 2] = [
    (
        "sample",
        "94edbb92a5ecb8aad4736e56c691916b3f88140666ce9fa73d64c4ea95ad133c81a648152e44acf96e36dd1e80fabe4699ef4aeb15f178cea1fe40db2603138f130e740a19624526203b6351d0a3a94fa329c145786e679e7b82c71a38628ac8",
    ),
    (
        "test",
        "8203b63d3c853e8d77227fb377bcf7b7b772e97892a80f36ab775d509d7a5feb0542a7f0812998da8f1dd3ca3cf023dbddd0760448d42d8a43af45af836fce4de8be06b485e9b61b827c2f13173923e06a739f040649a667bf3b828246baa5a5",
    ),
];

// Whether the three calls give what a row says.
fn agrees(table: &BaseTable, message: &str, signed: &str) -> bool {
    let Ok(private) = <[u8; 48] as FromHex>::from_hex(PRIVATE) else {
        return false;
    };
    let Ok(public) = <[u8; 97] as FromHex>::from_hex(PUBLIC) else {
        return false;
    };
    let Ok(signature) = <[u8; 96] as FromHex>::from_hex(signed) else {
        return false;
    };
    let message = message.as_bytes();
    public_key(table, &private) == Some(public)
        && sign_checked(table, &private, &public, message) == Some(signature)
        && verify(table, &public, message, &signature)
}

#[test]
fn the_vectors_of_rfc_6979_come_out(rt: HostRuntime) {
    let table = BaseTable::new(rt.alloc()).expect(&rt, "memory");
    for (message, signed) in ROWS {
        assert!(rt; agrees(&table, message, signed), "{message}");
    }
}
