//! RFC 6979, section A.2.7: P-521 with SHA-512.

use hex::FromHex;
use p521_ecdsa::{BaseTable, public_key, sign_checked, verify};

const PRIVATE: &str =
    "00fad06daa62ba3b25d2fb40133da757205de67f5bb0018fee8c86e1b68c7e75caa896eb32f1f47c70855836a6d16fcc1466f6d8fbec67db89ec0c08b0e996b83538";

// 04, Ux and Uy.
const PUBLIC: &str =
    "0401894550d0785932e00eaa23b694f213f8c3121f86dc97a04e5a7167db4e5bcd371123d46e45db6b5d5370a7f20fb633155d38ffa16d2bd761dcac474b9a2f5023a400493101c962cd4d2fddf782285e64584139c2f91b47f87ff82354d6630f746a28a0db25741b5b34a828008b22acc23f924faafbd4d33f81ea66956dfeaa2bfdfcf5";

// Message, and r and s.
const ROWS: [(&str, &str); 2] = [
    (
        "sample",
        "00c328fafcbd79dd77850370c46325d987cb525569fb63c5d3bc53950e6d4c5f174e25a1ee9017b5d450606add152b534931d7d4e8455cc91f9b15bf05ec36e377fa00617cce7cf5064806c467f678d3b4080d6f1cc50af26ca209417308281b68af282623eaa63e5b5c0723d8b8c37ff0777b1a20f8ccb1dccc43997f1ee0e44da4a67a",
    ),
    (
        "test",
        "013e99020abf5cee7525d16b69b229652ab6bdf2affcaef38773b4b7d08725f10cdb93482fdcc54edcee91eca4166b2a7c6265ef0ce2bd7051b7cef945babd47ee6d01fbd0013c674aa79cb39849527916ce301c66ea7ce8b80682786ad60f98f7e78a19ca69eff5c57400e3b3a0ad66ce0978214d13baf4e9ac60752f7b155e2de4dce3",
    ),
];

// Whether the three calls give what a row says.
fn agrees(table: &BaseTable, message: &str, signed: &str) -> bool {
    let Ok(private) = <[u8; 66] as FromHex>::from_hex(PRIVATE) else {
        return false;
    };
    let Ok(public) = <[u8; 133] as FromHex>::from_hex(PUBLIC) else {
        return false;
    };
    let Ok(signature) = <[u8; 132] as FromHex>::from_hex(signed) else {
        return false;
    };
    let message = message.as_bytes();
    public_key(table, &private) == Some(public)
        && sign_checked(table, &private, &public, message) == Some(signature)
        && verify(table, &public, message, &signature)
}

#[test]
fn the_vectors_of_rfc_6979_come_out(rt: HostRuntime) {
    let table = BaseTable::new(rt.alloc()).expect(&rt, "memory");
    for (message, signed) in ROWS {
        assert!(rt; agrees(&table, message, signed), "{message}");
    }
}
