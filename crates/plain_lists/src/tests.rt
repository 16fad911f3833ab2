//! What no clause says: how the bytes are printed. Each call once, with ample memory.
use crate::Bytes;
use std::test::Fail;

#[test]
fn bytes_are_lent_counted_and_given_back(rt: HostRuntime) -> Result<(), Fail> {
    let none = Bytes::new(rt.alloc());
    assert!(rt; none.is_empty());
    let bytes = Bytes::from_vec(Vec::from_slice(rt.alloc(), &[3, 0, 255])?);
    assert_eq!(rt; bytes.as_slice(), [3, 0, 255].as_slice());
    assert_eq!(rt; bytes.len(), 3);
    assert!(rt; !bytes.is_empty());
    assert!(rt; bytes != none);
    assert_eq!(rt; bytes.into_vec().as_slice(), [3, 0, 255].as_slice());
    Ok(())
}

#[test]
fn bytes_are_printed_with_their_name(rt: HostRuntime) -> Result<(), Fail> {
    let bytes = Bytes::from_vec(Vec::from_slice(rt.alloc(), &[3, 255])?);
    let printed = format!(in rt.alloc(); "{bytes:?}")?;
    assert_eq!(rt; printed.as_str(), "PlainList { inner: [3, 255] }");
    Ok(())
}
