//! Each call once, with ample memory.
use crate::{has, put_in, take_out};
use std::test::Fail;

#[test]
fn a_number_is_put_in_once_and_taken_out(rt: HostRuntime) -> Result<(), Fail> {
    let mut numbers = Vec::from_slice(rt.alloc(), &[0, 3, 7])?;
    numbers.reserve(1)?;
    put_in(&mut numbers, 5);
    put_in(&mut numbers, 5);
    assert_eq!(rt; numbers.as_slice(), [0, 3, 5, 7].as_slice());
    assert!(rt; has(&numbers, 5));
    assert!(rt; take_out(&mut numbers, 0));
    assert!(rt; !take_out(&mut numbers, 0));
    assert_eq!(rt; numbers.as_slice(), [3, 5, 7].as_slice());
    Ok(())
}
