use super::*;
use std::test::Fail;

#[test]
fn least_repeats_are_found(rt: HostRuntime) -> Result<(), Fail> {
    let alloc = rt.alloc();
    let found = least_repeat(alloc, &[7u32, 3, 9, 7, 3])?;
    assert!(rt; found == Some(&3));
    let found = least_repeat(alloc, &[7u32, 3, 9])?;
    assert!(rt; found.is_none());
    Ok(())
}
