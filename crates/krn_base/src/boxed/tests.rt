use super::Boxed;
use std::test::Fail;

#[test]
fn boxes_hold_their_value(rt: HostRuntime) -> Result<(), Fail> {
    let seven = Boxed::new(rt.alloc(), 7_u32)?;
    let other = Boxed::new(rt.alloc(), 8_u32)?;
    assert_eq!(rt; *seven.get(), 7);
    assert_eq!(rt; seven == other, false);
    assert_eq!(rt; other.into_inner(), 8);
    Ok(())
}
