use super::Seq;
use std::test::Fail;

#[test]
fn lists_grow_and_change(rt: HostRuntime) -> Result<(), Fail> {
    let mut list = Seq::new(rt.alloc());
    assert_eq!(rt; list.len(), 0);
    for item in 0..5000_i64 {
        list.push(item)?;
    }
    assert_eq!(rt; list.len(), 5000);
    list.set(4999, -1);
    if let Some(item) = list.get_mut(0) {
        *item = 7;
    }
    assert!(rt; list.get_mut(5000).is_none());
    list.as_mut_slice().reverse();
    let copy = list.try_copy()?;
    assert_eq!(rt; copy == list, true);
    let mut items = copy.into_vec();
    assert_eq!(rt; items.first(), Some(&-1));
    assert_eq!(rt; items.last(), Some(&7));
    assert_eq!(rt; items.get(2500), Some(&2499));
    assert_eq!(rt; items.len(), 5000);
    items.truncate(2);
    let short = Seq::from_vec(items);
    assert_eq!(rt; short.as_slice(), [-1, 4998].as_slice());
    assert_eq!(rt; short == list, false);
    Ok(())
}
