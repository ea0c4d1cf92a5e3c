//! Items that are added to a list.
use dd_views::Items;
use std::test::Fail;

#[test]
fn items_are_added(rt: HostRuntime) -> Result<(), Fail> {
    let mut items = Items::of(vec![in rt.alloc(); 5, 6]?);
    items.push(7)?;
    assert_eq!(rt; items.as_slice(), [5, 6, 7].as_slice());
    Ok(())
}
