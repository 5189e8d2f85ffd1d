// A list fills up to its capacity and no further, and a copy goes its own way.
use crate::*;
use std::test::Fail;

#[test]
fn filled_and_copied(rt: HostRuntime) -> Result<(), Fail> {
    let mut list = InlineList::<u8, 3>::new();
    assert_eq!(rt; list.as_slice(), [].as_slice());
    assert_eq!(rt; list.try_extend_from_slice(&[1, 2]), Ok(()));
    let mut twin = list;
    assert_eq!(rt; list.try_extend_from_slice(&[3, 4]), Err(NoRoom));
    assert_eq!(rt; list.try_push(3), Ok(()));
    assert_eq!(rt; list.try_push(4), Err(NoRoom));
    assert_eq!(rt; list.as_slice(), [1, 2, 3].as_slice());
    assert_eq!(rt; twin.as_slice(), [1, 2].as_slice());
    twin.clear();
    assert_eq!(rt; twin.as_slice(), [].as_slice());
    assert_eq!(rt; twin.try_extend_from_slice(list.as_slice()), Ok(()));
    assert_eq!(rt; twin.as_slice(), list.clone()?.as_slice());
    Ok(())
}
