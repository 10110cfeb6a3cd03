use crate::names::Names;
use rl_defs::name::Name;
use std::process::Abort;
use std::test::Fail;

#[test]
fn places_of_names(rt: HostRuntime) -> Result<(), Fail> {
    let a = Name::read(b"a").ok_or("no name")?;
    let b = Name::read(b"b").ok_or("no name")?;
    let ab = Name::read(b"ab").ok_or("no name")?;
    let mut names = Names::new(rt.alloc());
    assert_eq!(rt; names.add(&a)?, None);
    assert_eq!(rt; names.add(&b)?, None);
    assert_eq!(rt; names.add(&a)?, Some(0));
    assert_eq!(rt; names.add(&b)?, Some(1));
    assert_eq!(rt; names.place(&b), Some(1));
    assert_eq!(rt; names.place(&ab), None);
    assert_eq!(rt; names.add(&ab)?, None);
    assert_eq!(rt; names.place(&ab), Some(4));
    assert_eq!(rt; names.len(), 5);
    Ok(())
}

#[test]
fn tables_used_again(rt: HostRuntime) -> Result<(), Fail> {
    let a = Name::read(b"a").ok_or("no name")?;
    let b = Name::read(b"b").ok_or("no name")?;
    let mut names = Names::with_room(rt.alloc(), 2);
    assert_eq!(rt; names.add(&a)?, None);
    names.clear();
    assert_eq!(rt; names.len(), 0);
    assert_eq!(rt; names.place(&a), None);
    assert_eq!(rt; names.add(&b)?, None);
    assert_eq!(rt; names.place(&b), Some(0));
    Ok(())
}
