//! Lists and tables by themselves.

use crate::lists::Lists;
use crate::table::Table;
use std::test::Fail;

/// More numbers than there are places at first.
const MANY: u32 = 3_000;

#[test]
fn equal_lists_have_one_number(rt: HostRuntime) -> Result<(), Fail> {
    let mut lists = Lists::new(rt.alloc());
    assert_eq!(rt; lists.keep(&[])?, 0);
    assert_eq!(rt; lists.keep(&[3, 5])?, 1);
    assert_eq!(rt; lists.keep(&[5, 3])?, 2);
    assert_eq!(rt; lists.keep(&[3])?, 3);
    assert_eq!(rt; lists.keep(&[3, 5])?, 1);
    Ok(())
}

#[test]
fn a_list_stands_under_its_number(rt: HostRuntime) -> Result<(), Fail> {
    let mut lists = Lists::new(rt.alloc());
    let _short = lists.keep(&[7])?;
    let long = lists.keep(&[7, 8, 9])?;
    assert!(rt; lists.at(long) == [7, 8, 9].as_slice());
    assert!(rt; lists.bytes() > 0);
    Ok(())
}

#[test]
fn many_lists_are_found_again(rt: HostRuntime) -> Result<(), Fail> {
    let mut lists = Lists::new(rt.alloc());
    for n in 0..MANY {
        let _number = lists.keep(&[n, 1])?;
    }
    for n in 0..MANY {
        assert_eq!(rt; lists.keep(&[n, 1])?, n + 1);
    }
    Ok(())
}

#[test]
fn a_table_answers_what_it_was_told(rt: HostRuntime) -> Result<(), Fail> {
    let mut table = Table::new(rt.alloc());
    assert_eq!(rt; table.get(0, 0), None);
    for n in 0..MANY {
        table.tell(rt.alloc(), n, 7, n / 2)?;
    }
    for n in 0..MANY {
        assert_eq!(rt; table.get(n, 7), Some(n / 2));
        assert_eq!(rt; table.get(7, n + 8), None);
    }
    Ok(())
}
