use px_workload::{Change, Journal, Live};
use px_xpath::{ParseFault, parse};
use std::alloc::{AllocError, Global};
use std::test::Fail;

// Accepts a filter, where the limits allow it.
fn add(alloc: Global, journal: &mut Journal, text: &[u8]) -> Result<Option<u32>, ParseFault> {
    let filter = parse(alloc, text)?;
    Ok(accept(journal, Change::Add { who: 0, filter })?)
}

// Drops a filter, where it is live.
fn drop_out(journal: &mut Journal, id: u32) -> Result<Option<u32>, AllocError> {
    accept(journal, Change::Drop { who: 0, id })
}

// Accepts a change, where it may come.
fn accept(journal: &mut Journal, change: Change) -> Result<Option<u32>, AllocError> {
    if journal.refusal(&change).is_some() {
        return Ok(None);
    }
    journal.reserve()?;
    Ok(Some(journal.append(change)))
}

// What would be live behind a drop, where its id is live.
fn behind_drop(alloc: Global, journal: &Journal, id: u32) -> Result<Option<Live>, AllocError> {
    let change = Change::Drop { who: 0, id };
    if journal.refusal(&change).is_some() {
        return Ok(None);
    }
    Ok(Some(journal.snapshot_after(alloc, &change)?))
}

// The id of a list's only filter.
fn only_id(live: &Live) -> Option<u32> {
    match live.as_slice() {
        [only] => Some(only.id),
        _ => None,
    }
}

#[test]
fn a_dropped_filter_is_live_no_more(rt: HostRuntime) -> Result<(), Fail> {
    let alloc = rt.alloc();
    let mut journal = Journal::new(alloc);
    assert_eq!(rt; add(alloc, &mut journal, b"/a")?, Some(1));
    assert_eq!(rt; add(alloc, &mut journal, b"/b/c")?, Some(2));
    assert_eq!(rt; drop_out(&mut journal, 1)?, Some(3));
    assert_eq!(rt; journal.version(), 3);
    assert_eq!(rt; journal.live_size(), 2);
    assert!(rt; !journal.is_live(1));
    let live = journal.snapshot(alloc)?;
    assert_eq!(rt; only_id(&live), Some(2));
    assert_eq!(rt; only_id(&live.copy(alloc)?), Some(2));
    let behind = behind_drop(alloc, &journal, 2)?;
    assert!(rt; behind.is_some_and(|live| live.as_slice().is_empty()));
    Ok(())
}
