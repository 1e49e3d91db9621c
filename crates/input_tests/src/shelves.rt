// Shelves in memory and of real files.
use rsim_io::{FetchFault, FileShelf, MemShelf, Shelf, StoreFault, SureShelf};
use std::alloc::Global;
use std::test::Fail;

fn shelf_failing_at(alloc: Global, fails: &[u32]) -> Result<MemShelf, Fail> {
    let fails = fails.to_vec(alloc)?;
    Ok(MemShelf::make(alloc, fails)?)
}

#[test]
fn fetch_gives_the_file_up_to_the_limit_and_one_byte_past_it(rt: HostRuntime) -> Result<(), Fail> {
    let mut shelf = shelf_failing_at(rt.alloc(), &[])?;
    shelf.set("kernel", b"bytes")?;
    let mut whole = Vec::new(rt.alloc());
    assert!(rt; shelf.fetch("kernel", &mut whole, 5) == Ok(()));
    assert!(rt; whole.as_slice() == b"bytes".as_slice());
    let mut past = Vec::new(rt.alloc());
    assert!(rt; shelf.fetch("kernel", &mut past, 4) == Err(FetchFault::TooLarge));
    assert!(rt; past.as_slice() == b"bytes".as_slice());
    let mut start = Vec::new(rt.alloc());
    assert!(rt; shelf.fetch("kernel", &mut start, 0) == Err(FetchFault::TooLarge));
    assert!(rt; start.as_slice() == b"b".as_slice());
    Ok(())
}

#[test]
fn append_makes_a_file_and_create_empties_it(rt: HostRuntime) -> Result<(), Fail> {
    let mut shelf = shelf_failing_at(rt.alloc(), &[])?;
    shelf.append("log", b"one")?;
    shelf.append("log", b"two")?;
    assert!(rt; shelf.file("log").ok_or("not held")? == b"onetwo".as_slice());
    shelf.create("log")?;
    assert!(rt; shelf.file("log").ok_or("not held")? == b"".as_slice());
    assert!(rt; shelf.file("other").is_none());
    let mut into = Vec::new(rt.alloc());
    assert!(rt; shelf.fetch("other", &mut into, 9) == Err(FetchFault::Failed));
    Ok(())
}

#[test]
fn the_numbered_calls_fail_and_no_others(rt: HostRuntime) -> Result<(), Fail> {
    let mut shelf = shelf_failing_at(rt.alloc(), &[3, 1])?;
    assert!(rt; shelf.append("log", b"a") == Ok(()));
    assert!(rt; shelf.append("log", b"b") == Err(StoreFault::Failed));
    assert!(rt; shelf.append("log", b"c") == Ok(()));
    assert!(rt; shelf.create("log") == Err(StoreFault::Failed));
    let mut into = Vec::new(rt.alloc());
    assert!(rt; shelf.fetch("log", &mut into, 9) == Ok(()));
    assert!(rt; into.as_slice() == b"ac".as_slice());
    Ok(())
}

#[test]
fn only_a_fetch_of_what_is_not_held_fails(rt: HostRuntime) -> Result<(), Fail> {
    let mut shelf = SureShelf::make(rt.alloc())?;
    shelf.set("kernel", b"bytes")?;
    let mut whole = Vec::new(rt.alloc());
    assert!(rt; shelf.fetch("kernel", &mut whole, 5) == Ok(()));
    assert!(rt; whole.as_slice() == b"bytes".as_slice());
    let mut past = Vec::new(rt.alloc());
    assert!(rt; shelf.fetch("kernel", &mut past, 2) == Err(FetchFault::TooLarge));
    assert!(rt; past.as_slice() == b"byt".as_slice());
    let mut none = Vec::new(rt.alloc());
    assert!(rt; shelf.fetch("log", &mut none, 9) == Err(FetchFault::Failed));
    assert!(rt; shelf.append("log", b"one") == Ok(()));
    assert!(rt; shelf.append("log", b"two") == Ok(()));
    assert!(rt; shelf.file("log").ok_or("not held")? == b"onetwo".as_slice());
    assert!(rt; shelf.create("log") == Ok(()));
    assert!(rt; shelf.file("log").ok_or("not held")? == b"".as_slice());
    assert!(rt; shelf.file("other").is_none());
    Ok(())
}

#[test]
fn a_file_is_made_grown_and_fetched(rt: HostRuntime) -> Result<(), Fail> {
    let mut shelf = FileShelf::new(&rt);
    shelf.create("piece")?;
    shelf.append("piece", b"one ")?;
    shelf.append("piece", b"two")?;
    let mut whole = Vec::new(rt.alloc());
    assert!(rt; shelf.fetch("piece", &mut whole, 7) == Ok(()));
    assert!(rt; whole.as_slice() == b"one two".as_slice());
    let mut start = Vec::new(rt.alloc());
    assert!(rt; shelf.fetch("piece", &mut start, 6) == Err(FetchFault::TooLarge));
    assert!(rt; start.as_slice() == b"one two".as_slice());
    assert!(rt; shelf.faults() == 0);
    Ok(())
}

#[test]
fn a_file_that_has_bytes_is_emptied_when_it_is_made_again(rt: HostRuntime) -> Result<(), Fail> {
    let mut shelf = FileShelf::new(&rt);
    shelf.append("again", b"old bytes")?;
    shelf.create("again")?;
    let mut whole = Vec::new(rt.alloc());
    assert!(rt; shelf.fetch("again", &mut whole, 100) == Ok(()));
    assert!(rt; whole.len() == 0);
    shelf.append("again", b"new")?;
    assert!(rt; shelf.fetch("again", &mut whole, 100) == Ok(()));
    assert!(rt; whole.as_slice() == b"new".as_slice());
    Ok(())
}

#[test]
fn a_missing_file_is_counted_as_a_fault(rt: HostRuntime) -> Result<(), Fail> {
    let mut shelf = FileShelf::new(&rt);
    let mut into = Vec::new(rt.alloc());
    assert!(rt; shelf.fetch("missing", &mut into, 100) == Err(FetchFault::Failed));
    assert!(rt; shelf.faults() == 1);
    Ok(())
}
