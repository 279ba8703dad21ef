//! A full log.
use sal_owner::{MAX_ENTRIES, OwnerBook, OwnerFault};
use std::alloc::Global;
use std::test::Fail;

// Takes changes until the log is full, or a call is refused.
fn fill(book: &mut OwnerBook, alloc: Global) -> Result<(), OwnerFault> {
    for _ in 0..MAX_ENTRIES {
        book.changes(alloc, 0)?;
    }
    Ok(())
}

// Whether one more call finds the log full.
fn is_refused(book: &mut OwnerBook, alloc: Global) -> bool {
    match book.changes(alloc, 1) {
        Ok(_) => false,
        Err(fault) => fault == OwnerFault::LogFull,
    }
}

#[test]
fn a_full_log_takes_no_call(rt: HostRuntime) -> Result<(), Fail> {
    let mut book = OwnerBook::new(rt.alloc());
    if fill(&mut book, rt.alloc()).is_err() {
        return Err("a call before the log was full".into());
    }
    if !is_refused(&mut book, rt.alloc()) || book.log().len() != MAX_ENTRIES {
        return Err("a full log".into());
    }
    Ok(())
}
