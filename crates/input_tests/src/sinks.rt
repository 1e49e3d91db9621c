// Sinks in memory, and standard output.
use rsim_io::{MemSink, Sink, StdSink, StoreFault, SureSink};
use std::test::Fail;

#[test]
fn the_numbered_calls_write_nothing(rt: HostRuntime) -> Result<(), Fail> {
    let fails = [1].to_vec(rt.alloc())?;
    let mut sink = MemSink::make(rt.alloc(), fails)?;
    assert!(rt; sink.put(b"one") == Ok(()));
    assert!(rt; sink.put(b"two") == Err(StoreFault::Failed));
    assert!(rt; sink.put(b"three") == Ok(()));
    assert!(rt; sink.bytes() == b"onethree".as_slice());
    Ok(())
}

#[test]
fn all_is_written(rt: HostRuntime) -> Result<(), Fail> {
    let mut sink = SureSink::make(rt.alloc())?;
    assert!(rt; sink.put(b"one") == Ok(()));
    assert!(rt; sink.put(b"two") == Ok(()));
    assert!(rt; sink.bytes() == b"onetwo".as_slice());
    Ok(())
}

#[test]
fn standard_output_takes_a_line(rt: HostRuntime) -> Result<(), Fail> {
    let mut sink = StdSink::new(&rt);
    sink.put(b"a line\n")?;
    Ok(())
}
