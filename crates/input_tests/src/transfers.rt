// Bytes from a reader and to a writer that fail.
ghost use Rattle.std.specs.Prelude.{◌≤◌, IfOk};

use rsim_io::transfers::{read_up_to, write_whole};
use rsim_io::{FetchFault, StoreFault};
use std::io::{self, ErrorKind, Read, Write};
use std::test::Fail;

// A file that gives or takes one byte a call, until the call that fails.
#[derive(Drop)]
struct Faulty {
    calls_left: u32,
}

impl Faulty {
    fn one_byte(&mut self, room: usize) -> io::Result<usize>
        ensures { IfOk result (λ count. count ≤ room) }
    {
        if self.calls_left == 0 {
            return Err(ErrorKind::Other.into());
        }
        self.calls_left -= 1;
        Ok(room.min(1))
    }
}

impl Read for Faulty {
    fn read(&mut self, buf: &mut [u8]) -> io::Result<usize> {
        self.one_byte(buf.len())
    }
}

impl Write for Faulty {
    fn write(&mut self, buf: &[u8]) -> io::Result<usize> {
        self.one_byte(buf.len())
    }

    fn flush(&mut self) -> io::Result<()> {
        Ok(())
    }
}

#[test]
fn a_fault_in_the_middle_is_no_end_of_the_file(rt: HostRuntime) -> Result<(), Fail> {
    let mut into = Vec::new(rt.alloc());
    let fetched = read_up_to(&mut Faulty { calls_left: 3 }, &mut into, 100);
    assert!(rt; fetched == Err(FetchFault::Failed));
    let mut file = Faulty { calls_left: 3 };
    assert!(rt; write_whole(&mut file, b"one") == Ok(()));
    assert!(rt; write_whole(&mut file, b"two") == Err(StoreFault::Failed));
    Ok(())
}
