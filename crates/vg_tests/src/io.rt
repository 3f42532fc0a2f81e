//! What no clause and no row says: that a reader and a writer of std are handed on, and that their failures are told.

use std::io;
use std::io::{ErrorKind, Read};
use std::test::Fail;
use vg_io::{Source, StdSink, StdSource, read_all, write_all};

/// A reader that is interrupted, then gives three bytes, one at a time, and its end, and then fails.
#[derive(Drop)]
struct Slow {
    calls: u8,
}

impl Read for Slow {
    fn read(&mut self, buf: &mut [u8]) -> io::Result<usize> {
        self.calls = self.calls.saturating_add(1);
        match self.calls {
            1 => Err(io::Error::from(ErrorKind::Interrupted)),
            2..=4 => {
                buf.fill(self.calls);
                Ok(buf.len().min(1))
            }
            5 => Ok(0),
            _ => Err(io::Error::from(ErrorKind::BrokenPipe)),
        }
    }
}

#[test]
fn reads_a_reader(rt: HostRuntime) -> Result<(), Fail> {
    let mut slow = StdSource::new(Slow { calls: 0 });
    let read = read_all(rt.alloc(), &mut slow, 9)?;
    assert!(rt; read.as_slice() == [2, 3, 4].as_slice());
    assert!(rt; slow.read(&mut [0]).is_err());
    Ok(())
}

#[test]
fn writes_a_writer(rt: HostRuntime) -> Result<(), Fail> {
    let mut written = Vec::new(rt.alloc());
    write_all(&mut StdSink::new(&mut written), b"end\n")?;
    assert!(rt; written.as_slice() == b"end\n".as_slice());
    let mut room = [0u8; 2];
    let mut full = StdSink::new(room.as_mut_slice());
    assert!(rt; write_all(&mut full, b"end\n").is_err());
    Ok(())
}
