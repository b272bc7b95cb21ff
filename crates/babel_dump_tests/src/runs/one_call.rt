//! One call of a device over a reader or a writer of std is one call of that, whose answer it
//! gives: no clause says so.
use babel_dump::{ByteIn, ByteOut, FromReader, FromWriter};
use std::io;
use std::io::{ErrorKind, Read, Write};
use std::test::Fail;

/// Gives the number of the call in each read, and takes as many octets in each write. One call
/// fails, if any.
#[derive(Drop)]
pub struct Numbered {
    calls: u8,
    failing_call: u8,
}

impl Numbered {
    pub fn failing_at(failing_call: u8) -> Numbered {
        Numbered {
            calls: 0,
            failing_call,
        }
    }

    /// Counts a call, and fails at the one that is to fail.
    fn call(&mut self) -> io::Result<()> {
        self.calls = self.calls.saturating_add(1);
        if self.calls == self.failing_call {
            return Err(io::Error::from(ErrorKind::TimedOut));
        }
        Ok(())
    }
}

impl Read for Numbered {
    fn read(&mut self, buf: &mut [u8]) -> io::Result<usize> {
        self.call()?;
        if buf.is_empty() {
            return Ok(0);
        }
        buf[0] = self.calls;
        Ok(1)
    }
}

impl Write for Numbered {
    fn write(&mut self, buf: &[u8]) -> io::Result<usize> {
        self.call()?;
        Ok(buf.len().min(self.calls as usize))
    }

    fn flush(&mut self) -> io::Result<()> {
        self.call()
    }
}

/// How many octets a call moved, none by a flush; or how it failed.
type Moved = Result<usize, ErrorKind>;

fn moved(call: io::Result<usize>) -> Moved {
    call.map_err(|error| error.kind())
}

/// What the first three reads of a device moved, and the first octet after them.
fn three_reads(failing_call: u8) -> ([Moved; 3], u8) {
    let mut reader = FromReader::new(Numbered::failing_at(failing_call));
    let mut buf = [0; 8];
    let first = moved(reader.read(&mut buf));
    let second = moved(reader.read(&mut buf));
    let third = moved(reader.read(&mut buf));
    ([first, second, third], buf[0])
}

#[test]
fn each_read_is_one_call(rt: HostRuntime) -> Result<(), Fail> {
    let failed = Err(ErrorKind::TimedOut);
    assert_eq!(rt; three_reads(0), ([Ok(1), Ok(1), Ok(1)], 3));
    assert_eq!(rt; three_reads(1), ([failed, Ok(1), Ok(1)], 3));
    assert_eq!(rt; three_reads(2), ([Ok(1), failed, Ok(1)], 3));
    assert_eq!(rt; three_reads(3), ([Ok(1), Ok(1), failed], 2));
    Ok(())
}

/// What a write, a flush and a write of a device moved.
fn write_flush_write(failing_call: u8) -> [Moved; 3] {
    let mut writer = FromWriter::new(Numbered::failing_at(failing_call));
    let first = moved(writer.write(b"12345678"));
    let flushed = moved(writer.flush().map(|()| 0));
    let second = moved(writer.write(b"12345678"));
    [first, flushed, second]
}

#[test]
fn each_write_and_each_flush_is_one_call(rt: HostRuntime) -> Result<(), Fail> {
    let failed = Err(ErrorKind::TimedOut);
    assert_eq!(rt; write_flush_write(0), [Ok(1), Ok(0), Ok(3)]);
    assert_eq!(rt; write_flush_write(1), [failed, Ok(0), Ok(3)]);
    assert_eq!(rt; write_flush_write(2), [Ok(1), failed, Ok(3)]);
    assert_eq!(rt; write_flush_write(3), [Ok(1), Ok(0), failed]);
    Ok(())
}
