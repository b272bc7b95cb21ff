ghost use Rattle.std.specs.Prelude.{◌≡◌, ◌+◌, ◌-◌, ◌^◌, ◌<◌, length};
ghost use Rattle.std.specs.Io.{ReadsAtMost};
ghost use Rattle.babel_dump.specs.Device.{InputState, ReadGave, failed_calls, ended_reads};

use std::io;
use std::io::Read;

/// A device that gives octets, as std's `Read` does, with counts that contracts alone see.
pub trait ByteIn {
    // The octets that are left to give, where the device says them, how many calls failed, how many
    // reads there were, and how many of them met the end.
    ghost state: { Self → InputState };

    /// Gives its next octets, at least one where there are more and the buffer isn't empty.
    ///
    /// # Errors
    ///
    /// What the device answers in place of octets.
    fn read(&mut self, buf: &mut [u8]) -> io::Result<usize>
        requires few_failures { (state self.old).failures < 2 ^ 64 - 1 }
        requires few_reads { (state self.old).reads < 2 ^ 64 - 1 }
        requires few_ends { (state self.old).ends < 2 ^ 64 - 1 }
        ensures bound { ReadsAtMost result buf.new }
        ensures octets { ReadGave (state self.old) (state self.new) result buf.new }
        ensures counts_failure { (state self.new).failures
            ≡ (state self.old).failures + failed_calls result }
        ensures counts_read { (state self.new).reads ≡ (state self.old).reads + 1 }
        ensures counts_end { (state self.new).ends
            ≡ (state self.old).ends + ended_reads result (length buf.old) };
}

/// A device over any reader of std.
#[derive(Drop)]
pub struct FromReader<R: Read> {
    reader: R,
    failures: u64,
    reads: u64,
    ends: u64,
}

impl<R: Read> FromReader<R> {
    /// A device that gives what the reader gives, and has counted nothing.
    pub fn new(reader: R) -> FromReader<R>
        ensures { ⟦<FromReader<R> as ByteIn>⟧.state result ≡ record {
          left = R.remaining reader;
          failures = 0;
          reads = 0;
          ends = 0;
        } }
    {
        FromReader {
            reader,
            failures: 0,
            reads: 0,
            ends: 0,
        }
    }
}

impl<R: Read> ByteIn for FromReader<R> {
    ghost state = { λ d. record {
      left = R.remaining d.reader;
      failures = d.failures;
      reads = d.reads;
      ends = d.ends;
    } };

    fn read(&mut self, buf: &mut [u8]) -> io::Result<usize> {
        self.reads += 1;
        match self.reader.read(buf) {
            Ok(n) => {
                if n == 0 && !buf.is_empty() {
                    self.ends += 1;
                }
                Ok(n)
            }
            Err(error) => {
                self.failures += 1;
                Err(error)
            }
        }
    }
}
