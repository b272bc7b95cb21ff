ghost use Rattle.std.specs.Prelude.{◌≡◌, ◌+◌, ◌-◌, ◌^◌, ◌<◌, length};
ghost use Rattle.std.specs.Io.{WritesAtMost};
ghost use Rattle.std.specs.Io.KnownBytes.{Keeps, WriteAppends};
ghost use Rattle.babel_dump.specs.Device.{OutputState, failed_writes, failed_calls};

use std::io;
use std::io::Write;

/// A device that takes octets, as std's `Write` does, with counts that contracts alone see.
pub trait ByteOut {
    // The octets that were taken, where the device says them, how many calls failed, and how many
    // flushes there were.
    ghost state: { Self → OutputState };

    /// Takes some of the first octets, and says how many.
    ///
    /// # Errors
    ///
    /// What the device answers in place of a number. It has then taken nothing.
    fn write(&mut self, buf: &[u8]) -> io::Result<usize>
        requires { (state self.old).failures < 2 ^ 64 - 1 }
        ensures bound { WritesAtMost result buf.now }
        ensures octets { WriteAppends (state self.old).taken (state self.new).taken result buf.now }
        ensures counts_failure { (state self.new).failures
            ≡ (state self.old).failures + failed_writes result (length buf.now) }
        ensures no_flush { (state self.new).flushes ≡ (state self.old).flushes };

    /// Sends on what was taken.
    ///
    /// # Errors
    ///
    /// What the device answers where it can't.
    fn flush(&mut self) -> io::Result<()>
        requires few_failures { (state self.old).failures < 2 ^ 64 - 1 }
        requires few_flushes { (state self.old).flushes < 2 ^ 64 - 1 }
        ensures octets { Keeps (state self.old).taken (state self.new).taken }
        ensures counts_failure { (state self.new).failures
            ≡ (state self.old).failures + failed_calls result }
        ensures counts_flush { (state self.new).flushes ≡ (state self.old).flushes + 1 };
}

/// A device over any writer of std.
#[derive(Drop)]
pub struct FromWriter<W: Write> {
    writer: W,
    failures: u64,
    flushes: u64,
}

impl<W: Write> FromWriter<W> {
    /// A device that hands all to the writer, and has counted nothing.
    pub fn new(writer: W) -> FromWriter<W>
        ensures { ⟦<FromWriter<W> as ByteOut>⟧.state result ≡ record {
          taken = W.contents writer;
          failures = 0;
          flushes = 0;
        } }
    {
        FromWriter {
            writer,
            failures: 0,
            flushes: 0,
        }
    }
}

impl<W: Write> ByteOut for FromWriter<W> {
    ghost state = { λ d. record {
      taken = W.contents d.writer;
      failures = d.failures;
      flushes = d.flushes;
    } };

    fn write(&mut self, buf: &[u8]) -> io::Result<usize> {
        match self.writer.write(buf) {
            Ok(n) => {
                if n == 0 && !buf.is_empty() {
                    self.failures += 1;
                }
                Ok(n)
            }
            Err(error) => {
                self.failures += 1;
                Err(error)
            }
        }
    }

    fn flush(&mut self) -> io::Result<()> {
        self.flushes += 1;
        let flushed = self.writer.flush();
        if flushed.is_err() {
            self.failures += 1;
        }
        flushed
    }
}
