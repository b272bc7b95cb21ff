//! Devices in memory that follow a script.
ghost use Rattle.std.specs.Prelude.{◌≡◌, ◌<◌, Some};

use babel_dump::{ByteIn, ByteOut};
use std::alloc::Global;
use std::io;
use std::io::ErrorKind;

/// Gives these octets, at most so many in each read, and one at least. One read may fail, counted
/// from 1.
#[derive(Drop)]
pub struct ScriptedIn<'a> {
    rest: &'a [u8],
    per_read: usize,
    failing_read: u64,
    failures: u64,
    reads: u64,
    ends: u64,
    ghost reads_some: { 0 < per_read },
}

impl<'a> ScriptedIn<'a> {
    pub fn new(octets: &'a [u8], per_read: usize, failing_read: u64) -> ScriptedIn<'a>
        ensures failures { result.failures ≡ 0 }
        ensures reads { result.reads ≡ 0 }
        ensures ends { result.ends ≡ 0 }
    {
        ScriptedIn {
            rest: octets,
            per_read: per_read.max(1),
            failing_read,
            failures: 0,
            reads: 0,
            ends: 0,
        }
    }

    pub fn reads(&self) -> u64 {
        self.reads
    }
}

impl ByteIn for ScriptedIn<'_> {
    ghost state = { λ d. record {
      left = Some d.rest.now;
      failures = d.failures;
      reads = d.reads;
      ends = d.ends;
    } };

    fn read(&mut self, buf: &mut [u8]) -> io::Result<usize> {
        self.reads += 1;
        if self.reads == self.failing_read {
            self.failures += 1;
            return Err(io::Error::from(ErrorKind::Other));
        }
        let n = self.per_read.min(self.rest.len()).min(buf.len());
        let (front, rest) = self.rest.split_at(n);
        buf[..n].copy_from_slice(front);
        self.rest = rest;
        if n == 0 && !buf.is_empty() {
            self.ends += 1;
        }
        Ok(n)
    }
}

/// Takes at most so many octets in each write. One call of `write` or `flush` may fail, counted
/// from 1.
#[derive(Drop)]
pub struct ScriptedOut {
    taken: Vec<u8>,
    per_write: usize,
    failing_call: u64,
    calls: u64,
    failures: u64,
    flushes: u64,
}

impl ScriptedOut {
    pub fn new(alloc: Global, per_write: usize, failing_call: u64) -> ScriptedOut
        ensures failures { result.failures ≡ 0 }
        ensures flushes { result.flushes ≡ 0 }
    {
        ScriptedOut {
            taken: Vec::new(alloc),
            per_write,
            failing_call,
            calls: 0,
            failures: 0,
            flushes: 0,
        }
    }

    pub fn taken(&self) -> &[u8] {
        &self.taken
    }

    pub fn into_taken(self) -> Vec<u8> {
        self.taken
    }
}

impl ByteOut for ScriptedOut {
    ghost state = { λ d. record {
      taken = Some d.taken.items;
      failures = d.failures;
      flushes = d.flushes;
    } };

    fn write(&mut self, buf: &[u8]) -> io::Result<usize> {
        self.calls = self.calls.saturating_add(1);
        let n = self.per_write.min(buf.len());
        if self.calls == self.failing_call || self.taken.extend_from_slice(&buf[..n]).is_err() {
            self.failures += 1;
            return Err(io::Error::from(ErrorKind::Other));
        }
        if n == 0 && !buf.is_empty() {
            self.failures += 1;
        }
        Ok(n)
    }

    fn flush(&mut self) -> io::Result<()> {
        self.calls = self.calls.saturating_add(1);
        self.flushes += 1;
        if self.calls == self.failing_call {
            self.failures += 1;
            return Err(io::Error::from(ErrorKind::Other));
        }
        Ok(())
    }
}
