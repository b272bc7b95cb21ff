//! What an input is, by its first octets.
ghost use Rattle.std.specs.Prelude.{◌≡◌, ◌⊎◌, ◌≤◌, IfOk, false, length, take, true};
ghost use Rattle.std.specs.Io.{ReadsAtMost};
ghost use Rattle.std.specs.Io.Chain.{chain_second};
ghost use Rattle.std.specs.Io.KnownBytes.{Consumes, IsAtEnd, Keeps, ReadConsumes};
ghost use Rattle.std.specs.Io.KnownBytes.{prepend_known};
ghost use Rattle.babel_dump.specs.Begun.{BeginsSo, begins_capture, begins_dump, begins_with};
ghost use Rattle.babel_dump.specs.Device.{HasRoomToCount};

use crate::byte_in::{ByteIn, FromReader};
use std::io;
use std::io::{Chain, Cursor, ErrorKind, Read, Take};

/// How many of a stream's first octets are looked at: enough to tell text from other octets.
const FIRST: usize = 64;

/// How many octets tell a capture.
const MAGIC: usize = 4;

/// The first octets of captures: pcapng, and pcap in either byte order, with microseconds or
/// nanoseconds.
const CAPTURES: [[u8; MAGIC]; 5] = [
    [0x0a, 0x0d, 0x0d, 0x0a],
    [0xd4, 0xc3, 0xb2, 0xa1],
    [0xa1, 0xb2, 0xc3, 0xd4],
    [0x4d, 0x3c, 0xb2, 0xa1],
    [0xa1, 0xb2, 0x3c, 0x4d],
];

/// The first octets of dumps: Magic and Version (RFC 8966, 4.2).
const DUMP: [u8; 2] = [42, 2];

/// What the first octets of a stream are.
#[derive(Clone, Copy)]
pub enum Begins {
    /// Those of a capture: pcapng, or pcap in either byte order.
    Capture,
    /// Those of a dump, or fewer than tell one.
    Dump,
    /// Others.
    Other,
    /// Not known, since a read of them failed.
    Failed,
}

/// What comes after the first octets of a stream. Where a read of these failed, each later one
/// fails, too.
#[derive(Drop)]
pub struct Rest<R> {
    reader: R,
    has_failed: bool,
}

impl<R: Read> Read for Rest<R> {
    ghost remaining = { λ rest. R.remaining rest.reader };

    fn read(&mut self, buf: &mut [u8]) -> io::Result<usize>
        ensures bound { ReadsAtMost result buf.new }
        ensures bytes { ReadConsumes (R.remaining self.old.reader) (R.remaining self.new.reader)
            result buf.new }
        ensures failed { self.old.has_failed ≡ true → IfOk result (λ _. ⊥) }
    {
        if self.has_failed {
            return Err(io::Error::from(ErrorKind::Other));
        }
        self.reader.read(buf)
    }
}

/// A stream from its beginning, of which the first octets were read.
pub type Whole<R> = Chain<Take<Cursor<[u8; FIRST]>>, Rest<R>>;

/// A stream whose first octets were looked at, which tell whether it is a capture.
#[derive(Drop)]
pub struct Begun<R> {
    begins: Begins,
    stream: Whole<R>,
}

impl<R: Read> Begun<R> {
    /// Looks at the first octets; at fewer where it ends or a read fails before.
    pub fn new(reader: R) -> Begun<R>
        ensures kept { Keeps (R.remaining reader) (⟦<Whole<R> as Read>⟧.remaining result.stream) }
        ensures begins { BeginsSo (R.remaining reader) result.begins }
        ensures failed { result.begins ≡ Begins.Failed
            → (chain_second result.stream).has_failed ≡ true }
    {
        let mut reader = reader;
        let mut first = [0; FIRST];
        let (len, has_failed) = read_first(&mut reader, &mut first);
        Begun {
            begins: told_by(&first[..len], has_failed),
            stream: whole(first, len, Rest { reader, has_failed }),
        }
    }

    /// A stream whose first octets are not looked at.
    pub fn unread(reader: R) -> Begun<R>
        ensures { Keeps (R.remaining reader) (⟦<Whole<R> as Read>⟧.remaining result.stream) }
    {
        let rest = Rest {
            reader,
            has_failed: false,
        };
        Begun {
            begins: Begins::Dump,
            stream: whole([0; FIRST], 0, rest),
        }
    }

    /// What its first octets are.
    pub fn begins(&self) -> Begins
        ensures { result ≡ self.now.begins }
    {
        self.begins
    }

    /// The stream from its beginning, as a device.
    pub fn into_device(self) -> FromReader<Whole<R>>
        ensures gives { (⟦<FromReader<Whole<R>> as ByteIn>⟧.state result).left
            ≡ ⟦<Whole<R> as Read>⟧.remaining self.stream }
        ensures room { HasRoomToCount (⟦<FromReader<Whole<R>> as ByteIn>⟧.state result) }
    {
        FromReader::new(self.stream)
    }
}

/// Reads octets until these are full, the stream ends or a read fails: how many they are, and whether
/// a read failed.
fn read_first<R: Read>(reader: &mut R, first: &mut [u8]) -> (usize, bool)
    ensures fits { result.0 ≤ length first.new }
    ensures same { length first.new ≡ length first.old }
    ensures enough { result.1 ≡ false
        → (result.0 ≡ length first.new) ⊎ IsAtEnd (R.remaining reader.new) }
    ensures read { Consumes (R.remaining reader.old) (R.remaining reader.new)
        (take result.0 first.new) }
{
    let mut len = 0;
    while len < first.len() {
        match reader.read(&mut first[len..]) {
            Ok(0) => return (len, false),
            Ok(n) => len += n,
            Err(_) => return (len, true),
        }
    }
    (len, false)
}

/// What these octets are, which are the first of a stream, or as many as there were before a read
/// failed.
fn told_by(octets: &[u8], has_failed: bool) -> Begins
    ensures { result ≡ begins_with octets.now has_failed }
{
    if has_failed && octets.len() < MAGIC {
        Begins::Failed
    } else if begins_capture(octets) {
        Begins::Capture
    } else if begins_dump(octets) {
        Begins::Dump
    } else {
        Begins::Other
    }
}

/// Whether these begin with the first octets of a capture.
pub(crate) fn begins_capture(octets: &[u8]) -> bool
    ensures { result ≡ begins_capture octets.now }
{
    CAPTURES
        .iter()
        .any(|magic| octets.starts_with(magic.as_slice()))
}

/// Whether these begin with the first octets of a dump, or are fewer.
pub(crate) fn begins_dump(octets: &[u8]) -> bool
    ensures { result ≡ begins_dump octets.now }
{
    octets.starts_with(&DUMP) || DUMP.starts_with(octets)
}

/// The first of these octets, and then the rest.
fn whole<R: Read>(first: [u8; FIRST], len: usize, rest: Rest<R>) -> Whole<R>
    ensures octets { ⟦<Whole<R> as Read>⟧.remaining result
        ≡ prepend_known (take len first) (R.remaining rest.reader) }
    ensures rest { chain_second result ≡ rest }
{
    Cursor::new(first).take(len as u64).chain(rest)
}
