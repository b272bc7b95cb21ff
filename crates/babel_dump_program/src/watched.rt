//! Readers and writers that remember what a fault is explained by.
use babel_dump::Watched;
use std::alloc::{AllocError, Global};
use std::fs::File;
use std::io;
use std::io::{Read, Stdin, Write};
use std::os::unix::fs::FileExt;

/// How many of an input's first octets are remembered: enough to tell text from other octets.
const FIRST: usize = 64;

/// How many of the octets that came last are remembered of an input that can't be read again: a
/// piece of a capture, and before it more than the longest header of a block.
const LAST: usize = 65_600;

/// The first octets that a reader gave, at most 64.
#[derive(Drop)]
struct Beginning {
    octets: [u8; FIRST],
    len: usize,
}

impl Beginning {
    /// Remembers these octets where fewer than 64 came before.
    fn remember(&mut self, octets: &[u8]) {
        for octet in octets {
            let Some(place) = self.octets.get_mut(self.len) else {
                return;
            };
            *place = *octet;
            self.len = self.len.saturating_add(1);
        }
    }
}

/// The octets that a reader gave last: the one with offset N stands in place N of so many, counted
/// round.
#[derive(Drop)]
struct Ending {
    octets: Vec<u8>,
    /// How many octets it gave in all.
    given: u64,
}

impl Ending {
    /// It gave none yet.
    fn new(alloc: Global) -> Result<Ending, AllocError> {
        let mut octets = Vec::new(alloc);
        octets.resize(LAST, 0)?;
        Ok(Ending { octets, given: 0 })
    }

    /// Remembers these octets, which come after those before them.
    fn remember(&mut self, octets: &[u8]) {
        let places = self.octets.as_mut_slice();
        let after = match places.get_mut(place_of(self.given)..) {
            Some(room) => put(room, octets),
            None => octets,
        };
        put(places, after);
        self.given = self.given.saturating_add(octets.len() as u64);
    }

    /// The octet with this offset, if it is remembered.
    fn at(&self, offset: u64) -> Option<u8> {
        let after = self.given.checked_sub(offset)?;
        if after == 0 || after > LAST as u64 {
            return None;
        }
        self.octets.get(place_of(offset)).copied()
    }

    /// The four octets from this offset on, if they are remembered.
    fn four_at(&self, offset: u64) -> Option<[u8; 4]> {
        let mut four = [0; 4];
        for (octet, place) in four.iter_mut().zip(offset..) {
            *octet = self.at(place)?;
        }
        Some(four)
    }
}

/// The place of the octet with this offset.
fn place_of(offset: u64) -> usize {
    (offset % LAST as u64) as usize
}

/// Puts octets where there is room, and gives those for which there is none.
fn put<'a>(room: &mut [u8], octets: &'a [u8]) -> &'a [u8] {
    let len = room.len().min(octets.len());
    room[..len].copy_from_slice(&octets[..len]);
    &octets[len..]
}

/// What an input is read from.
#[derive(Drop)]
pub enum Source {
    File(File),
    StandardInput(Stdin),
    Nothing,
}

/// What may be read once more where it was read before.
pub trait Again {
    /// The four octets from this offset on, read again; `None` where that can't be, as of a pipe.
    fn read_again(&self, offset: u64) -> Option<[u8; 4]>;
}

impl Again for Source {
    fn read_again(&self, offset: u64) -> Option<[u8; 4]> {
        let Source::File(file) = self else {
            return None;
        };
        let mut four = [0; 4];
        match file.read_at(&mut four, offset) {
            Ok(4) => Some(four),
            _ => None,
        }
    }
}

impl Read for Source {
    fn read(&mut self, buf: &mut [u8]) -> io::Result<usize> {
        match self {
            Source::File(file) => file.read(buf),
            Source::StandardInput(stdin) => stdin.read(buf),
            Source::Nothing => Ok(0),
        }
    }
}

/// A reader that remembers the first octets that it gave, and the last ones if they can't be read
/// again, and why it failed last.
#[derive(Drop)]
pub struct WatchedReader<R> {
    reader: R,
    beginning: Beginning,
    ending: Option<Ending>,
    error: Option<io::Error>,
}

impl<R: Again> WatchedReader<R> {
    /// A reader that gave nothing yet. With no memory for them no last octets are remembered.
    pub fn new(alloc: Global, reader: R) -> WatchedReader<R> {
        let ending = match reader.read_again(0) {
            Some(_) => None,
            None => Ending::new(alloc).ok(),
        };
        let beginning = Beginning {
            octets: [0; FIRST],
            len: 0,
        };
        WatchedReader {
            reader,
            beginning,
            ending,
            error: None,
        }
    }
}

impl<R: Again> Watched for WatchedReader<R> {
    fn begins(&self) -> &[u8] {
        let beginning = &self.beginning;
        match beginning.octets.get(..beginning.len) {
            Some(octets) => octets,
            None => &beginning.octets,
        }
    }

    fn four_at(&self, offset: u64) -> Option<[u8; 4]> {
        match &self.ending {
            Some(ending) => ending.four_at(offset),
            None => self.reader.read_again(offset),
        }
    }

    fn error(&self) -> Option<&io::Error> {
        self.error.as_ref()
    }
}

impl<R: Read> Read for WatchedReader<R> {
    ghost remaining = { λ r. R.remaining r.reader };

    fn read(&mut self, buf: &mut [u8]) -> io::Result<usize> {
        match self.reader.read(buf) {
            Ok(n) => {
                if let Some(octets) = buf.get(..n) {
                    self.beginning.remember(octets);
                    if let Some(ending) = &mut self.ending {
                        ending.remember(octets);
                    }
                }
                Ok(n)
            }
            Err(error) => {
                self.error = Some(copy_of(&error));
                Err(error)
            }
        }
    }
}

/// A writer that remembers why it failed last.
#[derive(Drop)]
pub struct WatchedWriter<W> {
    writer: W,
    error: Option<io::Error>,
}

impl<W> WatchedWriter<W> {
    pub fn new(writer: W) -> WatchedWriter<W> {
        WatchedWriter {
            writer,
            error: None,
        }
    }

    /// Why it failed last, if it did.
    pub fn error(&self) -> Option<&io::Error> {
        self.error.as_ref()
    }
}

impl<W: Write> Write for WatchedWriter<W> {
    ghost contents = { λ w. W.contents w.writer };

    fn write(&mut self, buf: &[u8]) -> io::Result<usize> {
        let written = self.writer.write(buf);
        if let Err(error) = &written {
            self.error = Some(copy_of(error));
        }
        written
    }

    fn flush(&mut self) -> io::Result<()> {
        let flushed = self.writer.flush();
        if let Err(error) = &flushed {
            self.error = Some(copy_of(error));
        }
        flushed
    }
}

/// An error of the same number of the system, or else of the same kind.
fn copy_of(error: &io::Error) -> io::Error {
    match error.raw_os_error() {
        Some(number) => io::Error::from_raw_os_error(number),
        None => io::Error::from(error.kind()),
    }
}
