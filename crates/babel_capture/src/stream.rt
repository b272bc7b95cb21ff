ghost use Rattle.std.specs.Prelude.{◌≡◌, ◌≢◌, ◌≤◌, ◌++◌, ◌⊎◌, ℕ, List, [], drop, length, vec_len};
ghost use Rattle.std.specs.Prelude.{OnOk, IfOk, IfErr};
ghost use Rattle.babel_capture.specs.Capture.{CaptureFault};
ghost use Rattle.babel_capture.specs.Gathering.{IsRefused};
ghost use Rattle.babel_capture.specs.Passage.{missing_in};
ghost use Rattle.babel_capture.specs.Reading.{HasTaken, PieceFails, PieceNeedsMemory};
ghost use Rattle.babel_capture.specs.Sinking.{EndMore, FeedMore, GatherSome, Sinks, StopMore};
ghost use Rattle.babel_capture.specs.Window.{Extent};

use crate::fault::Fault;
use crate::reader::Reader;
use crate::sink::Sink;
use crate::wanted::Wanted;
use crate::window::Window;
use std::alloc::Global;

/// The octets of a capture in pieces: its blocks are read as soon as they are whole, and less than
/// a block is kept.
#[derive(Drop)]
pub struct Stream {
    /// How far the blocks were read.
    pub reader: Reader,
    /// The octets so far of the block that is not whole.
    pub pending: Vec<u8>,
}

/// Removes so many octets from the front.
fn remove_front(octets: &mut Vec<u8>, used: usize)
    requires { used ≤ vec_len octets.old }
    ensures { octets.new.items ≡ drop used octets.old.items }
{
    // A long block takes many pieces, which are not to be moved each time.
    if used > 0 {
        octets.drain(..used);
    }
}

impl Stream {
    /// Takes the next octets. They are copied only as far as they complete the block that is
    /// pending, and where they begin one that is not whole: the others are read where they lie.
    pub fn take<S: Sink>(&mut self, piece: &[u8], sink: &mut S) -> Result<(), Fault>
        ensures wanted { self.new.reader.gathering.wanted ≡ self.old.reader.gathering.wanted }
        ensures ok { OnOk result (Sinks S.has sink.old sink.new
            (FeedMore self.old.reader self.old.pending.items self.new.reader
            self.new.pending.items piece.now)) }
        ensures stopped { IfErr result (λ _. Sinks S.has sink.old sink.new
            (StopMore self.old.reader self.old.pending.items piece.now)) }
        ensures err { IfErr result
            (PieceFails self.old.reader self.old.pending.items piece.now) }
        ensures memory { IfErr result (λ fault. fault ≡ Fault.Memory
            → (self.old.pending.items ≢ [])
            ⊎ PieceNeedsMemory self.old.reader self.old.pending.items piece.now) }
    {
        if self.pending.is_empty() {
            return self.take_in_place(piece, sink);
        }
        let (header, rest) = piece.split_at(self.lacking_of(piece));
        self.take_behind(header, sink)?;
        let (block, rest) = rest.split_at(self.lacking_of(rest));
        self.take_behind(block, sink)?;
        self.take_in_place(rest, sink)
    }

    /// How many of these octets complete the header of the block that is pending, or, if that is
    /// whole, the block.
    fn lacking_of(&self, piece: &[u8]) -> usize
        ensures { result ≤ length piece.now }
    {
        self.reader.lacking(&self.pending).min(piece.len())
    }

    /// Takes octets that come after those of the block that is pending. Those after the end of what
    /// is read are passed over.
    fn take_behind<S: Sink>(&mut self, piece: &[u8], sink: &mut S) -> Result<(), Fault>
        ensures wanted { self.new.reader.gathering.wanted ≡ self.old.reader.gathering.wanted }
        ensures ok { OnOk result (Sinks S.has sink.old sink.new
            (FeedMore self.old.reader self.old.pending.items self.new.reader
            self.new.pending.items piece.now)) }
        ensures stopped { IfErr result (λ _. Sinks S.has sink.old sink.new
            (StopMore self.old.reader self.old.pending.items piece.now)) }
        ensures err { IfErr result
            (PieceFails self.old.reader self.old.pending.items piece.now) }
    {
        if self.reader.is_end(&self.pending) {
            return self.reader.pass_over(&self.pending, piece);
        }
        self.pending.extend_from_slice(piece)?;
        let used = self.reader.take_blocks(&self.pending, sink)?;
        remove_front(&mut self.pending, used);
        Ok(())
    }

    /// Takes octets, where they lie if no block is pending.
    fn take_in_place<S: Sink>(&mut self, piece: &[u8], sink: &mut S) -> Result<(), Fault>
        ensures wanted { self.new.reader.gathering.wanted ≡ self.old.reader.gathering.wanted }
        ensures ok { OnOk result (Sinks S.has sink.old sink.new
            (FeedMore self.old.reader self.old.pending.items self.new.reader
            self.new.pending.items piece.now)) }
        ensures stopped { IfErr result (λ _. Sinks S.has sink.old sink.new
            (StopMore self.old.reader self.old.pending.items piece.now)) }
        ensures err { IfErr result
            (PieceFails self.old.reader self.old.pending.items piece.now) }
        ensures memory { IfErr result (λ fault. fault ≡ Fault.Memory
            → (self.old.pending.items ≢ [])
            ⊎ PieceNeedsMemory self.old.reader self.old.pending.items piece.now) }
    {
        if !self.pending.is_empty() {
            return self.take_behind(piece, sink);
        }
        let used = self.reader.take_blocks(piece, sink)?;
        let (_blocks, left) = piece.split_at(used);
        if left.is_empty() {
            return Ok(());
        }
        self.pending.extend_from_slice(left)?;
        Ok(())
    }

    /// No octets yet, of so many at most and of packets of this window; with `to_cut`, up to a
    /// record that a full disk leaves.
    pub fn new(alloc: Global, limit: u64, window: &Window, to_cut: bool, wanted: Wanted) -> Stream
        ensures none { HasTaken (record { octets = limit; window = window.now; to_cut = to_cut })
            result.reader result.pending.items [] }
        ensures wanted { result.reader.gathering.wanted ≡ wanted }
    {
        Stream {
            reader: Reader::new(alloc, limit, window, to_cut, wanted),
            pending: Vec::new(alloc),
        }
    }

    /// Gives up the datagrams that are known, since no more octets come, and tells those of which
    /// fragments are missing to the sink: the offset of a block that is not whole, if the octets
    /// end within one.
    pub fn end<S: Sink>(&mut self, sink: &mut S) -> Result<Option<u64>, Fault>
        ensures wanted { self.new.reader.gathering.wanted ≡ self.old.reader.gathering.wanted }
        ensures context { self.new.reader.context ≡ self.old.reader.context }
        ensures senders { OnOk result
            (self.new.reader.gathering.senders ≡ self.old.reader.gathering.senders) }
        ensures ok { IfOk result (λ cut. Sinks S.has sink.old sink.new (EndMore self.old.reader
            self.old.pending.items self.new.reader.gathering cut)) }
        ensures stopped { IfErr result (λ _. Sinks S.has sink.old sink.new
            (GatherSome self.old.reader.gathering (missing_in self.old.reader.known.unfinished))) }
        ensures err { IfErr result (λ fault. (fault ≡ Fault.NotCapture)
            ⊎ IsRefused self.old.reader.gathering.wanted self.old.reader.gathering.senders
            (missing_in self.old.reader.known.unfinished) fault) }
        ensures fault { IfErr result (λ fault. (limit : Extent) (fed : List ℕ)
            → HasTaken limit self.old.reader self.old.pending.items fed
            → CaptureFault limit self.old.reader.gathering.wanted fed fault) }
        ensures memory { IfErr result (λ fault. fault ≢ Fault.Memory) }
    {
        self.reader.end(sink)?;
        if !self.reader.has_started() {
            return Err(Fault::NotCapture);
        }
        if self.pending.is_empty() {
            return Ok(None);
        }
        Ok(Some(self.reader.at()))
    }
}
