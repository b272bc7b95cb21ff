ghost use Rattle.std.specs.Prelude.{◌≡◌, ◌≢◌, ◌++◌, ◌⊎◌, ℕ, List, [], Some, None, Err, IfOk, IfErr};
ghost use Rattle.std.specs.Prelude.{IfSome, OnOk};
ghost use Rattle.babel_capture.specs.Capture.{CaptureFault, HasRead, IsRead, IsReadToCut};
ghost use Rattle.babel_capture.specs.Capture.{moment_read};
ghost use Rattle.babel_capture.specs.Gathering.{IsRefused};
ghost use Rattle.babel_capture.specs.Passage.{missing_in};
ghost use Rattle.babel_capture.specs.Reading.{NeedsMemory};
ghost use Rattle.babel_capture.specs.Sinking.{EndMore, FeedMore, GatherSome, Sinks, StopMore};
ghost use Rattle.babel_capture.specs.Window.{all_times};

use crate::fault::Fault;
use crate::gathered::Gathered;
use crate::reader::Reader;
use crate::sink::Sink;
use crate::stream::Stream;
use crate::time::Time;
use crate::wanted::Wanted;
use crate::window::Window;
use std::alloc::Global;
use std::marker::Model;

/// A capture being read, in pieces. It keeps what was gathered so far, and at most one block that
/// is not whole.
#[derive(Drop)]
pub struct Capture {
    limit: u64,
    window: Window,
    to_cut: bool,
    stream: Stream,
    fault: Option<Fault>,
}

impl Model for Capture {
    ghost use Rattle.babel_capture.specs.Capture.{State};

    ghost Value = { State };

    ghost view = { λ c. record {
      limit = record { octets = c.limit; window = c.window; to_cut = c.to_cut };
      progress = c.stream.reader;
      pending = c.stream.pending.items;
      fault = c.fault;
    } };
}

impl Capture {
    /// A reader that was fed nothing, of so many octets at most.
    pub fn new(alloc: Global, limit: u64, wanted: Wanted) -> Capture
        ensures read { HasRead result [] }
        ensures made { (result.limit ≡ all_times limit)
            × (result.progress.gathering.wanted ≡ wanted) × (result.fault ≡ None) }
    {
        Capture::within(alloc, limit, Window::Whole, false, wanted)
    }

    /// The same of the packets of this window alone: the others are skipped. A datagram that was
    /// put together came when the last of its fragments did, whenever the others came; one of which
    /// fragments are missing counts where the 60 seconds after the first of them end within the
    /// window. Where the window is not whole, a packet that has no time, or one before 1970 or
    /// after the year 9999, is a fault. With `to_cut` a record of a pcap file that had no octets,
    /// as a full disk leaves it, is no fault: the capture is cut short there, and what comes after
    /// it is passed over.
    pub fn within(
        alloc: Global,
        limit: u64,
        window: Window,
        to_cut: bool,
        wanted: Wanted,
    ) -> Capture
        ensures read { HasRead result [] }
        ensures made { (result.limit
            ≡ record { octets = limit; window = window; to_cut = to_cut })
            × (result.progress.gathering.wanted ≡ wanted) × (result.fault ≡ None) }
    {
        let stream = Stream::new(alloc, limit, &window, to_cut, wanted);
        Capture {
            limit,
            window,
            to_cut,
            stream,
            fault: None,
        }
    }

    /// Takes the next octets of the capture. A fault is answered as soon as the octets so far have
    /// it, whatever comes after them; after any fault every later call answers that fault. Each
    /// packet before that is told to the sink, in order. Of the piece only octets of a block that
    /// is not whole in it are copied, so that the memory taken goes with the largest block.
    pub fn feed<S: Sink>(&mut self, piece: &[u8], sink: &mut S) -> Result<(), Fault>
        // The reader stands where the octets that it was fed before, and these, lead it.
        ensures fed { (fed : List ℕ) → HasRead self.old fed → HasRead self.new (fed ++ piece.now) }
        ensures same { (self.new.limit ≡ self.old.limit)
            × (self.new.progress.gathering.wanted ≡ self.old.progress.gathering.wanted) }

        // A fault is kept, and stays.
        ensures ok { OnOk result ((self.old.fault ≡ None) × (self.new.fault ≡ None)) }
        ensures err { IfErr result (λ fault. self.new.fault ≡ Some fault) }

        // A fault other than out of memory is that of the octets so far, however they go on.
        ensures fault { IfErr result (λ fault. fault ≢ Fault.Memory → (fed more : List ℕ)
            → HasRead self.old fed
            → CaptureFault self.old.limit self.old.progress.gathering.wanted
            ((fed ++ piece.now) ++ more) fault) }

        // Out of memory was answered before, or a block did not come in one piece, or memory is
        // needed for a block of this piece: it is not whole, or describes an interface, or has a
        // fragment, or a packet whose sender is listed.
        ensures memory { IfErr result (λ fault. fault ≡ Fault.Memory
            → (self.old.fault ≡ Some Fault.Memory) ⊎ (self.old.pending ≢ [])
            ⊎ ((fed : List ℕ) → HasRead self.old fed → NeedsMemory self.old.limit
            self.old.progress.gathering.wanted fed piece.now)) }
        ensures stays { IfSome self.old.fault (λ fault. result ≡ Err fault) }

        // The sink took the packets that are read besides.
        ensures sunk { OnOk result (Sinks S.has sink.old sink.new
            (FeedMore self.old.progress self.old.pending self.new.progress self.new.pending
            piece.now)) }

        // At a fault the sink took the packets of blocks before it, from the first on.
        ensures stopped { self.old.fault ≡ None → IfErr result (λ _. Sinks S.has sink.old sink.new
            (StopMore self.old.progress self.old.pending piece.now)) }
    {
        if let Some(fault) = self.fault {
            return Err(fault);
        }
        match self.stream.take(piece, sink) {
            Ok(()) => Ok(()),
            Err(fault) => {
                self.fault = Some(fault);
                Err(fault)
            }
        }
    }

    /// What the packets give that were read so far.
    pub fn gathered(&self) -> &Gathered
        ensures { result.now ≡ self.now.progress.gathering }
    {
        self.stream.reader.gathered()
    }

    /// The moment up to which packets were read, in nanoseconds since the start of 1970: the last
    /// of the window, if it names one, or else the latest time of a packet that was read, wherever
    /// that stands. `None` where a packet that was read has no time, and where none was read.
    pub fn moment(&self) -> Option<u128>
        ensures { result ≡ moment_read self.now }
    {
        let timing = self.gathered().report().timing();
        if timing.has_untimed {
            return None;
        }
        match self.window {
            Window::Between {
                until: Some(until),
                ..
            } => Some(until.from(self.stream.reader.start()?)),
            _ => Some(timing.latest?.nanoseconds()),
        }
    }

    /// When the first packet came, whoever sent it, where the window is not whole: by this moment
    /// `Moment::After` counts. `None` before it was read, and where the window is whole.
    pub fn start(&self) -> Option<Time>
        ensures { result ≡ self.now.progress.context.start }
    {
        self.stream.reader.start()
    }

    /// What the packets of all octets that were fed give; the fault that was answered before if
    /// there was one, `Fragment` if fragments of a datagram of the named sender are missing at
    /// their end, `NotCapture` if they end before their first block is whole, `CutShort` if they
    /// end within a later one.
    #[tactic(auto, using(crate::proofs::StreamLaws::all_read, crate::proofs::StreamLaws::cut_short))]
    pub fn finish<S: Sink>(self, sink: &mut S) -> Result<Gathered, Fault>
        ensures ok { IfOk result (λ gathered. (fed : List ℕ) → HasRead self fed
            → IsRead self.limit fed gathered) }
        ensures wanted { IfOk result (λ gathered. gathered.wanted
            ≡ self.progress.gathering.wanted) }
        ensures fault { IfErr result (λ fault. fault ≢ Fault.Memory → (fed : List ℕ)
            → HasRead self fed
            → CaptureFault self.limit self.progress.gathering.wanted fed fault) }
        ensures stays { IfSome self.fault (λ fault. result ≡ Err fault) }

        // It takes no memory.
        ensures memory { IfErr result (λ fault. fault ≡ Fault.Memory
            → self.fault ≡ Some Fault.Memory) }
    {
        match self.finish_at_cut(sink) {
            Ok((gathered, None)) => Ok(gathered),
            Ok((_, Some(at))) => Err(Fault::CutShort { at }),
            Err(fault) => Err(fault),
        }
    }

    /// Ends the capture, whose last block may be cut short: tells the sink of datagrams of which
    /// fragments are missing. Where the octets that were fed end within a block: its offset. The
    /// fault that was answered before if there was one, `Fragment` if such a datagram is of the
    /// sender that is named, `NotCapture` if the octets end before their first block is whole.
    pub fn end<S: Sink>(&mut self, sink: &mut S) -> Result<Option<u64>, Fault>
        ensures wanted { self.new.progress.gathering.wanted
            ≡ self.old.progress.gathering.wanted }
        ensures same { (self.new.limit ≡ self.old.limit)
            × (self.new.progress.context ≡ self.old.progress.context) }
        ensures senders { OnOk result
            (self.new.progress.gathering.senders ≡ self.old.progress.gathering.senders) }
        ensures ok { IfOk result (λ cut. (fed : List ℕ) → HasRead self.old fed
            → IsReadToCut self.old.limit fed self.new.progress.gathering cut) }
        ensures not_cut { self.old.fault ≡ None
            → IfErr result (λ fault. (fault ≡ Fault.NotCapture)
            ⊎ IsRefused self.old.progress.gathering.wanted self.old.progress.gathering.senders
            (missing_in self.old.progress.known.unfinished) fault) }
        ensures fault { IfErr result (λ fault. fault ≢ Fault.Memory → (fed : List ℕ)
            → HasRead self.old fed
            → CaptureFault self.old.limit self.old.progress.gathering.wanted fed fault) }
        ensures stays { IfSome self.old.fault (λ fault. result ≡ Err fault) }

        // The sink took the datagrams of which fragments are missing besides, or some of them.
        ensures sunk { IfOk result (λ cut. Sinks S.has sink.old sink.new (EndMore
            self.old.progress self.old.pending self.new.progress.gathering cut)) }
        ensures stopped { self.old.fault ≡ None → IfErr result (λ _. Sinks S.has sink.old sink.new
            (GatherSome self.old.progress.gathering
            (missing_in self.old.progress.known.unfinished))) }

        // It takes no memory.
        ensures memory { IfErr result (λ fault. fault ≡ Fault.Memory
            → self.old.fault ≡ Some Fault.Memory) }
    {
        if let Some(fault) = self.fault {
            return Err(fault);
        }
        self.stream.end(sink)
    }

    /// The same, with what the whole blocks give.
    pub fn finish_at_cut<S: Sink>(mut self, sink: &mut S) -> Result<(Gathered, Option<u64>), Fault>
        ensures ok { IfOk result (λ given. (fed : List ℕ) → HasRead self fed
            → IsReadToCut self.limit fed given.0 given.1) }
        ensures wanted { IfOk result (λ given. given.0.wanted
            ≡ self.progress.gathering.wanted) }
        ensures not_cut { self.fault ≡ None
            → IfErr result (λ fault. (fault ≡ Fault.NotCapture)
            ⊎ IsRefused self.progress.gathering.wanted self.progress.gathering.senders
            (missing_in self.progress.known.unfinished) fault) }
        ensures fault { IfErr result (λ fault. fault ≢ Fault.Memory → (fed : List ℕ)
            → HasRead self fed
            → CaptureFault self.limit self.progress.gathering.wanted fed fault) }
        ensures stays { IfSome self.fault (λ fault. result ≡ Err fault) }
        ensures sunk { IfOk result (λ given. Sinks S.has sink.old sink.new (EndMore
            self.progress self.pending given.0 given.1)) }
        ensures stopped { self.fault ≡ None → IfErr result (λ _. Sinks S.has sink.old sink.new
            (GatherSome self.progress.gathering (missing_in self.progress.known.unfinished))) }

        // It takes no memory.
        ensures memory { IfErr result (λ fault. fault ≡ Fault.Memory
            → self.fault ≡ Some Fault.Memory) }
    {
        let cut = self.end(sink)?;
        Ok((self.into_gathered(), cut))
    }

    /// What the packets give that were read.
    pub fn into_gathered(self) -> Gathered
        ensures { result ≡ self.progress.gathering }
    {
        self.stream.reader.into_gathered()
    }
}
