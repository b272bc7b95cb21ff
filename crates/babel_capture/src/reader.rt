ghost use Rattle.std.specs.Prelude.{◌≡◌, ◌↔◌, IsTrue, ◌≤◌, ◌<◌, ◌+◌, ◌-◌, ◌^◌, ◌++◌, ◌⊎◌, ℕ, List};
ghost use Rattle.std.specs.Prelude.{[], length, take, drop, OnOk, IfOk, IfErr, IfSome, IfNone, Err};
ghost use Rattle.std.specs.Prelude.{◌≢◌, Ok};
ghost use Rattle.babel_capture.specs.Blocks.{BeginsBlock, IsBlock, IsEnd, IsPartial};
ghost use Rattle.babel_capture.specs.Blocks.{start};
ghost use Rattle.babel_capture.specs.Contents.{Content, block_said, content_of};
ghost use Rattle.babel_capture.specs.Gathering.{BlockNeedsMemory, IsRefused};
ghost use Rattle.babel_capture.specs.Passage.{missing_in};
ghost use Rattle.babel_capture.specs.Reading.{BlockFails, HasStarted, HeaderFails, LeadTo};
ghost use Rattle.babel_capture.specs.Reading.{NeedsMemory, Stops, passage_in};
ghost use Rattle.babel_capture.specs.Sinking.{GatherMore, GatherSome, LeadMore, Sinks};
ghost use Rattle.babel_capture.specs.Sinking.{StopBlock, StopLead};
ghost use Rattle.babel_capture.specs.Window.{Extent};

use crate::block::read_block;
use crate::context::Context;
use crate::fault::Fault;
use crate::gathered::Gathered;
use crate::layout::Layout;
use crate::passing::Passing;
use crate::sink::Sink;
use crate::time::Time;
use crate::wanted::Wanted;
use crate::window::Window;
use std::alloc::Global;
use std::marker::Model;

/// A capture, as far as its blocks were read.
#[derive(Drop)]
pub struct Reader {
    context: Context,
    passing: Passing,
    at: u64,
    passed: u64,
}

impl Model for Reader {
    ghost use Rattle.std.specs.Prelude.{◌≤◌, ◌*◌};
    ghost use Rattle.babel_capture.specs.Lengths.{block_len};
    ghost use Rattle.babel_capture.specs.Reading.{Progress};

    ghost Value = { Progress };

    ghost view = { λ r. record {
      context = r.context;
      gathering = r.passing.gathering;
      clock = r.passing.clock;
      known = r.passing.known;
      at = r.at;
      passed = r.passed;
    } };

    ghost invariant = { λ r. (2 * r.passing.gathering.report.packets ≤ r.at)
        × (r.at ≤ r.context.limit) };
}

impl Reader {
    /// Nothing was read yet, of so many octets at most and of packets of this window; with
    /// `to_cut`, up to a record that a full disk leaves.
    pub fn new(alloc: Global, limit: u64, window: &Window, to_cut: bool, wanted: Wanted) -> Reader
        ensures none { LeadTo (record { octets = limit; window = window.now; to_cut = to_cut })
            [] result }
        ensures context { result.context ≡ start
            (record { octets = limit; window = window.now; to_cut = to_cut }) }
        ensures wanted { result.gathering.wanted ≡ wanted }
        ensures passed { result.passed ≡ 0 }
    {
        Reader {
            context: Context::new(alloc, limit, window, to_cut),
            passing: Passing::new(alloc, wanted),
            at: 0,
            passed: 0,
        }
    }

    /// The offset of the block that was not read yet.
    pub fn at(&self) -> u64
        ensures { result ≡ self.now.at }
    {
        self.at
    }

    /// Takes a whole block, and tells its packet, if it says one, to the sink.
    #[tactic(auto, using(crate::proofs::MemoryLaws::said_other))]
    fn take_block<S: Sink>(&mut self, block: &[u8], sink: &mut S) -> Result<(), Fault>
        requires is_block { IsBlock self.old.context self.old.at block.now }
        requires some { 12 ≤ length block.now }
        requires room { length block.now ≤ self.old.context.limit - self.old.at }
        requires fits { self.old.at + length block.now < 2 ^ 64 }
        ensures wanted { self.new.gathering.wanted ≡ self.old.gathering.wanted }
        ensures passed { self.new.passed ≡ self.old.passed }
        ensures ok { OnOk result (Sinks S.has sink.old sink.new
            (LeadMore self.old self.new block.now)) }
        ensures stopped { IfErr result (λ _. Sinks S.has sink.old sink.new
            (StopBlock self.old block.now)) }
        ensures err { IfErr result (λ fault. (fault ≡ Fault.Memory)
            ⊎ BlockFails self.old.gathering.wanted self.old.gathering.senders
            (passage_in self.old) self.old.context self.old.at block.now fault) }
        ensures memory { IfErr result (λ fault. fault ≡ Fault.Memory → (content : Content)
            × (block_said self.old.context self.old.at block.now ≡ Ok content)
            × BlockNeedsMemory self.old.gathering.wanted self.old.gathering.senders content) }
    {
        let read = read_block(&self.context, self.at, block);
        let said = match &read {
            Ok(said) => said,
            Err(fault) => return Err(*fault),
        };
        let at = self.at;
        self.at += block.len() as u64;
        self.context.take(said)?;
        self.passing.take_said(at, said, sink)
    }

    /// The whole block that the octets begin with; `None` if they are less than a block.
    fn first_block<'a>(&self, octets: &'a [u8]) -> Result<Option<&'a [u8]>, Fault>
        ensures whole { IfOk result (λ found. IfSome found
            (λ block. BeginsBlock self.now.context self.now.at octets.now block.now)) }
        ensures room { IfOk result (λ found. IfSome found (λ block. (12 ≤ length block.now)
            × (length block.now ≤ self.now.context.limit - self.now.at)
            × (self.now.at + length block.now < 2 ^ 64))) }
        ensures less { IfOk result (λ found. IfNone found
            (IsPartial self.now.context self.now.at octets.now)) }
        ensures err { IfErr result
            (λ fault. HeaderFails self.now.context self.now.at octets.now fault) }
    {
        self.context.first_block(self.at, octets)
    }

    /// Whether these octets begin with the end of what is read.
    pub fn is_end(&self, octets: &[u8]) -> bool
        ensures { IsTrue result ↔ IsEnd self.now.context self.now.at octets.now }
    {
        self.context.is_end(self.at, octets)
    }

    /// Passes over more octets after the end of what is read, where these are kept of those from
    /// the end on; `TooLong` where all of them go past the limit.
    pub fn pass_over(&mut self, kept: &[u8], more: &[u8]) -> Result<(), Fault>
        ensures gathering { self.new.gathering ≡ self.old.gathering }
        ensures ok { OnOk result
            ((self.new ≡ record self.old { passed = self.old.passed + length more.now })
            × (length kept.now + (self.old.passed + length more.now)
            ≤ self.old.context.limit - self.old.at)) }
        ensures err { IfErr result (λ fault. (fault ≡ Fault.TooLong self.old.at)
            × (self.old.context.limit - self.old.at
            < length kept.now + (self.old.passed + length more.now))) }
    {
        let room = self.context.limit().saturating_sub(self.at);
        let all = kept.len() as u128 + u128::from(self.passed) + more.len() as u128;
        if all > u128::from(room) {
            return Err(Fault::TooLong { at: self.at });
        }
        self.passed += more.len() as u64;
        Ok(())
    }

    /// How many octets these lack to be a block, or to be its header; 0 if there are none.
    pub fn lacking(&self, octets: &[u8]) -> usize {
        if octets.is_empty() {
            0
        } else {
            self.context.lacking(self.at, octets)
        }
    }

    /// Takes the whole blocks that the octets begin with, and tells their packets to the sink: how
    /// many octets they are.
    pub fn take_blocks<S: Sink>(&mut self, octets: &[u8], sink: &mut S) -> Result<usize, Fault>
        ensures wanted { self.new.gathering.wanted ≡ self.old.gathering.wanted }
        ensures passed { self.new.passed ≡ self.old.passed }
        ensures used { IfOk result (λ used. used ≤ length octets.now) }
        ensures took { IfOk result (λ used. Sinks S.has sink.old sink.new
            (LeadMore self.old self.new (take used octets.now))) }
        ensures partial { IfOk result (λ used. IsPartial self.new.context self.new.at
            (drop used octets.now)) }
        ensures stopped { IfErr result (λ _. Sinks S.has sink.old sink.new
            (StopLead self.old octets.now)) }
        ensures stops { IfErr result (λ fault. (fault ≡ Fault.Memory)
            ⊎ ((limit : Extent) (read : List ℕ) → LeadTo limit read self.old
            → Stops limit self.old.gathering.wanted (read ++ octets.now) fault)) }
        ensures memory { IfErr result (λ fault. fault ≡ Fault.Memory
            → (limit : Extent) (read : List ℕ) → LeadTo limit read self.old
            → NeedsMemory limit self.old.gathering.wanted read octets.now) }
    {
        let mut used = 0;
        while let Some(block) = self.first_block(&octets[used..])? {
            self.take_block(block, sink)?;
            used += block.len();
        }
        Ok(used)
    }

    /// Gives up the datagrams that are known, since no more octets come, and tells those of which
    /// fragments are missing to the sink.
    pub fn end<S: Sink>(&mut self, sink: &mut S) -> Result<(), Fault>
        ensures wanted { self.new.gathering.wanted ≡ self.old.gathering.wanted }
        ensures names { self.new.gathering.names ≡ self.old.gathering.names }
        ensures same { (self.new.context ≡ self.old.context) × (self.new.at ≡ self.old.at) }
        ensures senders { OnOk result
            (self.new.gathering.senders ≡ self.old.gathering.senders) }
        ensures ok { OnOk result (Sinks S.has sink.old sink.new
            (GatherMore self.old.gathering self.new.gathering
            (missing_in self.old.known.unfinished))) }
        ensures stopped { IfErr result (λ _. Sinks S.has sink.old sink.new
            (GatherSome self.old.gathering (missing_in self.old.known.unfinished))) }
        ensures err { IfErr result (λ fault. IsRefused self.old.gathering.wanted
            self.old.gathering.senders (missing_in self.old.known.unfinished) fault) }
        ensures memory { IfErr result (λ fault. fault ≢ Fault.Memory) }
    {
        self.passing.end(sink)
    }

    /// Whether the first block was read, so that the octets are a capture.
    pub fn has_started(&self) -> bool
        ensures { IsTrue result ↔ HasStarted self.now.context }
    {
        !matches!(self.context.layout(), Layout::Start)
    }

    /// When the first packet came, where times are asked for.
    pub fn start(&self) -> Option<Time>
        ensures { result ≡ self.now.context.start }
    {
        self.context.start()
    }

    /// What was gathered so far.
    pub fn gathered(&self) -> &Gathered
        ensures { result.now ≡ self.now.gathering }
    {
        self.passing.gathered()
    }

    /// What was gathered.
    pub fn into_gathered(self) -> Gathered
        ensures { result ≡ self.gathering }
    {
        self.passing.into_gathered()
    }
}
