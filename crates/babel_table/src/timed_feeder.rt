ghost use Rattle.std.specs.Prelude.{◌≡◌, ◌≢◌, ◌<◌, ◌+◌, ◌^◌, ◌∷◌, ◌++◌, ℕ, List, [], None, Some};
ghost use Rattle.std.specs.Prelude.{Err, IfErr, IfOk, IfSome, OnErr, OnOk, drop, length, true};
ghost use Rattle.babel_table.specs.Bounds.{start_of};
ghost use Rattle.babel_table.specs.DumpFault.{DumpFault, IsTruncated};
ghost use Rattle.babel_table.specs.Feeding.{HasHeard, HasRead, HasTaken, NeedsMemory};
ghost use Rattle.babel_table.specs.Moments.{dump_of};
ghost use Rattle.babel_table.specs.Words.{HearsPackets, lasting_words};

use crate::feeder::Feeder;
use crate::limits::Limits;
use crate::live::LiveRows;
use crate::pending::Pending;
use crate::report::Report;
use crate::so_far::SoFar;
use crate::stream::Stream;
use babel_prefix::Addr;
use babel_tlv::{Fault, Mode, Start};
use std::alloc::{AllocError, Global};
use std::marker::Model;

/// A dump being read, packet by packet, each whole and with its time: RFC 8966, 4. It keeps the
/// table so far, with the time and the Interval of each row's last word, and has no buffer.
#[derive(Drop)]
pub struct TimedFeeder {
    alloc: Global,
    limits: Limits,
    /// What each packet begins with.
    start: Start,
    /// What the packets gave. It is large, and where there are many feeders they are moved.
    so_far: Box<SoFar>,
    /// How many octets the packets have.
    at: u64,
    fault: Option<Fault>,
}

impl Model for TimedFeeder {
    ghost use Rattle.std.specs.Prelude.{◌≡◌, [], None, IfSome};
    ghost use Rattle.babel_table.specs.DumpFault.{IsTruncated};
    ghost use Rattle.babel_table.specs.Feeding.{Progress, IsReady, routes};

    ghost Value = { Progress };

    ghost view = { λ f. record {
      limits = f.limits;
      mode = f.so_far.value.rows.mode;
      sender = f.start.sender;
      table = routes f.so_far.value.rows.rows f.so_far.value.report;
      at = f.at;
      pending = [];
      fault = f.fault;
      runs = f.so_far.value.rows.runs;
      factor = f.so_far.value.rows.factor;
      time = f.so_far.value.rows.when.time;
      words = f.so_far.value.rows.words;
    } };

    ghost invariant = { λ f. (f.so_far.value.rows.entries ≡ f.limits.entries)
        × (f.start.via_v6 ≡ f.limits.via_v6)
        × IfSome f.fault (λ fault. ¬ IsTruncated fault)
        × (f.fault ≡ None → IsReady f.limits.bytes f.so_far.value.report.tlvs f.at []) };
}

impl TimedFeeder {
    /// One that was fed nothing, of a dump that this sender sent. Its keys are found by a hash of
    /// this seed, as those of `Feeder::with_seed`, and 16 octets more are kept for each packet that
    /// has a word on one. A word lasts so many ten-millionths of its Interval, which is in
    /// hundredths of a second.
    pub fn new(
        alloc: Global,
        limits: Limits,
        mode: Mode,
        sender: Addr,
        seed: u128,
        factor: u64,
    ) -> Result<TimedFeeder, AllocError>
        ensures { IfOk result (λ feeder. HasHeard feeder [] × (feeder.limits ≡ limits)
            × (feeder.mode ≡ mode) × (feeder.sender ≡ sender) × (feeder.factor ≡ factor)
            × (feeder.fault ≡ None)) }
    {
        let rows = LiveRows::in_time(alloc, mode, limits.entries(), seed, factor);
        let report = Report::new();
        let so_far = Box::new(alloc, SoFar { rows, report })?;
        let start = Start {
            sender,
            via_v6: limits.via_v6(),
        };
        Ok(TimedFeeder {
            alloc,
            limits,
            start,
            so_far,
            at: 0,
            fault: None,
        })
    }

    /// Takes whole packets, which came at this time; `Truncated` if they end within a packet, and
    /// then nothing is said of what was heard.
    pub fn feed_at(&mut self, time: u128, packets: &[u8]) -> Result<(), Fault>
        requires { time < 2 ^ 96 }
        ensures same { (self.new.limits ≡ self.old.limits) × (self.new.mode ≡ self.old.mode)
            × (self.new.sender ≡ self.old.sender) × (self.new.factor ≡ self.old.factor) }
        ensures heard { IfErr result (λ fault. ¬ IsTruncated fault) → (given : List (ℕ × List ℕ))
            → HasHeard self.old given
            → HasHeard self.new (given ++ (time, packets.now) ∷ []) }
        ensures ok { OnOk result (self.new.fault ≡ None) }

        // A fault other than Truncated is kept, and stays.
        ensures err { IfErr result (λ fault. ¬ IsTruncated fault → self.new.fault ≡ Some fault) }
        ensures stays { IfSome self.old.fault (λ fault. result ≡ Err fault) }
        ensures fault { IfErr result (λ fault. fault ≢ Fault.Memory → ¬ IsTruncated fault
            → (given : List (ℕ × List ℕ)) (more : List ℕ) → HasHeard self.old given
            → DumpFault self.old.limits self.old.mode self.old.sender
            ((dump_of given ++ packets.now) ++ more) fault) }

        // Out of memory comes only after a TLV that adds a row.
        ensures memory { IfErr result (λ fault. fault ≡ Fault.Memory
            → (given : List (ℕ × List ℕ)) → HasHeard self.old given → NeedsMemory self.old.mode
            (start_of self.old.limits self.old.sender) (dump_of given ++ packets.now)) }

        // Truncated is the fault of what was heard and these.
        ensures truncated { IfErr result (λ fault. IsTruncated fault
            → (given : List (ℕ × List ℕ)) → HasHeard self.old given
            → DumpFault self.old.limits self.old.mode self.old.sender
            (dump_of given ++ packets.now) fault) }
    {
        self.set_time(time);
        let used = self.take(packets)?;
        if used < packets.len() {
            return Err(Fault::Truncated { at: self.at });
        }
        Ok(())
    }

    /// What is fed next came at this time.
    fn set_time(&mut self, time: u128)
        requires { time < 2 ^ 96 }
        ensures { self.new ≡ record self.old { time = time } }
    {
        self.so_far.rows.set_time(time);
    }

    /// Takes the whole packets that the octets begin with: how many octets they are.
    fn take(&mut self, octets: &[u8]) -> Result<usize, Fault>
        ensures same { (self.new.limits ≡ self.old.limits) × (self.new.mode ≡ self.old.mode)
            × (self.new.sender ≡ self.old.sender) × (self.new.pending ≡ []) }
        ensures time { (self.new.runs ≡ self.old.runs) × (self.new.factor ≡ self.old.factor)
            × (self.new.time ≡ self.old.time) }

        // With the others pending, it has read the octets.
        ensures ok { IfOk result (λ used. (self.old.fault ≡ None) × (self.new.fault ≡ None)
            × ((fed : List ℕ) → HasRead self.old fed → HasTaken
            (record self.new { pending = drop used octets.now }) (fed ++ octets.now))) }
        ensures words { self.old.runs ≡ true → IfOk result (λ used. HearsPackets
            self.old.mode self.old.factor self.old.time (start_of self.old.limits self.old.sender)
            self.old.at octets.now self.old.words self.new.words (drop used octets.now)) }

        // A fault is kept, and stays. It is never Truncated.
        ensures err { IfErr result (λ fault. (self.new.fault ≡ Some fault) × ¬ IsTruncated fault) }
        ensures read { OnErr result
            ((fed : List ℕ) → HasRead self.old fed → HasRead self.new (fed ++ octets.now)) }
        ensures stays { IfSome self.old.fault (λ fault. result ≡ Err fault) }
    {
        if let Some(fault) = self.fault {
            return Err(fault);
        }
        let bytes = self.limits.bytes();
        match self.so_far.take_within(bytes, &self.start, octets, self.at) {
            Ok(used) => {
                self.at += used as u64;
                Ok(used)
            }
            Err(fault) => {
                self.fault = Some(fault);
                Err(fault)
            }
        }
    }

    /// The fault of what it was fed, if it has one: that which every later call answers.
    pub fn fault(&self) -> Option<Fault>
        ensures { result ≡ self.now.fault }
    {
        self.fault
    }

    /// How many routes have expired at the moment, as they were not announced again.
    pub fn count_expired(&self, moment: u128) -> usize
        ensures { result + length (lasting_words self.now.factor moment self.now.words)
            ≡ length self.now.words }
    {
        self.so_far.rows.count_expired(moment)
    }

    /// A feeder that stands where these packets led this one, to be finished.
    pub fn into_feeder(self) -> Result<Feeder, AllocError>
        ensures { IfOk result (λ feeder. feeder ≡ self) }
    {
        let pending = Pending::new(self.alloc)?;
        let stream = Stream {
            start: self.start,
            so_far: Box::into_inner(self.so_far),
            at: self.at,
            pending,
        };
        Ok(Feeder {
            alloc: self.alloc,
            limits: self.limits,
            stream,
            fault: self.fault,
        })
    }
}
