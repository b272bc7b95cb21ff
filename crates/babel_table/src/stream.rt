ghost use Rattle.std.specs.Prelude.{◌≡◌, ◌≢◌, ◌≤◌, ◌<◌, ◌+◌, ◌-◌, ◌^◌, ◌++◌, [], length, take};
ghost use Rattle.std.specs.Prelude.{OnOk, IfOk, IfErr};
ghost use Rattle.babel_table.specs.Feeding.{IsPartial, IsReady};
ghost use Rattle.babel_table.specs.Streams.{KeepsSettings, TakesOctets};
ghost use Rattle.babel_table.specs.Streams.{StopsInLimit, StopsInOctets};

use crate::pending::Pending;
use crate::so_far::SoFar;
use babel_tlv::{Fault, Start};

/// Packets end to end, as far as they were read.
#[derive(Drop)]
pub struct Stream {
    /// What each packet begins with.
    pub start: Start,
    /// What the whole packets gave.
    pub so_far: SoFar,
    /// The offset of the packet that isn't whole.
    pub at: u64,
    /// Its octets so far.
    pub pending: Pending,
}

impl Stream {
    /// Takes the whole packets that the octets begin with, and keeps the rest. Nothing is pending.
    fn take_in_place(&mut self, octets: &[u8]) -> Result<(), Fault>
        requires none { self.old.pending ≡ [] }
        requires counted { self.old.so_far.report.tlvs ≤ self.old.at }
        requires fits { self.old.at + length octets.now < 2 ^ 64 }
        ensures settings { KeepsSettings self.old self.new }
        ensures counted { OnOk result (self.new.so_far.report.tlvs ≤ self.new.at) }
        ensures partial { OnOk result (IsPartial self.new.pending) }
        ensures took { OnOk result (TakesOctets self.old octets.now self.new self.new.pending) }
        ensures stops { IfErr result (StopsInOctets self.old octets.now) }
    {
        let used = self.so_far.take_packets(&self.start, octets, self.at)?;
        self.at += used as u64;
        self.pending.add(&octets[used..]);
        Ok(())
    }

    /// Takes the packet that is pending, if these octets make it whole, and gives those after it.
    fn take_pending<'a>(&mut self, octets: &'a [u8]) -> Result<&'a [u8], Fault>
        requires partial { IsPartial self.old.pending }
        requires counted { self.old.so_far.report.tlvs ≤ self.old.at }
        requires fits { self.old.at + (length self.old.pending + length octets.now) < 2 ^ 64 }
        ensures settings { KeepsSettings self.old self.new }
        ensures counted { IfOk result (λ rest. self.new.so_far.report.tlvs ≤ self.new.at) }
        ensures partial { IfOk result (λ rest. IsPartial self.new.pending) }

        // Octets are given back only after a whole packet.
        ensures whole { IfOk result (λ rest. rest.now ≢ [] → self.new.pending ≡ []) }
        ensures took { IfOk result (λ rest. TakesOctets
            self.old (self.old.pending ++ octets.now) self.new (self.new.pending ++ rest.now)) }
        ensures stops { IfErr result (StopsInOctets self.old (self.old.pending ++ octets.now)) }
    {
        let rest = self.pending.fill(octets);
        let used = self
            .so_far
            .take_packets(&self.start, self.pending.octets(), self.at)?;
        if used == 0 {
            return Ok(rest);
        }
        self.at += used as u64;
        self.pending.clear();
        Ok(rest)
    }

    /// Takes the next octets: the table takes the whole packets, and the rest is kept.
    fn take(&mut self, octets: &[u8]) -> Result<(), Fault>
        requires partial { IsPartial self.old.pending }
        requires counted { self.old.so_far.report.tlvs ≤ self.old.at }
        requires fits { self.old.at + (length self.old.pending + length octets.now) < 2 ^ 64 }
        ensures settings { KeepsSettings self.old self.new }
        ensures counted { OnOk result (self.new.so_far.report.tlvs ≤ self.new.at) }
        ensures partial { OnOk result (IsPartial self.new.pending) }
        ensures took { OnOk result
            (TakesOctets self.old (self.old.pending ++ octets.now) self.new self.new.pending) }
        ensures stops { IfErr result (StopsInOctets self.old (self.old.pending ++ octets.now)) }
    {
        if self.pending.octets().is_empty() {
            return self.take_in_place(octets);
        }
        let rest = self.take_pending(octets)?;
        if !self.pending.octets().is_empty() {
            return Ok(());
        }
        self.take_in_place(rest)
    }

    /// Takes the next octets, but for those past this many in all, which aren't looked at.
    pub fn take_within(&mut self, bytes: u32, octets: &[u8]) -> Result<(), Fault>
        requires { IsReady bytes self.old.so_far.report.tlvs self.old.at self.old.pending }
        ensures settings { KeepsSettings self.old self.new }
        ensures ready { OnOk result
            (IsReady bytes self.new.so_far.report.tlvs self.new.at self.new.pending) }
        ensures took { OnOk result
            (TakesOctets self.old (self.old.pending ++ octets.now) self.new self.new.pending) }
        ensures stops { IfErr result (StopsInLimit bytes self.old octets.now) }
    {
        let room = (bytes as u64 - (self.at + self.pending.octets().len() as u64)) as usize;
        if octets.len() <= room {
            return self.take(octets);
        }
        match self.take(&octets[..room]) {
            Ok(()) => Err(Fault::TooLong),
            Err(fault) => Err(fault),
        }
    }
}
