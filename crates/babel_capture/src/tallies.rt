ghost use Rattle.std.specs.Prelude.{◌≡◌, ◌≤◌, ◌⊎◌, [], length, IfErr, IfNone, IfOk, IfSome, None};
ghost use Rattle.std.specs.Prelude.{OnOk};
ghost use Rattle.babel_capture.specs.Counts.{interval_found};
ghost use Rattle.babel_capture.specs.Findings.{finding_of};
ghost use Rattle.babel_capture.specs.Gathering.{FoundNeedsMemory, RefusesFound};
ghost use Rattle.babel_capture.specs.Tallies.{CountNeedsMemory, IsOneTooMany, Overflows};
ghost use Rattle.babel_capture.specs.Tallies.{listed_with, no_packets, one_more, tallied, tally_of};
ghost use Rattle.babel_capture.specs.Updates.{interval_in, updates_in};

use crate::fault::Fault;
use crate::finding::Finding;
use crate::place::Place;
use crate::time::Time;
use crate::timing::{earlier, later};
use crate::updates::{Updates, greater, updates_in};
use babel_prefix::Addr;
use std::alloc::Global;
use std::collections::BTreeMap;
use std::marker::Model;

/// How many senders are kept: each is counted at each place where it occurs.
pub const MAX_SENDERS: usize = 65_536;

/// A sender of Babel packets, at the place where they were captured. These are ordered by place,
/// then by address.
#[derive(Clone, Copy, PartialEq, Eq, PartialOrd, Ord)]
pub struct Origin {
    pub place: Place,
    pub sender: Addr,
}

/// How many packets a sender sent, how many octets these are, header and body, without what comes
/// after them, how many Updates they have, and when they came.
#[derive(Clone, Copy)]
pub struct Tally {
    pub packets: u64,
    pub octets: u64,
    pub updates: u64,
    /// How many packets have octets after the body, as the trailer of RFC 8967, 3.
    pub trailers: u64,
    /// The greatest Interval of the Updates that announce, in centiseconds.
    pub interval: Option<u16>,
    /// The earliest and the latest time, of those that have one.
    pub first: Option<Time>,
    pub last: Option<Time>,
}

impl Tally {
    /// That of no packets.
    fn none() -> Tally
        ensures { result ≡ no_packets }
    {
        Tally {
            packets: 0,
            octets: 0,
            updates: 0,
            trailers: 0,
            interval: None,
            first: None,
            last: None,
        }
    }

    /// Counts one packet more, with these Updates, and whether octets come after its body; `None`
    /// if its packets, their octets or their Updates are more than 2^64 - 1, and it is then not to
    /// be used.
    #[inline(always)]
    fn add(
        &mut self,
        time: &Option<Time>,
        packet: &[u8],
        updates: &Updates,
        has_trailer: bool,
    ) -> Option<()>
        requires count { updates.now.count ≡ updates_in packet.now }
        requires interval { updates.now.interval ≡ interval_in packet.now }
        ensures some { IfSome result
            (λ _. self.new ≡ one_more self.old time.now packet.now has_trailer) }
        ensures none { IfNone result (Overflows self.old packet.now has_trailer) }
    {
        self.packets = self.packets.checked_add(1)?;
        self.octets = self.octets.checked_add(packet.len() as u64)?;
        self.updates = self.updates.checked_add(updates.count)?;
        self.trailers = self.trailers.checked_add(u64::from(has_trailer))?;
        self.interval = greater(self.interval, updates.interval);
        self.first = earlier(&self.first, time);
        self.last = later(&self.last, time);
        Some(())
    }
}

/// The tally of each sender at each place.
#[derive(Drop)]
pub struct Tallies {
    tallies: BTreeMap<Origin, Tally>,
}

impl Model for Tallies {
    ghost use Rattle.std.specs.Prelude.{◌≤◌, length};
    ghost use Rattle.babel_capture.specs.Tallies.{Senders};

    ghost Value = { Senders };

    ghost view = { λ t. t.tallies.entries };

    ghost invariant = { λ t. length t.tallies.entries ≤ 65536 };
}

impl Tallies {
    /// No senders.
    pub fn new(alloc: Global) -> Tallies
        ensures { result ≡ [] }
    {
        Tallies {
            tallies: BTreeMap::new(alloc),
        }
    }

    /// The tallies, by place, then by address.
    pub fn as_map(&self) -> &BTreeMap<Origin, Tally>
        ensures { result.now.entries ≡ self.now }
    {
        &self.tallies
    }

    /// Counts the packet in the block at this offset, if one is found there, for its sender where
    /// senders are listed: the greatest Interval of its Updates that announce.
    #[inline(always)]
    pub fn take(
        &mut self,
        at: u64,
        time: Option<Time>,
        finding: &Finding<'_>,
        are_listed: bool,
    ) -> Result<Option<u16>, Fault>
        ensures ok { OnOk result
            (self.new ≡ listed_with are_listed self.old time (finding_of finding.now)) }
        ensures interval { IfOk result
            (λ interval. interval ≡ interval_found (finding_of finding.now)) }
        ensures few { OnOk result (length self.old ≤ 65536 → length self.new ≤ 65536) }
        ensures err { IfErr result (λ fault. (fault ≡ Fault.Memory)
            ⊎ RefusesFound self.old at (finding_of finding.now) fault) }
        ensures memory { IfErr result (λ fault. fault ≡ Fault.Memory
            → FoundNeedsMemory self.old (finding_of finding.now)) }
    {
        let Finding::Packet {
            origin,
            octets,
            has_trailer,
            ..
        } = finding
        else {
            return Ok(None);
        };
        let updates = updates_in(octets);
        if are_listed {
            self.add(at, *origin, time, octets, &updates, *has_trailer)?;
        }
        Ok(updates.interval)
    }

    /// Counts a packet with these Updates, which is in the block at this offset, and whether octets
    /// come after its body.
    #[inline(always)]
    fn add(
        &mut self,
        at: u64,
        origin: Origin,
        time: Option<Time>,
        packet: &[u8],
        updates: &Updates,
        has_trailer: bool,
    ) -> Result<(), Fault>
        requires count { updates.now.count ≡ updates_in packet.now }
        requires interval { updates.now.interval ≡ interval_in packet.now }
        ensures ok { OnOk result (self.new ≡ tallied self.old origin time packet.now has_trailer) }
        ensures few { OnOk result (length self.new ≤ 65536) }
        ensures err { IfErr result (λ fault. (fault ≡ Fault.Memory)
            ⊎ ((fault ≡ Fault.TooManySenders at) × IsOneTooMany self.old origin)) }
        ensures memory { IfErr result (λ fault. fault ≡ Fault.Memory
            → CountNeedsMemory (tally_of self.old origin) packet.now has_trailer) }
    {
        let Some(tally) = self.tallies.get_mut(&origin) else {
            if self.tallies.len() >= MAX_SENDERS {
                return Err(Fault::TooManySenders { at });
            }
            let mut first = Tally::none();
            let Some(()) = first.add(&time, packet, updates, has_trailer) else {
                return Err(Fault::Memory);
            };
            match self.tallies.insert(origin, first) {
                Ok(_) => return Ok(()),
                Err(_) => return Err(Fault::Memory),
            }
        };
        match tally.add(&time, packet, updates, has_trailer) {
            Some(()) => Ok(()),
            None => Err(Fault::Memory),
        }
    }
}
