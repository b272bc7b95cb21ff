ghost use Rattle.std.specs.Prelude.{◌≡◌, ◌+◌, ◌^◌, ◌<◌, [], IfSome, None};
ghost use Rattle.babel_capture.specs.Counts.{Counts, count_at, counts_of, interval_found};
ghost use Rattle.babel_capture.specs.Counts.{reason_place};
ghost use Rattle.babel_capture.specs.Counting.{counted, counted_at, counted_missing};
ghost use Rattle.babel_capture.specs.Counting.{counted_with, one_more};
ghost use Rattle.babel_capture.specs.Findings.{finding_of};
ghost use Rattle.babel_capture.specs.Times.{kept};

use crate::finding::Finding;
use crate::link::Link;
use crate::reason::Reason;
use crate::sections::Sections;
use crate::time::Time;
use crate::timing::Timing;
use crate::updates::greater;
use std::marker::Model;

/// How many packets a capture has, and which wanted datagrams were left out.
#[derive(Clone, Copy)]
pub struct Report {
    packets: u64,
    missing: u64,
    left_out: [Option<(u64, u64)>; 8],
    short: u64,
    cooked: u64,
    trailers: u64,
    sections: Sections,
    timing: Timing,
    interval: Option<u16>,
}

impl Model for Report {
    ghost use Rattle.babel_capture.specs.Counts.{Counts, count_at};
    ghost use Rattle.std.specs.Prelude.{◌≡◌, ◌≤◌, ◌+◌, ℕ, length, IfSome};

    ghost Value = { Counts };

    ghost view = { λ r. record {
      packets = r.packets;
      missing = r.missing;
      left_out = r.left_out;
      short = r.short;
      cooked = r.cooked;
      trailers = r.trailers;
      sections = r.sections;
      timing = r.timing;
      interval = r.interval;
    } };

    ghost invariant = { λ r. (length r.left_out ≡ 8)
        × (r.short ≤ r.packets) × (r.cooked ≤ r.packets) × (r.trailers ≤ r.packets)
        × (r.sections.count ≤ r.packets) × ((i : ℕ)
        → IfSome (count_at r.left_out i) (λ counted. counted.0 ≤ r.packets + r.missing)) };

    ghost inverse = { λ r. record {
      packets = r.packets;
      missing = r.missing;
      left_out = r.left_out;
      short = r.short;
      cooked = r.cooked;
      trailers = r.trailers;
      sections = r.sections;
      timing = r.timing;
      interval = r.interval;
    } };
}

impl Report {
    /// How many packets the capture has.
    pub fn packets(&self) -> u64
        ensures { result ≡ self.now.packets }
    {
        self.packets
    }

    /// How many wanted datagrams were left out for the reason, and the lowest number of their
    /// packets, from 1; `None` if none was.
    pub fn left_out(&self, reason: Reason) -> Option<(u64, u64)>
        ensures { result ≡ count_at self.now.left_out (reason_place reason) }
    {
        self.left_out[reason as usize]
    }

    /// How many frames were too short to tell whether they had a datagram of Babel.
    pub fn short(&self) -> u64
        ensures { result ≡ self.now.short }
    {
        self.short
    }

    /// How many of the Babel packets came in frames of Linux cooked, version 1, which name no
    /// interface.
    pub fn cooked(&self) -> u64
        ensures { result ≡ self.now.cooked }
    {
        self.cooked
    }

    /// How many of the Babel packets have octets after the body, as the trailer of RFC 8967, 3.
    pub fn trailers(&self) -> u64
        ensures { result ≡ self.now.trailers }
    {
        self.trailers
    }

    /// In how many sections, each of which describes its interfaces anew, datagrams of Babel came,
    /// whoever is wanted; those that are skipped do not count. A pcap file is one section.
    pub fn sections(&self) -> u64
        ensures { result ≡ self.now.sections.count }
    {
        self.sections.count
    }

    /// What is told of the times of the packets, but for those that are skipped.
    pub fn timing(&self) -> Timing
        ensures { result ≡ self.now.timing }
    {
        self.timing
    }

    /// The greatest Interval of the Updates that announce, in centiseconds, of the wanted senders.
    pub fn interval(&self) -> Option<u16>
        ensures { result ≡ self.now.interval }
    {
        self.interval
    }

    /// The report of no packet.
    pub(crate) fn new() -> Report
        ensures { result ≡ counts_of [] }
    {
        Report {
            packets: 0,
            missing: 0,
            left_out: [None; 8],
            short: 0,
            cooked: 0,
            trailers: 0,
            sections: Sections::new(),
            timing: Timing::new(),
            interval: None,
        }
    }

    /// Counts a packet of an interface of this link type, which came then, and in this section, if
    /// it is a datagram of Babel, and of which this is made; a packet that is found has this
    /// Interval.
    #[inline(always)]
    pub(crate) fn count(
        &mut self,
        link: Link,
        time: Option<Time>,
        section: Option<u64>,
        finding: &Finding<'_>,
        interval: Option<u16>,
    )
        requires room { self.old.packets + 1 + self.old.missing < 2 ^ 64 }
        requires interval { interval ≡ interval_found (finding_of finding.now) }
        ensures { self.new ≡ counted (counted_at self.old (kept time section)) link
            (finding_of finding.now) }
    {
        self.packets += 1;
        self.timing.take(self.packets, time);
        self.sections = self.sections.with(section);
        match finding {
            Finding::Passed | Finding::Refused(_) => {}
            Finding::Short => self.short += 1,
            Finding::Left { reason, .. } => {
                let place = place_of(*reason);
                self.left_out[place] = one_more_of(self.left_out[place], self.packets);
            }
            Finding::Packet { has_trailer, .. } => {
                self.interval = greater(self.interval, interval);
                self.trailers += u64::from(*has_trailer);
                self.cooked += u64::from(link == Link::Cooked);
            }
        }
    }

    /// Counts a packet that is no datagram of Babel, which came then.
    pub(crate) fn count_other(&mut self, time: &Option<Time>)
        requires { self.old.packets + 1 < 2 ^ 64 }
        ensures { self.new ≡ counted_with (counted_at self.old (kept time.now None)) None }
    {
        self.packets += 1;
        self.timing.take(self.packets, *time);
    }

    /// Counts a datagram of which fragments are missing, the first of which to come had this
    /// number, and of which this is made.
    pub(crate) fn count_missing(&mut self, number: u64, finding: &Finding<'_>)
        requires { self.old.packets + self.old.missing + 1 < 2 ^ 64 }
        ensures { self.new ≡ counted_missing self.old number (finding_of finding.now) }
    {
        self.missing += 1;
        if let Finding::Left { reason, .. } = finding {
            let place = place_of(*reason);
            self.left_out[place] = one_more_of(self.left_out[place], number);
        }
    }

    /// Counts a packet that is skipped.
    pub(crate) fn count_skipped(&mut self)
        requires { self.old.packets + 1 < 2 ^ 64 }
        ensures { self.new ≡ counted_with self.old None }
    {
        self.packets += 1;
    }
}

/// The count of datagrams left out, with one more of this number.
fn one_more_of(counted: Option<(u64, u64)>, number: u64) -> Option<(u64, u64)>
    requires { IfSome counted (λ c. c.0 + 1 < 2 ^ 64) }
    ensures { result ≡ one_more number counted }
{
    match counted {
        None => Some((1, number)),
        Some((count, first)) => Some((count + 1, first.min(number))),
    }
}

/// The place of a reason in their order.
fn place_of(reason: Reason) -> usize
    ensures value { result ≡ reason_place reason }
    ensures in_order { result < 8 }
{
    reason as usize
}
