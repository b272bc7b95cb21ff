//! What was not read of a capture, as there is to say at once.
ghost use Rattle.std.specs.Prelude.{◌≡◌, []};
ghost use Rattle.babel_dump.specs.Remarks.{SaysRemark, SaysRemarks};

use crate::events_job::Events;
use crate::hearing::Hearing;
use crate::hint::Hint;
use crate::ignored::{first_ignored, newly_ignored};
use crate::left_out::LeftOutDatagram;
use crate::reason_text::REASONS;
use crate::remark::{NamedRemark, Remark, Unread};
use crate::says::Says;
use crate::speaker::{Speaker, speaker_at};
use crate::trouble::say_hint;
use babel_capture::{BabelPacket, Gathered, MAX_SENDERS, Origin, Reason};
use babel_table::Report;
use babel_tlv::Reason as IgnoredFor;
use std::alloc::{AllocError, Global};
use std::collections::BTreeSet;

/// What was not read, of which was not said yet. If the command is quiet, nothing is said.
#[derive(Drop)]
pub(crate) struct Remarks {
    is_quiet: bool,
    remarks: Vec<Remark>,
    /// Whose datagrams were left out, and for which reasons.
    left_out: BTreeSet<(Speaker, Reason)>,
    /// The number of the first packet of a sender that is not followed.
    pub not_followed: Option<u64>,
    /// What can be done where encoding 4 is ignored: RFC 9229.
    hint: Option<Hint>,
    /// Whether a remark is said with that.
    is_hinted: bool,
}

impl Remarks {
    /// Nothing yet.
    pub(crate) fn new(alloc: Global, events: &Events) -> Remarks {
        Remarks {
            is_quiet: events.quiet,
            remarks: Vec::new(alloc),
            left_out: BTreeSet::new(alloc),
            not_followed: None,
            hint: Hint::of_encoding_4(events.limits.via_v6()),
            is_hinted: false,
        }
    }

    /// Adds what of a sender was not read.
    fn add(&mut self, remark: Remark) -> Result<(), AllocError> {
        if !self.is_quiet {
            self.remarks.push(remark)?;
        }
        Ok(())
    }

    /// Adds what of a sender's datagram was not read.
    fn add_datagram(&mut self, origin: Origin, unread: Unread) -> Result<(), AllocError> {
        self.add(Remark {
            origin,
            unread,
            is_hinted: false,
        })
    }

    /// A datagram of a sender was left out that is missed, so that no more is told of it.
    pub(crate) fn lost(
        &mut self,
        origin: Origin,
        datagram: LeftOutDatagram,
    ) -> Result<(), AllocError> {
        self.add_datagram(origin, Unread::Lost(datagram))
    }

    /// A datagram of a sender was left out that is not missed. It is said once of each sender at its
    /// place and each reason, of so many as there are senders at most.
    pub(crate) fn left_out(
        &mut self,
        origin: Origin,
        datagram: LeftOutDatagram,
    ) -> Result<(), AllocError> {
        if self.left_out.len() >= MAX_SENDERS {
            return Ok(());
        }
        let Origin { place, sender } = origin;
        match self
            .left_out
            .insert((Speaker { sender, place }, datagram.reason))
        {
            Ok(true) => self.add_datagram(origin, Unread::LeftOut(datagram)),
            Ok(false) => Ok(()),
            Err(_) => Err(AllocError),
        }
    }

    /// A sender is not followed, of which the packet with this number is. It is said of the first.
    pub(crate) fn not_followed(&mut self, origin: &Origin, packet: u64) -> Result<(), AllocError> {
        if self.not_followed.is_some() {
            return Ok(());
        }
        self.not_followed = Some(packet);
        self.add_datagram(*origin, Unread::NotFollowed(packet))
    }

    /// A packet of a sender was heard: the first TLV for each reason for which none was ignored
    /// before it.
    pub(crate) fn ignored(
        &mut self,
        hearing: &Hearing,
        packet: &BabelPacket<'_>,
    ) -> Result<(), AllocError> {
        if self.is_quiet {
            return Ok(());
        }
        let report = hearing.report(speaker_at(&packet.origin));
        if first_ignored(&report).is_none() {
            return Ok(());
        }
        let octets = packet.octets.len() as u64;
        let heard = hearing.octets(speaker_at(&packet.origin));
        let from = heard.saturating_sub(octets);
        for reason in &REASONS {
            self.ignored_for(&packet.origin, from, &report, *reason)?;
        }
        Ok(())
    }

    /// Of the packet whose octets begin at this offset, the same for one reason.
    fn ignored_for(
        &mut self,
        origin: &Origin,
        from: u64,
        report: &Report,
        reason: IgnoredFor,
    ) -> Result<(), AllocError> {
        let Some(tlv) = newly_ignored(from, report, reason) else {
            return Ok(());
        };
        let is_of_encoding_4 = reason == IgnoredFor::UnknownEncoding && report.ignores_encoding_4();
        let is_hinted = is_of_encoding_4 && !self.is_hinted;
        self.is_hinted |= is_of_encoding_4;
        self.add(Remark {
            origin: *origin,
            unread: Unread::Ignored(tlv),
            is_hinted,
        })
    }

    /// Says what was not read since it was said last.
    pub(crate) fn say<S: Says>(&mut self, gathered: &Gathered, says: &mut S)
        ensures said { SaysRemarks S.hears gathered.now self.old.hint says.old
            self.old.remarks.items says.new }
        ensures none_waits { self.new.remarks.items ≡ [] }
    {
        for remark in &self.remarks {
            say_remark(gathered, remark, &self.hint, says);
        }
        self.remarks.clear();
    }
}

/// Says what of a sender was not read, and where it is said with that, what can be done about it.
fn say_remark<S: Says>(gathered: &Gathered, remark: &Remark, hint: &Option<Hint>, says: &mut S)
    ensures { SaysRemark S.hears gathered.now hint.now says.old remark.now says.new }
{
    says.say(&NamedRemark {
        remark: *remark,
        name: gathered.name(remark.origin.place.interface),
    });
    if remark.is_hinted {
        say_hint(says, hint);
    }
}
