//! Which senders of a capture are followed.
ghost use Rattle.std.specs.Prelude.{◌≡◌, [], IfOk, OnOk, Some, if◌then◌else◌};
ghost use Rattle.std.specs.BTreeMap.{insert_entry};
ghost use Rattle.babel_capture.specs.Counts.{Made};
ghost use Rattle.babel_capture.specs.Findings.{octets_found};
ghost use Rattle.babel_capture.specs.Sinking.{IsTold};
ghost use Rattle.babel_capture.specs.Tallies.{origin_cmp};
ghost use Rattle.babel_dump.specs.FollowedSenders.{follows, has_room, has_update, with_sender};
ghost use Rattle.babel_dump.specs.FollowedSenders.{sender_of as sender_found};

use babel_capture::{MAX_SENDERS, Origin, Record, Said, updates_in};
use std::alloc::{AllocError, Global};
use std::collections::BTreeMap;

/// How many senders are followed at most. Past 65,536 one more is only if it announces something.
const MOST_SENDERS: usize = 2 * MAX_SENDERS;

/// The senders that are followed, each at each place: the first 65,536 of whom a packet came, or a
/// datagram is missed; and besides 65,536 more, each from its first packet with an Update on.
#[derive(Drop)]
pub(crate) struct FollowedSenders {
    /// Whether a packet of each came; by place, then by address.
    pub senders: BTreeMap<Origin, bool>,
}

impl FollowedSenders {
    /// Nobody.
    pub(crate) fn new(alloc: Global) -> FollowedSenders
        ensures { result.senders.entries ≡ [] }
    {
        FollowedSenders {
            senders: BTreeMap::new(alloc),
        }
    }

    /// Follows a sender of whom a packet of these octets came, or a datagram is missed, if there is
    /// room. Whether it is followed.
    pub(crate) fn meet(
        &mut self,
        origin: &Origin,
        is_packet: bool,
        octets: &[u8],
    ) -> Result<bool, AllocError>
        ensures { IfOk result (λ is_followed. let senders = self.old.senders.entries in
            (is_followed ≡ follows senders origin.now octets.now)
            × (self.new.senders.entries ≡ if is_followed
            then with_sender senders (Some (origin.now, is_packet)) else senders)) }
    {
        if let Some(has_packets) = self.senders.get_mut(origin) {
            *has_packets = is_packet || *has_packets;
            return Ok(true);
        }
        if !self.has_room(octets) {
            return Ok(false);
        }
        self.put(*origin, is_packet)?;
        Ok(true)
    }

    /// Whether there is room for a sender of whom a packet of these octets came.
    fn has_room(&self, octets: &[u8]) -> bool
        ensures { result ≡ has_room self.now.senders.entries octets.now }
    {
        let followed = self.senders.len();
        followed < MAX_SENDERS || (has_update(octets) && followed < MOST_SENDERS)
    }

    /// Keeps whether a packet of a sender came.
    fn put(&mut self, origin: Origin, has_packets: bool) -> Result<(), AllocError>
        ensures { OnOk result (self.new.senders.entries
            ≡ insert_entry origin_cmp self.old.senders.entries origin has_packets) }
    {
        match self.senders.insert(origin, has_packets) {
            Ok(_) => Ok(()),
            Err(_) => Err(AllocError),
        }
    }
}

/// Whether the octets of a packet have an Update.
fn has_update(octets: &[u8]) -> bool
    ensures { result ≡ has_update octets.now }
{
    updates_in(octets).count > 0
}

/// Whose packet a record has, or whose datagram that is missed; and whether it is a packet.
#[inline(always)]
pub(crate) fn sender_of(told: &Record<'_>) -> Option<(Origin, bool)>
    ensures { (one : Made) → IsTold one told.now → result ≡ sender_found one.what }
{
    match &told.said {
        Said::Packet(packet) => Some((packet.origin, true)),
        Said::Missed(missed) => Some((missed.origin, false)),
        Said::LeftOut { .. } => None,
        Said::Nothing => None,
    }
}

/// The octets of a record's packet; none where it has no packet.
pub(crate) fn octets_of<'a>(told: &Record<'a>) -> &'a [u8]
    ensures { (one : Made) → IsTold one told.now → result.now ≡ octets_found one.what }
{
    match &told.said {
        Said::Packet(packet) => packet.octets,
        _ => &[],
    }
}
