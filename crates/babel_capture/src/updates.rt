ghost use Rattle.std.specs.Prelude.{◌≡◌, length, drop};
ghost use Rattle.babel_capture.specs.Timing.{greatest};
ghost use Rattle.babel_capture.specs.Updates.{announced_interval, interval_in};
ghost use Rattle.babel_capture.specs.Updates.{updates_in};
ghost use Rattle.babel_tlv.specs.Frames.{tlv_value};
ghost use Rattle.babel_tlv.specs.Framing.{tlv_octets};

use crate::order::Order;
use babel_tlv::{Tlv, Tlvs};

/// The type of an Update: RFC 8966, 4.6.9.
const UPDATE: u8 = 8;
/// Where the Interval and the metric of an Update are in its body, how many octets are before the
/// prefix, and the metric of a retraction: RFC 8966, 4.6.9.
const INTERVAL: usize = 4;

const METRIC: usize = 8;

const PREFIX: usize = 10;

const RETRACTED: u16 = 0xffff;

/// The octets of a packet's header: RFC 8966, 4.2.
const HEADER_LEN: usize = 4;

/// The Updates of a packet.
#[derive(Clone, Copy)]
pub struct Updates {
    /// How many there are, whatever they hold.
    pub count: u64,
    /// The greatest Interval of those that announce.
    pub interval: Option<u16>,
}

/// The Updates of a packet; none if a TLV runs past its end.
#[tactic(auto, unfolding(crate::specs::Updates::updates_in, crate::specs::Updates::interval_in))]
pub fn updates_in(packet: &[u8]) -> Updates
    ensures count { result.count ≡ updates_in packet.now }
    ensures interval { result.interval ≡ interval_in packet.now }
{
    let body = body_of(packet);
    let mut tlvs = Tlvs::new(body, 0);
    let mut len = 0;
    let mut count = 0;
    let mut interval = None;
    while let Some(tlv) = tlvs.advance() {
        len += len_of(&tlv);
        if tlv.kind == UPDATE {
            count += 1;
            interval = greater(interval, announced_interval(&tlv));
        }
    }
    if len == body.len() {
        Updates { count, interval }
    } else {
        Updates {
            count: 0,
            interval: None,
        }
    }
}

/// The Interval of an Update that announces.
fn announced_interval(tlv: &Tlv<'_>) -> Option<u16>
    ensures { result ≡ announced_interval (tlv_value tlv.now) }
{
    if tlv.kind != UPDATE || tlv.body.len() < PREFIX {
        return None;
    }
    if Order::Big.u16_at(tlv.body, METRIC) == RETRACTED {
        return None;
    }
    Some(Order::Big.u16_at(tlv.body, INTERVAL))
}

/// The greater of two Intervals, or the one that there is.
pub fn greater(one: Option<u16>, other: Option<u16>) -> Option<u16>
    ensures { result ≡ greatest one other }
{
    match (one, other) {
        (Some(one), Some(other)) => Some(one.max(other)),
        (one, other) => one.or(other),
    }
}

/// The octets after a packet's header.
fn body_of(packet: &[u8]) -> &[u8]
    ensures { result.now ≡ drop 4 packet.now }
{
    packet.get(HEADER_LEN..).unwrap_or(&[])
}

/// How many octets a TLV has: RFC 8966, 4.3, 4.6.1.
#[tactic(auto, using(crate::proofs::UpdateLaws::laid_out_len))]
fn len_of(tlv: &Tlv<'_>) -> usize
    ensures { result ≡ length (tlv_octets (tlv_value tlv.now)) }
{
    if tlv.kind == 0 { 1 } else { 2 + tlv.body.len() }
}
