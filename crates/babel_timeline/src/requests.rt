//! What a packet requests, as it is told.
ghost use Rattle.std.specs.Prelude.{◌≡◌, ◌++◌, OnOk};
ghost use Rattle.babel_timeline.specs.RequestsTold.{requests_told, unicast};

use crate::sender::Sender;
use crate::telling::Telling;
use babel_prefix::{Addr, Family};
use babel_tlv::{Request, Tlvs};
use std::alloc::AllocError;

/// Tells what a whole packet of a sender, which came at this time, requests, and of whom, in the
/// order of its TLVs; adds it to what was told. Address encoding 4 is read as IPv4, or not.
pub fn tell_requests<S: Sender>(
    via_v6: bool,
    sender: S,
    to: &Option<Addr>,
    time: u128,
    packet: &[u8],
    told: &mut Vec<Telling<S>>,
) -> Result<(), AllocError>
    ensures { OnOk result (told.new.items
        ≡ told.old.items ++ requests_told via_v6 sender to.now time packet.now) }
{
    let [_, _, _, _, body @ ..] = packet else {
        return Ok(());
    };
    let mut tlvs = Tlvs::new(body, 0);
    while let Some(tlv) = tlvs.advance() {
        if let Some(request) = Request::read(&tlv, via_v6) {
            told.push(Telling::Request {
                time,
                sender,
                to: *to,
                request,
            })?;
        }
    }
    Ok(())
}

/// The address, if it is that of one node: neither multicast (RFC 4291, 2.7; RFC 1112, 4) nor the
/// limited broadcast (RFC 919, 7).
pub fn unicast(address: Addr) -> Option<Addr>
    ensures { result ≡ unicast address }
{
    let bits = address.bits();
    let is_of_many = match address.family() {
        Family::V4 => bits >> 28 == 0xe || bits == 0xffff_ffff,
        Family::V6 => bits >> 120 == 0xff,
    };
    if is_of_many { None } else { Some(address) }
}
