//! The source table of a router, as its packets build it.
ghost use Rattle.std.specs.Prelude.{◌++◌, List, OnOk};
ghost use Rattle.babel_timeline.specs.RequestsTold.{body_of};
ghost use Rattle.babel_selection.specs.Announcing.{AreDistances};
ghost use Rattle.babel_selection.specs.Distances.{OwnUpdate};
ghost use Rattle.babel_selection.specs.OwnUpdates.{update_of, updates_of};

use crate::sources::Sources;
use babel_tlv::{Event, Start, State, Tlvs};
use std::alloc::AllocError;

impl Sources {
    /// Takes the Updates of a packet of the router's own, which begins so and came at this time.
    pub fn hear_packet(&mut self, start: Start, time: u128, packet: &[u8]) -> Result<(), AllocError>
        ensures { OnOk result ((before : List OwnUpdate) → AreDistances before self.old
            → AreDistances (before ++ updates_of start time (body_of packet.now)) self.new) }
    {
        match packet {
            [_, _, _, _, body @ ..] => self.hear_body(start, time, body),
            _ => self.hear_body(start, time, &[]),
        }
    }

    /// Takes the Updates in the body of a packet of the router's own, which begins so and came at
    /// this time; of one that is refused those before the TLV for which it is.
    fn hear_body(&mut self, start: Start, time: u128, body: &[u8]) -> Result<(), AllocError>
        ensures { OnOk result ((before : List OwnUpdate) → AreDistances before self.old
            → AreDistances (before ++ updates_of start time body.now) self.new) }
    {
        let mut state = State::at(start);
        let mut tlvs = Tlvs::new(body, 0);
        'each: while let Some(tlv) = tlvs.advance() {
            match state.step(&tlv) {
                Ok(event) => self.hear_event(&event, time)?,
                Err(_) => return Ok(()),
            }
        }
        Ok(())
    }

    /// Takes what a TLV says, if it announces a route.
    fn hear_event(&mut self, event: &Event, time: u128) -> Result<(), AllocError>
        ensures { OnOk result ((before : List OwnUpdate) → AreDistances before self.old
            → AreDistances (before ++ update_of time event.now) self.new) }
    {
        match event {
            Event::Announce(key, ann) => self.hear(key, ann, time),
            _ => Ok(()),
        }
    }
}
