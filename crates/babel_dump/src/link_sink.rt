//! The Hellos and IHUs in a capture, heard as it is read.
ghost use Rattle.std.specs.Prelude.{◌≡◌, ◌^◌, ◌<◌, ◌∷◌, [], OnOk, false};
ghost use Rattle.std.specs.Option.{unwrap_or};
ghost use Rattle.babel_capture.specs.Counts.{Made};
ghost use Rattle.babel_capture.specs.Sinking.{IsTold};
ghost use Rattle.babel_selection.specs.HeardLinks.{Hears};
ghost use Rattle.babel_selection.specs.Hearing.{no_ihus};
ghost use Rattle.babel_dump.specs.LinksHeard.{hellos_made, ihus_made};
ghost use Rattle.babel_dump.specs.Nodes.{node_cmp};

use crate::node::Node;
use babel_capture::{Record, Said, Sink, Time};
use babel_selection::LinkHearing;
use std::alloc::{AllocError, Global};

/// Hears what the packets that it takes say of links.
#[derive(Drop)]
pub(crate) struct LinkSink {
    pub heard: LinkHearing<Node>,
    /// Whether memory ran out, so that packets are missing.
    pub has_failed: bool,
}

impl LinkSink {
    /// Nothing was heard.
    pub(crate) fn new(alloc: Global) -> LinkSink
        ensures hellos { result.heard.hellos ≡ [] }
        ensures ihus { result.heard.ihus ≡ no_ihus }
        ensures sound { result.has_failed ≡ false }
    {
        LinkSink {
            heard: LinkHearing::new(alloc),
            has_failed: false,
        }
    }

    /// Hears a record.
    fn hear(&mut self, told: &Record<'_>) -> Result<(), AllocError>
        ensures same { self.new.has_failed ≡ self.old.has_failed }
        ensures heard { OnOk result ((one : Made) → IsTold one told.now
            → Hears node_cmp (hellos_made (one ∷ [])) (ihus_made (one ∷ []))
            self.old.heard self.new.heard) }
    {
        match &told.said {
            Said::Packet(packet) => {
                let (node, time) = (Node::of(&packet.origin), nanoseconds(told.time));
                self.heard
                    .hear(node, *packet.destination, time, packet.octets)
            }
            _ => Ok(()),
        }
    }
}

impl Sink for LinkSink {
    ghost use Rattle.babel_dump.specs.LinksHeard.{HearsMade};

    ghost has = { HearsMade };

    fn take(&mut self, told: &Record<'_>) {
        if !self.has_failed {
            self.has_failed = self.hear(told).is_err();
        }
    }
}

/// A time in nanoseconds since the start of 1970; 0 where there is none.
pub(crate) fn nanoseconds(time: Option<Time>) -> u128
    ensures time { result ≡ unwrap_or time 0 }
    ensures small { result < 2 ^ 96 }
{
    match time {
        Some(time) => time.nanoseconds(),
        None => 0,
    }
}
