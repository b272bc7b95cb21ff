//! What the routers in a capture say of the links to their neighbours.
ghost use Rattle.std.specs.Prelude.{◌≡◌, ◌++◌, IfOk, List, None, OnOk, Some, true};
ghost use Rattle.std.specs.BTreeSet.{contains};
ghost use Rattle.std.specs.Option.{is_some, option_and_then, unwrap_or};
ghost use Rattle.babel_capture.specs.Tallies.{tally_of};
ghost use Rattle.babel_tlv.specs.declared.hello.Hello.{Hello as HelloSaid};
ghost use Rattle.babel_selection.specs.Hearing.{AreCounts, AreLast, entry_at, last_kept};
ghost use Rattle.babel_selection.specs.Links.{rxcost_at};
ghost use Rattle.babel_selection.specs.declared.ihu_from.IhuFrom.{IhuFrom as FromSaid};
ghost use Rattle.babel_dump.specs.CaptureGiven.{capture_from};
ghost use Rattle.babel_dump.specs.CaptureRun.{wanted_of};
ghost use Rattle.babel_dump.specs.Device.{HasRoomToCount};
ghost use Rattle.babel_dump.specs.LinksTold.{TellsLinks, interval_of, line_of, row_with};
ghost use Rattle.babel_dump.specs.Nodes.{node_cmp, origin_of};
ghost use Rattle.babel_dump.specs.Parts.{FoundIn};
ghost use Rattle.babel_dump.specs.SlicedRows.{found_text};
ghost use Rattle.babel_dump.specs.declared.format.Format.{Format};
ghost use Rattle.babel_dump.specs.declared.node.Node.{Node as NodeSaid};

use crate::absence::Absence;
use crate::byte_in::ByteIn;
use crate::capture_input::read_capture;
use crate::capture_reading::CaptureReading;
use crate::factor::Factor;
use crate::format::Format;
use crate::job::CaptureTask;
use crate::led::lead_output;
use crate::link_row::LinkRow;
use crate::link_sink::LinkSink;
use crate::node::Node;
use crate::outcome::Outcome;
use crate::run_fault::RunFault;
use crate::slices::Found;
use babel_capture::{Gathered, Place, Wanted};
use babel_selection::{HelloCount, IhuSaid, LinkHearing, Pair, links};
use std::alloc::{AllocError, Global};
use std::collections::BTreeSet;

/// No line is longer, but for what leads it.
const ROOM: usize = 220;

/// Reads a capture to its end, or to its first fault, and makes the lines of its links: one for
/// each router and each neighbour that an IHU of it names, at the place that is named, or at each.
/// If there are none the status is 1.
pub(crate) fn find_links<R: ByteIn>(
    alloc: Global,
    reading: CaptureReading,
    place: Option<Place>,
    expiry: Factor,
    format: &Format,
    reader: &mut R,
) -> Result<Found, RunFault>
    requires { HasRoomToCount (R.state reader.old) }
    ensures { let task = CaptureTask.Links place expiry in
        let input =
        capture_from (R.state reader.old) (R.state reader.new) reading
        (wanted_of reading.accept_missing task) in
        FoundIn task format.now input result }
{
    let wanted = Wanted {
        sender: None,
        place,
        are_listed: true,
        accepts_missing: reading.accept_missing,
    };
    let mut sink = LinkSink::new(alloc);
    let read = read_capture(alloc, reading, wanted, reader, &mut sink);
    if sink.has_failed {
        return Err(RunFault::from(AllocError));
    }
    let read = read?;
    let judged = Judged {
        factor: expiry.ten_millionths(),
        moment: read.moment.unwrap_or(0),
    };
    let text = links_text(alloc, format, &judged, &sink.heard, &read.gathered)?;
    let outcome = Outcome::of_lines(&text, &read.gathered, read.cut);
    let found = Found::text(text, outcome);
    Ok(or_absence(found, &read.gathered, read.absence))
}

/// What was found, or what is said where no packets were.
fn or_absence(found: Found, gathered: &Gathered, absence: Absence) -> Found
    ensures text { (format : Format) → found_text format result ≡ found_text format found }
    ensures outcome { result.outcome ≡ found.outcome }
{
    if gathered.senders().is_empty() {
        found.or_absence(absence)
    } else {
        found
    }
}

/// At which moment IHUs count, and for how long.
#[derive(Clone, Copy)]
pub(crate) struct Judged {
    /// So many ten-millionths of its Interval an IHU counts.
    pub factor: u64,
    /// In nanoseconds since the start of 1970.
    pub moment: u128,
}

impl Judged {
    /// What an IHU says then, if there is one that counts.
    pub(crate) fn rxcost(&self, said: &Option<IhuSaid>) -> Option<u16>
        ensures { result ≡ option_and_then (rxcost_at self.now.factor self.now.moment) said.now }
    {
        match said {
            Some(said) => said.rxcost_at(self.factor, self.moment),
            None => None,
        }
    }

    /// What is told of a link, of which this is the router's last IHU.
    fn row(&self, heard: &LinkHearing<Node>, pair: &Pair<Node>, said: &IhuSaid) -> LinkRow
        ensures { result ≡ row_with self.now.factor self.now.moment
            (entry_at node_cmp heard.now.hellos pair.now.neighbour)
            (last_kept node_cmp heard.now.ihus pair.now.neighbour pair.now.router true)
            (pair.now, said.now) }
    {
        let back = Pair {
            router: pair.neighbour,
            neighbour: pair.router,
        };
        let count = heard.hellos.count(pair.neighbour);
        let count = count.unwrap_or(HelloCount::none());
        LinkRow {
            neighbour: pair.neighbour.address,
            rxcost: said.rxcost_at(self.factor, self.moment),
            back: self.rxcost(&heard.ihus.last(&back, true)),
            last: said.when.time(),
            hellos: count.heard,
            missed: count.missed,
            interval: interval_of(&count),
        }
    }
}

/// The Interval of what was counted, where one is said.
fn interval_of(count: &HelloCount) -> Option<u16>
    ensures { result ≡ interval_of count.now }
{
    if count.interval == 0 {
        None
    } else {
        Some(count.interval)
    }
}

/// The lines of all links.
fn links_text(
    alloc: Global,
    format: &Format,
    judged: &Judged,
    heard: &LinkHearing<Node>,
    gathered: &Gathered,
) -> Result<Vec<u8>, AllocError>
    ensures { IfOk result (λ text. (hellos : List (NodeSaid × HelloSaid))
        (ihus : List (FromSaid NodeSaid)) → AreCounts node_cmp hellos heard.now.hellos
        → AreLast node_cmp ihus heard.now.ihus → TellsLinks format.now judged.now.factor
        judged.now.moment gathered.now hellos ihus text.items) }
{
    let senders = nodes_of(alloc, gathered)?;
    let links = links(alloc, &heard.ihus, &senders)?;
    let mut text = Vec::new(alloc);
    for (pair, said) in &links {
        let row = judged.row(heard, pair, said);
        push_link(alloc, &mut text, format, pair.router, &row, gathered)?;
    }
    Ok(text)
}

/// Appends the line of a link to this router.
fn push_link(
    alloc: Global,
    text: &mut Vec<u8>,
    format: &Format,
    router: Node,
    row: &LinkRow,
    gathered: &Gathered,
) -> Result<(), AllocError>
    ensures { OnOk result
        (text.new.items ≡ text.old.items ++ line_of format.now gathered.now router row.now) }
{
    let name = gathered.name(router.place.interface);
    let lead = lead_output(alloc, format, router.origin(), name)?;
    text.extend_from_slice(&lead)?;
    text.reserve(ROOM)?;
    row.push(text, format);
    Ok(())
}

/// The nodes that send.
fn nodes_of(alloc: Global, gathered: &Gathered) -> Result<BTreeSet<Node>, AllocError>
    ensures { IfOk result (λ nodes. (node : NodeSaid) → contains node_cmp nodes node
        ≡ is_some (tally_of gathered.now.senders (origin_of node))) }
{
    let mut nodes = BTreeSet::new(alloc);
    for (origin, _) in gathered.senders() {
        nodes.insert(Node::of(origin))?;
    }
    Ok(nodes)
}
