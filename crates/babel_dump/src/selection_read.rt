//! What was read of a capture for a router in it that selects.
ghost use Rattle.std.specs.Prelude.{◌≡◌, IfErr, IfOk, None, OnOk, Some, false, true};
ghost use Rattle.babel_dump.specs.Device.{HasRoomToCount};
ghost use Rattle.babel_dump.specs.EachSender.{each_from};
ghost use Rattle.babel_dump.specs.LeftOut.{first_unmissed};
ghost use Rattle.babel_dump.specs.SelectHeard.{GaveSelecting, SelectingCause, all_send};
ghost use Rattle.babel_dump.specs.declared.absence.Absence.{Absence as AbsenceSaid};
ghost use Rattle.babel_dump.specs.declared.left_out.LeftOutDatagram.{LeftOutDatagram as Datagram};

use crate::byte_in::ByteIn;
use crate::capture_input::{CaptureRead, read_capture};
use crate::each_sender::SendersRead;
use crate::input_fault::InputFault;
use crate::left_out::first_unmissed;
use crate::link_sink::LinkSink;
use crate::node::Node;
use crate::router_places::sends;
use crate::select_job::Select;
use crate::selecting::Selecting;
use crate::sender_tables::SenderTables;
use babel_capture::Wanted;
use babel_selection::{LinkHearing, Sources};
use std::alloc::{AllocError, Global};

/// What was read of a capture: the table of each sender, what the nodes say of links, and the source
/// table of the router that selects.
#[derive(Drop)]
pub(crate) struct SelectionRead {
    pub senders: SendersRead,
    pub links: LinkHearing<Node>,
    pub sources: Sources,
}

impl SelectionRead {
    /// Reads a capture to its end, or to its first fault. The seed is that by which keys are found.
    ///
    /// # Errors
    ///
    /// Why the capture is refused, or that one of the router's addresses sends nothing in it.
    pub(crate) fn of<R: ByteIn>(
        alloc: Global,
        seed: u128,
        select: &Select,
        reader: &mut R,
    ) -> Result<SelectionRead, InputFault>
        requires { HasRoomToCount (R.state reader.old) }
        ensures gave { IfOk result (GaveSelecting select.now
            (each_from select.now.each (R.state reader.old) (R.state reader.new))) }
        ensures cause { IfErr result (SelectingCause select.now
            (each_from select.now.each (R.state reader.old) (R.state reader.new))) }
    {
        let mut selecting = Selecting::new(alloc, select, seed);
        let how = select.each.capture_reading();
        let wanted = Wanted {
            accepts_missing: how.accept_missing,
            ..Wanted::everyone()
        };
        let read = read_capture(alloc, how, wanted, reader, &mut selecting);
        if selecting.has_failed() {
            return Err(InputFault::from(AllocError));
        }
        let read = read?;
        refuse_left_out(select, &read)?;
        refuse_silent(select, &read)?;
        let Selecting {
            tables,
            links,
            sources,
            ..
        } = selecting;
        let SenderTables { tables, .. } = tables;
        let LinkSink { heard, .. } = links;
        Ok(SelectionRead {
            senders: SendersRead { read, tables },
            links: heard,
            sources,
        })
    }
}

/// Refuses a capture that is read strictly, and of which a datagram was left out that is not missed.
fn refuse_left_out(select: &Select, read: &CaptureRead) -> Result<(), InputFault>
    ensures none { OnOk result (select.now.strict ≡ true
        → first_unmissed select.now.each.accept_missing read.now.gathered.report ≡ None) }
    ensures first { IfErr result (λ fault. (select.now.strict ≡ true) × (datagram : Datagram)
        × (first_unmissed select.now.each.accept_missing read.now.gathered.report
        ≡ Some datagram)
        × (fault ≡ InputFault.LeftOut datagram)) }
{
    if !select.strict {
        return Ok(());
    }
    match first_unmissed(&read.gathered.report(), select.each.accept_missing) {
        Some(datagram) => Err(InputFault::LeftOut(datagram)),
        None => Ok(()),
    }
}

/// Refuses a capture in which one of the router's addresses sends nothing.
fn refuse_silent(select: &Select, read: &CaptureRead) -> Result<(), InputFault>
    ensures none { OnOk result (all_send select.now read.now.gathered.senders ≡ true) }
    ensures first { IfErr result (λ fault. (all_send select.now read.now.gathered.senders ≡ false)
        × (absence : AbsenceSaid) × (fault ≡ InputFault.NoPackets absence)) }
{
    for router in &select.routers {
        if !sends(select, &read.gathered, *router) {
            let absence = read.absence.of_sender(*router, select.each.place);
            return Err(InputFault::NoPackets(absence));
        }
    }
    Ok(())
}
