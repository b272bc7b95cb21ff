//! The table of a sender in a capture, of its own packets.
ghost use Rattle.std.specs.Prelude.{◌≡◌, IfErr, IfOk, List, None, true};
ghost use Rattle.babel_capture.specs.Counts.{Made};
ghost use Rattle.babel_capture.specs.declared.tallies.Origin.{Origin};
ghost use Rattle.babel_dump.specs.EachSender.{IsFedOwn, IsOwnTable, NoSenderText};
ghost use Rattle.babel_dump.specs.EachSender.{first_missed, own_packets};
ghost use Rattle.babel_dump.specs.Fed.{AreWhole};
ghost use Rattle.babel_dump.specs.Packets.{packets_made};
ghost use Rattle.babel_dump.specs.Strict.{IsReadWhole};

use crate::each_sender::EachSender;
use crate::input::{refuse_unread, what_expired};
use crate::input_fault::InputFault;
use crate::sender_tables::SenderTable;
use babel_table::Table;

/// The table of a sender in a capture.
#[derive(Drop)]
pub(crate) struct OwnTable {
    pub table: Table,
    /// How many of its rows were not announced again in time, if none was left out for that.
    pub expired_rows: usize,
}

/// The table of a sender of whose packets this was fed, at the moment up to which the capture was
/// read.
///
/// # Errors
///
/// `LeftOut` with the first datagram of this sender that is not all there; or why the dump is
/// refused.
pub(crate) fn read_own(
    each: &EachSender,
    moment: Option<u128>,
    table: SenderTable,
) -> Result<OwnTable, InputFault>
    ensures ok { IfOk result (λ own. (made : List Made) (origin : Origin)
        → AreWhole (packets_made made)
        → IsFedOwn each.now origin (own_packets origin made) (first_missed origin made) table
        → IsOwnTable each.now made moment origin own.table
        × (each.now.strict ≡ true → IsReadWhole None own.table.report)) }
    ensures err { IfErr result (λ fault. (made : List Made) (origin : Origin)
        → AreWhole (packets_made made)
        → IsFedOwn each.now origin (own_packets origin made) (first_missed origin made) table
        → NoSenderText each.now made moment origin fault) }
{
    let SenderTable { packets, missed } = table;
    if let Some(datagram) = missed {
        return Err(InputFault::LeftOut(datagram));
    }
    let expired = what_expired(each.expiry, moment);
    let expired_rows = packets.count_expired(expired, moment);
    let table = packets.finish(expired)?;
    refuse_unread(each.strict, None, table.report())?;
    Ok(OwnTable {
        table,
        expired_rows,
    })
}
