//! What the senders in captures originate, of which none is refused.
ghost use Rattle.std.specs.Prelude.{◌≡◌, List, [], IfErr, IfOk, None, OnOk, Some};
ghost use Rattle.std.specs.Map.{keys_of};
ghost use Rattle.babel_capture.specs.Counts.{Made};
ghost use Rattle.babel_dump.specs.AskedRun.{misplaced_told};
ghost use Rattle.babel_dump.specs.EachSender.{AreOwn, IsFedOwn, first_missed, own_packets};
ghost use Rattle.babel_dump.specs.Fed.{AreWhole};
ghost use Rattle.babel_dump.specs.Originated.{AreOriginated};
ghost use Rattle.babel_dump.specs.OriginsMade.{TakesSenders};
ghost use Rattle.babel_dump.specs.Packets.{packets_made};
ghost use Rattle.babel_dump.specs.PairsMade.{heard_in};
ghost use Rattle.babel_dump.specs.ToldPairs.{IsOwnRead};

use crate::filter::Filter;
use crate::input_fault::InputFault;
use crate::originated::Originated;
use crate::read_senders::{Captured, ReadSenders};
use crate::sender_tables::SenderTable;
use crate::told_capture::ToldCapture;
use crate::trouble::Trouble;
use babel_capture::Origin;
use babel_table::Table;
use std::alloc::{AllocError, Global};
use std::collections::BTreeMap;
use std::mem;

/// What senders of which none is refused originate.
#[derive(Drop)]
pub(crate) struct ToldOrigins {
    senders: ReadSenders,
    pub originated: Originated,
    /// The captures that have them.
    pub captures: Vec<ToldCapture>,
}

impl ToldOrigins {
    /// Of no senders.
    pub fn new(alloc: Global) -> ToldOrigins
        ensures { AreOriginated result.originated.all.entries [] [] }
    {
        ToldOrigins {
            senders: ReadSenders::new(alloc),
            originated: Originated::new(alloc),
            captures: Vec::new(alloc),
        }
    }

    /// Takes the rows that a filter keeps of all senders in a capture, which have these tables.
    ///
    /// # Errors
    ///
    /// `Sender` where one is refused; `TooManyRoutes` where the tables have more rows in all than
    /// the limit.
    pub fn take(
        &mut self,
        alloc: Global,
        filter: &Filter,
        captured: &Captured<'_>,
        tables: BTreeMap<Origin, SenderTable>,
    ) -> Result<(), Trouble>
        ensures taken { OnOk result ((made : List Made) → AreWhole (packets_made made)
            → AreOwn captured.now.each.now made tables.entries
            → TakesSenders filter.now captured.now.side captured.now.each.now
            (heard_in captured.now.read.now made) (keys_of tables.entries)
            self.old.originated.all.entries self.new.originated.all.entries) }
        ensures placed { IfErr result (λ trouble. misplaced_told trouble ≡ None) }
    {
        for (origin, table) in tables {
            let table = self.own(alloc, captured, origin, table)?;
            self.originated.take(captured.side, filter, &table)?;
        }
        Ok(())
    }

    /// Notes what there is to know of a capture whose senders were taken.
    pub fn note(&mut self, alloc: Global, captured: &Captured<'_>) -> Result<(), Trouble>
        ensures same { self.new.originated ≡ self.old.originated }
        ensures placed { IfErr result (λ trouble. misplaced_told trouble ≡ None) }
    {
        let senders = mem::replace(&mut self.senders.told, Vec::new(alloc));
        let capture = ToldCapture::new(alloc, captured, senders)?;
        self.captures.push(capture).map_err(AllocError::from)?;
        Ok(())
    }

    /// The table of a sender, unless it is refused.
    fn own(
        &mut self,
        alloc: Global,
        captured: &Captured<'_>,
        origin: Origin,
        table: SenderTable,
    ) -> Result<Table, Trouble>
        ensures same { self.new.originated ≡ self.old.originated }
        ensures own { IfOk result (λ own. (made : List Made) → AreWhole (packets_made made)
            → IsFedOwn captured.now.each.now origin (own_packets origin made)
            (first_missed origin made) table
            → IsOwnRead captured.now.each.now (heard_in captured.now.read.now made) origin
            (Some own)) }
        ensures placed { IfErr result (λ trouble. misplaced_told trouble ≡ None) }
    {
        let own = self.senders.own(alloc, captured, origin, table)?;
        match own {
            Ok(table) => Ok(table),
            Err(fault) => Err(refused(alloc, captured, origin, fault)?),
        }
    }
}

/// That a sender is refused.
pub(crate) fn refused(
    alloc: Global,
    captured: &Captured<'_>,
    origin: Origin,
    fault: InputFault,
) -> Result<Trouble, Trouble>
    ensures told { IfOk result (λ trouble. misplaced_told trouble ≡ None) }
    ensures placed { IfErr result (λ trouble. misplaced_told trouble ≡ None) }
{
    let mut name = Vec::new(alloc);
    name.extend_from_slice(captured.name(&origin))?;
    Ok(Trouble::Sender {
        side: captured.side,
        origin,
        name: Some(name),
        fault,
    })
}
