//! The routes that senders announce at a moment, as a router has them that selects.
ghost use Rattle.std.specs.Prelude.{◌≡◌, [], ◌++◌, List, IfErr, IfNone, IfOk, None, OnOk};
ghost use Rattle.std.specs.Prelude.{Some, true};
ghost use Rattle.std.specs.Map.{keys_of};
ghost use Rattle.babel_capture.specs.Counts.{Made};
ghost use Rattle.babel_dump.specs.AskedRun.{misplaced_told};
ghost use Rattle.babel_dump.specs.EachSender.{AreOwn, IsFedOwn, first_missed, own_packets};
ghost use Rattle.babel_dump.specs.Fed.{AreWhole};
ghost use Rattle.babel_dump.specs.Ignored.{IgnoresNone};
ghost use Rattle.babel_dump.specs.Packets.{packets_made};
ghost use Rattle.babel_dump.specs.PairsMade.{heard_in};
ghost use Rattle.babel_dump.specs.SelectKept.{OffersMore, list_of, said_kept};
ghost use Rattle.babel_dump.specs.SelectOffers.{offered, offers_from};
ghost use Rattle.babel_dump.specs.ToldPairs.{IsOwnRead};

use crate::ignored::first_ignored;
use crate::input_fault::InputFault;
use crate::link_costs::LinkCosts;
use crate::read_senders::{Captured, ReadSenders};
use crate::router_places::is_at;
use crate::select_job::Select;
use crate::sender_tables::SenderTable;
use crate::speaker::{Speaker, speaker_at};
use crate::told_origins::refused;
use crate::trouble::Trouble;
use babel_capture::Origin;
use babel_selection::Offer;
use babel_table::Table;
use babel_tlv::{Held, Key};
use std::alloc::{AllocError, Global};
use std::collections::BTreeMap;

/// The routes that senders announce at the places where a router sends.
#[derive(Drop)]
pub(crate) struct Offered {
    pub senders: ReadSenders,
    pub offers: Vec<Offer<Speaker>>,
}

impl Offered {
    /// Of no senders.
    pub fn new(alloc: Global) -> Offered
        ensures { result.offers.items ≡ [] }
    {
        Offered {
            senders: ReadSenders::new(alloc),
            offers: Vec::new(alloc),
        }
    }

    /// Takes the routes of the senders in a capture that count, which have these tables.
    ///
    /// # Errors
    ///
    /// `Sender` where one is refused; `TooManyRoutes` where the tables have more rows in all than
    /// the limit.
    pub fn take(
        &mut self,
        alloc: Global,
        costs: &LinkCosts<'_>,
        captured: &Captured<'_>,
        tables: BTreeMap<Origin, SenderTable>,
    ) -> Result<(), Trouble>
        ensures taken { OnOk result ((made : List Made) → AreWhole (packets_made made)
            → AreOwn captured.now.each.now made tables.entries
            → OffersMore costs.now (heard_in captured.now.read.now made)
            captured.now.each.now (keys_of tables.entries) self.old.offers.items
            self.new.offers.items) }
        ensures placed { IfErr result (λ trouble. misplaced_told trouble ≡ None) }
    {
        for (origin, table) in tables {
            if is_at(costs.select, costs.gathered, origin.place) {
                let table = self.own(alloc, costs.select, captured, origin, table)?;
                self.offer(costs, &origin, &table)?;
            }
        }
        Ok(())
    }

    /// The table of a sender, unless it is refused.
    fn own(
        &mut self,
        alloc: Global,
        select: &Select,
        captured: &Captured<'_>,
        origin: Origin,
        table: SenderTable,
    ) -> Result<Table, Trouble>
        ensures same { self.new.offers ≡ self.old.offers }
        ensures own { IfOk result (λ own. (made : List Made) → AreWhole (packets_made made)
            → IsFedOwn captured.now.each.now origin (own_packets origin made)
            (first_missed origin made) table
            → IsOwnRead captured.now.each.now (heard_in captured.now.read.now made) origin
            (Some own)) }
        ensures strict { IfOk result
            (λ own. select.now.strict ≡ true → IgnoresNone own.report) }
        ensures placed { IfErr result (λ trouble. misplaced_told trouble ≡ None) }
    {
        let own = self.senders.own(alloc, captured, origin, table)?;
        let table = match own {
            Ok(table) => table,
            Err(fault) => return Err(refused(alloc, captured, origin, fault)?),
        };
        match unread(select, &table) {
            Some(fault) => Err(refused(alloc, captured, origin, fault)?),
            None => Ok(table),
        }
    }

    /// Adds the routes of a sender.
    fn offer(
        &mut self,
        costs: &LinkCosts<'_>,
        origin: &Origin,
        table: &Table,
    ) -> Result<(), AllocError>
        ensures { OnOk result (self.new.offers.items ≡ self.old.offers.items
            ++ offers_from costs.now.select.now
            (said_kept costs.now.judged costs.now.links.now.ihus)
            costs.now.gathered.now.senders
            (record { origin = origin.now; table = table.now })) }
    {
        let (by, cost) = (speaker_at(origin), costs.of(origin));
        let is_own = costs.select.is_router(origin.sender);
        for (key, held) in table.rows() {
            push_offered(&mut self.offers, offer_of_row(is_own, &by, cost, key, held))?;
        }
        Ok(())
    }
}

/// Adds a route, if there is one.
fn push_offered(
    offers: &mut Vec<Offer<Speaker>>,
    offer: Option<Offer<Speaker>>,
) -> Result<(), AllocError>
    ensures { OnOk result (offers.new.items ≡ offers.old.items ++ list_of offer) }
{
    if let Some(offer) = offer {
        offers.push(offer)?;
    }
    Ok(())
}

/// A row of a sender's table as the router has it.
fn offer_of_row(
    is_own: bool,
    by: &Speaker,
    cost: u16,
    key: Key,
    held: Held,
) -> Option<Offer<Speaker>>
    ensures { result ≡ offered is_own by.now cost (key, held) }
{
    match held {
        Held::Route(ann) => {
            if is_own {
                Some(Offer::own(key, ann, *by))
            } else {
                Some(Offer::of(key, ann, *by, cost))
            }
        }
        Held::Unreachable => None,
    }
}

/// That a TLV of a sender was ignored, where that refuses it.
fn unread(select: &Select, table: &Table) -> Option<InputFault>
    ensures { IfNone result (select.now.strict ≡ true → IgnoresNone table.now.report) }
{
    if !select.strict {
        return None;
    }
    match first_ignored(table.report()) {
        Some(tlv) => Some(InputFault::Ignored {
            tlv,
            ignores_encoding_4: table.report().ignores_encoding_4(),
        }),
        None => None,
    }
}
