//! `select`: which routes a router uses, of those that its neighbours announce.
ghost use Rattle.std.specs.Prelude.{◌≡◌, ◌++◌, IfErr, IfOk, List, None, OnOk};
ghost use Rattle.std.specs.List.{flat_map};
ghost use Rattle.std.specs.Map.{keys_of};
ghost use Rattle.babel_capture.specs.Counts.{Made};
ghost use Rattle.babel_selection.specs.Announcing.{AreDistances};
ghost use Rattle.babel_selection.specs.Hearing.{AreLast};
ghost use Rattle.babel_dump.specs.AskedRun.{misplaced_told};
ghost use Rattle.babel_dump.specs.EachSender.{AreOwn};
ghost use Rattle.babel_dump.specs.Fed.{AreWhole};
ghost use Rattle.babel_dump.specs.LinksHeard.{ihus_made};
ghost use Rattle.babel_dump.specs.Nodes.{node_cmp};
ghost use Rattle.babel_dump.specs.Packets.{packets_made};
ghost use Rattle.babel_dump.specs.PairsMade.{heard_in};
ghost use Rattle.babel_dump.specs.SelectHeard.{updates_made};
ghost use Rattle.babel_dump.specs.SelectKept.{AreChosen};
ghost use Rattle.babel_dump.specs.SelectTold.{TellsSelection, route_line};

use crate::capture_input::CaptureRead;
use crate::chosen_line::push_chosen;
use crate::done::ToldSender;
use crate::each_sender::SendersRead;
use crate::format::Format;
use crate::link_costs::LinkCosts;
use crate::links::Judged;
use crate::offered::Offered;
use crate::read_senders::Captured;
use crate::run_fault::Side;
use crate::select_job::Select;
use crate::selection_read::SelectionRead;
use crate::speaker::Speaker;
use crate::told_routes::{KeyCounts, ToldRoutes};
use crate::trouble::Trouble;
use babel_capture::Gathered;
use babel_selection::{ChosenRoute, Offer, Sources, chosen_routes, sort_offers};
use std::alloc::{AllocError, Global};

/// What is told of a router that selects.
#[derive(Drop)]
pub(crate) struct Selection {
    pub lines: Vec<u8>,
    pub status: u8,
    pub counts: KeyCounts,
    /// What was read of each sender that counts, of the router first.
    pub senders: Vec<ToldSender>,
    pub read: CaptureRead,
}

impl Selection {
    /// What is told of the router, by what was read of a capture.
    ///
    /// # Errors
    ///
    /// `Sender` with the first sender that counts whose dump is refused; `TooManyRoutes` where
    /// these senders and the source table have more rows in all than the limit.
    pub fn of(
        alloc: Global,
        select: &Select,
        selecting: SelectionRead,
    ) -> Result<Selection, Trouble>
        ensures told { IfOk result (λ told. (made : List Made) → AreWhole (packets_made made)
            → AreOwn select.now.each made selecting.senders.tables.entries
            → AreLast node_cmp (ihus_made made) selecting.links.ihus
            → AreDistances (updates_made select.now made) selecting.sources
            → TellsSelection select.now (heard_in selecting.senders.read made)
            (keys_of selecting.senders.tables.entries) told.lines.items told.status) }
        ensures placed { IfErr result (λ trouble. misplaced_told trouble ≡ None) }
    {
        let SelectionRead {
            senders,
            links,
            sources,
        } = selecting;
        let SendersRead { read, tables } = senders;
        let moment = read.moment.unwrap_or(0);
        let captured = Captured {
            side: Side::First,
            each: &select.each,
            read: &read,
        };
        let costs = LinkCosts {
            select,
            gathered: &read.gathered,
            links: &links,
            judged: Judged {
                factor: select.expiry.ten_millionths(),
                moment,
            },
        };
        let mut offered = Offered::new(alloc);
        offered.senders.count(&select.each, sources.len())?;
        offered.take(alloc, &costs, &captured, tables)?;
        let Offered { senders, offers } = offered;
        let routes = chosen_of(alloc, offers, &sources, moment)?;
        let told = ToldRoutes::of(alloc, select, &routes)?;
        let counts = KeyCounts::of(alloc, &told, &routes, &sources, moment)?;
        let lines = lines_of(alloc, &select.each.format, &read.gathered, &told, &routes)?;
        let senders = router_first(alloc, select, senders.told)?;
        Ok(Selection {
            lines,
            status: told.status(),
            counts,
            senders,
            read,
        })
    }
}

/// What these routes are to the router, in their order.
fn chosen_of(
    alloc: Global,
    mut offers: Vec<Offer<Speaker>>,
    sources: &Sources,
    moment: u128,
) -> Result<Vec<ChosenRoute<Speaker>>, AllocError>
    ensures { IfOk result
        (λ routes. AreChosen moment sources.now offers.items routes.items) }
{
    sort_offers(&mut offers);
    chosen_routes(alloc, &offers, sources, moment)
}

/// The lines of the routes that are told.
fn lines_of(
    alloc: Global,
    format: &Format,
    gathered: &Gathered,
    told: &ToldRoutes,
    routes: &[ChosenRoute<Speaker>],
) -> Result<Vec<u8>, AllocError>
    ensures { IfOk result (λ text. text.items
        ≡ flat_map (route_line format.now gathered.now told.now) routes.now) }
{
    let mut text = Vec::new(alloc);
    for route in routes {
        push_told(alloc, &mut text, format, gathered, told, route)?;
    }
    Ok(text)
}

/// Appends the line of a route, if its key is told.
fn push_told(
    alloc: Global,
    text: &mut Vec<u8>,
    format: &Format,
    gathered: &Gathered,
    told: &ToldRoutes,
    route: &ChosenRoute<Speaker>,
) -> Result<(), AllocError>
    ensures { OnOk result (text.new.items
        ≡ text.old.items ++ route_line format.now gathered.now told.now route.now) }
{
    if told.keeps(&route.offer.key) {
        push_chosen(alloc, text, format, gathered, route)
    } else {
        Ok(())
    }
}

/// Senders, the router's addresses first.
fn router_first(
    alloc: Global,
    select: &Select,
    senders: Vec<ToldSender>,
) -> Result<Vec<ToldSender>, AllocError> {
    let mut first = Vec::new(alloc);
    let mut others = Vec::new(alloc);
    for sender in senders {
        if is_of_router(select, &sender) {
            push_sender(&mut first, sender)?;
        } else {
            push_sender(&mut others, sender)?;
        }
    }
    for other in others {
        push_sender(&mut first, other)?;
    }
    Ok(first)
}

/// Whether a sender is the router.
fn is_of_router(select: &Select, sender: &ToldSender) -> bool {
    select.is_router(sender.origin.sender)
}

/// Adds a sender.
fn push_sender(senders: &mut Vec<ToldSender>, sender: ToldSender) -> Result<(), AllocError> {
    match senders.push(sender) {
        Ok(()) => Ok(()),
        Err(error) => Err(AllocError::from(error)),
    }
}
