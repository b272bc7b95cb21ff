//! What a router uses, by the public calls alone, which no command makes yet: three neighbours
//! announce a route each, and one is selected.
use babel_prefix::{Addr, Family, Prefix};
use babel_selection::{
    Candidate, Choice, Hellos, IhuFrom, IhuSaid, Ihus, Pair, RouteState, Source, Sources, UsedKey,
    best_used, is_told, link_cost,
};
use babel_table::Stamp;
use babel_tlv::{Ann, Hello, Key};
use std::alloc::Global;
use std::test::Fail;

const SECOND: u128 = 1_000_000_000;

/// The router that selects, as an address of all; its neighbours are 1, 2 and 3.
const ROUTER: u64 = 9;

/// So many ten-millionths of its Interval an IHU counts.
const FACTOR: u64 = 35_000_000;

/// Of each neighbour's route: router-id, seqno, metric, what the neighbour says that receiving from
/// the router costs it, and the state.
static ROUTES: [(u8, u16, u16, u16, char); 3] = [
    (1, 41542, 50, 300, 's'),
    (2, 37766, 400, 96, 'f'),
    (1, 41542, 350, 200, 'u'),
];

fn ann(id: u8, seqno: u16, metric: u16) -> Option<Ann> {
    let hop = Addr::new(Family::V4, 0xc000_0201)?;
    Ann::new([2, 0, 0, 0, 0, 0, 0, id], seqno, metric, hop)
}

/// The key of 10.0.0.0 with this length, from everywhere.
fn key(len: u8) -> Option<Key> {
    let dst = Prefix::new(Addr::new(Family::V4, 10 << 24)?, len)?;
    Key::new(dst, Prefix::whole(Family::V4))
}

fn letter(state: RouteState) -> char {
    match state {
        RouteState::Unheard => 'h',
        RouteState::Unreachable => 'r',
        RouteState::Unfeasible => 'u',
        RouteState::Selected => 's',
        RouteState::Feasible => 'f',
    }
}

/// IHUs of each neighbour for the router by its address, and of the router for all, each 4 seconds.
fn ihus(alloc: Global) -> Result<Ihus<u64>, Fail> {
    let mut ihus = Ihus::new(alloc);
    let when = Stamp::new(SECOND, 400);
    for (index, (_, _, _, rxcost, _)) in ROUTES.iter().enumerate() {
        let rxcost = *rxcost;
        ihus.hear(&IhuFrom {
            router: index as u64 + 1,
            neighbour: Some(ROUTER),
            said: IhuSaid { rxcost, when },
        })?;
    }
    let rxcost = 96;
    ihus.hear(&IhuFrom {
        router: ROUTER,
        neighbour: None,
        said: IhuSaid { rxcost, when },
    })?;
    Ok(ihus)
}

fn said(ihus: &Ihus<u64>, router: u64, neighbour: u64, moment: u128) -> Option<u16> {
    ihus.last(&Pair { router, neighbour }, true)?
        .rxcost_at(FACTOR, moment)
}

#[test]
fn one_of_three_routes_is_selected(rt: HostRuntime) -> Result<(), Fail> {
    let alloc = rt.alloc();
    let key = key(16).ok_or("no key")?;
    let own = ann(1, 41542, 350).ok_or("no route")?;
    let mut sources = Sources::new(alloc);
    sources.hear(&key, &own, SECOND)?;
    let ihus = ihus(alloc)?;
    let mut candidates = Vec::new(alloc);
    for (index, (id, seqno, metric, _, _)) in ROUTES.iter().enumerate() {
        let ann = ann(*id, *seqno, *metric).ok_or("no route")?;
        let router_id = ann.router_id();
        let neighbour = index as u64 + 1;
        let txcost = said(&ihus, neighbour, ROUTER, 2 * SECOND);
        candidates.push(Candidate {
            ann,
            cost: link_cost(false, txcost, said(&ihus, ROUTER, neighbour, 2 * SECOND)),
            distance: sources.distance(&Source { key, router_id }, 2 * SECOND),
        })?;
    }
    let owns = [own];
    let choice = Choice::of(&candidates, &owns);
    for (candidate, (_, _, _, _, wanted)) in candidates.iter().zip(&ROUTES) {
        assert_eq!(rt; letter(choice.state(&owns, candidate)), *wanted);
    }
    assert_eq!(rt;
        said(&ihus, 1, ROUTER, 15 * SECOND),
        None,
        "after 14 seconds it has lapsed"
    );
    Ok(())
}

#[test]
fn hellos_are_counted_past_the_last_seqno(rt: HostRuntime) -> Result<(), Fail> {
    let mut hellos = Hellos::new(rt.alloc());
    for seqno in &[65534, 1, 1, 100] {
        hellos.hear(
            ROUTER,
            &Hello {
                is_unicast: false,
                seqno: *seqno,
                interval: 400,
            },
        )?;
    }
    let count = hellos.count(ROUTER).ok_or("no Hello")?;
    assert_eq!(rt; count.heard, 4);
    assert_eq!(rt; count.missed, 2, "65535 and 0");
    Ok(())
}

#[test]
fn keys_of_which_a_route_is_used(rt: HostRuntime) -> Result<(), Fail> {
    let addr = Addr::new(Family::V4, 10 << 24).ok_or("no address")?;
    let mut keys = Vec::new(rt.alloc());
    for (len, is_used) in &[(8, true), (16, true), (24, false)] {
        let is_used = *is_used;
        let key = key(*len).ok_or("no key")?;
        keys.push(UsedKey { key, is_used })?;
    }
    let best = best_used(&keys, &addr, &addr);
    for (used, wanted) in keys.iter().zip(&[false, true, true]) {
        assert_eq!(rt; is_told(&best, &used.key, &addr, &addr), *wanted);
    }
    Ok(())
}
