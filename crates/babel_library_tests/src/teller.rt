//! A teller that goes on after a fault, as the program does not: no clause says what it then holds.
use crate::dumps::octets;
use babel_prefix::{Addr, Family};
use babel_timeline::{ChangeKind, Teller, Telling};
use babel_tlv::{Fault, Start, View};
use std::alloc::Global;
use std::test::Fail;

/// With factor 1 an Interval of 400 ends 4 s later.
const FACTOR: u64 = 10_000_000;

/// 10.0.0.1/32 with an Interval of 4 seconds and metric 10, and the same with metric 11.
const TEN: &str = "2a02001c060a00000200000000000001080e0100200001900001000a0a000001";

const ELEVEN: &str = "2a02001c060a00000200000000000001080e0100200001900001000b0a000001";

/// 10.0.0.0/8 with an Interval of 4 seconds and metric 12, and then no route at all.
const WIDE: &str = "2a020019060a00000200000000000001080b0100080001900001000c0a";

const NONE_AT_ALL: &str = "2a02000c080a0000000001900000ffff";

/// A packet whose one TLV runs past its end, and a part of a packet.
const PAST_END: &str = "2a020002080a";

const PART: &str = "2a02";

/// Second, sender, length of the destination prefix, metric or 0; and what is told: `a`nnounced,
/// `c`hanged, `r`etracted, e`x`pired, or an `-`swer.
type Brief = (u128, u64, u8, u16, char);

fn brief(telling: &Telling<u64>) -> Brief {
    let Telling::Change(change) = telling else {
        return (0, 0, 0, 0, '-');
    };
    let (metric, kind) = match change.kind {
        ChangeKind::Announced(ann) => (ann.metric(), 'a'),
        ChangeKind::Changed { now, .. } => (now.metric(), 'c'),
        ChangeKind::Retracted(_) => (0, 'r'),
        ChangeKind::Expired(_) => (0, 'x'),
    };
    let len = change.subject.key.dst().len();
    (
        change.time / 1_000_000_000,
        change.subject.sender,
        len,
        metric,
        kind,
    )
}

/// Packets of senders at seconds, and the fault that each has, if it has one: of the second route
/// of two that there may be, of a TLV, whose offset counts the packets of its sender before it, and
/// of a part of a packet.
static HEARD: [(u64, u64, &str, Option<Fault>); 10] = [
    (0, 1, TEN, None),
    (1, 1, TEN, None),
    (2, 1, ELEVEN, None),
    (3, 1, WIDE, None),
    (3, 2, TEN, Some(Fault::TooManyRoutes { at: 16 })),
    (4, 1, NONE_AT_ALL, None),
    (5, 2, TEN, None),
    (8, 1, WIDE, None),
    (20, 2, PAST_END, Some(Fault::TlvPastEnd { at: 68 })),
    (20, 3, PART, Some(Fault::Truncated { at: 0 })),
];

/// What they tell, and what ends by the end.
static TOLD: [Brief; 9] = [
    (0, 1, 32, 10, 'a'),
    (2, 1, 32, 11, 'c'),
    (3, 1, 8, 12, 'a'),
    (4, 1, 8, 0, 'r'),
    (4, 1, 32, 0, 'r'),
    (5, 2, 32, 10, 'a'),
    (8, 1, 8, 12, 'a'),
    (9, 2, 32, 0, 'x'),
    (12, 1, 8, 0, 'x'),
];

#[test]
fn goes_on_after_a_fault(rt: HostRuntime) -> Result<(), Fail> {
    let alloc = rt.alloc();
    let mut teller: Teller<u64> = Teller::new(alloc, Some(FACTOR), 2, View::all(), None);
    let start = Start::new(Addr::new(Family::V4, 1).ok_or("no address")?);
    let mut told = Vec::new(alloc);
    for (second, sender, packet, fault) in &HEARD {
        let packet = octets(alloc, packet)?;
        let time = u128::from(*second) * 1_000_000_000;
        let heard = teller.hear(*sender, start, time, &packet, &mut told);
        assert_eq!(rt; heard.err(), *fault, "of {sender} at {second}");
    }
    teller.expire(20_000_000_000, &mut told)?;
    assert_eq!(rt; told.len(), TOLD.len());
    assert!(rt;
        told.iter()
            .zip(&TOLD)
            .all(|(one, wanted)| brief(one) == *wanted)
    );
    Ok(())
}
