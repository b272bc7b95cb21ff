//! How a dump is cut into pieces makes no difference, and where it ends is told.
use crate::dumps::{
    ALL_RETRACTED, EITHER_ENCODING, NESTED_SOURCES, ONE_ROUTE, ROUTER_ID_BY_FLAG, TWO_ROUTES, V4,
    V6, octets,
};
use babel_prefix::{Addr, parse_addr};
use babel_table::{Feeder, Limits, Table, read_dump};
use babel_tlv::{Fault, Mode};
use std::alloc::Global;
use std::test::Fail;

/// The last: Updates with faulty sub-TLVs, which are ignored; dumps with faults: too many routes
/// where three may be, and then a TLV past the end; a wrong magic after a packet; a wrong version;
/// the router-id flag in an encoding that is not read, and then a TLV past the end.
const DUMPS: [&str; 11] = [
    ONE_ROUTE,
    NESTED_SOURCES,
    TWO_ROUTES,
    ROUTER_ID_BY_FLAG,
    ALL_RETRACTED,
    EITHER_ENCODING,
    "2a020057 060a0000 0200000000000001 081301000800064000010100 0a 8002080a 80020814 \
     080e01000800064000010100 0a 800100 081301000800064000010100 0a 8006210a00000000 \
     080f01000800064000010100 0a 8005080a",
    "2a020041 060a0000 0200000000000001 080b010008000640000101000a 080b0100080006400001020014 \
     080b010008000640000103001e 080b0100080006400001040028 04",
    "2a020019 060a0000 0200000000000001 080b010008000640000101000a 2b020000",
    "2a030000",
    "2a020010 080b044008000640000101000a 040200",
];

/// Equal rows and reports, or equal faults at equal offsets.
fn same(left: &Result<Table, Fault>, right: &Result<Table, Fault>) -> bool {
    match (left, right) {
        (Ok(left), Ok(right)) => {
            let (rows, others) = (left.rows(), right.rows());
            rows.len() == others.len()
                && rows.zip(others).all(|(row, other)| row == other)
                && *left.report() == *right.report()
        }
        (Err(left), Err(right)) => *left == *right,
        _ => false,
    }
}

/// What a dump gives in pieces of this length, after a first one of another length.
fn fed(
    alloc: Global,
    limits: Limits,
    mode: Mode,
    sender: Addr,
    (first, rest): (&[u8], &[u8]),
    step: usize,
) -> Result<Table, Fault> {
    let mut feeder = Feeder::new(alloc, limits, mode, sender)?;
    let _ = feeder.feed(first);
    for piece in rest.chunks(step.max(1)) {
        let _ = feeder.feed(piece);
    }
    feeder.finish()
}

/// Whether the dump, cut in two at each place, and octet by octet, gives what it gives whole.
fn agrees(alloc: Global, limits: Limits, mode: Mode, sender: Addr, dump: &[u8]) -> bool {
    let whole = read_dump(alloc, limits, mode, sender, dump);
    for cut in 0..dump.len() {
        let cut = dump.split_at(cut);
        let in_two = fed(alloc, limits, mode, sender, cut, dump.len());
        if !same(&whole, &in_two) {
            return false;
        }
    }
    same(&whole, &fed(alloc, limits, mode, sender, (&[], dump), 1))
}

#[test]
fn every_cut(rt: HostRuntime) -> Result<(), Fail> {
    let alloc = rt.alloc();
    let limits = |octets, routes| Limits::new(octets, routes).ok_or("no limits");
    for text in DUMPS {
        let dump = octets(alloc, text)?;
        for sender in [V4, V6] {
            let sender = parse_addr(sender).ok_or("no address")?;
            for most in [Limits::usual(), limits(83, 1)?, limits(249, 3)?] {
                for mode in [Mode::Plain, Mode::Hold] {
                    assert!(rt; agrees(alloc, most, mode, sender, &dump), "{text}");
                }
            }
        }
    }
    Ok(())
}

/// The octets after the whole packets, as their headers have it.
fn after_packets(octets: &[u8]) -> &[u8] {
    let mut rest = octets;
    for _ in 0..octets.len() {
        if rest.len() < 4 {
            break;
        }
        let body = u16::from_be_bytes([rest[2], rest[3]]) as usize;
        let Some(after) = rest.get(4 + body..) else {
            break;
        };
        rest = after;
    }
    rest
}

/// Whether the dump, cut off at each place, gives what its whole packets give, and if they have no
/// fault is truncated where the next one begins.
fn is_cut_off(alloc: Global, mode: Mode, sender: Addr, dump: &[u8]) -> bool {
    for len in 0..dump.len() {
        let front = &dump[..len];
        let at = len.saturating_sub(after_packets(front).len());
        let whole = front.get(..at).unwrap_or(&[]);
        let want = match read_dump(alloc, Limits::usual(), mode, sender, whole) {
            Ok(_) if at < len => Err(Fault::Truncated { at: at as u64 }),
            answer => answer,
        };
        let given = read_dump(alloc, Limits::usual(), mode, sender, front);
        if !same(&want, &given) {
            return false;
        }
    }
    true
}

#[test]
fn cut_off_anywhere(rt: HostRuntime) -> Result<(), Fail> {
    let alloc = rt.alloc();
    for text in &DUMPS[..7] {
        let dump = octets(alloc, text)?;
        for sender in [V4, V6] {
            let sender = parse_addr(sender).ok_or("no address")?;
            for mode in [Mode::Plain, Mode::Hold] {
                assert!(rt; is_cut_off(alloc, mode, sender, &dump), "{text}");
            }
        }
    }
    Ok(())
}
