//! Each allocation refused in turn, by `./check memory`, which runs each test here once for each of
//! its allocations: of dumps that come octet by octet, as the program reads none. A test passes
//! where nothing was refused, and fails with `REFUSED` where a refusal was answered with `Memory`.
use crate::dumps::{
    ALL_RETRACTED, EITHER_ENCODING, NESTED_SOURCES, ROUTER_ID_BY_FLAG, TWO_ROUTES, V4, V6, octets,
};
use babel_prefix::parse_addr;
use babel_table::{Feeder, Limits};
use babel_tlv::{Fault, Mode};
use std::alloc::Global;
use std::test::Fail;

const REFUSED: &str = "memory was refused, and Memory answered";

const OTHER: &str = "neither the known answer nor Memory";

/// Octet by octet, to the end, this dump of this sender has so many rows. Whatever comes after a
/// refusal is refused.
fn read_by_octet(
    alloc: Global,
    mode: Mode,
    sender: &str,
    dump: &[u8],
    rows: usize,
) -> Result<(), Fail> {
    let limits = Limits::usual().with_v4_via_v6(true);
    let sender = parse_addr(sender).ok_or("no address")?;
    let Ok(mut feeder) = Feeder::new(alloc, limits, mode, sender) else {
        return Err(Fail::from(REFUSED));
    };
    let mut so_far = Ok(());
    for octet in dump {
        let answer = feeder.feed(&[*octet]);
        if so_far.is_err() && answer != so_far {
            return Err(Fail::from(OTHER));
        }
        so_far = answer;
    }
    if feeder.feed(&[]) != so_far {
        return Err(Fail::from(OTHER));
    }
    match feeder.finish() {
        Ok(table) if so_far.is_ok() && table.rows().len() == rows => Ok(()),
        Err(Fault::Memory) => Err(Fail::from(REFUSED)),
        _ => Err(Fail::from(OTHER)),
    }
}

/// Dumps, and how many rows they have.
static DUMPS: [(Mode, &str, &str, usize); 5] = [
    (Mode::Plain, V4, NESTED_SOURCES, 2),
    (Mode::Plain, V4, TWO_ROUTES, 2),
    (Mode::Plain, V6, ROUTER_ID_BY_FLAG, 1),
    (Mode::Hold, V4, ALL_RETRACTED, 2),
    (Mode::Plain, V6, EITHER_ENCODING, 1),
];

#[test]
fn refused_memory_octet_by_octet(rt: HostRuntime) -> Result<(), Fail> {
    for (mode, sender, text, rows) in &DUMPS {
        let dump = octets(rt.alloc(), text)?;
        read_by_octet(rt.alloc(), *mode, sender, &dump, *rows)?;
    }
    Ok(())
}

/// n.0.0.0/8 for each n from 1 to 24: more rows than one node of a map holds.
#[test]
fn refused_memory_of_many_rows(rt: HostRuntime) -> Result<(), Fail> {
    let mut dump = octets(rt.alloc(), "2a020144 060a0000 0200000000000001")?;
    for n in 1..25 {
        dump.extend_from_slice(&[8, 11, 1, 0, 8, 0, 6, 64, 0, 1, 1, 0, n])?;
    }
    read_by_octet(rt.alloc(), Mode::Plain, V4, &dump, 24)
}
