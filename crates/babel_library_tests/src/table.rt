//! How dumps are read, by the public calls, where no row can ask: in pieces, and with each
//! allocation refused in turn.
mod pieces;
mod refused_memory;

use crate::dumps::{ALL_RETRACTED, ONE_ROUTE, V4, octets};
use babel_prefix::parse_addr;
use babel_table::{Limits, read_dump};
use babel_tlv::Mode;
use std::test::Fail;

/// Dumps, and how many TLVs and Updates they have, whatever these hold: Pad1, PadN, Hello and
/// Router-Id; an Update of address encoding 4; an Update of 2 octets, a Hello, and in a second
/// packet an Update of none. Of Updates rows tell only whether there is one.
static COUNTED: [(&str, u64, u64); 6] = [
    ("", 0, 0),
    (
        "2a020019 00 0102ffff 0406000040ff0064 060a0000 0200000000000001",
        4,
        0,
    ),
    (ONE_ROUTE, 2, 1),
    ("2a02000d 080b040008000640000101000a", 1, 1),
    ("2a02000c 08020100 0406000040ff0064 2a020002 0800", 3, 2),
    (ALL_RETRACTED, 6, 5),
];

#[test]
fn updates_of_dumps(rt: HostRuntime) -> Result<(), Fail> {
    let sender = parse_addr(V4).ok_or("no address")?;
    for (text, tlvs, updates) in &COUNTED {
        let dump = octets(rt.alloc(), text)?;
        let table = read_dump(rt.alloc(), Limits::usual(), Mode::Plain, sender, &dump)?;
        assert_eq!(rt; table.report().tlvs(), *tlvs, "{text}");
        assert_eq!(rt; table.report().updates(), *updates, "{text}");
    }
    Ok(())
}
