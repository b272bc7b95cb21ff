//! How a capture is cut into pieces makes no difference: no row can ask where a read ends. The
//! packets are of examples/routers/babeld-basic-a.pcap, and what they give is of the dump beside
//! it; the blocks round them are worked by hand from draft-ietf-opsawg-pcap and
//! draft-ietf-opsawg-pcapng.
ghost use Rattle.std.specs.Prelude.{⊤};

use babel_capture::{Capture, Fault, Record, Said, Sink, Wanted};
use babel_prefix::{Addr, Family};
use std::alloc::Global;
use std::test::Fail;

/// A packet of fe80::5eff:fe00:c602, and two of fe80::5eff:fe00:c601.
const OTHER: &str =
    "33330001000602005e00c60286dd6c03079800181101fe8000000000000000005efffe00c602ff0200000000000000\
     000000000100061a281a28001820b72a02000c04060000c980006409020000";

const FIRST: &str =
    "33330001000602005e00c60186dd6c04230000181101fe8000000000000000005efffe00c601ff0200000000000000\
     000000000100061a281a28001820b62a02000c0406000040ff006409020000";

const SECOND: &str =
    "33330001000602005e00c60186dd6c04230000201101fe8000000000000000005efffe00c601ff0200000000000000\
     000000000100061a281a28002020be2a0200140406000041000064080a00000000ffff269effff";

/// A pcap file, sections of either byte order with a simple packet and an enhanced one, and blocks
/// with options round their packets, an unknown one and two interfaces.
static CAPTURES: [&[&str]; 3] = [
    &[
        "d4c3b2a1020004000000000000000000000004000100000000000000000000004e0000004e000000",
        OTHER,
        "00000000000000004e0000004e000000",
        FIRST,
        "00000000000000005600000056000000",
        SECOND,
    ],
    &[
        "0a0d0d0a0000001c1a2b3c4d00010000ffffffffffffffff0000001c",
        "0a0d0d0a1c0000004d3c2b1a01000000ffffffffffffffff1c000000",
        "010000001400000001000000000000001400000003000000600000004e000000",
        FIRST,
        "ffff6000000006000000780000000000000000000000000000005600000056000000",
        SECOND,
        "000078000000",
    ],
    &[
        "0a0d0d0a0000001c1a2b3c4d00010000ffffffffffffffff0000001c",
        "00000001000000200001000000000000000100046e6f74650000000000000020",
        "000000010000001400010000000000000000001400000bad00000014616263646500000000000014",
        "000000060000007c0000000000000000000000000000004e0000004e",
        FIRST,
        "0000000100046e6f7465000000000000007c",
        "00000006000000780000000100000000000000000000005600000056",
        SECOND,
        "000000000078",
    ],
];

/// What fe80::5eff:fe00:c601 sent in each.
const DUMP: &str =
    "2a02000c0406000040ff0064090200002a0200140406000041000064080a00000000ffff269effff";

/// The octets that hexadecimal texts spell, one after the other.
fn joined(alloc: Global, parts: &[&str]) -> Result<Vec<u8>, Fail> {
    let mut octets = Vec::new(alloc);
    for part in parts {
        octets.extend_from_slice(&hex::decode(alloc, *part)?)?;
    }
    Ok(octets)
}

/// Keeps the octets of packets, end to end, up to the first that there is no memory for.
#[derive(Drop)]
struct Dump {
    octets: Vec<u8>,
    is_short: bool,
}

impl Sink for Dump {
    ghost has = { λ _ _ _. ⊤ };

    fn take(&mut self, told: &Record<'_>) {
        if let Said::Packet(packet) = &told.said {
            self.is_short |= self.octets.extend_from_slice(packet.octets).is_err();
        }
    }
}

/// The dump of a sender in a capture, in a first piece and then in pieces of this length.
fn dump_of(
    alloc: Global,
    sender: Addr,
    (first, rest): (&[u8], &[u8]),
    step: usize,
) -> Result<Vec<u8>, Fault> {
    let wanted = Wanted {
        sender: Some(sender),
        place: None,
        are_listed: true,
        accepts_missing: false,
    };
    let mut dump = Dump {
        octets: Vec::new(alloc),
        is_short: false,
    };
    let mut capture = Capture::new(alloc, 4_096, wanted);
    capture.feed(first, &mut dump)?;
    for piece in rest.chunks(step.max(1)) {
        capture.feed(piece, &mut dump)?;
    }
    capture.finish(&mut dump)?;
    if dump.is_short {
        return Err(Fault::Memory);
    }
    Ok(dump.octets)
}

#[test]
fn every_cut(rt: HostRuntime) -> Result<(), Fail> {
    let alloc = rt.alloc();
    let sender = Addr::new(Family::V6, 0xfe80_0000_0000_0000_0000_5eff_fe00_c601);
    let sender = sender.ok_or("no address")?;
    let wanted = Ok(hex::decode(alloc, DUMP)?);
    for parts in &CAPTURES {
        let octets = joined(alloc, parts)?;
        for cut in 0..octets.len() {
            let in_two = octets.split_at(cut);
            let dump = dump_of(alloc, sender, in_two, octets.len());
            assert_eq!(rt; dump, wanted, "cut at {cut}");
        }
        let dump = dump_of(alloc, sender, (&[], &octets), 1);
        assert_eq!(rt; dump, wanted, "octet by octet");
    }
    Ok(())
}
