//! Each read and each write that fails, in turn.
use super::devices::ScriptedIn;
use super::{Case, Script, expect_fault, one_asked, run};
use babel_dump::{Asked, InputFault, PairsFault, RunFault, Side};
use babel_library_tests::dumps::{NESTED_SOURCES, ONE_FAMILY, ONE_ROUTE, TWO_FAMILIES, octets};
use babel_tlv::Fault;
use std::alloc::Global;
use std::process::Abort;
use std::test::Fail;

/// pcap, least octet first, raw IP: an empty packet of 192.0.2.1 and of 192.0.2.2, this one with a
/// trailer.
const CAPTURE: &str =
    "d4c3b2a1020004000000000000000000000004006500000000000000000000002000000020000000 \
     45000020000000000111 0000 c0000201 e000006f 1a281a28 000c0000 2a020000 \
     00000000000000002200000022000000 \
     45000022000000000111 0000 c0000202 e000006f 1a281a28 000e0000 2a020000 1234";

/// The same of one packet, whose TLV goes past its end, and what is asked of it.
const FAULTY: (&str, &str, &str) = (
    "show --from 192.0.2.1",
    "d4c3b2a1020004000000000000000000000004006500000000000000000000002200000022000000 \
     45000022000000000111 0000 c0000201 e000006f 1a281a28 000e0000 2a020002 0a05",
    "",
);

/// What is asked, of which octets, and of which others: first of 13 dumps, then of captures.
static ASKED: [(&str, &str, &str); 19] = [
    ("show --from 192.0.2.1", NESTED_SOURCES, ""),
    ("show --summary --from 192.0.2.1", ONE_ROUTE, ""),
    (
        "lookup --to 10.1.2.3 --src 10.1.2.3 --from 192.0.2.1",
        NESTED_SOURCES,
        "",
    ),
    ("lookup --to 10.1.2.3 --from 192.0.2.1", ONE_ROUTE, ""),
    ("normalise --from 192.0.2.1", NESTED_SOURCES, ""),
    ("normalise --hex --from fe80::1", TWO_FAMILIES, ""),
    ("normalise --routes --hex --from 192.0.2.1", ONE_ROUTE, ""),
    ("key --from 192.0.2.1 a", ONE_ROUTE, ""),
    ("pairs --from fe80::1", TWO_FAMILIES, ""),
    ("pairs --count --from 192.0.2.1", NESTED_SOURCES, ""),
    ("compare --from fe80::1 a b", TWO_FAMILIES, ONE_FAMILY),
    (
        "compare --all --from 192.0.2.1 a b",
        ONE_ROUTE,
        NESTED_SOURCES,
    ),
    (
        "compare --routes --all --from 192.0.2.1 a b",
        ONE_ROUTE,
        NESTED_SOURCES,
    ),
    ("senders", CAPTURE, ""),
    ("extract --from 192.0.2.2 --hex", CAPTURE, ""),
    ("extract --from 192.0.2.1", CAPTURE, ""),
    ("show --from 192.0.2.2", CAPTURE, ""),
    ("lookup --to 10.1.2.3 --from 192.0.2.1", CAPTURE, ""),
    (
        "compare --from 192.0.2.1 --other-from 192.0.2.2 a b",
        CAPTURE,
        CAPTURE,
    ),
];

/// How many octets one write takes.
const TAKEN: usize = 7;

/// The octets come one by one; nothing fails.
const SCRIPT: Script = Script {
    read: 1,
    written: TAKEN,
    failing_read: 0,
    failing_other_read: 0,
    failing_call: 0,
};

/// Each read of the dump, also the one that meets its end, is answered where it fails, before the
/// other dump is read; in a capture also after a fault of its dump.
#[test]
fn each_read(rt: HostRuntime) -> Result<(), Fail> {
    for (line, dump, other) in ASKED.iter().chain([&FAULTY]) {
        let (dump, other) = (octets(rt.alloc(), dump)?, octets(rt.alloc(), other)?);
        for failing_read in 1..dump.len() as u64 + 2 {
            let script = Script {
                failing_read,
                failing_other_read: 1,
                ..SCRIPT
            };
            let reads = expect_read_fault(&rt, rt.alloc(), line, &dump, &other, script)?;
            assert_eq!(rt; reads, (failing_read, 0), "{line}");
        }
    }
    Ok(())
}

/// A read that fails is answered, and nothing is written. How often both inputs were read.
fn expect_read_fault(
    rt: &impl Abort,
    alloc: Global,
    line: &str,
    dump: &[u8],
    other: &[u8],
    script: Script,
) -> Result<(u64, u64), Fail> {
    let side = if script.failing_read == 0 {
        Side::Other
    } else {
        Side::First
    };
    let fault = RunFault::Input(side, InputFault::Read);
    let case = Case {
        line,
        dump,
        other,
        script,
    };
    expect_fault(rt, alloc, &case, &fault, 4, &[])
}

/// Each read of the other dump, also the one that meets its end, is answered where it fails, after
/// all of the dump.
#[test]
fn each_read_of_the_other_dump(rt: HostRuntime) -> Result<(), Fail> {
    for (line, dump, other) in ASKED.iter().filter(|(_, _, other)| !other.is_empty()) {
        let (dump, other) = (octets(rt.alloc(), dump)?, octets(rt.alloc(), other)?);
        for failing_other_read in 1..other.len() as u64 + 2 {
            let script = Script {
                failing_other_read,
                ..SCRIPT
            };
            let reads = expect_read_fault(&rt, rt.alloc(), line, &dump, &other, script)?;
            assert_eq!(rt;
                reads,
                (dump.len() as u64 + 1, failing_other_read),
                "{line}"
            );
        }
    }
    Ok(())
}

/// Each read of pairs that fails is answered, and the dump is not read.
#[test]
fn each_read_of_pairs(rt: HostRuntime) -> Result<(), Fail> {
    let dump = octets(rt.alloc(), ONE_ROUTE)?;
    for failing_other_read in 1..5 {
        let script = Script {
            failing_other_read,
            ..SCRIPT
        };
        let case = Case {
            line: "lookup --each p --from 192.0.2.1",
            dump: &dump,
            other: b"# x",
            script,
        };
        let fault = RunFault::Pairs(PairsFault::Read);
        let reads = expect_fault(&rt, rt.alloc(), &case, &fault, 4, &[])?;
        assert_eq!(rt; reads, (0, failing_other_read));
    }
    Ok(())
}

/// Each read of a capture that fails, where each sender's key is asked for.
#[test]
fn each_read_for_keys_of_senders(rt: HostRuntime) -> Result<(), Fail> {
    let capture = octets(rt.alloc(), CAPTURE)?;
    let Asked::EachSender(keys) = one_asked(rt.alloc(), "key x")? else {
        return Err(Fail::from("no keys of senders"));
    };
    for failing in 1..capture.len() as u64 + 2 {
        let mut reader = ScriptedIn::new(&capture, 1, failing);
        let read = keys.gather(rt.alloc(), 1, &mut reader);
        assert_eq!(rt; read.err(), Some(InputFault::Read));
    }
    Ok(())
}

/// Each write, and the flush after them, is answered where it fails, and what was written is a part
/// of the whole.
#[test]
fn each_write_and_the_flush(rt: HostRuntime) -> Result<(), Fail> {
    for (line, dump, other) in &ASKED {
        expect_write_faults(&rt, rt.alloc(), line, dump, other)?;
    }
    Ok(())
}

fn expect_write_faults(
    rt: &impl Abort,
    alloc: Global,
    line: &str,
    dump: &str,
    other: &str,
) -> Result<(), Fail> {
    let (dump, other) = (octets(alloc, dump)?, octets(alloc, other)?);
    let case = Case {
        line,
        dump: &dump,
        other: &other,
        script: SCRIPT,
    };
    let whole = run(alloc, &case)?;
    assert!(rt; whole.outcome.is_ok() && !whole.taken.is_empty(), "{line}");
    let whole = whole.taken.as_slice();
    for call in 0..whole.len().div_ceil(TAKEN).saturating_add(1) {
        let script = Script {
            failing_call: call as u64 + 1,
            ..SCRIPT
        };
        let part = whole.len().min(call.saturating_mul(TAKEN));
        let case = Case { script, ..case };
        expect_fault(rt, alloc, &case, &RunFault::Write, 4, &whole[..part])?;
    }
    Ok(())
}

/// A write that takes nothing is a fault.
#[test]
fn a_write_that_takes_nothing(rt: HostRuntime) -> Result<(), Fail> {
    for (line, dump, other) in &ASKED {
        let (dump, other) = (octets(rt.alloc(), dump)?, octets(rt.alloc(), other)?);
        let script = Script {
            read: 7,
            written: 0,
            ..SCRIPT
        };
        let case = Case {
            line,
            dump: &dump,
            other: &other,
            script,
        };
        expect_fault(&rt, rt.alloc(), &case, &RunFault::Write, 4, &[])?;
    }
    Ok(())
}

/// A dump of 2,000 routes, and the text that `show` writes of it, which is several slices.
fn many_routes(alloc: Global) -> Result<(Vec<u8>, String), Fail> {
    let mut dump = octets(alloc, "2a02753c060a00000200000000000001")?;
    let mut text = String::new(alloc);
    for route in 0..2_000_u16 {
        let [high, low] = route.to_be_bytes();
        dump.extend_from_slice(&[8, 13, 1, 0, 24, 0, 6, 64, 0, 1, 1, 0, 10, high, low])?;
        write!(
            text,
            "10.{high}.{low}.0/24 from 0.0.0.0/0 via 192.0.2.1 id 0200000000000001 seqno 1 metric \
             256\n"
        )?;
    }
    write!(text, "tlvs 2001\n")?;
    Ok((dump, text))
}

/// Each write of several slices, and the flush after them, is answered where it fails, and what
/// was written is a part of the whole that grows with each write.
#[test]
fn each_write_of_several_slices(rt: HostRuntime) -> Result<(), Fail> {
    let (dump, text) = many_routes(rt.alloc())?;
    let whole = text.as_bytes();
    let mut written = 0;
    for failing_call in 1..100 {
        let script = Script {
            read: 4_096,
            written: 20_000,
            failing_call,
            ..SCRIPT
        };
        let case = Case {
            line: "show --from 192.0.2.1",
            dump: &dump,
            other: &[],
            script,
        };
        let ran = run(rt.alloc(), &case)?;
        assert!(rt;
            whole.starts_with(ran.taken.as_slice()),
            "call {failing_call}"
        );
        if ran.outcome.is_ok() {
            assert_eq!(rt; ran.taken.len(), whole.len());
            return Ok(());
        }
        assert_eq!(rt; ran.outcome, Err(RunFault::Write), "call {failing_call}");
        let grows = failing_call == 1 || written < ran.taken.len();
        assert!(rt;
            grows || ran.taken.len() == whole.len(),
            "call {failing_call}"
        );
        written = ran.taken.len();
    }
    Err(Fail::from("a call of the writer fails without end"))
}

/// A dump in pieces of so many octets, of which the second read fails, the fault and its status,
/// and how often it is read: a read that fails after octets, and a fault of octets before a read
/// that would fail.
const SECOND_READS: [(&str, usize, RunFault, u8, u64); 2] = [
    (
        ONE_ROUTE,
        20,
        RunFault::Input(Side::First, InputFault::Read),
        4,
        2,
    ),
    (
        "2a030000",
        100,
        RunFault::Input(Side::First, InputFault::Dump(Fault::BadVersion { at: 0 })),
        3,
        1,
    ),
];

#[test]
fn a_second_read_that_fails(rt: HostRuntime) -> Result<(), Fail> {
    for (dump, read, fault, status, reads) in &SECOND_READS {
        let dump = octets(rt.alloc(), dump)?;
        let script = Script {
            read: *read,
            failing_read: 2,
            failing_other_read: 1,
            ..SCRIPT
        };
        for (line, _, _) in &ASKED[..13] {
            let case = Case {
                line,
                dump: &dump,
                other: &dump,
                script,
            };
            let found = expect_fault(&rt, rt.alloc(), &case, fault, *status, &[])?;
            assert_eq!(rt; found, (*reads, 0), "{line}");
        }
    }
    Ok(())
}
