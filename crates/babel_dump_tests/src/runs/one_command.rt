//! The run of each command by itself, without a job, as the program makes none: it answers.
use super::devices::{ScriptedIn, ScriptedOut};
use babel_canon::Body;
use babel_dump::{RunFault, run_compare, run_lookup, run_normalise, run_pairs, run_show};
use babel_library_tests::dumps::{ONE_ROUTE, V4, octets};
use babel_prefix::{Addr, Family, parse_addr};
use babel_table::Limits;
use babel_tlv::Mode;
use std::process::Abort;
use std::test::Fail;

const MODE: Mode = Mode::Plain;

/// The sender of the dump.
fn sender() -> Result<Addr, Fail> {
    Ok(parse_addr(V4).ok_or("no address")?)
}

/// A run that ended so, and wrote what this device took, answered 0 and wrote this text.
fn expect(rt: &impl Abort, outcome: Result<u8, RunFault>, writer: &ScriptedOut, text: &str) {
    assert_eq!(rt; outcome, Ok(0), "{text}");
    assert_eq!(rt; writer.taken(), text.as_bytes());
}

#[test]
fn show(rt: HostRuntime) -> Result<(), Fail> {
    let (alloc, limits, from) = (rt.alloc(), Limits::usual(), sender()?);
    let dump = octets(alloc, ONE_ROUTE)?;
    let mut reader = ScriptedIn::new(&dump, 1, 0);
    let mut writer = ScriptedOut::new(alloc, 1, 0);
    let ended = run_show(alloc, limits, MODE, from, &mut reader, &mut writer);
    let text =
        "10.0.0.0/8 from 0.0.0.0/0 via 192.0.2.1 id 0200000000000001 seqno 1 metric 256\ntlvs 2\n";
    expect(&rt, ended, &writer, text);
    Ok(())
}

#[test]
fn lookup(rt: HostRuntime) -> Result<(), Fail> {
    let (alloc, limits, from) = (rt.alloc(), Limits::usual(), sender()?);
    let dst = Addr::new(Family::V4, 0x0a01_0203).unwrap();
    let dump = octets(alloc, ONE_ROUTE)?;
    let mut reader = ScriptedIn::new(&dump, 1, 0);
    let mut writer = ScriptedOut::new(alloc, 1, 0);
    let ended = run_lookup(
        alloc,
        limits,
        MODE,
        from,
        dst,
        dst,
        &mut reader,
        &mut writer,
    );
    let text = "via 192.0.2.1 id 0200000000000001 seqno 1 metric 256\n";
    expect(&rt, ended, &writer, text);
    Ok(())
}

#[test]
fn pairs(rt: HostRuntime) -> Result<(), Fail> {
    let (alloc, limits, from) = (rt.alloc(), Limits::usual(), sender()?);
    let dump = octets(alloc, ONE_ROUTE)?;
    let line = "10.0.0.0/8 from 0.0.0.0/0 via 192.0.2.1 id 0200000000000001 seqno 1 metric 256\n";
    for (count, text) in [(false, line), (true, "rows 1\npairs 1\n")] {
        let mut reader = ScriptedIn::new(&dump, 1, 0);
        let mut writer = ScriptedOut::new(alloc, 1, 0);
        let ended = run_pairs(alloc, limits, MODE, from, count, &mut reader, &mut writer);
        expect(&rt, ended, &writer, text);
    }
    Ok(())
}

#[test]
fn normalise(rt: HostRuntime) -> Result<(), Fail> {
    let (alloc, limits, from) = (rt.alloc(), Limits::usual(), sender()?);
    let (body, hex) = (Body::usual(), true);
    let dump = octets(alloc, ONE_ROUTE)?;
    let mut reader = ScriptedIn::new(&dump, 1, 0);
    let mut writer = ScriptedOut::new(alloc, 1, 0);
    let ended = run_normalise(
        alloc,
        limits,
        MODE,
        body,
        from,
        hex,
        &mut reader,
        &mut writer,
    );
    let text = "2a020021060a0000020000000000000107060100c0000201080b018008000640000101000a\n";
    expect(&rt, ended, &writer, text);
    Ok(())
}

#[test]
fn compare(rt: HostRuntime) -> Result<(), Fail> {
    let (alloc, limits, from) = (rt.alloc(), Limits::usual(), sender()?);
    let dump = octets(alloc, ONE_ROUTE)?;
    let mut reader = ScriptedIn::new(&dump, 1, 0);
    let mut other = ScriptedIn::new(&dump, 1, 0);
    let mut writer = ScriptedOut::new(alloc, 1, 0);
    let (first, second) = (&mut reader, &mut other);
    let ended = run_compare(alloc, limits, MODE, from, from, first, second, &mut writer);
    expect(&rt, ended, &writer, "same\n");
    Ok(())
}
