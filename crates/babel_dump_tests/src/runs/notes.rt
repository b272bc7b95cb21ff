//! A device that takes the JSON of notes in parts, and fails in turn.
use super::devices::{ScriptedIn, ScriptedOut};
use super::one_job;
use babel_dump::{Notes, RunFault, run_job};
use babel_library_tests::dumps::{ONE_ROUTE, octets};
use std::test::Fail;

/// How many octets one write takes.
const TAKEN: usize = 7;

/// The JSON of the notes on no dump and on another.
const JSON: &str = "{\"note\":\"no-updates\"}\n\
     {\"note\":\"ignored\",\"tlvs\":2,\"ignored\":\
     [{\"reason\":\"no-next-hop\",\"count\":1,\"first\":16}],\"other\":true}\n";

#[test]
fn writes_of_notes_that_fail(rt: HostRuntime) -> Result<(), Fail> {
    let alloc = rt.alloc();
    let job = one_job(alloc, "compare --from fe80::1 a b")?;
    let other = octets(alloc, ONE_ROUTE)?;
    let mut reader = ScriptedIn::new(&[], 1, 0);
    let mut other = ScriptedIn::new(&other, 1, 0);
    let mut writer = ScriptedOut::new(alloc, TAKEN, 0);
    let mut notes = Notes::new(alloc)?;
    match run_job(alloc, &job, &mut reader, &mut other, &mut writer) {
        Ok(ran) => notes.gather(&job, &ran)?,
        Err(_fault) => return Err(Fail::from("a fault")),
    }
    for failing_call in 1..8 {
        let mut writer = ScriptedOut::new(alloc, TAKEN, failing_call);
        let outcome = notes.write_json(&mut writer);
        assert_eq!(rt; outcome, Err(RunFault::Write), "at call {failing_call}");
        let taken = writer.into_taken();
        assert!(rt;
            JSON.as_bytes().starts_with(&taken),
            "at call {failing_call}"
        );
    }
    Ok(())
}
