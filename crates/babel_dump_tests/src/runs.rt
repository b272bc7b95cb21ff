mod beginnings;
mod devices;
mod failures;
mod notes;
mod one_call;
mod one_command;

use babel_dump::{Asked, Begun, Job, RunFault, read_words, run_job, status_of};
use devices::{ScriptedIn, ScriptedOut};
use std::alloc::Global;
use std::process::Abort;
use std::test::Fail;

/// How many octets a read gives, at least one, and a write takes, and which read of the reader,
/// which of the other and which call of the writer fails, counted from 1, if any.
#[derive(Clone, Copy, Debug)]
struct Script {
    read: usize,
    written: usize,
    failing_read: u64,
    failing_other_read: u64,
    failing_call: u64,
}

/// What the words of a line ask for, of which octets and which others, over devices in memory that
/// follow a script.
#[derive(Clone, Copy)]
struct Case<'a> {
    line: &'a str,
    dump: &'a [u8],
    other: &'a [u8],
    script: Script,
}

/// What a run gave, its status or its fault, how often it read the dump and the other, and what it
/// wrote.
#[derive(Drop)]
struct Ran {
    outcome: Result<u8, RunFault>,
    reads: (u64, u64),
    taken: Vec<u8>,
}

/// What the words of a line ask for, of one input or two.
fn one_asked(alloc: Global, line: &str) -> Result<Asked, Fail> {
    let words: Vec<&str> = line.split_whitespace().collect(alloc)?;
    match read_words(alloc, &words, false) {
        Ok(asked) => Ok(asked.into_iter().next().ok_or("nothing")?),
        Err(_) => Err(Fail::from("other words")),
    }
}

/// The one job of the words of a line.
fn one_job(alloc: Global, line: &str) -> Result<Job, Fail> {
    match one_asked(alloc, line)? {
        Asked::Job(job) => Ok(job),
        _ => Err(Fail::from("no job")),
    }
}

/// Runs a case, in which an input may be a capture that has the dump.
fn run(alloc: Global, case: &Case<'_>) -> Result<Ran, Fail> {
    let Case {
        line,
        dump,
        other,
        script,
    } = *case;
    let mut job = one_job(alloc, line)?;
    let (first, second) = (Begun::new(dump).begins(), Begun::new(other).begins());
    if job.begin(first, second, 1).is_err() {
        return Err(Fail::from("a misplaced option"));
    }
    let mut reader = ScriptedIn::new(dump, script.read, script.failing_read);
    let mut other = ScriptedIn::new(other, script.read, script.failing_other_read);
    let mut writer = ScriptedOut::new(alloc, script.written, script.failing_call);
    let outcome = match run_job(alloc, &job, &mut reader, &mut other, &mut writer) {
        Ok(ran) => Ok(ran.outcome.status),
        Err(fault) => Err(fault),
    };
    Ok(Ran {
        outcome,
        reads: (reader.reads(), other.reads()),
        taken: writer.into_taken(),
    })
}

/// A case ends in this fault, with this status, and writes these octets. The answer is how often it
/// read the dump and the other.
fn expect_fault(
    rt: &impl Abort,
    alloc: Global,
    case: &Case<'_>,
    fault: &RunFault,
    status: u8,
    written: &[u8],
) -> Result<(u64, u64), Fail> {
    let ran = run(alloc, case)?;
    let (line, script) = (case.line, case.script);
    assert_eq!(rt;
        ran.outcome.as_ref().err(),
        Some(fault),
        "{line}, {script:?}"
    );
    assert_eq!(rt; status_of(&ran.outcome), status, "{line}, {script:?}");
    assert_eq!(rt; ran.taken.as_slice(), written, "{line}, {script:?}");
    Ok(ran.reads)
}
