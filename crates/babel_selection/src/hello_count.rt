ghost use Rattle.std.specs.Prelude.{◌≡◌, Some};
ghost use Rattle.babel_selection.specs.Links.{after_hello, counted, missed_between, no_hellos};

use crate::seqno::steps_to;
use babel_tlv::Hello;

/// After more steps than this a sender has begun anew: RFC 8966, appendix A.1.
const MOST_STEPS: u16 = 16;

/// What is counted of a sender's multicast Hellos.
#[derive(Clone, Copy)]
pub struct HelloCount {
    /// How many came.
    pub heard: u64,
    /// How many seqnos were left out between one and the next.
    pub missed: u64,
    /// The seqno of the last one.
    pub seqno: u16,
    /// The Interval of the last one that has one, in hundredths of a second; 0 where none has.
    pub interval: u16,
}

/// How many seqnos were left out between a Hello and the next one.
fn missed_between(before: u16, seqno: u16) -> u16
    ensures { result ≡ missed_between before seqno }
{
    let steps = steps_to(seqno, before);
    if steps == 0 || steps > MOST_STEPS {
        0
    } else {
        steps - 1
    }
}

/// So many more, as far as 64 bits can say.
fn counted(count: u64, more: u64) -> u64
    ensures { result ≡ counted count more }
{
    count.saturating_add(more)
}

impl HelloCount {
    /// That of none.
    pub fn none() -> HelloCount
        ensures { result ≡ no_hellos }
    {
        HelloCount {
            heard: 0,
            missed: 0,
            seqno: 0,
            interval: 0,
        }
    }

    /// What is counted after one more multicast Hello.
    pub(crate) fn after(count: &Option<HelloCount>, hello: &Hello) -> HelloCount
        ensures { result ≡ after_hello hello.now count.now }
    {
        match count {
            None => HelloCount {
                heard: 1,
                missed: 0,
                seqno: hello.seqno,
                interval: hello.interval,
            },
            Some(count) => count.next(hello),
        }
    }

    /// What is counted after one more.
    fn next(&self, hello: &Hello) -> HelloCount
        ensures { result ≡ after_hello hello.now (Some self.now) }
    {
        let missed = missed_between(self.seqno, hello.seqno);
        HelloCount {
            heard: counted(self.heard, 1),
            missed: counted(self.missed, u64::from(missed)),
            seqno: hello.seqno,
            interval: if hello.interval == 0 {
                self.interval
            } else {
                hello.interval
            },
        }
    }
}
