//! Whose Hellos are waited for.
ghost use Rattle.std.specs.Prelude.{◌≡◌, ◌<◌, ◌≤◌, [], length, IfNone, IfOk, IfSome, OnOk};
ghost use Rattle.babel_timeline.specs.Silence.{FallsSilent, NoneFallsSilent, TakesHello, hello_key};
ghost use Rattle.babel_timeline.specs.Silence.{is_silent};

use crate::row::Row;
use crate::sender::Sender;
use crate::subject::Subject;
use crate::timeline::Timeline;
use babel_prefix::{Family, Prefix};
use babel_table::Stamp;
use babel_tlv::{Key, Route};
use std::alloc::{AllocError, Global};
use std::collections::BTreeSet;
use std::marker::Model;

/// For so many ten-millionths of its Interval a Hello is waited for: 3.5 times as long.
const PATIENCE: u64 = 35_000_000;

/// That a sender falls silent: RFC 8966, 3.4.1, appendix A.1.
#[derive(Clone, Copy)]
pub struct Silence<S> {
    /// When, in nanoseconds since the start of 1970.
    pub time: u128,
    /// Who.
    pub sender: S,
    /// When its last Hello came.
    pub since: u128,
}

/// Whose Hellos are waited for. A Hello holds as an announcement does, until 3.5 times its Interval
/// after it: it is kept as a row of one key.
#[derive(Drop)]
pub struct Watch<S: Sender> {
    hellos: Timeline<S>,
    /// The senders that are silent.
    silent: BTreeSet<S>,
}

impl<S: Sender> Model for Watch<S> {
    ghost use Rattle.babel_timeline.specs.Silence.{AreHellos, Watching};

    ghost Value = { Watching S };

    ghost view = { λ w. record { rows = w.hellos.rows; silent = w.silent } };

    ghost invariant = { λ w. AreHellos S.cmp w.hellos };
}

/// The key of the rows that stand for Hellos.
fn key_of_hellos() -> Key
    ensures { result ≡ hello_key }
{
    let everywhere = Prefix::whole(Family::V4);
    Key::new(everywhere, everywhere).unwrap()
}

impl<S: Sender> Watch<S> {
    /// Nobody is watched.
    pub fn new(alloc: Global) -> Watch<S>
        ensures { result ≡ record { rows = []; silent = record { keys = [] } } }
    {
        Watch {
            hellos: Timeline::new(alloc, Some(PATIENCE), u32::MAX),
            silent: BTreeSet::new(alloc),
        }
    }

    /// Takes a multicast Hello of a sender that says when the next one comes. Whether the sender was
    /// silent until then.
    pub fn hear(&mut self, sender: S, hello: Stamp) -> Result<bool, AllocError>
        ensures returns { IfOk result (λ returns. returns ≡ is_silent S.cmp self.old sender) }
        ensures taken { OnOk result (TakesHello S.cmp sender hello self.old self.new) }
    {
        let key = key_of_hellos();
        let ann = Route::unwritten().ann;
        let row = Row { ann, when: hello };
        match self.hellos.announce(&Subject { sender, key }, &row, 0) {
            Ok(_) => Ok(self.silent.remove(&sender)),
            Err(_) => Err(AllocError),
        }
    }

    /// The sender that falls silent next, if by this time. It is silent then.
    pub fn fall_silent(&mut self, until: u128) -> Result<Option<Silence<S>>, AllocError>
        ensures none { IfOk result (λ first. IfNone first (NoneFallsSilent S.cmp until self.old)) }
        ensures same { IfOk result (λ first. IfNone first (self.new ≡ self.old)) }
        ensures by { IfOk result (λ first. IfSome first (λ silence. silence.time ≤ until)) }
        ensures fewer { IfOk result (λ first. IfSome first
            (λ _. length self.new.rows < length self.old.rows)) }
        ensures first { IfOk result (λ first. IfSome first
            (λ silence. FallsSilent S.cmp silence self.old self.new)) }
    {
        let Some(first) = self.hellos.first_end(until)? else {
            return Ok(None);
        };
        let subject = first.subject();
        let sender = subject.sender;
        self.silent.insert(sender)?;
        let hello = self.hellos.take(&subject).unwrap().when;
        Ok(Some(Silence {
            time: first.time,
            sender,
            since: hello.time(),
        }))
    }
}
