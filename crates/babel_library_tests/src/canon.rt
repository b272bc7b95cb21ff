//! Canonical pairs that are put into a sink of the caller's, as the program has none that refuses
//! one.
ghost use Rattle.std.specs.Prelude.{⊤};

use crate::dumps::{NESTED_SOURCES, V4, octets};
use babel_canon::{CanonicalPairs, PairSink};
use babel_prefix::parse_addr;
use babel_table::{Limits, read_dump};
use babel_tlv::{Held, Key, Mode};
use std::test::Fail;

/// A sink that has room for so many pairs, and counts those that it was given.
#[derive(Drop)]
struct Room {
    pairs: usize,
    given: usize,
}

/// There is no room for the pair.
#[derive(Clone, Copy, Debug, PartialEq, Eq)]
struct Full;

impl PairSink for Room {
    type Error = Full;

    ghost has = { λ _ _ _. ⊤ };

    ghost stopped = { λ _ _ _. ⊤ };

    fn put(&mut self, _key: Key, _held: Held) -> Result<(), Full> {
        self.given = self.given.saturating_add(1);
        if self.given > self.pairs {
            return Err(Full);
        }
        Ok(())
    }
}

#[test]
fn stops_at_the_pair_that_is_not_taken(rt: HostRuntime) -> Result<(), Fail> {
    let dump = octets(rt.alloc(), NESTED_SOURCES)?;
    let sender = parse_addr(V4).ok_or("no address")?;
    let table = read_dump(rt.alloc(), Limits::usual(), Mode::Plain, sender, &dump)?;
    for (pairs, result, given) in [(9, Ok(()), 9), (4, Err(Full), 5), (0, Err(Full), 1)] {
        let canonical = CanonicalPairs::of(rt.alloc(), Limits::usual(), &table)?;
        assert_eq!(rt; canonical.count(), 9);
        let mut sink = Room { pairs, given: 0 };
        assert!(rt; canonical.put(&mut sink) == result, "{pairs}");
        assert_eq!(rt; sink.given, given);
    }
    Ok(())
}
