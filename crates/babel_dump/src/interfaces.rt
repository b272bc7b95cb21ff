ghost use Rattle.std.specs.Prelude.{◌≡◌, IfOk};
ghost use Rattle.babel_dump.specs.CaptureText.{places_of};

use crate::place_word::PlaceWord;
use babel_capture::{Origin, Place, Tally};
use std::alloc::{AllocError, Global};
use std::collections::BTreeMap;
use std::fmt;

/// The most places that are listed.
const LISTED: usize = 16;

/// The places where a sender's packets were captured, in rising order. `Display` gives them in the
/// form of `--interface` with a comma between each two, and says how many there are besides 16.
#[derive(Drop, PartialEq, Eq)]
pub struct Interfaces(pub Vec<Place>);

impl fmt::Display for Interfaces {
    fn fmt<W: fmt::Write>(&self, f: &mut fmt::Formatter<W>) -> fmt::Result {
        let mut mark = "";
        for place in self.0.get(..LISTED).unwrap_or(&self.0) {
            write!(f, "{mark}{}", PlaceWord(*place))?;
            mark = ", ";
        }
        match self.0.len().saturating_sub(LISTED) {
            0 => Ok(()),
            more => write!(f, ", and {more} more"),
        }
    }
}

/// The place of each of the senders.
pub(crate) fn interfaces_of(
    alloc: Global,
    senders: &BTreeMap<Origin, Tally>,
) -> Result<Interfaces, AllocError>
    ensures { IfOk result (λ interfaces. interfaces.0.items ≡ places_of senders.now.entries) }
{
    let mut places = Vec::new(alloc);
    for (origin, _tally) in senders.iter() {
        places.push(origin.place)?;
    }
    Ok(Interfaces(places))
}
