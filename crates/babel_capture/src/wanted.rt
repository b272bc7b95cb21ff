ghost use Rattle.std.specs.Prelude.{◌≡◌, ◌↔◌, IsTrue};
ghost use Rattle.babel_capture.specs.Findings.{IsWanted, everyone};

use crate::place::Place;
use babel_prefix::Addr;

/// Whose datagrams are wanted: those of each sender, or of one where it is named, at each place or
/// at one. Where the senders are listed, one more than 65,536 is a fault.
#[derive(Clone, Copy)]
pub struct Wanted {
    pub sender: Option<Addr>,
    pub place: Option<Place>,
    /// Whether the senders are listed.
    pub are_listed: bool,
    /// Whether a datagram of which fragments are missing is left out, and refuses nobody.
    pub accepts_missing: bool,
}

impl Wanted {
    /// Those of each sender, at each place.
    pub fn everyone() -> Wanted
        ensures { result ≡ everyone }
    {
        Wanted {
            sender: None,
            place: None,
            are_listed: true,
            accepts_missing: false,
        }
    }

    /// Whether the datagrams of this sender at this place are wanted.
    pub fn takes(&self, from: Addr, at: Place) -> bool
        ensures { IsTrue result ↔ IsWanted self.now from at }
    {
        let is_from = match self.sender {
            Some(sender) => from == sender,
            None => true,
        };
        is_from
            && match self.place {
                Some(place) => at == place,
                None => true,
            }
    }
}
