ghost use Rattle.std.specs.Prelude.{◌≡◌};
ghost use Rattle.babel_selection.specs.Offers.{offer_of, own_offer};

use babel_timeline::Sender;
use babel_tlv::{Ann, Key};

/// A route that a sender announces for a key, as the router has it that selects: one of its own, or
/// one of another. Ordered by key; then its own come first; then by the metric that it has by them;
/// and then by sender.
#[derive(Clone, Copy, PartialEq, Eq, PartialOrd, Ord)]
pub struct Offer<S> {
    pub key: Key,
    /// Whether another sender announces it.
    pub is_other: bool,
    /// The metric that the router has by it, at most infinite: RFC 8966, 3.5.2.
    pub total: u16,
    /// Who announces it.
    pub by: S,
    /// What the link to the sender costs.
    pub cost: u16,
    pub ann: Ann,
}

impl<S: Sender> Offer<S> {
    /// A route that another sender announces, to which the link costs so much.
    pub fn of(key: Key, ann: Ann, by: S, cost: u16) -> Offer<S>
        ensures { result ≡ offer_of key ann by cost }
    {
        Offer {
            key,
            is_other: true,
            total: ann.metric().saturating_add(cost),
            by,
            cost,
            ann,
        }
    }

    /// A route that the router announces itself, as this one of its addresses.
    pub fn own(key: Key, ann: Ann, by: S) -> Offer<S>
        ensures { result ≡ own_offer key ann by }
    {
        Offer {
            key,
            is_other: false,
            total: ann.metric(),
            by,
            cost: 0,
            ann,
        }
    }
}
