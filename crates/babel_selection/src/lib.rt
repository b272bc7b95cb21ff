//! What a router uses of what its neighbours announce: what links between them cost (RFC 8966,
//! 3.4, appendix A), what the router's own Updates let it use (3.5.1, 3.7.3), and which routes of a
//! key it then selects (3.6).
//!
//! `Hellos` and `Ihus` take what is heard of many senders, `Sources` a router's own Updates; a
//! `Choice` is among the routes for one key. The crate knows nothing of captures or of text.
//!
//! What it promises the crates above, each with its contract:
//!
//! - A sender's multicast Hellos are counted, and the seqnos left out between them. —
//!   `Hellos::hear` (`CountsHello`), `count`; `laws::hellos_are_counted` · *begun*, *hello*
//! - Of the IHUs that name a neighbour, or are for all that send there, a router's last one is
//!   found, and which pairs there are. — `Ihus::hear` (`TakesIhu`), `last`, `named`, `to_all`;
//!   `laws::ihus_are_last` · *begun*, *ihu*
//! - What an IHU says counts until so many times its Interval after it. — `IhuSaid::rxcost_at`
//! - A link costs what 2-out-of-3 or ETX says of both costs. — `link_cost`
//! - A source table is that of the router's own Updates, and what is feasible goes by it. —
//!   `Sources::hear` (`TakesUpdate`), `distance`; `laws::distances_are_kept` · *begun*, *update*;
//!   `Sources::hear_packet` (`updates_of`)
//! - Each route for a key has the state that the definition gives it; what is selected is feasible,
//!   finite, and what the router announces, or the least. — `Choice::of`, `state`, `least_own`;
//!   `laws::selected_is_best` · *usable*, *least*, *unfeasible*
//! - The routes that senders announce are put in order, by key, and each is told with what it is to
//!   the router; a route of its own comes first, where it uses that. — `sort_offers` ·
//!   *permutation*, *sorted*; `chosen_routes` (`chosen_rows`), `Offer::of`, `own`
//! - Of two addresses it is told of the best match of the keys of which a route is used, and of
//!   those that match better. — `best_used`, `is_told`; `laws::told_are_of_answer`
#![tactic(auto)]

mod candidate;
mod cost;
mod distance;
mod hello_count;
mod hellos;
mod ihu_from;
mod ihus;
pub mod laws;
mod link_hearing;
mod link_node;
mod link_pairs;
mod offer;
mod offers;
mod own_updates;
mod selection;
mod seqno;
mod source;
mod sources;
mod told_keys;

pub use candidate::Candidate;
pub use cost::{INFINITY, link_cost};
pub use distance::Distance;
pub use hello_count::HelloCount;
pub use hellos::Hellos;
pub use ihu_from::{IhuFrom, IhuSaid};
pub use ihus::{Ihus, Numbered, Pair};
pub use link_hearing::LinkHearing;
pub use link_node::LinkNode;
pub use link_pairs::links;
pub use offer::Offer;
pub use offers::{ChosenRoute, chosen_routes, sort_offers};
pub use selection::{Choice, RouteState, least_own};
pub use source::Source;
pub use sources::Sources;
pub use told_keys::{UsedKey, best_used, is_told};
