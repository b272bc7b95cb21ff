//! The canonical dump: the largest blocks of addresses that share one answer of a table, as
//! pairs, and the octets that say them; and how the answers of two tables compare. It knows nothing
//! of files, of texts, or of a command line.
//!
//! What it promises the crates above, each with its contract as docs/PROMISES.md has them:
//!
//! - Any sink can be given the pairs, once they are counted. — `CanonicalPairs::of`, `put` · *ok*,
//!   *err*; `count`
//! - Boxes have the answers of their rows, and tell tables apart exactly where these do. —
//!   `laws::boxes_are_answers` · *answer*, *tell_apart*
//! - The differences of two tables are the boxes of what they answer differently, IPv4 first; too
//!   many pairs exactly where they are more than the limit. There is one such list at most, as of
//!   one family. — `differences`, `difference_count` · *ok*, *few*, *err*;
//!   `laws::differences_are_one` · *one*, *many*; `differences_are_boxes` · *none*, *first*,
//!   *fewest*
//! - The keys for which two tables hold what differs are given in order, each once, with what both
//!   hold, in one list, empty exactly where their rows are equal. — `RouteDifferences::of` · *are*;
//!   `laws::route_differences_are_one` · *one*, *none*
//! - Pairs have one canonical text for each body size, from 128 to 65,535 octets. —
//!   `laws::text_is_one`; `Body::new` · *fits*, *value*
//! - What a view sees of rows answers what it sees of their answers, so tables are the same under
//!   it exactly where what it sees of them is. The one that keeps all fields gives rows and octets
//!   as without. — `laws::canonical_octets_tell_answers_under` · *seen*, *rows*, *all*;
//!   `answers_are_seen`
#![tactic(auto)]

mod body;
mod canon;
mod comparison;
mod differing_routes;
mod every_difference;
mod grids;
pub mod laws;
mod normal_form;
mod packing;
mod pair_sink;
mod pairs;
mod routes;
mod text;
mod unpacked;
mod values;
mod verdict;

pub use body::Body;
pub use canon::{Canon, canonical, canonical_octets, canonical_pairs, pair_count};
pub use comparison::compare;
pub use differing_routes::RouteDifferences;
pub use every_difference::{Difference, difference_count, differences};
pub use normal_form::{normalise, normalise_under};
pub use pair_sink::PairSink;
pub use pairs::CanonicalPairs;
pub use routes::{normalise_routes, route_octets};
pub use verdict::Verdict;
