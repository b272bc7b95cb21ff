//! What senders hold, and how it changes: it is given what each says and when (RFC 8966, 4.6.9),
//! and tells what is announced, changed and retracted, and what expires (RFC 8966, appendix B).
//!
//! Of a `Timeline` a caller first takes what has expired by a time, and then gives what was said at
//! that time. A `Teller` does both of packets, and tells what a view sees of it, or what is
//! answered for two addresses. The crate knows nothing of captures or of text.
//!
//! What it promises the crates above, each with its contract as docs/PROMISES.md has them:
//!
//! - So it is from nothing on, where times do not run backwards and what ends by a time is told
//!   before what is said then; each call keeps it. — `laws::accounts_are_kept` · *begun*,
//!   *announcing*, *retracting*, *silence*, *expiring*; `accounts_are_kept_by_wildcards` · *begun*,
//!   *each*, *ended*
//! - An announcement, a retraction, a wildcard (by key) and the end of a row (by time, key, sender)
//!   change the rows, and are told, as stated. — `Timeline::announce` · *ok*, *told*; `retract` ·
//!   *rows*, *told*; `retract_next`, `expire_next` · *none*, *first*, *told*, *rows*
//! - There are at most so many rows: only one more is refused for it, and changes nothing. —
//!   `Timeline::are_few`; `announce` · *refused*, *err*
//! - A sender's last row up to a key is found, with its key, or there is none. — `Timeline::last_of`
//! - A packet that is heard is TLVs to its end, and with what they say, as the view sees it, and
//!   what expires by its time, the changes account for all again. — `Teller::hear` · *ok*
//!   (`Hears`); `expire` · *ok*, *last*
//! - A packet changes its sender's report alone, which counts the TLVs of the packets heard of it
//!   as that of a dump of these packets does. — `Teller::hear` · *counts* (`CountsPacket`);
//!   `Teller::report`
//! - What a packet requests is told, in the order of its TLVs. — `tell_requests`
//! - A sender is silent once 3.5 times the Interval of its last multicast Hello has passed since
//!   then (RFC 8966, 3.4.1): each that falls silent by a time is told, once, in order; and its next
//!   such Hello ends it. — `laws::silent_are_told` · *begun*, *hello*, *silence*, *told*;
//!   `Watch::fall_silent` · *none*, *first*; `hear` · *returns*, *taken*
//! - It is told with how many rows the sender has, once all that ends by then is told. —
//!   `Teller::hear`, `expire` · *holding* (`TellsCounts`)
#![tactic(auto)]

mod asked;
mod best_match;
mod cells;
mod change;
mod entry;
mod heard;
mod interest;
pub mod laws;
mod queue;
mod requests;
mod row;
mod sender;
mod subject;
mod teller;
mod telling;
mod timeline;
mod watch;

pub use best_match::BestMatch;
pub use change::{Change, ChangeKind};
pub use requests::{tell_requests, unicast};
pub use row::Row;
pub use sender::Sender;
pub use subject::Subject;
pub use teller::Teller;
pub use telling::Telling;
pub use timeline::Timeline;
pub use watch::{Silence, Watch};
