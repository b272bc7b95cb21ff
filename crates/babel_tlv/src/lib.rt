//! Babel packets, RFC 8966, RFC 9079 and RFC 9229: their framing and TLVs, the parser state, what
//! each TLV says of routes, and the octets that say one route.
//!
//! The crate reads octets that are in memory and keeps nothing of them but a parser state of a few
//! addresses; no call takes memory. The faults of dumps are here, too, since later crates share
//! them. It knows nothing of how rows are kept, of files, or of where a packet came from.
//!
//! What it promises the crates above, each with its contract as docs/PROMISES.md has them:
//!
//! - A whole packet, less than one, a wrong magic and a wrong version are told apart. — `frame`
//! - A body is accepted exactly if it is TLVs to its end; else the first place without one is
//!   named. So are the octets after some TLVs. — `check_body`; `check_rest`
//! - Its TLVs come in order, each once, with their offsets. — `Tlvs::new`, `advance`, `Tlvs` as an
//!   iterator
//! - A packet starts with the stated parser state. — `State::at`, `new`
//! - A key has two prefixes of one family; an announcement has no reserved router-id and no
//!   infinite metric. These, and held values, have orders as addresses have. — `Key::new`,
//!   `Ann::new` · *fits*, *value*; `laws::key_order`, `announcement_order`, `held_order`,
//!   `orders_are_total`, `equal_are_one`
//! - A pair's group is the stated octets after the pairs of its packet so far, at most 96 (79 by
//!   its TLVs' lengths); what is being written then stands for these and the pair. —
//!   `Writing::new`; `put_group` · *behind*, *after*, *few*
//! - A request is read as stated; a written one is read back. — `Request::read`;
//!   `laws::requests_are_read`
//! - A view sees a stated value for each field that it ignores, two values of keys of one family as
//!   equal exactly where they are the same under it, and what it saw as it is. The one that keeps
//!   all fields changes nothing. — `View::seen`, `all`; `laws::views_tell`
#![tactic(auto)]

mod address;
mod ann;
mod encoding;
mod event;
mod event_kind;
mod fault;
mod framing;
mod group;
mod held;
mod hello;
mod ihu;
mod key;
pub mod laws;
mod mode;
mod next_hop;
mod octets;
mod packet;
mod per_encoding;
mod per_family;
mod place;
mod prefix_encoding;
mod reason;
mod request;
mod route;
mod router_id;
mod start;
mod state;
mod step;
mod sub_tlv;
mod tlv;
mod tlvs;
mod update;
mod view;
mod wire;
mod writing;

pub use ann::Ann;
pub use event::Event;
pub use event_kind::EventKind;
pub use fault::Fault;
pub use framing::frame;
pub use group::put_group;
pub use held::Held;
pub use hello::Hello;
pub use ihu::Ihu;
pub use key::Key;
pub use mode::Mode;
pub use packet::Frame;
pub use reason::Reason;
pub use request::Request;
pub use route::Route;
pub use start::Start;
pub use state::State;
pub use tlv::{Tlv, check_body};
pub use tlvs::Tlvs;
pub use view::View;
pub use wire::{MAGIC, UPDATE, VERSION};
pub use writing::Writing;
