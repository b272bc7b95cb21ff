use crate::addr_pair::AddrPair;
use crate::factor::Factor;
use crate::filter::Filter;
use crate::format::Format;
use crate::job::DumpFile;
use babel_capture::{Moment, Place, Window};
use babel_prefix::Addr;
use babel_table::Limits;
use babel_tlv::View;

/// What `events` asks for: what changed of what the senders in a capture announce, and when.
#[derive(Drop)]
pub struct Events {
    /// The sender whose packets are heard: `--from`. None is for each.
    pub sender: Option<Addr>,
    /// The place at which they were captured: `--interface`. None is for each, by itself.
    pub place: Option<Place>,
    /// Which packets are read, by when they came: `--until`. It is never `Window::Whole`, since each
    /// packet is to have a time, and no packet is too early.
    pub window: Window,
    /// The moment from which on it is told what changed: `--since`. None is from the first packet
    /// on.
    pub since: Option<Moment>,
    /// Whether a capture that is cut short is read to its last whole record: `--accept-cut`.
    pub accept_cut: bool,
    /// Whether a datagram of which fragments are missing is left out: `--accept-missing`.
    pub accept_missing: bool,
    /// After how many times its Interval a row is gone: `--expiry`. None is where it is left out.
    pub expiry: Option<Factor>,
    /// How many rows the senders' tables have at most in all, and whether address encoding 4 is
    /// read: `--max-routes`, `--v4-via-v6`. Octets are not limited.
    pub limits: Limits,
    /// Which fields of what is announced count: those that `--ignore` does not name.
    pub view: View,
    /// The addresses of which the answer is told in place of the rows: `--to`, and `--src`, or else
    /// 0.0.0.0 or ::.
    pub pair: Option<AddrPair>,
    /// Whether `--src` is left out, so that it is noted who has routes for other sources.
    pub is_any_source: bool,
    /// Which changes are told: those for a key that it keeps, from or to the router-id that it asks
    /// for: `--within`, `--match`, `--source`, `--id`.
    pub filter: Filter,
    /// Whether it is told, too, what senders request: `--requests`.
    pub requests: bool,
    /// Whether no more is told from the first TLV on that is ignored, and the first datagram that is
    /// left out; and whether each sender has to have an Update: `--strict`.
    pub strict: bool,
    pub format: Format,
    pub file: DumpFile,
    /// Whether no note comes after the lines: `--quiet`.
    pub quiet: bool,
}
