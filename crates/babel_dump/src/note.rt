//! What there is to know after the output: a value, which standard error has as a line, and the
//! output as a JSON object.
use crate::ignored_note::IgnoredNote;
use crate::left_out::LeftOutNote;
use crate::run_fault::Side;
use crate::spelling::Spelling;
use babel_prefix::{Addr, Short};
use std::fmt;

/// What is said of frames of Linux cooked, version 1.
const COOKED: &str =
    "frames of Linux cooked, version 1, name no interface, so links can't be told apart; record \
     with -y LINUX_SLL2, or, where a link has VLAN tags, on its interface";

/// What there is to know of an input after the output. `Display` gives its words.
#[derive(Clone, Copy)]
pub enum Note {
    /// TLVs of a dump were ignored.
    Ignored(IgnoredNote),
    /// Datagrams of a capture were left out.
    LeftOut(LeftOutNote),
    /// Babel packets came in frames that name no interface: of Linux cooked, version 1.
    Cooked,
    /// Babel packets came in so many sections of a capture, each of which describes its interfaces
    /// anew.
    Sections(u64),
    /// So many packets have octets after the body, as the trailer of RFC 8967, 3.
    Trailers(u64),
    /// A capture is cut short at this offset, and was read up to there.
    CaptureCut(u64),
    /// So many frames were too short to tell whether they had a datagram of Babel.
    TooShort(u64),
    /// Times run backwards at the packet with this number.
    Backwards(u64),
    /// The packet with this number is the first of a sender that is not followed.
    NotFollowed(u64),
    /// What was read of a capture spans so many hundredths of a second, which is less than the
    /// greatest Interval of an Update that announces.
    ShortSpan {
        span: u64,
        interval: u16,
    },
    /// So many rows of a table were not announced again within 3.5 times their Interval, and are in
    /// it all the same.
    Expired(u64),
    /// A dump has no Update.
    NoUpdates,
    /// No IHU in a capture names a neighbour.
    NoIhus,
    /// So many routes differ of two dumps that answer the same.
    RoutesDiffer(u64),
    /// A lookup was for this source, which is written so, and routes to its destination are
    /// source-specific.
    Source(Spelling, Addr),
    /// The router with this address, which is written so, announced so many of these keys, by which
    /// it is told what is feasible.
    Feasibility {
        spelling: Spelling,
        address: Addr,
        announced: u64,
        keys: u64,
    },
    /// So many keys have several routes of the least metric.
    Ties(u64),
}

impl fmt::Display for Note {
    fn fmt<W: fmt::Write>(&self, f: &mut fmt::Formatter<W>) -> fmt::Result {
        match self {
            Note::Ignored(note) => write!(f, "{note}"),
            Note::LeftOut(note) => write!(f, "{note}"),
            Note::Cooked => f.write_str(COOKED),
            Note::Sections(sections) => write!(
                f,
                "{sections} sections; the interfaces of each are others: mergecap makes them one"
            ),
            Note::Trailers(packets) => write_trailers(f, *packets),
            Note::CaptureCut(at) => write!(f, "capture cut short at {at}, and read up to there"),
            Note::TooShort(1) => f.write_str("1 frame too short to tell"),
            Note::TooShort(frames) => write!(f, "{frames} frames too short to tell"),
            Note::Backwards(packet) => write!(f, "times run backwards at packet {packet}"),
            Note::NotFollowed(packet) => {
                write!(
                    f,
                    "too many senders at packet {packet}, and not all are followed"
                )
            }
            Note::ShortSpan { span, interval } => write_short_span(f, *span, *interval),
            Note::Expired(routes) => write_expired(f, *routes),
            Note::NoUpdates => f.write_str("no Updates"),
            Note::NoIhus => f.write_str("no IHUs"),
            Note::RoutesDiffer(routes) => write_routes_differ(f, *routes),
            Note::Source(Spelling::Long, source) => write_source(f, source),
            Note::Source(Spelling::Short, source) => write_source(f, &Short(*source)),
            Note::Feasibility {
                spelling,
                address,
                announced,
                keys,
            } => match spelling {
                Spelling::Long => write_feasibility(f, address, *announced, *keys),
                Spelling::Short => write_feasibility(f, &Short(*address), *announced, *keys),
            },
            Note::Ties(1) => f.write_str("1 key has several routes of the least total"),
            Note::Ties(keys) => write!(f, "{keys} keys have several routes of the least total"),
        }
    }
}

/// Hundredths of a second, in seconds, without zeros at the end.
#[derive(Clone, Copy)]
struct Hundredths(u64);

impl fmt::Display for Hundredths {
    fn fmt<W: fmt::Write>(&self, f: &mut fmt::Formatter<W>) -> fmt::Result {
        let (seconds, rest) = (self.0 / 100, self.0 % 100);
        let (tenths, hundredths) = (rest / 10, rest % 10);
        match (tenths, hundredths) {
            (0, 0) => write!(f, "{seconds}"),
            (_, 0) => write!(f, "{seconds}.{tenths}"),
            _ => write!(f, "{seconds}.{tenths}{hundredths}"),
        }
    }
}

/// Writes that a capture spans less than an Interval, both in hundredths of a second.
fn write_short_span<W: fmt::Write>(
    f: &mut fmt::Formatter<W>,
    span: u64,
    interval: u16,
) -> fmt::Result {
    write!(
        f,
        "the capture spans {} s, the Interval is {} s: routes may be missing",
        Hundredths(span),
        Hundredths(u64::from(interval))
    )
}

/// Writes how many packets have octets after their bodies.
fn write_trailers<W: fmt::Write>(f: &mut fmt::Formatter<W>, packets: u64) -> fmt::Result {
    if packets == 1 {
        return f.write_str(
            "1 packet has octets after its body; authentication (RFC 8967) is not checked",
        );
    }
    write!(
        f,
        "{packets} packets have octets after their bodies; authentication (RFC 8967) is not checked"
    )
}

/// Writes how many routes were not announced again in time.
fn write_expired<W: fmt::Write>(f: &mut fmt::Formatter<W>, routes: u64) -> fmt::Result {
    if routes == 1 {
        return f.write_str(
            "1 route was not announced again within 3.5 times its Interval; --expiry 3.5 leaves it \
             out",
        );
    }
    write!(
        f,
        "{routes} routes were not announced again within 3.5 times their Interval; --expiry 3.5 \
         leaves them out"
    )
}

/// Writes how many routes differ of two dumps that answer the same.
fn write_routes_differ<W: fmt::Write>(f: &mut fmt::Formatter<W>, routes: u64) -> fmt::Result {
    let differ = if routes == 1 {
        "route differs"
    } else {
        "routes differ"
    };
    write!(
        f,
        "the same answers, but {routes} {differ}; compare --routes shows it"
    )
}

/// Writes which source an answer is for.
fn write_source<A: fmt::Display, W: fmt::Write>(
    f: &mut fmt::Formatter<W>,
    source: &A,
) -> fmt::Result {
    write!(
        f,
        "the answer is for the source {source}; routes to it are source-specific"
    )
}

/// Writes of how many keys it is known what is feasible.
fn write_feasibility<A: fmt::Display, W: fmt::Write>(
    f: &mut fmt::Formatter<W>,
    address: &A,
    announced: u64,
    keys: u64,
) -> fmt::Result {
    let of = if keys == 1 { "key" } else { "keys" };
    write!(
        f,
        "{address} announced {announced} of {keys} {of}: the others count as feasible"
    )
}

/// A note, and the input that it is about; that is the first if it is about both. `Display` gives
/// its line on standard error.
#[derive(Clone, Copy)]
pub struct SideNote {
    pub side: Side,
    pub note: Note,
}

impl fmt::Display for SideNote {
    fn fmt<W: fmt::Write>(&self, f: &mut fmt::Formatter<W>) -> fmt::Result {
        write!(f, "note: {}{}", self.side, self.note)
    }
}
