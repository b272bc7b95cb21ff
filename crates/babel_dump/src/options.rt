//! The options and arguments of the commands, a row for each.

use crate::commands::{
    ALL, AT_PLACE, FILTERED, FILTERED_KEYS, OF_CAPTURES, OF_DUMPS, OF_OCTETS, OF_SENDER, OF_TWO,
};

/// What stands on the command line.
#[derive(Clone, Copy)]
pub(crate) enum Takes {
    /// An option that no value follows.
    Nothing,
    /// An option that is given once at most, with a value that help texts call so.
    Word(&'static str),
    /// An option that may be given several times, with such a value.
    Words(&'static str),
    /// An option that has all words after it, up to the next option, as such values.
    Following(&'static str),
    /// An option that is given once at most, with a number from the first to the second of these.
    Number(&'static str, i64, i64),
    /// An option with one of these words, of which the last one given counts.
    OneOf(&'static str, &'static [&'static str]),
    /// An argument that help texts call so.
    File(&'static str),
    /// Any number of such arguments.
    Files(&'static str),
}

/// An option, or an argument, as some commands have it.
#[derive(Clone, Copy)]
pub(crate) struct OptionRow {
    /// Its name, without hyphens.
    pub id: &'static str,
    pub takes: Takes,
    /// What help texts say of it.
    pub help: &'static str,
    /// The commands that have it so.
    pub commands: &'static [&'static str],
    pub is_required: bool,
    /// The option without which it is required, if it is not always.
    pub unless: Option<&'static str>,
    /// The options that it is not given with.
    pub conflicts: &'static [&'static str],
    /// The option or the group that it is given with.
    pub needs: Option<&'static str>,
}

impl OptionRow {
    /// Whether this command has it.
    pub(crate) fn is_of(&self, command: &str) -> bool {
        self.commands.iter().any(|name| *name == command)
    }

    /// Whether it is an option with a value that is given once at most.
    pub(crate) fn is_once(&self) -> bool {
        matches!(self.takes, Takes::Word(_) | Takes::Number(..))
    }

    /// Whether it is an argument, and no option.
    pub(crate) fn is_argument(&self) -> bool {
        matches!(self.takes, Takes::File(_) | Takes::Files(_))
    }
}

/// The most routes for which the least limit on octets, 83 for each, is a number of 32 bits.
const MOST_ROUTES: i64 = 51_746_593;

/// The most octets that a limit may be.
const MOST_OCTETS: i64 = 4_294_967_295;

/// What most rows are: an option that no value follows.
const FLAG: OptionRow = OptionRow {
    id: "",
    takes: Takes::Nothing,
    help: "",
    commands: &[],
    is_required: false,
    unless: None,
    conflicts: &[],
    needs: None,
};

const FROM: OptionRow = OptionRow {
    id: "from",
    takes: Takes::Word("ADDRESS"),
    help: "The source address of the packets; if omitted, that of the one sender that announces in \
           a capture",
    commands: &OF_SENDER,
    ..FLAG
};

const INTERFACE: OptionRow = OptionRow {
    id: "interface",
    takes: Takes::Word("INTERFACE"),
    help: "The place in a capture: the interface, as 1, with its link and VLANs if there are any, \
           as 1/3, 1:10 or 1/3:10.20; required if the sender appears at several",
    commands: &AT_PLACE,
    ..FLAG
};

const HEX: OptionRow = OptionRow {
    id: "hex",
    help: "Write the octets as lower-case hexadecimal digits on one line",
    commands: &["normalise"],
    ..FLAG
};

const EXPIRY: OptionRow = OptionRow {
    id: "expiry",
    takes: Takes::Word("FACTOR"),
    help: "Leave out what was not announced again within FACTOR times its Interval, at --until or \
           else at the end of a capture; 3.5 in RFC 8966, appendix B, and BIRD, 6 in babeld 1.12",
    commands: &OF_DUMPS,
    ..FLAG
};

const IGNORE: OptionRow = OptionRow {
    id: "ignore",
    takes: Takes::Words("LIST"),
    help: "Fields of a route that do not count: next-hop, router-id, seqno, metric, separated by \
           commas; may be repeated",
    commands: &["normalise", "key", "pairs", "compare", "diff"],
    ..FLAG
};

const MAX_ROUTES: OptionRow = OptionRow {
    id: "max-routes",
    takes: Takes::Number("ROUTES", 1, MOST_ROUTES),
    help: "How many routes, and how many canonical pairs or differences, there may be, at most \
           51746593 [default: 262144]",
    commands: &OF_DUMPS,
    ..FLAG
};

const MAX_OCTETS: OptionRow = OptionRow {
    id: "max-octets",
    takes: Takes::Number("OCTETS", 1, MOST_OCTETS),
    help: "How many octets a dump may have, also one in a capture [default: 33554432, or 83 for \
           each of the routes if that is more]",
    commands: &OF_DUMPS,
    ..FLAG
};

const SINCE: OptionRow = OptionRow {
    id: "since",
    takes: Takes::Word("TIME"),
    help: "Skip what a capture has before TIME: a time with an offset, as 2026-11-25T13:30:22Z, \
           seconds since 1970, as @1764077422.5, or seconds since the first record, as +90",
    commands: &OF_DUMPS,
    ..FLAG
};

const UNTIL: OptionRow = OptionRow {
    id: "until",
    takes: Takes::Word("TIME"),
    help: "Skip what a capture has after TIME",
    commands: &ALL,
    ..FLAG
};

const QUIET: OptionRow = OptionRow {
    id: "quiet",
    help: "Suppress the notes on standard error, and, of show, what comes after the routes",
    commands: &OF_DUMPS,
    ..FLAG
};

const STRICT: OptionRow = OptionRow {
    id: "strict",
    help: "Reject a dump in which any TLV was ignored or a datagram left out, or that has no \
           Update",
    commands: &["lookup", "normalise", "key", "pairs", "compare", "diff"],
    ..FLAG
};

const JSON: OptionRow = OptionRow {
    id: "json",
    help: "Print one JSON object per line",
    commands: &[
        "show", "lookup", "key", "pairs", "compare", "diff", "senders", "links",
    ],
    ..FLAG
};

const ROUTES: OptionRow = OptionRow {
    id: "routes",
    help: "Write the octets of the routes, not of the answers",
    commands: &["normalise"],
    ..FLAG
};

const TO: OptionRow = OptionRow {
    id: "to",
    takes: Takes::Word("ADDRESS"),
    help: "The destination to look up",
    commands: &["lookup"],
    ..FLAG
};

const SRC: OptionRow = OptionRow {
    id: "src",
    takes: Takes::Word("ADDRESS"),
    help: "The source to look up, of the destination's family [default: 0.0.0.0 or ::]",
    commands: &["lookup"],
    ..FLAG
};

const WITHIN: OptionRow = OptionRow {
    id: "within",
    takes: Takes::Word("PREFIX"),
    help: "Only destinations that are PREFIX or inside it",
    commands: &FILTERED_KEYS,
    ..FLAG
};

const MATCH: OptionRow = OptionRow {
    id: "match",
    help: "Only destinations that contain PREFIX, which may be an address",
    ..WITHIN
};

const SOURCE: OptionRow = OptionRow {
    id: "source",
    help: "Only sources that are exactly PREFIX",
    ..WITHIN
};

const ID: OptionRow = OptionRow {
    id: "id",
    takes: Takes::Word("ROUTERID"),
    help: "Only routes with this router-id: 16 hexadecimal digits, or with colons as babeld \
           writes it",
    commands: &FILTERED,
    ..WITHIN
};

const FILE: OptionRow = OptionRow {
    id: "file",
    takes: Takes::File("FILE"),
    help: "The dump, or the capture that has it; standard input if omitted or -",
    commands: &["show", "lookup", "normalise", "pairs"],
    ..FLAG
};

const OTHER: OptionRow = OptionRow {
    id: "other",
    takes: Takes::File("OTHER"),
    help: "The other dump, or the capture that has it; - is standard input",
    commands: &["compare"],
    is_required: true,
    ..FLAG
};

const MORE: OptionRow = OptionRow {
    id: "more",
    takes: Takes::Files("MORE"),
    help: "With --origins: more captures, each read by itself",
    commands: &["show"],
    ..FLAG
};

/// Whose packets are read, and where. A command has its options in the order of this list and of
/// those below.
pub(crate) static SENT: &[OptionRow] = &[
    FROM,
    OptionRow {
        help: "The source address of the packets; if omitted, that of the one sender that \
               announces in a capture, or, with --count, each sender is reported",
        commands: &["pairs"],
        ..FROM
    },
    OptionRow {
        help: "The source address of the packets; if omitted, each sender in a capture is reported",
        commands: &["show", "lookup"],
        ..FROM
    },
    OptionRow {
        help: "The source address of the packets; if omitted, each sender in a capture has a key",
        commands: &["key"],
        ..FROM
    },
    OptionRow {
        help: "The address that the packets of FILE were sent from; if omitted, the senders of \
               two captures are compared",
        commands: &OF_TWO,
        ..FROM
    },
    OptionRow {
        help: "The source address of the packets; if omitted, each sender is reported",
        commands: &["events"],
        ..FROM
    },
    OptionRow {
        id: "other-from",
        help: "The address that the packets of OTHER were sent from [default: that of --from]",
        commands: &OF_TWO,
        needs: Some("from"),
        ..FROM
    },
    INTERFACE,
    OptionRow {
        help: "The place in FILE, if it is a capture: the interface, with its link and VLANs, as \
               senders lists it",
        commands: &OF_TWO,
        ..INTERFACE
    },
    OptionRow {
        help: "The place in the capture: the interface, with its link and VLANs, as senders lists \
               it; if omitted, each place is reported separately",
        commands: &["links", "events"],
        ..INTERFACE
    },
    OptionRow {
        id: "at",
        takes: Takes::Words("ADDRESS"),
        help: "An address of the router that selects; once for each of its links",
        commands: &["select"],
        is_required: true,
        ..FLAG
    },
    OptionRow {
        help: "The place in the capture: the interface, with its link and VLANs, as senders lists \
               it; if omitted, each at which the router sends",
        commands: &["select"],
        ..INTERFACE
    },
    OptionRow {
        id: "other-interface",
        help: "The same for OTHER, if it is a capture",
        commands: &OF_TWO,
        ..INTERFACE
    },
];

/// How these are read.
pub(crate) static READ: &[OptionRow] = &[
    OptionRow {
        commands: &["extract"],
        ..HEX
    },
    SINCE,
    OptionRow {
        commands: &["senders", "links", "extract", "select"],
        ..SINCE
    },
    OptionRow {
        help: "Print what changed at TIME or later, having read what came before: a time with an \
               offset, as 2026-11-25T13:30:22Z, seconds since 1970, as @1764077422.5, or seconds \
               since the first record, as +90",
        commands: &["events"],
        ..SINCE
    },
    UNTIL,
    EXPIRY,
    OptionRow {
        help: "Also report routes that expire, not announced again within FACTOR times their \
               Interval; 3.5 in RFC 8966, appendix B, and BIRD, 6 in babeld 1.12",
        commands: &["events"],
        ..EXPIRY
    },
    OptionRow {
        help: "Leave out what an IHU said FACTOR times its Interval ago, at --until or else at the \
               end; 3.5 in RFC 8966, appendix B [default: 3.5]",
        commands: &["links"],
        ..EXPIRY
    },
    OptionRow {
        help: "What was not announced or said again within FACTOR times its Interval counts no more \
               [default: 3.5, as in RFC 8966, appendix B, and BIRD; 6 in babeld 1.12]",
        commands: &["select"],
        ..EXPIRY
    },
    OptionRow {
        id: "hold",
        help: "Keep a retracted route as unreachable, so that no less specific route takes its \
               place",
        commands: &OF_DUMPS,
        ..FLAG
    },
    OptionRow {
        commands: &["events"],
        ..IGNORE
    },
    OptionRow {
        help: "Report changes of the answer for this destination, instead of route changes",
        commands: &["events"],
        ..TO
    },
    OptionRow {
        help: "The source of that answer, of the destination's family [default: 0.0.0.0 or ::]",
        commands: &["events"],
        needs: Some("to"),
        ..SRC
    },
    OptionRow {
        help: "Only the routes that decide what is used for this destination",
        commands: &["select"],
        ..TO
    },
    OptionRow {
        help: "The source besides, of the destination's family [default: 0.0.0.0 or ::]",
        commands: &["select"],
        needs: Some("to"),
        ..SRC
    },
    OptionRow {
        id: "etx",
        help: "Links cost what ETX says, as on radio, and not 2-out-of-3 (RFC 8966, appendix A.2)",
        commands: &["select"],
        ..FLAG
    },
    OptionRow {
        id: "cost",
        takes: Takes::Words("ADDRESS=COST"),
        help: "State what the link to the sender ADDRESS costs, from 1 to 65535, which is infinite; \
               may be repeated",
        commands: &["select"],
        ..FLAG
    },
    OptionRow {
        id: "requests",
        help: "Also report the requests of each sender for routes",
        commands: &["events"],
        ..FLAG
    },
    OptionRow {
        help: "Reject a capture if any datagram is left out",
        commands: &["senders", "extract"],
        ..STRICT
    },
    OptionRow {
        help: "Reject a capture if any datagram is left out, or a TLV of a sender that counts is \
               ignored",
        commands: &["select"],
        ..STRICT
    },
    OptionRow {
        help: "Stop with an error at the first ignored TLV or left-out datagram, or, at the end, if \
               a sender has no Update",
        commands: &["events"],
        ..STRICT
    },
    OptionRow {
        id: "v4-via-v6",
        help: "Read IPv4 routes with an IPv6 next hop (address encoding 4, RFC 9229)",
        commands: &[
            "show",
            "lookup",
            "normalise",
            "key",
            "pairs",
            "compare",
            "diff",
            "events",
            "select",
        ],
        ..FLAG
    },
    QUIET,
    OptionRow {
        id: "accept-cut",
        help: "Read a truncated capture up to its last complete record",
        commands: &ALL,
        ..FLAG
    },
    OptionRow {
        id: "accept-missing",
        help: "Leave out datagrams of which fragments are missing",
        commands: &[
            "show",
            "lookup",
            "normalise",
            "key",
            "pairs",
            "compare",
            "diff",
            "links",
            "extract",
            "events",
            "select",
        ],
        ..FLAG
    },
    MAX_ROUTES,
    OptionRow {
        help: "How many routes there may be, of all senders together [default: 262144]",
        commands: &["events"],
        ..MAX_ROUTES
    },
    OptionRow {
        help: "How many routes there may be, of all senders that count, and entries of the source \
               table together [default: 262144]",
        commands: &["select"],
        ..MAX_ROUTES
    },
    OptionRow {
        commands: &["events", "select"],
        ..JSON
    },
    OptionRow {
        help: "Suppress the notes on standard error",
        commands: &OF_CAPTURES,
        ..QUIET
    },
    MAX_OCTETS,
    OptionRow {
        help: "How many octets the capture may have [default: 1073741824]",
        commands: &OF_OCTETS,
        ..MAX_OCTETS
    },
];

/// What is read of the other input, and what of both counts.
pub(crate) static KEPT: &[OptionRow] = &[
    OptionRow {
        id: "other-since",
        help: "The same for OTHER [default: that of --since]",
        commands: &OF_TWO,
        ..SINCE
    },
    OptionRow {
        id: "other-until",
        help: "The same for OTHER [default: that of --until]",
        commands: &OF_TWO,
        ..UNTIL
    },
    WITHIN,
    OptionRow {
        help: "With --origins: only destinations that are PREFIX or inside it",
        commands: &["diff"],
        needs: Some("origins"),
        ..WITHIN
    },
    MATCH,
    OptionRow {
        help: "With --origins: only destinations that contain PREFIX, which may be an address",
        commands: &["diff"],
        needs: Some("origins"),
        ..MATCH
    },
    SOURCE,
    OptionRow {
        help: "With --origins: only sources that are exactly PREFIX",
        commands: &["diff"],
        needs: Some("origins"),
        ..SOURCE
    },
    ID,
    OptionRow {
        help: "With --origins: only this router-id: 16 hexadecimal digits, or with colons as \
               babeld writes it",
        commands: &["diff"],
        needs: Some("origins"),
        ..ID
    },
    STRICT,
    IGNORE,
    ROUTES,
    OptionRow {
        help: "Make the keys of the routes, not of the answers",
        commands: &["key"],
        ..ROUTES
    },
    OptionRow {
        help: "Print the routes, a line for each, in place of the pairs",
        commands: &["pairs"],
        ..ROUTES
    },
];

/// What is printed.
pub(crate) static PRINTED: &[OptionRow] = &[
    OptionRow {
        id: "body",
        takes: Takes::Number("OCTETS", 128, 65_535),
        help: "How long the body of a packet may be, from 128 to 65535 octets [default: 1024]",
        commands: &["normalise"],
        ..FLAG
    },
    HEX,
    OptionRow {
        id: "summary",
        help: "Print only how many routes, router-ids and next hops there are",
        commands: &["show"],
        ..FLAG
    },
    OptionRow {
        id: "origins",
        help: "Print who originates what: for each destination, source and router-id the least \
               metric over all senders in the captures, and how many announce it",
        commands: &["show"],
        conflicts: &["from", "hold", "summary"],
        ..FLAG
    },
    OptionRow {
        id: "origins",
        help: "Compare who originates what in two captures: for each destination, source and \
               router-id the least metric over all senders",
        commands: &["diff"],
        conflicts: &["from", "hold"],
        ..FLAG
    },
    OptionRow {
        id: "and",
        takes: Takes::Following("FILE"),
        help: "With --origins: the captures that are compared with all those before this option, \
               each read by itself",
        commands: &["diff"],
        needs: Some("origins"),
        ..FLAG
    },
    OptionRow {
        id: "stat",
        help: "Print a last line: how many routes are gone, new, changed, and alike",
        commands: &["diff"],
        ..FLAG
    },
    OptionRow {
        id: "color",
        takes: Takes::OneOf("WHEN", &["auto", "always", "never"]),
        help: "When to colour routes; auto: only on a terminal [default: never]",
        commands: &["diff"],
        ..FLAG
    },
    JSON,
    OptionRow {
        id: "names",
        takes: Takes::Word("FILE"),
        help: "Print the names that the lines of FILE give addresses and router-ids, as \
               'fe80::1 b1', after senders, next hops and router-ids",
        commands: &["show", "lookup", "pairs", "compare", "diff", "events"],
        ..FLAG
    },
    OptionRow {
        id: "short",
        help: "Write addresses as RFC 5952 does, fe80::1, and leave out a source prefix of length \
               0",
        commands: &[
            "show", "lookup", "pairs", "compare", "diff", "senders", "links", "events", "select",
        ],
        ..FLAG
    },
    OptionRow {
        help: "Compare the routes, not the answers",
        commands: &["compare"],
        ..ROUTES
    },
    OptionRow {
        id: "all",
        help: "List every largest block of destinations and sources on which the inputs differ, \
               or, with --routes, every route",
        commands: &["compare"],
        ..FLAG
    },
    OptionRow {
        id: "count",
        help: "With --all or --routes: print only how many such blocks, or routes, there are",
        commands: &["compare"],
        needs: Some("listed"),
        ..FLAG
    },
    OptionRow {
        id: "count",
        help: "Print only how many rows and how many canonical pairs there are",
        commands: &["pairs"],
        ..FLAG
    },
    OptionRow {
        id: "with-prefix",
        help: "Print the route that answers, with its destination and source prefixes",
        commands: &["lookup"],
        ..FLAG
    },
];

/// What is asked, and the inputs.
pub(crate) static ASKED: &[OptionRow] = &[
    TO,
    SRC,
    OptionRow {
        id: "each",
        takes: Takes::Word("PAIRS"),
        help: "Look up each destination and source in the file PAIRS (- for standard input) \
               instead of --to and --src",
        commands: &["lookup"],
        conflicts: &["to", "src"],
        ..FLAG
    },
    FILE,
    OptionRow {
        takes: Takes::Files("FILE"),
        help: "The dumps, or the captures that have them; standard input if omitted or -",
        commands: &["key"],
        ..FILE
    },
    OptionRow {
        help: "The first dump, or the capture that has it; - is standard input",
        commands: &OF_TWO,
        is_required: true,
        ..FILE
    },
    OTHER,
    OptionRow {
        help: "The other dump, or the capture that has it; - is standard input; with --and one more \
               capture that counts with FILE",
        commands: &["diff"],
        is_required: false,
        unless: Some("and"),
        ..OTHER
    },
    MORE,
    OptionRow {
        help: "With --and: more captures that count with FILE",
        commands: &["diff"],
        needs: Some("and"),
        ..MORE
    },
    OptionRow {
        takes: Takes::File("CAPTURE"),
        help: "The capture; standard input if omitted or -",
        commands: &OF_CAPTURES,
        ..FILE
    },
];

/// Whether a command has an option of this name.
pub(crate) fn has_option(command: &str, name: &str) -> bool {
    has(SENT, command, name)
        || has(READ, command, name)
        || has(KEPT, command, name)
        || has(PRINTED, command, name)
        || has(ASKED, command, name)
}

/// Whether a command has an option of this name in a list.
fn has(rows: &[OptionRow], command: &str, name: &str) -> bool {
    rows.iter().any(|row| row.id == name && row.is_of(command) && !row.is_argument())
}
