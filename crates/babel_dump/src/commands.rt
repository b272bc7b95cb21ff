//! The commands, a row for each.

/// The end of a help text: what has to be known, if anything, then the exit statuses, of which only
/// 0 and 1 differ from command to command, and examples.
macro_rules! after_help {
    ($($known:literal,)* examples: $($example:literal),+; $($status:literal),+) => {
        after_help!(
            refused: "a dump or a capture"; $($known,)* examples: $($example),+; $($status),+
        )
    };
    (
        refused: $refused:literal;
        $($known:literal,)*
        examples: $($example:literal),+;
        $($status:literal),+
    ) => {
        concat!(
            $($known, "\n",)*
            "Exit statuses:",
            $("\n  ", $status,)+
            "\n  2  the command line is wrong",
            "\n  3  ", $refused, " is refused",
            "\n  4  a file can't be opened, or a read or a write failed",
            "\n  5  out of memory",
            "\n  141  the reader of the output has closed the pipe",
            "\n\nExamples:"
            $(, "\n  babel-dump ", $example)+
        )
    };
}

pub(crate) const AFTER_HELP: &str = after_help!(
    "IPv4 routes with an IPv6 next hop (address encoding 4, AE 4 for short, RFC 9229) are read \
     with --v4-via-v6 alone. babeld sends them on links without IPv4 addresses. Without the \
     option they and their retractions are ignored and counted as unknown-encoding, so that an \
     answer for IPv4 can be missing or stale.\n",
    examples:
    "senders x.pcap",
    "show --from fe80::1 x.pcap",
    "lookup --from fe80::1 --to 10.1.2.3 x.pcap";
    "0  done; a lookup has a route; the compared dumps answer the same",
    "1  a lookup has no route: none or unreachable; the compared dumps differ; a capture has no \
     packets"
);

const AFTER_SHOW: &str = after_help!(
    examples:
    "show --from fe80::1 x.pcap",
    "show --hold --from fe80::1 x.pcap | grep -v unreachable",
    "show --quiet --match 10.1.2.3 --from fe80::1 x.pcap",
    "show --summary --from fe80::1 x.pcap",
    "show --until +30 --expiry 3.5 --from fe80::1 x.pcap",
    "show --origins x.pcap y.pcap";
    "0  done"
);

const AFTER_LOOKUP: &str = after_help!(
    examples:
    "lookup --from fe80::1 --to 10.1.2.3 x.pcap",
    "lookup --from 192.0.2.1 --to 10.1.2.3 --src 10.9.8.7 < x.dump",
    "lookup --from fe80::1 --each pairs.txt x.pcap";
    "0  each answer is a route",
    "1  an answer is none or unreachable"
);

const AFTER_NORMALISE: &str = after_help!(
    examples:
    "normalise --from fe80::1 --hex x.pcap",
    "normalise --from fe80::1 x.pcap | sha256sum";
    "0  done"
);

const AFTER_KEY: &str = after_help!(
    refused: "a dump or a capture";
    "Each line is the key, two blanks and the file, as sha256sum writes it. Keys of one --ignore \
     and one --hold are equal exactly if the answers are, or, with --routes, the routes. The \
     status is the greatest of all files. Without --from each sender in a capture has a line, with \
     its address and its place after the file; --interface keeps those at one place, and \
     --max-routes counts the routes of all.\n",
    examples:
    "key --from fe80::1 before.pcap now.pcap",
    "key --quiet x.pcap",
    "key --routes --ignore seqno --from fe80::1 x.pcap";
    "0  done"
);

const AFTER_PAIRS: &str = after_help!(
    examples:
    "pairs --from fe80::1 x.pcap",
    "pairs --count --from fe80::1 x.pcap";
    "0  done"
);

const AFTER_COMPARE: &str = after_help!(
    examples:
    "compare --from fe80::1 before.pcap now.pcap",
    "compare --all --from fe80::1 --other-from fe80::2 x.pcap x.pcap",
    "compare --ignore seqno,metric --from fe80::1 before.pcap now.pcap",
    "compare --routes --all --from fe80::1 before.pcap now.pcap";
    "0  every destination and source has the same answer, or, with --routes, no route differs",
    "1  at least one destination and source has a different answer, or one route differs"
);

const AFTER_DIFF: &str = after_help!(
    examples:
    "diff --from fe80::1 before.pcap now.pcap",
    "diff --stat --color auto --from fe80::1 before.pcap now.pcap",
    "diff --until +30 --other-until +60 --from fe80::1 x.pcap x.pcap",
    "diff --origins before-*.pcap --and now-*.pcap";
    "0  no route differs",
    "1  at least one route differs"
);

const AFTER_SENDERS: &str = after_help!(
    refused: "a capture";
    examples:
    "senders x.pcap",
    "senders --since +30 --json < x.pcap";
    "0  there are senders",
    "1  there are no senders"
);

const AFTER_LINKS: &str = after_help!(
    refused: "a capture";
    "Each packet has to have a time. What the neighbour says of the router is after back; infinite \
     is a cost that rules the link out, and - one that was not said, or has lapsed.\n",
    examples:
    "links x.pcap",
    "links --until +30 --expiry 6 x.pcap";
    "0  there are links",
    "1  there are no IHUs"
);

const AFTER_EXTRACT: &str = after_help!(
    refused: "a capture";
    examples:
    "extract --from fe80::1 --hex x.pcap",
    "extract --from fe80::1 x.pcap | babel-dump show --from fe80::1";
    "0  done",
    "1  there are no packets from the sender"
);

const AFTER_EVENTS: &str = after_help!(
    refused: "a capture";
    "Each packet has to have a time. Lines are printed as the capture is read, so that it can be \
     followed while it is recorded; after an error those before it stand.\n",
    examples:
    "events x.pcap",
    "events --expiry 3.5 --from fe80::1 x.pcap",
    "events --requests --from fe80::1 x.pcap",
    "events --to 10.1.2.3 --src 0.0.0.0 --json x.pcap";
    "0  done",
    "1  there are no Babel packets"
);

const AFTER_SELECT: &str = after_help!(
    refused: "a capture";
    "A row for each route that another sender announces at a place where the router ADDRESS sends: \
     its metric, what the link to the sender costs by both IHUs, and their sum, the total. What is \
     feasible follows from the router's own Updates, and what it announces itself is what it uses. \
     Its filters, hysteresis and own costs are not on the link. Each packet has to have a time.\n",
    examples:
    "select --at fe80::1 x.pcap",
    "select --at fe80::1 --to 10.1.2.3 --until +60 x.pcap",
    "select --at fe80::1 --cost fe80::2=96 --json x.pcap";
    "0  done; with --to, a route is used",
    "1  with --to: no route is used"
);

/// The commands, by the options that they have in common.
pub(crate) const ALL: [&str; 12] = [
    "show",
    "lookup",
    "normalise",
    "key",
    "pairs",
    "compare",
    "diff",
    "senders",
    "links",
    "extract",
    "events",
    "select",
];

/// Those that read dumps.
pub(crate) const OF_DUMPS: [&str; 7] = [
    "show",
    "lookup",
    "normalise",
    "key",
    "pairs",
    "compare",
    "diff",
];

/// Those that read two dumps.
pub(crate) const OF_TWO: [&str; 2] = ["compare", "diff"];

/// Those that take filters, of routes and of keys alone.
pub(crate) const FILTERED: [&str; 3] = ["show", "pairs", "events"];

pub(crate) const FILTERED_KEYS: [&str; 4] = ["show", "pairs", "events", "select"];

/// Those that read captures alone; and without limits on routes.
pub(crate) const OF_CAPTURES: [&str; 5] = ["senders", "links", "extract", "events", "select"];

pub(crate) const OF_OCTETS: [&str; 3] = ["senders", "links", "extract"];

/// Those that are of one sender, and those that may need its place.
pub(crate) const OF_SENDER: [&str; 2] = ["normalise", "extract"];

pub(crate) const AT_PLACE: [&str; 6] = ["show", "lookup", "normalise", "key", "pairs", "extract"];

/// A group of options of which one is given.
pub(crate) struct Group {
    pub id: &'static str,
    pub options: &'static [&'static str],
    /// Whether one has to be given.
    pub is_required: bool,
    /// Whether several may be given.
    pub is_multiple: bool,
}

/// A command, as help texts show it.
pub(crate) struct CommandRow {
    pub name: &'static str,
    pub about: &'static str,
    /// The end of its help text.
    pub after_help: &'static str,
    pub groups: &'static [Group],
}

/// The commands, in the order of help texts.
pub(crate) static COMMANDS: &[CommandRow] = &[
    CommandRow {
        name: "show",
        about: "Print the routes, the number of TLVs, and why TLVs were ignored",
        after_help: AFTER_SHOW,
        groups: &[],
    },
    CommandRow {
        name: "lookup",
        about: "Look up the route for a destination and a source",
        after_help: AFTER_LOOKUP,
        groups: &[Group {
            id: "asked",
            options: &["to", "each"],
            is_required: true,
            is_multiple: false,
        }],
    },
    CommandRow {
        name: "normalise",
        about: "Write the canonical octets, equal for inputs that answer alike",
        after_help: AFTER_NORMALISE,
        groups: &[],
    },
    CommandRow {
        name: "key",
        about: "Print the SHA-256 of the canonical octets of each file",
        after_help: AFTER_KEY,
        groups: &[],
    },
    CommandRow {
        name: "pairs",
        about: "Print the canonical pairs: the largest blocks that share one answer",
        after_help: AFTER_PAIRS,
        groups: &[],
    },
    CommandRow {
        name: "compare",
        about: "Print \"same\", or the lowest addresses for which two inputs differ",
        after_help: AFTER_COMPARE,
        groups: &[Group {
            id: "listed",
            options: &["all", "routes"],
            is_required: false,
            is_multiple: true,
        }],
    },
    CommandRow {
        name: "diff",
        about: "Print the routes that differ in two inputs: - is gone, + is new",
        after_help: AFTER_DIFF,
        groups: &[],
    },
    CommandRow {
        name: "senders",
        about: "List who sent Babel packets in a capture, where, and how much",
        after_help: AFTER_SENDERS,
        groups: &[],
    },
    CommandRow {
        name: "links",
        about: "List which neighbours each router in a capture hears, and at which cost",
        after_help: AFTER_LINKS,
        groups: &[],
    },
    CommandRow {
        name: "extract",
        about: "Write the dump of one sender of a capture (pcap, pcapng)",
        after_help: AFTER_EXTRACT,
        groups: &[],
    },
    CommandRow {
        name: "events",
        about: "Print what changed in a capture, and when",
        after_help: AFTER_EVENTS,
        groups: &[],
    },
    CommandRow {
        name: "select",
        about: "Print which routes a router uses, of those that its neighbours announce",
        after_help: AFTER_SELECT,
        groups: &[],
    },
];
