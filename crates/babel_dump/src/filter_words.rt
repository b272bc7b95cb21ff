//! The words of `--within`, `--match`, `--source` and `--id`.
use crate::filter::Filter;
use crate::given_words::GivenWords;
use crate::router_word::parse_router_id;
use babel_prefix::{Prefix, parse_addr};

/// The filter that a command's words ask for.
pub(crate) fn filter(given: &mut GivenWords<'_, '_>) -> Filter {
    let filter = keys_filter(given);
    Filter {
        router_id: router_id(given),
        ..filter
    }
}

/// The filter of keys that a command's words ask for.
pub(crate) fn keys_filter(given: &mut GivenWords<'_, '_>) -> Filter {
    Filter {
        within: prefix(given, "within"),
        matching: prefix(given, "match"),
        source: prefix(given, "source"),
        router_id: None,
    }
}

/// The prefix that an option has, where it is given.
fn prefix(given: &mut GivenWords<'_, '_>, id: &str) -> Option<Prefix> {
    let word = given.word(id)?;
    let takes = "an IPv4 or IPv6 address, with a prefix length or without, as 10.0.0.0/8";
    given.value(parse_prefix(word), word, "a prefix", id, takes)
}

/// The router-id that `--id` has, where it is given.
fn router_id(given: &mut GivenWords<'_, '_>) -> Option<[u8; 8]> {
    let word = given.word("id")?;
    let takes = "16 hexadecimal digits, or 8 pairs of them joined by colons";
    given.value(
        parse_router_id(word.as_bytes()),
        word,
        "a router-id",
        "id",
        takes,
    )
}

/// The prefix that a word is: an address, `/` and a length in bits, or an address alone, for its
/// full length. The bits after the length are cleared. `None` for any other word.
pub(crate) fn parse_prefix(word: &str) -> Option<Prefix> {
    let Some((addr, len)) = word.split_once('/') else {
        let addr = parse_addr(word)?;
        return Prefix::new(addr, addr.family().width());
    };
    Prefix::new(parse_addr(addr)?, parse_len(len)?)
}

/// A length in decimal, without a sign and without leading zeros.
fn parse_len(word: &str) -> Option<u8> {
    let is_plain = word.bytes().all(|octet| octet.is_ascii_digit());
    if !is_plain || (word.len() > 1 && word.starts_with('0')) {
        return None;
    }
    word.parse().ok()
}
