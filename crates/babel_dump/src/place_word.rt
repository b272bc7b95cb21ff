//! Places of a capture, as `--interface` names them.
use babel_capture::{Origin, Place, Vlans};
use std::fmt;
use std::num::ParseIntError;
use std::str::FromStr;

/// The largest number of a VLAN tag: IEEE 802.1Q, 9.6.
const MOST_VLAN: u16 = 4_095;

/// A place, which `Display` gives in the form of `--interface`: the interface's number, then `/`
/// and the link's, then `:` and those of the VLANs, the outer one first, with `.` between each two.
#[derive(Clone, Copy)]
pub struct PlaceWord(pub Place);

impl fmt::Display for PlaceWord {
    fn fmt<W: fmt::Write>(&self, f: &mut fmt::Formatter<W>) -> fmt::Result {
        write!(f, "{}", self.0.interface)?;
        if let Some(link) = self.0.link {
            write!(f, "/{link}")?;
        }
        let mut mark = ":";
        for number in &self.0.vlans.numbers() {
            if *number != 0 {
                write!(f, "{mark}{number}")?;
                mark = ".";
            }
        }
        Ok(())
    }
}

/// A place in words: ` interface N link N vlan N.N`.
#[derive(Clone, Copy)]
pub(crate) struct PlaceInWords(pub Place);

impl fmt::Display for PlaceInWords {
    fn fmt<W: fmt::Write>(&self, f: &mut fmt::Formatter<W>) -> fmt::Result {
        write!(f, " interface {}", self.0.interface)?;
        write_behind_interface(f, self.0)
    }
}

/// Writes ` link N vlan N.N`, as far as a place has them.
fn write_behind_interface<W: fmt::Write>(f: &mut fmt::Formatter<W>, place: Place) -> fmt::Result {
    if let Some(link) = place.link {
        write!(f, " link {link}")?;
    }
    let mut mark = " vlan ";
    for number in &place.vlans.numbers() {
        if *number != 0 {
            write!(f, "{mark}{number}")?;
            mark = ".";
        }
    }
    Ok(())
}

/// A sender and its place, whose interface has this name, as the lines of `senders` have them; the
/// place is left out where it is interface 0 alone, without a name.
#[derive(Clone, Copy)]
pub struct NamedOrigin<'a> {
    pub origin: Origin,
    /// The name of its interface, as a capture has it; empty where it has none, or is not told.
    pub name: &'a [u8],
}

impl fmt::Display for NamedOrigin<'_> {
    fn fmt<W: fmt::Write>(&self, f: &mut fmt::Formatter<W>) -> fmt::Result {
        let Origin { place, sender } = self.origin;
        write!(f, "{sender}")?;
        if self.name.is_empty() && place == Place::on(0) {
            return Ok(());
        }
        write!(f, " interface {}", place.interface)?;
        if !self.name.is_empty() {
            write_name(f, self.name)?;
        }
        write_behind_interface(f, place)
    }
}

/// Writes ` (NAME)`: letters, digits, `.`, `-` and `_` as they are, and each other octet as `\xHH`.
fn write_name<W: fmt::Write>(f: &mut fmt::Formatter<W>, name: &[u8]) -> fmt::Result {
    f.write_str(" (")?;
    for octet in name {
        match octet {
            b'a'..=b'z' | b'A'..=b'Z' | b'0'..=b'9' | b'.' | b'-' | b'_' => {
                f.write_char(*octet as char)?;
            }
            _ => write!(f, "\\x{octet:02x}")?,
        }
    }
    f.write_char(')')
}

/// The place that a word of `--interface` names, as `PlaceWord` gives it: `1`, `1/3`, `1:10` or
/// `1/3:10.20`. `None` for any other word.
pub fn parse_place(word: &str) -> Option<Place> {
    let (word, vlans) = match word.split_once(':') {
        Some((word, numbers)) => (word, parse_vlans(numbers)?),
        None => (word, Vlans::none()),
    };
    let (word, link) = match word.split_once('/') {
        Some((word, link)) => (word, Some(parse_number(link)?)),
        None => (word, None),
    };
    let interface = parse_number(word)?;
    Some(Place {
        interface,
        link,
        vlans,
    })
}

/// The numbers of at most four VLAN tags, with `.` between each two.
fn parse_vlans(word: &str) -> Option<Vlans> {
    let mut vlans = Vlans::none();
    for number in word.split('.') {
        let number: u16 = parse_number(number)?;
        let [_, _, _, last] = vlans.numbers();
        if number == 0 || number > MOST_VLAN || last != 0 {
            return None;
        }
        vlans = vlans.with(number);
    }
    Some(vlans)
}

/// A number in decimal, of digits alone.
pub(crate) fn parse_number<N: FromStr<Err = ParseIntError>>(word: &str) -> Option<N> {
    if word.bytes().all(|octet| octet.is_ascii_digit()) {
        word.parse().ok()
    } else {
        None
    }
}
