//! The words of a command: its options and arguments, and why they are refused.
use crate::escaped::Escaped;
use crate::factor::{Factor, parse_factor};
use crate::format::Format;
use crate::job::{DumpFile, Form, Refusal};
use crate::limits::{TooFew, asked_limits};
use crate::names::Names;
use crate::options::{ASKED, KEPT, OptionRow, PRINTED, READ, SENT};
use crate::place_word::{parse_number, parse_place};
use crate::select_job::StatedCost;
use crate::spelling::Spelling;
use crate::style::Style;
use babel_capture::Place;
use babel_prefix::{Addr, Family, Prefix, parse_addr};
use babel_table::Limits;
use babel_tlv::{Mode, View};
use clap::ArgMatches;
use std::alloc::{AllocError, Global};

/// The words of a command, which are read in turn. Why they are refused first is kept; what is read
/// of a word that is refused, and of those after it, then counts for nothing.
#[derive(Drop)]
pub(crate) struct GivenWords<'m, 'a> {
    pub alloc: Global,
    pub matches: &'m ArgMatches<'a>,
    pub refusal: Option<Refusal>,
}

impl<'m, 'a> GivenWords<'m, 'a> {
    /// Those that `clap` found. An option with a value that is given twice is refused, if it is to
    /// be given once.
    pub fn new(alloc: Global, matches: &'m ArgMatches<'a>) -> GivenWords<'m, 'a> {
        let mut given = GivenWords {
            alloc,
            matches,
            refusal: None,
        };
        given.refuse_twice(SENT);
        given.refuse_twice(READ);
        given.refuse_twice(KEPT);
        given.refuse_twice(PRINTED);
        given.refuse_twice(ASKED);
        given
    }

    /// Refuses an option of a list so.
    fn refuse_twice(&mut self, rows: &[OptionRow]) {
        for row in rows.iter().filter(|row| row.is_once()) {
            let id = row.id;
            if let Some([first, second, ..]) = self.matches.get_raw(id) {
                let (first, second) = (Escaped(first), Escaped(second));
                self.refuse(format!(in self.alloc;
                    "--{id} is given twice: {first} and {second}\n"
                ));
            }
        }
    }

    /// Refuses the words with this text.
    pub fn refuse(&mut self, text: Result<String, AllocError>) {
        if self.refusal.is_none() {
            self.refusal = Some(match text {
                Ok(text) => Refusal::Usage(text),
                Err(_) => Refusal::Memory,
            });
        }
    }

    /// Refuses the words with a copy of this text.
    pub fn refuse_with(&mut self, text: &str) {
        self.refuse(String::from_str(self.alloc, text));
    }

    /// Refuses this word of an option, which should be what it is not, and says what the option
    /// takes.
    pub fn refuse_word(&mut self, word: &str, what: &str, id: &str, takes: &str) {
        let word = Escaped(word);
        self.refuse(format!(in self.alloc; "not {what}: {word}\nhint: --{id} takes {takes}\n"));
    }

    /// The value of this word of an option, which is refused where it has none.
    pub fn value<T>(
        &mut self,
        value: Option<T>,
        word: &str,
        what: &str,
        id: &str,
        takes: &str,
    ) -> Option<T> {
        if value.is_none() {
            self.refuse_word(word, what, id, takes);
        }
        value
    }

    /// Whether an option that takes no value is given.
    pub fn has(&self, id: &str) -> bool {
        self.matches.get_flag(id)
    }

    /// The word that an option has, where it is given.
    pub fn word(&self, id: &str) -> Option<&'a str> {
        self.matches.get_str(id)
    }

    /// Whether an option or an argument that may have several words has any.
    pub fn has_words(&self, id: &str) -> bool {
        !self.matches.get_strs(id).unwrap_or(&[]).is_empty()
    }

    /// The address that a required option has.
    pub fn address(&mut self, id: &str) -> Addr {
        let word = self.word(id).unwrap_or("");
        let addr = self.value(parse_addr(word), word, "an address", id, address_form(word));
        addr.unwrap_or(Prefix::whole(Family::V6).addr())
    }

    /// The address that an option has, where it is given.
    pub fn given_address(&mut self, id: &str) -> Option<Addr> {
        let _word = self.word(id)?;
        Some(self.address(id))
    }

    /// The addresses that an option has, which may be given several times.
    pub fn addresses(&mut self, id: &str) -> Result<Vec<Addr>, AllocError> {
        let mut addresses = Vec::new(self.alloc);
        for word in self.matches.get_strs(id).unwrap_or(&[]) {
            let addr = self.value(parse_addr(word), word, "an address", id, address_form(word));
            if let Some(addr) = addr {
                addresses.push(addr)?;
            }
        }
        Ok(addresses)
    }

    /// What `--cost` states of links, in the order of the words.
    pub fn costs(&mut self) -> Result<Vec<StatedCost>, AllocError> {
        let takes = "the address of a sender and the cost of its link, from 1 to 65535, as \
                     fe80::1=96";
        let mut costs = Vec::new(self.alloc);
        for word in self.matches.get_strs("cost").unwrap_or(&[]) {
            if let Some(cost) = self.value(parse_cost(word), word, "a cost", "cost", takes) {
                costs.push(cost)?;
            }
        }
        Ok(costs)
    }

    /// The place that an option names, where there is one.
    pub fn place(&mut self, id: &str) -> Option<Place> {
        let word = self.word(id)?;
        let takes = "the number of an interface, as 1, with its link and VLANs, as 1/3, 1:10 or \
                     1/3:10.20";
        self.value(parse_place(word), word, "an interface", id, takes)
    }

    /// The factor that `--expiry` names, where it is given.
    pub fn expiry(&mut self) -> Option<Factor> {
        let word = self.word("expiry")?;
        let takes = "a number above 0 and at most 1000, with at most seven digits after the point, \
                     as 3.5";
        self.value(parse_factor(word), word, "a factor", "expiry", takes)
    }

    /// The view that the words ask for: it ignores the fields that `--ignore` names.
    pub fn view(&mut self) -> View {
        let takes = "next-hop, router-id, seqno, metric, separated by commas";
        let mut view = View::all();
        for list in self.matches.get_strs("ignore").unwrap_or(&[]) {
            for word in list.split(',') {
                match word.trim_start_matches(' ') {
                    "next-hop" => view.next_hop = false,
                    "router-id" => view.router_id = false,
                    "seqno" => view.seqno = false,
                    "metric" => view.metric = false,
                    "" => self.refuse_word("an empty word", "a field", "ignore", takes),
                    word => self.refuse_word(word, "a field", "ignore", takes),
                }
            }
        }
        view
    }

    /// The limits that the words ask for.
    pub fn limits(&mut self) -> Limits {
        let octets = self.matches.get_one::<u32>("max-octets");
        let routes = self.matches.get_one::<u32>("max-routes");
        match asked_limits(octets, routes) {
            Ok(limits) => limits.with_v4_via_v6(self.has("v4-via-v6")),
            Err(TooFew { octets, routes }) => {
                self.refuse(format!(in self.alloc;
                    "--max-octets {octets} is less than 83 for each of {routes} routes\n\
                     hint: lower --max-routes too\n"
                ));
                Limits::usual()
            }
        }
    }

    /// The file that an option or an argument names.
    pub fn file(&mut self, id: &str) -> DumpFile {
        self.file_of(self.word(id).unwrap_or("-"))
    }

    /// The file of this name.
    pub fn file_of(&mut self, name: &str) -> DumpFile {
        if name == "-" {
            return DumpFile::StandardInput;
        }
        match String::from_str(self.alloc, name) {
            Ok(name) => DumpFile::Named(name),
            Err(error) => {
                self.refuse(Err(error));
                DumpFile::StandardInput
            }
        }
    }

    /// The files that an option or an argument names, which may have several words.
    pub fn files(&mut self, id: &str) -> Result<Vec<DumpFile>, AllocError> {
        let mut files = Vec::new(self.alloc);
        for name in self.matches.get_strs(id).unwrap_or(&[]) {
            files.push(self.file_of(name)).map_err(AllocError::from)?;
        }
        Ok(files)
    }

    /// The mode that the words ask for.
    pub fn mode(&self) -> Mode {
        if self.has("hold") {
            Mode::Hold
        } else {
            Mode::Plain
        }
    }

    /// Whether the words ask for answers or for routes.
    pub fn form(&self) -> Form {
        if self.has("routes") {
            Form::Routes
        } else {
            Form::Answers
        }
    }

    /// The format that the words ask for.
    pub fn format(&mut self) -> Format {
        let style = self.style();
        if self.has("json") {
            Format::Json(style)
        } else {
            Format::Text(style)
        }
    }

    /// How the words ask that addresses and router-ids be written.
    fn style(&mut self) -> Style {
        let spelling = if self.has("short") {
            Spelling::Short
        } else {
            Spelling::Long
        };
        let names = self.names();
        Style { spelling, names }
    }

    /// The names that the words ask for, before they are read.
    fn names(&mut self) -> Option<Names> {
        let word = self.word("names")?;
        if word == "-" {
            self.refuse_word(word, "a file", "names", "the name of a file");
        }
        let file = self.file_of(word);
        Some(Names::of(self.alloc, file))
    }
}

/// The cost that a word states of the link to a sender; `None` for any other word.
fn parse_cost(word: &str) -> Option<StatedCost> {
    let (sender, cost) = word.split_once('=')?;
    let sender = parse_addr(sender)?;
    let cost: u16 = parse_number(cost)?;
    if cost == 0 {
        return None;
    }
    Some(StatedCost { sender, cost })
}

/// What an option takes in place of a word that is no address.
fn address_form(word: &str) -> &'static str {
    if word.contains('%') {
        "an address without a zone"
    } else if word.contains('/') {
        "an address without a prefix length"
    } else {
        "an IPv4 or IPv6 address"
    }
}
