//! The names that `--names` gives addresses and router-ids.
ghost use Rattle.std.specs.Prelude.{◌≡◌, ◌≤◌, IfErr, IfOk, OnOk, length, map};
ghost use Rattle.babel_dump.specs.AskedPairs.{lines_of, words_of};
ghost use Rattle.babel_dump.specs.Device.{HasRoomToCount};
ghost use Rattle.babel_dump.specs.Names.{name_at, router_name_at};
ghost use Rattle.babel_dump.specs.NamesRead.{AreNamed, GaveNames, HasNone, InsertsName};
ghost use Rattle.babel_dump.specs.NamesRead.{IsFaultOfNames, NamesCause, PutsName, TakesWords};
ghost use Rattle.babel_dump.specs.NamesRead.{names_from};

use crate::any_source::any_source;
use crate::asked_pairs::{first_words, lines};
use crate::byte_in::ByteIn;
use crate::input::read_text;
use crate::job::DumpFile;
use crate::name::Name;
use crate::named::Named;
use crate::names_fault::NamesFault;
use crate::reading::Reading;
use babel_prefix::{Addr, Family};
use babel_table::Limits;
use babel_tlv::Mode;
use std::alloc::{AllocError, Global};
use std::collections::BTreeMap;

/// The names that a file gives, once they are read.
#[derive(Drop)]
pub struct Names {
    pub file: DumpFile,
    addresses: BTreeMap<Addr, Name>,
    routers: BTreeMap<[u8; 8], Name>,
}

impl Names {
    /// None yet.
    pub(crate) fn of(alloc: Global, file: DumpFile) -> Names {
        Names {
            file,
            addresses: BTreeMap::new(alloc),
            routers: BTreeMap::new(alloc),
        }
    }

    /// Reads those that a text gives, in place of any before. On each line stand an address or a
    /// router-id, and its name, of at most 64 octets. Lines are skipped as in the pairs of
    /// `--each`.
    ///
    /// # Errors
    ///
    /// `NotAName` with the first line that is neither, or is for what has a name; `TooLong` where
    /// there are more octets than a dump may have; `Read`, `Memory`.
    #[tactic(auto, using(crate::proofs::NamesLaws::read_ok, crate::proofs::NamesLaws::unread))]
    pub(crate) fn read<R: ByteIn>(
        &mut self,
        alloc: Global,
        reader: &mut R,
    ) -> Result<(), NamesFault>
        requires { HasRoomToCount (R.state reader.old) }
        ensures ok { OnOk result
            (GaveNames (names_from (R.state reader.old) (R.state reader.new)) self.new) }
        ensures fault { IfErr result
            (NamesCause (names_from (R.state reader.old) (R.state reader.new))) }
    {
        self.addresses = BTreeMap::new(alloc);
        self.routers = BTreeMap::new(alloc);
        let reading = Reading::of(Limits::usual(), Mode::Plain, any_source(Family::V4));
        match read_text(alloc, reading, reader) {
            Ok(text) => self.take(alloc, &text),
            Err(fault) => Err(NamesFault::of_text(fault)),
        }
    }

    /// Takes those of a text: on each line an address or a router-id, and its name. Lines are
    /// skipped as in the pairs of `--each`.
    ///
    /// # Errors
    ///
    /// `NotAName` with the first line that is neither, or is for what has a name; `Memory`.
    fn take(&mut self, alloc: Global, text: &[u8]) -> Result<(), NamesFault>
        requires { HasNone self.old }
        ensures ok { OnOk result (AreNamed (lines_of text.now) self.new) }
        ensures fault { IfErr result (IsFaultOfNames (lines_of text.now)) }
    {
        for (index, line) in lines(alloc, text)?.iter().enumerate() {
            if !self.take_line(alloc, line)? {
                return Err(NamesFault::NotAName { line: index + 1 });
            }
        }
        Ok(())
    }

    /// Takes what a line says. Whether it is a name of what had none, or the line is skipped.
    fn take_line(&mut self, alloc: Global, line: &[u8]) -> Result<bool, AllocError>
        ensures { IfOk result
            (λ is_taken. TakesWords (words_of line.now) self.old self.new is_taken) }
    {
        let words = first_words(alloc, line)?;
        self.take_words(alloc, &words)
    }

    /// Takes what a line says, whose first words these are, at most three.
    fn take_words(&mut self, alloc: Global, words: &[&[u8]]) -> Result<bool, AllocError>
        ensures { IfOk result (λ is_taken.
            TakesWords (map (λ word. word.now) words.now) self.old self.new is_taken) }
    {
        match *words {
            [] => Ok(true),
            [first, ..] if first.starts_with(b"#") => Ok(true),
            [word, name] => self.put(alloc, word, name),
            _ => Ok(false),
        }
    }

    /// Puts the name of what a word says. Whether it says something that had none.
    fn put(&mut self, alloc: Global, word: &[u8], name: &[u8]) -> Result<bool, AllocError>
        ensures { IfOk result (λ is_put. PutsName word.now name.now self.old self.new is_put) }
    {
        let Some(named) = Named::of(word) else {
            return Ok(false);
        };
        let Some(name) = Name::new(alloc, name)? else {
            return Ok(false);
        };
        self.insert(named, name)
    }

    /// Puts a name. Whether it is of what had none.
    fn insert(&mut self, named: Named, name: Name) -> Result<bool, AllocError>
        ensures { IfOk result
            (λ is_new. InsertsName named name.octets.items self.old self.new is_new) }
    {
        match named {
            Named::Address(addr) => {
                let before = self.addresses.insert(addr, name)?;
                Ok(before.is_none())
            }
            Named::Router(router_id) => {
                let before = self.routers.insert(router_id, name)?;
                Ok(before.is_none())
            }
        }
    }

    /// The name of an address; empty where it has none.
    pub(crate) fn of_address(&self, addr: Addr) -> &[u8]
        ensures name { result.now ≡ name_at self.now addr }
        ensures short { length result.now ≤ 64 }
    {
        match self.addresses.get(&addr) {
            Some(name) => name.octets(),
            None => &[],
        }
    }

    /// The name of a router-id; empty where it has none.
    pub(crate) fn of_router(&self, router_id: [u8; 8]) -> &[u8]
        ensures name { result.now ≡ router_name_at self.now router_id }
        ensures short { length result.now ≤ 64 }
    {
        match self.routers.get(&router_id) {
            Some(name) => name.octets(),
            None => &[],
        }
    }
}
