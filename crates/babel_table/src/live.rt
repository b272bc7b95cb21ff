ghost use Rattle.std.specs.Prelude.{◌≡◌, ◌^◌, ◌<◌, ◌≤◌, ◌+◌, [], map, length, OnOk, IfErr, IfOk};
ghost use Rattle.std.specs.Prelude.{true, false};
ghost use Rattle.std.specs.BTreeMap.{insert_entry, is_at};
ghost use Rattle.std.specs.Map.{remove_entry};
ghost use Rattle.babel_tlv.specs.declared.mode.Mode.TheVariants.{Hold};
ghost use Rattle.babel_tlv.specs.Pairs.{EventFits, IsPair};
ghost use Rattle.babel_tlv.specs.Keys.{key_cmp};
ghost use Rattle.babel_tlv.specs.EventKinds.{event_of};
ghost use Rattle.babel_tlv.specs.declared.event.Event.TheVariants as events;
ghost use Rattle.babel_table.specs.Live.{IsNotHeld, KeepsAllButRows, unreachable};
ghost use Rattle.babel_prefix.specs.Entries.{answer_for};
ghost use Rattle.babel_table.specs.RowFor.{IsBestOf, held_of, row_for};
ghost use Rattle.babel_table.specs.Rows.{entries_of};
ghost use Rattle.babel_table.specs.TableRows.{AreRows};
ghost use Rattle.babel_table.specs.Feeding.{Follows, IsRefused};
ghost use Rattle.babel_table.specs.Moments.{update_interval, word};
ghost use Rattle.babel_table.specs.Words.{after_event, lasting_words, no_stamp, replaced, rows_at};
ghost use Rattle.babel_table.specs.Words.{wiped};

use crate::clock::Clock;
use crate::kept_rows::KeptRows;
use crate::moment::Moment;
use crate::sorted_rows::SortedRows;
use babel_prefix::Addr;
use babel_tlv::{Ann, EventKind, Fault, Held, Key, Mode, Route};
use std::alloc::{AllocError, Global};
use std::marker::Model;

/// The rows so far, at most `entries`.
#[derive(Drop)]
pub struct LiveRows {
    mode: Mode,
    entries: u32,
    /// What has a mark below this was said before all was retracted. Where times are kept, marks
    /// begin at 1.
    wipes: u64,
    /// The mark of what was said last.
    last: u64,
    kept: KeptRows,
    clock: Clock,
}

impl Model for LiveRows {
    ghost use Rattle.std.specs.Prelude.{◌≡◌, ◌≤◌, ◌+◌, length, true};
    ghost use Rattle.babel_table.specs.Live.{AreKept, IsInTime, Live, live_rows, words_of};

    ghost Value = { Live };

    ghost view = { λ r. record {
      mode = r.mode;
      entries = r.entries;
      last = r.last;
      rows = live_rows r.wipes r.kept;
      runs = r.clock.runs;
      factor = r.clock.factor;
      when = r.clock.when;
      words = words_of r.clock r.wipes r.kept;
    } };

    ghost invariant = { λ r. AreKept r.last r.kept × (length r.kept ≤ r.entries)
        × (r.wipes ≤ r.last + 1)
        × (r.clock.runs ≡ true → IsInTime r.clock r.wipes r.last) };
}

impl LiveRows {
    /// No rows, of which there may be at most `entries`. They are found by a hash of this seed.
    pub fn new(alloc: Global, mode: Mode, entries: u32, seed: u128) -> LiveRows
        ensures { result ≡ record {
          mode = mode;
          entries = entries;
          last = 0;
          rows = [];
          runs = false;
          factor = 0;
          when = no_stamp;
          words = [];
        } }
    {
        LiveRows {
            mode,
            entries,
            wipes: 0,
            last: 0,
            kept: KeptRows::new(alloc, seed),
            clock: Clock::new(alloc, false, 0),
        }
    }

    /// The same, where it is kept when each row was said, which lasts so many ten-millionths of its
    /// Interval.
    pub fn in_time(alloc: Global, mode: Mode, entries: u32, seed: u128, factor: u64) -> LiveRows
        ensures { result ≡ record {
          mode = mode;
          entries = entries;
          last = 0;
          rows = [];
          runs = true;
          factor = factor;
          when = no_stamp;
          words = [];
        } }
    {
        LiveRows {
            mode,
            entries,
            wipes: 1,
            last: 0,
            kept: KeptRows::new(alloc, seed),
            clock: Clock::new(alloc, true, factor),
        }
    }

    /// What is said next comes at this time.
    pub fn set_time(&mut self, time: u128)
        requires { time < 2 ^ 96 }
        ensures { self.new ≡ record self.old {
          when = record { time = time; interval = self.old.when.interval };
        } }
    {
        self.clock.set_time(time);
    }

    /// What is said next has the Interval of this body of an Update.
    pub fn set_interval(&mut self, body: &[u8])
        ensures { self.new ≡ record self.old {
          when = record { time = self.old.when.time; interval = update_interval body.now };
        } }
    {
        self.clock.set_interval(body);
    }

    /// Holds this for the key, if a row may be added for it.
    fn put(&mut self, key: &Key, held: Held, at: u64) -> Result<(), Fault>
        requires pair { IsPair (key.now, held) }
        requires room { self.old.last + 1 < 2 ^ 64 }
        ensures settings { KeepsAllButRows self.old self.new }
        ensures ok { OnOk result (self.new.rows ≡ insert_entry key_cmp self.old.rows key.now held) }
        ensures refused { IfErr result (IsNotHeld self.old at key.now held) }
        ensures words { self.old.runs ≡ true → OnOk result (self.new.words
            ≡ insert_entry key_cmp self.old.words key.now (word self.old.when held)) }
    {
        let refusal = if self.kept.len() < self.entries as usize {
            None
        } else {
            Some(Fault::TooManyRoutes { at })
        };
        let mark = self.clock.mark(self.last)?;
        self.last = mark.max(self.wipes);
        self.kept.put(key, held, self.last, refusal)
    }

    /// Holds nothing for the key.
    fn forget(&mut self, key: &Key)
        ensures settings { KeepsAllButRows self.old self.new }
        ensures rows { self.new.rows ≡ remove_entry (is_at (key_cmp key.now)) self.old.rows }
        ensures words { self.new.words ≡ remove_entry (is_at (key_cmp key.now)) self.old.words }
    {
        self.are_rows();
        self.kept.forget(key);
    }

    /// Holds nothing for any key.
    fn clear(&mut self)
        ensures settings { KeepsAllButRows self.old self.new }
        ensures rows { self.new.rows ≡ [] }
        ensures words { self.new.words ≡ [] }
    {
        self.kept.clear();
    }

    /// Makes each row unreachable.
    fn wipe(&mut self)
        requires mode { self.old.mode ≡ Hold }
        requires room { self.old.last + 1 < 2 ^ 64 }
        ensures settings { KeepsAllButRows self.old self.new }
        ensures rows { self.new.rows ≡ map unreachable self.old.rows }
        ensures words { self.old.runs ≡ true → self.new.words
            ≡ replaced (wiped self.old.factor self.old.when) self.old.words }
    {
        self.clock.wipe(self.wipes, self.last);
        self.wipes = self.last + 1;
    }

    /// The keys rise, and each row is a pair.
    pub fn are_rows(&self)
        ensures { AreRows self.now.rows }
    {
        // For the proof: the length has that the keys rise.
        let _ = self.kept.len();
    }

    /// There are at most as many rows as may be.
    pub fn are_few(&self)
        ensures { length self.now.rows ≤ self.now.entries }
    {
        // For the proof: a field that is read has what the type keeps.
        let _ = &self.mode;
    }

    /// How many routes have expired at the moment.
    pub fn count_expired(&self, time: u128) -> usize
        ensures { result + length (lasting_words self.now.factor time self.now.words)
            ≡ length self.now.words }
    {
        let moment = Moment::new(&self.clock, self.mode, self.wipes, time);
        self.kept.count_expired(&moment)
    }

    /// Holds what is left at the moment.
    pub fn leave(&mut self, time: u128)
        ensures { self.old.runs ≡ true → self.new.rows
            ≡ rows_at self.old.mode self.old.factor time self.old.words }
    {
        let moment = Moment::new(&self.clock, self.mode, self.wipes, time);
        self.kept.leave(&moment);
    }

    /// Takes an announcement, said at this offset, into the rows.
    fn announce(&mut self, key: &Key, ann: &Ann, at: u64) -> Result<(), Fault>
        requires fits { EventFits (events.Announce key.now ann.now) }
        requires room { self.old.last + 1 < 2 ^ 64 }
        ensures settings { KeepsAllButRows self.old self.new }
        ensures ok { OnOk result
            (Follows self.old.mode (events.Announce key.now ann.now) self.old.rows self.new.rows) }
        ensures refused { IfErr result (IsRefused self.old.mode self.old.entries at
            (events.Announce key.now ann.now) self.old.rows) }
        ensures words { self.old.runs ≡ true → OnOk result
            (self.new.words ≡ after_event self.old.mode self.old.factor self.old.when
            (events.Announce key.now ann.now) self.old.words) }
    {
        self.put(key, Held::Route(*ann), at)
    }

    /// Takes a retraction of one key into the rows.
    fn retract(&mut self, key: &Key, at: u64) -> Result<(), Fault>
        requires fits { EventFits (events.Retract key.now) }
        requires room { self.old.last + 1 < 2 ^ 64 }
        ensures settings { KeepsAllButRows self.old self.new }
        ensures ok { OnOk result
            (Follows self.old.mode (events.Retract key.now) self.old.rows self.new.rows) }
        ensures refused { IfErr result (IsRefused self.old.mode self.old.entries at
            (events.Retract key.now) self.old.rows) }
        ensures words { self.old.runs ≡ true → OnOk result
            (self.new.words ≡ after_event self.old.mode self.old.factor self.old.when
            (events.Retract key.now) self.old.words) }
    {
        match self.mode {
            Mode::Plain => {
                self.forget(key);
                Ok(())
            }
            Mode::Hold => self.put(key, Held::Unreachable, at),
        }
    }

    /// Takes a retraction of all keys into the rows.
    fn retract_all(&mut self)
        requires { self.old.last + 1 < 2 ^ 64 }
        ensures settings { KeepsAllButRows self.old self.new }
        ensures rows { Follows self.old.mode events.RetractAll self.old.rows self.new.rows }
        ensures words { self.old.runs ≡ true → self.new.words ≡ after_event self.old.mode
            self.old.factor self.old.when events.RetractAll self.old.words }
    {
        match self.mode {
            Mode::Plain => self.clear(),
            Mode::Hold => self.wipe(),
        }
    }

    /// Takes what is said of a route at this offset into the rows.
    pub fn take(&mut self, kind: EventKind, route: &Route, at: u64) -> Result<(), Fault>
        requires fits { EventFits (event_of kind route.now) }
        requires room { self.old.last + 1 < 2 ^ 64 }
        ensures settings { KeepsAllButRows self.old self.new }

        // The rows of events are then those of these events and this one.
        ensures ok { OnOk result
            (Follows self.old.mode (event_of kind route.now) self.old.rows self.new.rows) }

        // It is refused where there would be more rows than may be, or memory ran out.
        ensures refused { IfErr result (IsRefused self.old.mode self.old.entries at
            (event_of kind route.now) self.old.rows) }

        // Where times are kept, the words are then those after this one.
        ensures words { self.old.runs ≡ true → OnOk result
            (self.new.words ≡ after_event self.old.mode self.old.factor self.old.when
            (event_of kind route.now) self.old.words) }
    {
        match kind {
            EventKind::Announce => self.announce(&route.key, &route.ann, at),
            EventKind::Retract => self.retract(&route.key, at),
            EventKind::RetractAll => {
                self.retract_all();
                Ok(())
            }
            EventKind::Nothing => Ok(()),
            EventKind::Ignored(_) => Ok(()),
        }
    }

    /// The rows in order.
    pub fn listed(self, alloc: Global) -> Result<SortedRows, AllocError>
        ensures { IfOk result (λ rows. rows ≡ self.rows) }
    {
        self.are_rows();
        self.kept.listed(alloc, self.wipes)
    }

    /// The best matching row, for two addresses of one family.
    #[tactic(auto, using(crate::proofs::LookupLaws::answering))]
    pub fn lookup(&self, dst: &Addr, src: &Addr) -> Option<(Key, Held)>
        requires one_family { dst.now.family ≡ src.now.family }
        ensures best { IsBestOf self.now.rows dst.now src.now result }
        ensures row { result ≡ row_for self.now.rows dst.now src.now }
        ensures held { held_of result ≡ answer_for (entries_of self.now.rows) dst.now src.now }
    {
        self.are_rows();
        self.kept.best_match(self.wipes, dst, src)
    }
}
