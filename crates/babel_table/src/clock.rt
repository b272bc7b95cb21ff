//! When what is said comes, where it is asked what is held at a moment.
ghost use Rattle.std.specs.Prelude.{◌≡◌, ◌<◌, ◌+◌, ◌^◌, true, length, slice_index, IfOk, OnErr, []};
ghost use Rattle.std.specs.Prelude.{◌≤◌, ◌*◌, if◌then◌else◌};
ghost use Rattle.std.specs.List.{AllByRecursion};
ghost use Rattle.std.specs.Option.{option_map};
ghost use Rattle.babel_table.specs.Moments.{has_expired, update_interval};
ghost use Rattle.babel_table.specs.Words.{IsMark, found_at, no_stamp, no_wiping, stamp_at};
ghost use Rattle.babel_table.specs.Words.{wiped_at};

use crate::stamp::Stamp;
use crate::wipes::Wipes;
use std::alloc::{AllocError, Global};
use std::marker::Model;

/// The stamps of the words that rows keep, if times are kept. Words that come at one time with one
/// Interval share a stamp.
#[derive(Drop)]
pub struct Clock {
    is_running: bool,
    /// So many ten-millionths of its Interval a word lasts, which is in hundredths of a second.
    factor: u64,
    time: u128,
    interval: u16,
    /// Whether the last stamp is of this time and this Interval.
    is_stamped: bool,
    stamps: Vec<Stamp>,
    /// When all was retracted.
    wipes: Wipes,
}

impl Model for Clock {
    ghost use Rattle.std.specs.Prelude.{◌≡◌, ◌<◌, ◌^◌, true, length};
    ghost use Rattle.babel_table.specs.Words.{Timing, stamp_at};

    ghost Value = { Timing };

    ghost view = { λ c. record {
      runs = c.is_running;
      factor = c.factor;
      when = record { time = c.time; interval = c.interval };
      stamps = c.stamps.items;
      wiping = c.wipes;
    } };

    ghost invariant = { λ c. (c.time < 2 ^ 96) × (c.is_stamped ≡ true
        → (c.wipes.due ≡ true) × (stamp_at c.stamps.items (length c.stamps.items)
        ≡ record { time = c.time; interval = c.interval })) };
}

impl Clock {
    /// A clock that keeps times or not, where words last so many ten-millionths of their Interval,
    /// which is in hundredths of a second.
    pub fn new(alloc: Global, is_running: bool, factor: u64) -> Clock
        ensures { result ≡ record {
          runs = is_running;
          factor = factor;
          when = no_stamp;
          stamps = [];
          wiping = no_wiping;
        } }
    {
        Clock {
            is_running,
            factor,
            time: 0,
            interval: 0,
            is_stamped: false,
            stamps: Vec::new(alloc),
            wipes: Wipes::new(alloc),
        }
    }

    /// What is said next comes at this time.
    pub fn set_time(&mut self, time: u128)
        requires { time < 2 ^ 96 }
        ensures { self.new ≡ record self.old {
          when = record { time = time; interval = self.old.when.interval };
        } }
    {
        self.time = time;
        self.is_stamped = false;
    }

    /// What is said next has the Interval of this body of an Update: RFC 8966, 4.6.9.
    pub fn set_interval(&mut self, body: &[u8])
        ensures { self.new ≡ record self.old {
          when = record { time = self.old.when.time; interval = update_interval body.now };
        } }
    {
        let interval = octet(body, 4) as u16 * 256 + octet(body, 5) as u16;
        if interval != self.interval {
            self.interval = interval;
            self.is_stamped = false;
        }
    }

    /// The mark of a word that comes now, where that of the word before is the last. After a
    /// retraction of all it is another one than that of the word before.
    pub fn mark(&mut self, last: u64) -> Result<u64, AllocError>
        requires counted { self.old.runs ≡ true → last ≡ length self.old.stamps }
        requires room { last + 1 < 2 ^ 64 }
        ensures ok { IfOk result (IsMark self.old self.new last) }
        ensures err { OnErr result (self.new ≡ self.old) }
    {
        if !self.is_running {
            return Ok(last);
        }
        if self.is_stamped {
            self.wipes.make_room()?;
            return Ok(last);
        }
        self.stamps.reserve(1)?;
        self.wipes.make_room()?;
        self.stamps
            .push(Stamp::new(self.time, self.interval))
            .unwrap();
        self.is_stamped = true;
        Ok(last + 1)
    }

    /// Takes a retraction of all that comes now, where words have marks up to the last, and those
    /// before the one before it have marks below `wipes`.
    pub fn wipe(&mut self, wipes: u64, last: u64)
        requires { self.old.runs ≡ true
            → AllByRecursion (λ first. first.0 ≤ last) self.old.wiping.firsts }
        ensures { self.new ≡ (if self.old.runs then record self.old {
          wiping = wiped_at self.old.factor wipes last self.old.when self.old.wiping;
        } else self.old) }
    {
        if self.is_running {
            self.wipes
                .take(self.factor, wipes, last, self.time, self.interval);
            self.is_stamped = false;
        }
    }

    /// Whether a word with this mark has expired at the moment, or would after twice as long.
    pub fn has_expired(&self, mark: u64, is_twice: bool, moment: u128) -> bool
        ensures { result ≡ has_expired (if is_twice then 2 * self.now.factor else self.now.factor)
            moment (stamp_at self.now.stamps mark) }
    {
        if mark == 0 {
            return false;
        }
        let once = u128::from(self.factor);
        let factor = if is_twice { 2 * once } else { once };
        match self.stamps.get(mark as usize - 1) {
            Some(stamp) => stamp.has_expired(factor, moment),
            None => false,
        }
    }

    /// When all was first retracted after a word with this mark, if what the last retraction left
    /// is still there at the moment, should that one have found something.
    pub fn found(&self, mark: u64, moment: u128) -> Option<u128>
        ensures { result ≡ option_map (λ when. when.time)
            (found_at self.now.wiping self.now.factor moment mark) }
    {
        self.wipes.found(mark, self.factor, moment)
    }
}

/// The octet at this place; 0 past the end.
fn octet(octets: &[u8], place: usize) -> u8
    ensures { result ≡ slice_index octets.now place }
{
    match octets.get(place) {
        Some(octet) => *octet,
        None => 0,
    }
}
