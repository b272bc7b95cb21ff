ghost use Rattle.std.specs.Prelude.{◌≡◌, ◌≤◌, ◌<◌, ◌^◌, ◌++◌, ◌∷◌, ℕ, [], OnOk, OnErr, true, false};
ghost use Rattle.std.specs.Prelude.{nat_lt};
ghost use Rattle.std.specs.List.{AllByRecursion};
ghost use Rattle.std.specs.List.Sorted.{IsNonDecreasingBy, IsPartitionPoint};
ghost use Rattle.std.specs.Option.{option_map};
ghost use Rattle.babel_table.specs.Moments.{Stamp as Said};
ghost use Rattle.babel_table.specs.Words.{first_after, found_at, no_wiping, unless_gone, wiped_at};
ghost use Rattle.babel_table.specs.Words.{with_first};

use crate::stamp::Stamp;
use std::alloc::{AllocError, Global};
use std::marker::Model;

/// The first retraction of all after words that were kept: the mark of the last of these words, and
/// when it came.
type Wipe = (u64, Stamp);

/// Retractions of all, as far as it matters what they found: RFC 8966, 4.6.9. A word is found by
/// the first one after it, if it is not gone by then, and that one by the next, and so on: from
/// there it makes no difference which word it was.
#[derive(Drop)]
pub struct Wipes {
    /// The first one after each word that may still be found. There is room for one more once a
    /// word was kept.
    firsts: Vec<Wipe>,
    /// Whether a word was kept since the last one.
    is_due: bool,
    /// What words with marks below this left is gone. Marks begin at 1.
    gone: u64,
    /// The last one.
    last: Stamp,
}

impl Model for Wipes {
    ghost use Rattle.std.specs.Prelude.{◌≡◌, ◌<◌, ℕ, true, vec_len};
    ghost use Rattle.std.specs.List.Sorted.{IsNonDecreasingBy};
    ghost use Rattle.std.specs.Vec.{vec_capacity};
    ghost use Rattle.babel_table.specs.Moments.{Stamp as Said};
    ghost use Rattle.babel_table.specs.Words.{Wiping};

    ghost Value = { Wiping };

    ghost view = { λ w. record {
      firsts = w.firsts.items;
      due = w.is_due;
      gone = w.gone;
      last = w.last;
    } };

    ghost invariant = { λ w. (w.is_due ≡ true → vec_len w.firsts < vec_capacity w.firsts)
        × IsNonDecreasingBy (λ (first : ℕ × Said). first.0) w.firsts.items };
}

impl Wipes {
    /// None.
    pub fn new(alloc: Global) -> Wipes
        ensures { result ≡ no_wiping }
    {
        Wipes {
            firsts: Vec::new(alloc),
            is_due: false,
            gone: 1,
            last: Stamp::new(0, 0),
        }
    }

    /// A word is kept, so the next retraction of all is the first after it.
    pub fn make_room(&mut self) -> Result<(), AllocError>
        ensures ok { OnOk result (self.new ≡ record self.old { due = true }) }
        ensures err { OnErr result (self.new ≡ self.old) }
    {
        if !self.is_due {
            self.firsts.reserve(1)?;
            self.is_due = true;
        }
        Ok(())
    }

    /// Takes one that comes at this time with this Interval. Words have marks up to the last, and
    /// those before the one before it have marks below `wipes`. What is unreachable is gone so many
    /// times its Interval after it became so.
    pub fn take(&mut self, factor: u64, wipes: u64, last: u64, time: u128, interval: u16)
        requires marks { AllByRecursion (λ first. first.0 ≤ last) self.old.firsts }
        requires time { time < 2 ^ 96 }
        ensures { self.new ≡ wiped_at factor wipes last
            (record { time = time; interval = interval }) self.old }
    {
        self.drop_gone(factor, wipes, time);
        self.add(last, time, interval);
        self.last = Stamp::new(time, interval);
    }

    /// Forgets what was said before the last one if what that left is gone.
    fn drop_gone(&mut self, factor: u64, wipes: u64, time: u128)
        ensures { self.new ≡ unless_gone factor wipes time self.old }
    {
        if self.last.has_expired(u128::from(factor), time) {
            self.firsts.clear();
            self.gone = wipes;
        }
    }

    /// Adds the first one after words with marks up to this, if a word was kept since the last one.
    fn add(&mut self, mark: u64, time: u128, interval: u16)
        requires marks { AllByRecursion (λ first. first.0 ≤ mark) self.old.firsts }
        requires time { time < 2 ^ 96 }
        ensures { self.new
            ≡ with_first mark (record { time = time; interval = interval }) self.old }
    {
        if !self.is_due {
            return;
        }
        let stamp = Stamp::new(time, interval);
        self.firsts.push((mark, stamp)).unwrap();
        self.is_due = false;
    }

    /// When the first one came after a word with this mark, if what the last one left is still
    /// there at the moment, should it have found something.
    pub fn found(&self, mark: u64, factor: u64, moment: u128) -> Option<u128>
        ensures { result ≡ option_map (λ when. when.time) (found_at self.now factor moment mark) }
    {
        if mark < self.gone || self.last.has_expired(u128::from(factor), moment) {
            return None;
        }
        first_after(&self.firsts, mark)
    }
}

/// When the first one came after a word with this mark.
fn first_after(firsts: &[Wipe], mark: u64) -> Option<u128>
    requires { IsNonDecreasingBy (λ (first : ℕ × Said). first.0) firsts.now }
    ensures { result ≡ option_map (λ when. when.time) (first_after mark firsts.now) }
{
    match firsts.get(place_after(firsts, mark)) {
        Some(first) => Some(first.1.time()),
        None => None,
    }
}

/// How many of these, in order, came after words with marks below this alone.
fn place_after(firsts: &[Wipe], mark: u64) -> usize
    requires { IsNonDecreasingBy (λ (first : ℕ × Said). first.0) firsts.now }
    ensures { IsPartitionPoint (λ first. nat_lt first.0 mark ≡ true)
        (λ first. nat_lt first.0 mark ≡ false) firsts.now result }
{
    firsts.partition_point(|first| first.0 < mark)
}
