ghost use Rattle.std.specs.Prelude.{◌≡◌, ℕ, ◌<◌, ◌*◌, ◌&&◌, if◌then◌else◌};
ghost use Rattle.std.specs.Option.{option_map};
ghost use Rattle.babel_tlv.specs.declared.held.Held.{Held};
ghost use Rattle.babel_tlv.specs.declared.held.Held.TheVariants as helds;
ghost use Rattle.babel_table.specs.Live.{is_standing, kept, left_of, word_kept};
ghost use Rattle.babel_table.specs.Live.{what_is_left};
ghost use Rattle.babel_table.specs.Moments.{has_expired, left_at, times};
ghost use Rattle.babel_table.specs.Words.{is_route, stamp_at};

use crate::clock::Clock;
use babel_tlv::Mode;
use std::marker::Model;

/// What is left of a word at a moment.
#[derive(Clone, Copy)]
pub enum Left {
    /// What was said.
    All,
    /// The key is unreachable.
    Unreachable,
    /// Nothing.
    Nothing,
}

impl Left {
    /// What is left once all was retracted.
    fn retracted(self) -> Left
        ensures { (held : Held) → what_is_left result held
            ≡ option_map (λ now. helds.Unreachable) (what_is_left self held) }
    {
        match self {
            Left::All => Left::Unreachable,
            Left::Unreachable => Left::Unreachable,
            Left::Nothing => Left::Nothing,
        }
    }
}

/// A moment at which it is asked what is held.
#[derive(Drop)]
pub struct Moment<'a> {
    /// The stamps by which words are marked.
    clock: &'a Clock,
    /// What is left of a route that has expired.
    mode: Mode,
    /// Words with marks below this were said before all was retracted.
    wipes: u64,
    /// The moment, in nanoseconds since the start of 1970.
    time: u128,
}

impl<'a> Model for Moment<'a> {
    ghost use Rattle.babel_table.specs.Live.{Asked};

    ghost Value = { Asked };

    ghost view = { λ m. record {
      timing = m.clock.now;
      mode = m.mode;
      wipes = m.wipes;
      time = m.time;
    } };
}

impl<'a> Moment<'a> {
    /// The moment at this time, of words by these stamps.
    pub fn new(clock: &'a Clock, mode: Mode, wipes: u64, time: u128) -> Moment<'a>
        ensures { result ≡ record {
          timing = clock.now;
          mode = mode;
          wipes = wipes;
          time = time;
        } }
    {
        Moment {
            clock,
            mode,
            wipes,
            time,
        }
    }

    /// Whether a word with this mark is not stale, and has expired.
    pub fn has_expired(&self, mark: u64) -> bool
        ensures { result ≡ is_standing self.now mark
            && has_expired self.now.timing.factor self.now.time
            (stamp_at self.now.timing.stamps mark) }
    {
        mark >= self.wipes && self.clock.has_expired(mark, false, self.time)
    }

    /// What is left of a word with this mark, which announces a route or not.
    pub fn left(&self, announces: bool, mark: u64) -> Left
        ensures { (held : Held) → is_route held ≡ announces
            → what_is_left result held ≡ left_of self.now (kept held mark) }
    {
        if mark >= self.wipes {
            self.left_at(self.mode, announces, mark, self.time)
        } else {
            self.left_of_stale(announces, mark)
        }
    }

    /// The same of a word that was said before all was retracted.
    fn left_of_stale(&self, announces: bool, mark: u64) -> Left
        requires { mark < self.now.wipes }
        ensures { (held : Held) → is_route held ≡ announces
            → what_is_left result held ≡ left_of self.now (kept held mark) }
    {
        match self.clock.found(mark, self.time) {
            Some(time) => self.left_at(Mode::Hold, announces, mark, time).retracted(),
            None => Left::Nothing,
        }
    }

    /// What is left at a time in a mode, were it not stale.
    fn left_at(&self, mode: Mode, announces: bool, mark: u64, time: u128) -> Left
        ensures { (held : Held) → is_route held ≡ announces → what_is_left result held
            ≡ left_at mode self.now.timing.factor time
            (word_kept self.now.timing (kept held mark)) }
    {
        if !self.clock.has_expired(mark, false, time) {
            Left::All
        } else if self
            .clock
            .has_expired(mark, lasts_twice(mode, announces), time)
        {
            Left::Nothing
        } else {
            Left::Unreachable
        }
    }
}

/// Whether something is left of a word for twice as long as it lasts, which announces a route or
/// not.
fn lasts_twice(mode: Mode, announces: bool) -> bool
    ensures { (factor : ℕ) (held : Held) → is_route held ≡ announces
        → (if result then 2 * factor else factor) ≡ times mode held * factor }
{
    match mode {
        Mode::Plain => false,
        Mode::Hold => announces,
    }
}
