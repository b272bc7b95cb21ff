//! From which moment on it is told what changes.
ghost use Rattle.std.specs.Prelude.{◌≡◌, ◌++◌, ◌∷◌, List, [], None, Some, OnOk, map};
ghost use Rattle.std.specs.Prelude.{if◌then◌else◌, false, is_ok};
ghost use Rattle.std.specs.BTreeMap.{is_at};
ghost use Rattle.std.specs.List.Sorted.{IsStrictlySortedBy};
ghost use Rattle.std.specs.Map.{keys_of, lookup};
ghost use Rattle.std.specs.Option.{option_or};
ghost use Rattle.babel_timeline.specs.declared.telling.Telling.{Telling as TellingSaid};
ghost use Rattle.babel_dump.specs.EventsRun.{answer_told, has_come, is_from, since_at};
ghost use Rattle.babel_dump.specs.EventsRun.{told_early, told_from};
ghost use Rattle.babel_dump.specs.Followed.{ComesBy, HasAnswers, TellsThen};
ghost use Rattle.babel_dump.specs.Speakers.{speaker_cmp};
ghost use Rattle.babel_dump.specs.declared.speaker.Speaker.{Speaker as SpeakerSaid};

use crate::moment_words::moment_from;
use crate::push_event::time_of;
use crate::speaker::Speaker;
use babel_capture::{Moment, Time};
use babel_timeline::{BestMatch, Telling};
use std::alloc::{AllocError, Global};
use std::collections::BTreeMap;

/// From which moment on it is told what changes, and what was answered before it.
#[derive(Drop)]
pub(crate) struct Since {
    /// The moment, if there is one, once it is known.
    moment: Option<u128>,
    /// Whether it has come.
    has_come: bool,
    /// What each sender answered last before it.
    answers: BTreeMap<Speaker, BestMatch>,
}

/// The moment, of a capture whose first packet came then.
fn since_at(since: Option<Moment>, first: Option<Time>) -> Option<u128>
    ensures { result ≡ since_at since first }
{
    let since = since?;
    Some(moment_from(first?, since))
}

/// Whether a moment has come by this time.
fn has_come(moment: u128, time: Option<u128>) -> bool
    ensures { result ≡ has_come (Some moment) time }
{
    match time {
        Some(time) => moment <= time,
        None => false,
    }
}

/// Adds what was told: nothing, of most records.
#[inline(always)]
pub(crate) fn append(
    told: &mut Vec<Telling<Speaker>>,
    more: &[Telling<Speaker>],
) -> Result<(), AllocError>
    ensures items { told.new.items
        ≡ (if is_ok result then told.old.items ++ more.now else told.old.items) }
{
    if more.is_empty() {
        return Ok(());
    }
    told.extend_from_slice(more)
}

/// Adds what was told of this moment or later.
fn add_from(
    moment: u128,
    heard: &[Telling<Speaker>],
    told: &mut Vec<Telling<Speaker>>,
) -> Result<(), AllocError>
    ensures { OnOk result (told.new.items ≡ told.old.items ++ told_from (Some moment) heard.now) }
{
    for telling in heard {
        if moment <= time_of(telling) {
            told.push(*telling)?;
        }
    }
    Ok(())
}

impl Since {
    /// No moment is known.
    pub(crate) fn new(alloc: Global) -> Since
        ensures moment { result.moment ≡ None }
        ensures come { result.has_come ≡ false }
        ensures answers { result.answers.entries ≡ [] }
    {
        Since {
            moment: None,
            has_come: false,
            answers: BTreeMap::new(alloc),
        }
    }

    /// Takes it that a record came then: a moment counts from the first that has a time.
    #[inline(always)]
    pub(crate) fn begin(&mut self, since: Option<Moment>, came: Option<Time>)
        ensures same { (self.new.has_come ≡ self.old.has_come)
            × (self.new.answers ≡ self.old.answers) }
        ensures moment { self.new.moment ≡ option_or self.old.moment (since_at since came) }
    {
        self.moment = self.moment.or(since_at(since, came));
    }

    /// Whether a time is of the moment or later, where there is one.
    pub(crate) fn is_from(&self, time: u128) -> bool
        ensures { result ≡ is_from self.now.moment time }
    {
        match self.moment {
            Some(moment) => moment <= time,
            None => true,
        }
    }

    /// Takes what a sender answers.
    fn put(&mut self, sender: Speaker, answer: Option<BestMatch>) -> Result<(), AllocError>
        ensures same { (self.new.moment ≡ self.old.moment)
            × (self.new.has_come ≡ self.old.has_come) }
        ensures answers { OnOk result ((speaker : SpeakerSaid)
            → lookup (is_at (speaker_cmp speaker)) self.new.answers.entries
            ≡ (if is_at (speaker_cmp speaker) sender then answer
            else lookup (is_at (speaker_cmp speaker)) self.old.answers.entries)) }
    {
        match answer {
            Some(best) => match self.answers.insert(sender, best) {
                Ok(_) => Ok(()),
                Err(_) => Err(AllocError),
            },
            None => {
                self.answers.remove(&sender);
                Ok(())
            }
        }
    }

    /// Takes it if it was answered before the moment.
    fn keep(&mut self, moment: u128, told: &Telling<Speaker>) -> Result<(), AllocError>
        ensures same { (self.new.moment ≡ self.old.moment)
            × (self.new.has_come ≡ self.old.has_come) }
        ensures answers { OnOk result ((earlier : List (TellingSaid SpeakerSaid))
            → HasAnswers earlier self.old
            → HasAnswers (earlier ++ told_early (Some moment) (told.now ∷ [])) self.new) }
    {
        match told {
            Telling::Change(_) => Ok(()),
            Telling::Request { .. } => Ok(()),
            Telling::Silent { .. } => Ok(()),
            Telling::Returns { .. } => Ok(()),
            Telling::Answer {
                time,
                sender,
                answer,
                ..
            } => {
                if moment <= *time {
                    return Ok(());
                }
                self.put(*sender, *answer)
            }
        }
    }

    /// Takes what was answered before the moment.
    fn keep_early(&mut self, moment: u128, heard: &[Telling<Speaker>]) -> Result<(), AllocError>
        ensures same { (self.new.moment ≡ self.old.moment)
            × (self.new.has_come ≡ self.old.has_come) }
        ensures answers { OnOk result ((earlier : List (TellingSaid SpeakerSaid))
            → HasAnswers earlier self.old
            → HasAnswers (earlier ++ told_early (Some moment) heard.now) self.new) }
    {
        for telling in heard {
            self.keep(moment, telling)?;
        }
        Ok(())
    }

    /// Adds what senders answered last before the moment, told at it.
    fn open(&self, moment: u128, told: &mut Vec<Telling<Speaker>>) -> Result<(), AllocError>
        ensures rising { IsStrictlySortedBy speaker_cmp (keys_of self.now.answers.entries) }
        ensures told { OnOk result (told.new.items
            ≡ told.old.items ++ map (answer_told moment) self.now.answers.entries) }
    {
        for (sender, best) in self.answers.iter() {
            Telling::add_route(told, moment, *sender, best)?;
        }
        Ok(())
    }

    /// Takes what was answered before the moment, of what was told up to this time. Where the moment
    /// comes, adds what was answered just before it.
    fn come(
        &mut self,
        moment: u128,
        time: Option<u128>,
        heard: &[Telling<Speaker>],
        told: &mut Vec<Telling<Speaker>>,
    ) -> Result<(), AllocError>
        requires { told.old.items ≡ [] }
        ensures { OnOk result (ComesBy moment time self.old heard.now self.new told.new.items) }
    {
        if self.has_come {
            return Ok(());
        }
        self.keep_early(moment, heard)?;
        if !has_come(moment, time) {
            return Ok(());
        }
        self.has_come = true;
        self.open(moment, told)
    }

    /// Takes what was told, and up to which time; adds what of it was told of the moment or later,
    /// and before that, where the moment comes, what was answered just before it.
    #[inline(always)]
    pub(crate) fn take(
        &mut self,
        time: Option<u128>,
        heard: &[Telling<Speaker>],
        told: &mut Vec<Telling<Speaker>>,
    ) -> Result<(), AllocError>
        requires { told.old.items ≡ [] }
        ensures { OnOk result (TellsThen time self.old heard.now self.new told.new.items) }
    {
        let Some(moment) = self.moment else {
            append(told, heard)?;
            return Ok(());
        };
        self.come(moment, time, heard, told)?;
        add_from(moment, heard, told)
    }
}
