//! The rows of many senders, and when they end.
ghost use Rattle.std.specs.Prelude.{◌≡◌, ◌<◌, ◌≤◌, ◌⊎◌, ℕ, [], length, None, IfErr, IfNone, IfOk};
ghost use Rattle.std.specs.Prelude.{IfSome, IsSome, IsTrue, MatchOption, OnErr, OnOk, Some, ◌↔◌};
ghost use Rattle.std.specs.BTreeMap.{insert_entry, is_at};
ghost use Rattle.std.specs.BTreeMap.Range.{IsLeBy};
ghost use Rattle.std.specs.Map.{remove_entry};
ghost use Rattle.std.specs.Option.{is_some};
ghost use Rattle.babel_tlv.specs.Keys.{key_cmp};
ghost use Rattle.babel_tlv.specs.Route.{RouteKey};
ghost use Rattle.babel_timeline.specs.Changes.{TellsAnnouncement, ending};
ghost use Rattle.babel_timeline.specs.Kept.{AreQueued, IsBy, expiring};
ghost use Rattle.babel_timeline.specs.Places.{rows_of};
ghost use Rattle.babel_timeline.specs.Rows.{AllLast, EndsFirst, HasNone, HasNoneUpTo, IsFirstOf};
ghost use Rattle.babel_timeline.specs.Rows.{IsLastUpTo, row_at, subject_cmp};
ghost use Rattle.babel_timeline.specs.Silence.{row_count};
ghost use Rattle.babel_timeline.specs.declared.change.ChangeKind.TheVariants as kinds;
ghost use Rattle.babel_timeline.specs.declared.subject.Subject.{Subject as Of};

use crate::cells::Cells;
use crate::change::{Change, ChangeKind};
use crate::entry::Entry;
use crate::queue::{Expiry, Queue};
use crate::row::Row;
use crate::sender::Sender;
use crate::subject::Subject;
use babel_prefix::{Family, Prefix};
use babel_tlv::{Ann, Fault, Key};
use std::alloc::{AllocError, Global};
use std::marker::Model;

/// What many senders hold, and when each row of it ends.
///
/// Memory goes with the rows, and time with what is said and with what changes: each call takes the
/// logarithm of the number of rows at most. What is said again in the same order takes less.
#[derive(Drop)]
pub struct Timeline<S: Sender> {
    factor: Option<u64>,
    limit: u32,
    cells: Cells<S>,
    queue: Queue<S>,
}

impl<S: Sender> Model for Timeline<S> {
    ghost use Rattle.babel_timeline.specs.Kept.{IsKept};
    ghost use Rattle.babel_timeline.specs.Places.{rows_of};
    ghost use Rattle.babel_timeline.specs.Rows.{Held};

    ghost Value = { Held S };

    ghost view = { λ t. record { factor = t.factor; limit = t.limit; rows = rows_of t.cells } };

    ghost invariant = { λ t. IsKept S.cmp t.factor t.limit t.cells t.queue.expiries };
}

/// The first key of all.
fn first_key() -> Key
    ensures { (key : RouteKey) → IsLeBy key_cmp result key }
{
    let everywhere = Prefix::whole(Family::V4);
    Key::new(everywhere, everywhere).unwrap()
}

/// Whether two senders are one.
fn are_one<S: Sender>(sender: S, other: S) -> bool
    ensures { IsTrue result ↔ (sender ≡ other) }
{
    sender == other
}

/// For when a row is queued that is announced at this time and ends then, where it was queued
/// before. It stays where it is, if that is no later than its end; else it comes half the way
/// earlier than it must, so that ends that come ever sooner don't move it each time.
fn queued_for(now: u128, end: Option<u128>, queued: Option<u128>) -> Option<u128>
    ensures { (time : ℕ) → end ≡ Some time → IsBy time result }
{
    match (end, queued) {
        (Some(end), Some(queued)) => Some(if queued <= end {
            queued
        } else {
            end - end.saturating_sub(now) / 2
        }),
        (None, queued) => queued,
        (end, None) => end,
    }
}

/// What ends first, if by this time. What was queued for a time before its end is queued for that.
fn settle<S: Sender>(
    cells: &mut Cells<S>,
    queue: &mut Queue<S>,
    factor: Option<u64>,
    until: u128,
) -> Result<Option<Expiry<S>>, AllocError>
    requires { AreQueued S.cmp factor cells.old queue.old.expiries }
    ensures queued { AreQueued S.cmp factor cells.new queue.new.expiries }
    ensures same { rows_of cells.new ≡ rows_of cells.old }
    ensures none { IfOk result (λ first. IfNone first
        (AllLast S.cmp factor until (rows_of cells.new))) }
    ensures by { IfOk result (λ first. IfSome first (λ first. first.time ≤ until)) }
    ensures first { IfOk result (λ first. IfSome first (λ first.
        EndsFirst S.cmp factor (rows_of cells.new) (expiring first) first.time)) }
{
    while let Some(first) = queue.first_by(until) {
        let subject = first.subject();
        let entry = cells.find_at(queue.place(), &subject).unwrap();
        let row = entry.row;
        let end = row.end(factor);
        if entry.queued == end {
            return Ok(Some(first));
        }
        queue.move_to(&subject, entry.queued, end, cells.last())?;
        cells.replace(&subject, &Entry { row, queued: end });
    }
    Ok(None)
}

/// What announcing this changes, where the row was held before.
fn announced<S: Sender>(
    time: u128,
    subject: &Subject<S>,
    before: &Option<Row>,
    ann: &Ann,
) -> Option<Change<S>>
    ensures { TellsAnnouncement time subject.now before.now ann.now result }
{
    let kind = match before {
        None => ChangeKind::Announced(*ann),
        Some(row) => {
            if row.ann == *ann {
                return None;
            }
            ChangeKind::Changed {
                before: row.ann,
                now: *ann,
            }
        }
    };
    Some(Change {
        time,
        subject: *subject,
        kind,
    })
}

impl<S: Sender> Timeline<S> {
    /// No rows, of which there may be at most so many. What is said ends so many ten-millionths of
    /// its Interval later, or never without a factor.
    pub fn new(alloc: Global, factor: Option<u64>, limit: u32) -> Timeline<S>
        ensures { result ≡ record { factor = factor; limit = limit; rows = [] } }
    {
        Timeline {
            factor,
            limit,
            cells: Cells::new(alloc),
            queue: Queue::new(alloc),
        }
    }

    /// What is held for a subject.
    pub fn row(&self, subject: &Subject<S>) -> Option<Row>
        ensures { result ≡ row_at S.cmp self.now.rows subject.now }
    {
        let entry = self.cells.get(subject)?;
        Some(entry.row)
    }

    /// Whether rows end.
    pub(crate) fn has_factor(&self) -> bool
        ensures { result ≡ is_some self.now.factor }
    {
        self.factor.is_some()
    }

    /// Whether there may be one more row.
    fn is_full(&self) -> bool
        ensures { IsTrue result ↔ (self.now.limit ≤ length self.now.rows) }
    {
        self.limit as usize <= self.cells.len()
    }

    /// There are at most as many rows as may be.
    pub fn are_few(&self)
        ensures { length self.now.rows ≤ self.now.limit }
    {
        // For the proof: a field that is read has what the type keeps.
        let _ = &self.limit;
    }

    /// Holds this for a subject, and gives what was held.
    fn put(&mut self, subject: &Subject<S>, row: &Row) -> Result<Option<Row>, AllocError>
        requires room { row_at S.cmp self.old.rows subject.now ≡ None
            → length self.old.rows < self.old.limit }
        ensures row { IfOk result (λ before. before ≡ row_at S.cmp self.old.rows subject.now) }
        ensures ok { OnOk result (self.new ≡ record self.old {
          rows = insert_entry (subject_cmp S.cmp) self.old.rows subject.now row.now;
        }) }
        ensures err { OnErr result (self.new ≡ self.old) }
    {
        let row = *row;
        let end = row.end(self.factor);
        let Some(before) = self.cells.find(subject) else {
            self.cells.add(subject, &Entry { row, queued: end })?;
            let place = self.cells.last();
            return match self.queue.put(subject, end, place) {
                Ok(()) => Ok(None),
                Err(_) => {
                    self.cells.take(subject);
                    Err(AllocError)
                }
            };
        };
        let queued = queued_for(row.when.time(), end, before.queued);
        let place = self.cells.last();
        self.queue.move_to(subject, before.queued, queued, place)?;
        self.cells.replace(subject, &Entry { row, queued });
        Ok(Some(before.row))
    }

    /// Holds nothing for a subject, and gives what was held.
    pub(crate) fn take(&mut self, subject: &Subject<S>) -> Option<Row>
        ensures row { result ≡ row_at S.cmp self.old.rows subject.now }
        ensures rows { self.new ≡ record self.old {
          rows = remove_entry (is_at (subject_cmp S.cmp subject.now)) self.old.rows;
        } }
    {
        let entry = self.cells.take(subject)?;
        self.queue.take_out(subject, entry.queued);
        Some(entry.row)
    }

    /// Whether it is known that nothing ends by this time.
    pub(crate) fn is_quiet(&self, until: u128) -> bool
        ensures { IsTrue result → AllLast S.cmp self.now.factor until self.now.rows }
    {
        self.queue.is_quiet(until)
    }

    /// What ends first, if by this time.
    pub(crate) fn first_end(&mut self, until: u128) -> Result<Option<Expiry<S>>, AllocError>
        ensures same { self.new ≡ self.old }
        ensures none { IfOk result (λ first. IfNone first
            (AllLast S.cmp self.old.factor until self.old.rows)) }
        ensures by { IfOk result (λ first. IfSome first (λ first. first.time ≤ until)) }
        ensures first { IfOk result (λ first. IfSome first (λ first.
            EndsFirst S.cmp self.old.factor self.old.rows (expiring first) first.time)) }
    {
        if self.queue.is_quiet(until) {
            return Ok(None);
        }
        let last = self.cells.last();
        let first = settle(&mut self.cells, &mut self.queue, self.factor, until);
        self.cells.look_behind(last);
        first
    }

    /// The first of the subjects of a sender.
    fn first_of(&self, sender: S) -> Option<Subject<S>>
        ensures { MatchOption result (HasNone S.cmp sender self.now.rows)
            (IsFirstOf S.cmp sender self.now.rows) }
    {
        let key = first_key();
        let first = self.cells.first_from(Subject { sender, key })?;
        if are_one(first.sender, sender) {
            Some(first)
        } else {
            None
        }
    }

    /// How many rows a sender has.
    pub fn count_of(&self, sender: S) -> usize
        ensures { result ≡ row_count S.cmp sender self.now.rows }
    {
        let key = first_key();
        self.cells.count_from(Subject { sender, key })
    }

    /// Of what the sender holds for keys up to this one, what it holds for the last of them. Where
    /// the key is that of a pair of addresses, and rows are only of keys that contain both, this is
    /// their best match (RFC 9079, 4).
    pub fn last_of(&self, sender: S, most: &Key) -> Option<(Key, Row)>
        ensures { MatchOption result (HasNoneUpTo S.cmp sender most.now self.now.rows)
            (IsLastUpTo S.cmp sender most.now self.now.rows) }
    {
        let key = *most;
        let last = self.cells.last_up_to(Subject { sender, key })?;
        if are_one(last.sender, sender) {
            Some((last.key, self.row(&last).unwrap()))
        } else {
            None
        }
    }

    /// Takes it that a sender announces this for a key; tells what changes. The offset is that of
    /// the Update in its dump.
    #[inline(always)]
    pub fn announce(
        &mut self,
        subject: &Subject<S>,
        row: &Row,
        at: u64,
    ) -> Result<Option<Change<S>>, Fault>
        ensures ok { OnOk result (self.new ≡ record self.old {
          rows = insert_entry (subject_cmp S.cmp) self.old.rows subject.now row.now;
        }) }
        ensures told { IfOk result (TellsAnnouncement row.now.when.time subject.now
            (row_at S.cmp self.old.rows subject.now) row.now.ann) }

        // It is refused where there would be more rows than may be, or memory ran out.
        ensures refused { IfErr result (λ fault. (fault ≡ Fault.Memory)
            ⊎ ((fault ≡ Fault.TooManyRoutes at)
            × (row_at S.cmp self.old.rows subject.now ≡ None)
            × (self.old.limit ≤ length self.old.rows))) }
        ensures err { OnErr result (self.new ≡ self.old) }
    {
        if self.is_full() && self.row(subject).is_none() {
            return Err(Fault::TooManyRoutes { at });
        }
        let before = self.put(subject, row)?;
        Ok(announced(row.when.time(), subject, &before, &row.ann))
    }

    /// Takes it that a sender retracts a key at this time; tells what changes.
    pub fn retract(&mut self, subject: &Subject<S>, time: u128) -> Option<Change<S>>
        ensures rows { self.new ≡ record self.old {
          rows = remove_entry (is_at (subject_cmp S.cmp subject.now)) self.old.rows;
        } }
        ensures told { result ≡ ending kinds.Retracted time subject.now
            (row_at S.cmp self.old.rows subject.now) }
    {
        let row = self.take(subject)?;
        Some(Change {
            time,
            subject: *subject,
            kind: ChangeKind::Retracted(row.ann),
        })
    }

    /// Where a sender retracts all at this time, takes it that it retracts the first of its keys;
    /// tells what changes. `None` once there is no such key.
    pub fn retract_next(&mut self, sender: S, time: u128) -> Option<Change<S>>
        ensures none { IfNone result (HasNone S.cmp sender self.old.rows) }
        ensures same { IfNone result (self.new ≡ self.old) }
        ensures first { IfSome result (λ told. IsFirstOf S.cmp sender self.old.rows told.subject) }
        ensures told { IfSome result (λ told. Some told
            ≡ ending kinds.Retracted time told.subject (row_at S.cmp self.old.rows told.subject)) }
        ensures rows { IfSome result (λ told. self.new ≡ record self.old {
          rows = remove_entry (is_at (subject_cmp S.cmp told.subject)) self.old.rows;
        }) }
    {
        let subject = self.first_of(sender)?;
        let row = self.take(&subject).unwrap();
        Some(Change {
            time,
            subject,
            kind: ChangeKind::Retracted(row.ann),
        })
    }

    /// Takes what expires next, if by this time; tells what changes. Of one time it is told by key,
    /// then by sender.
    pub fn expire_next(&mut self, until: u128) -> Result<Option<Change<S>>, AllocError>
        ensures err { OnErr result (self.new ≡ self.old) }
        ensures none { IfOk result (λ told. IfNone told
            (AllLast S.cmp self.old.factor until self.old.rows)) }
        ensures same { IfOk result (λ told. IfNone told (self.new ≡ self.old)) }
        ensures by { IfOk result (λ told. IfSome told (λ told. told.time ≤ until)) }
        ensures first { IfOk result (λ told. IfSome told (λ told.
            EndsFirst S.cmp self.old.factor self.old.rows told.subject told.time)) }
        ensures told { IfOk result (λ told. IfSome told (λ told. Some told ≡ ending kinds.Expired
            told.time told.subject (row_at S.cmp self.old.rows told.subject))) }
        ensures rows { IfOk result (λ told. IfSome told (λ told. self.new ≡ record self.old {
          rows = remove_entry (is_at (subject_cmp S.cmp told.subject)) self.old.rows;
        })) }
    {
        let Some(first) = self.first_end(until)? else {
            return Ok(None);
        };
        let subject = first.subject();
        let row = self.take(&subject).unwrap();
        Ok(Some(Change {
            time: first.time,
            subject,
            kind: ChangeKind::Expired(row.ann),
        }))
    }
}
