ghost use Rattle.std.specs.Prelude.{◌≡◌, ◌+◌, ◌^◌, ◌<◌, IfOk, OnErr, false};
ghost use Rattle.std.specs.Map.{values_of};
ghost use Rattle.babel_capture.specs.Fragments.{begins, is_of_another, is_open, step_in};
ghost use Rattle.babel_capture.specs.Fragments.{step_to_other, step_to_settled, step_to_whole};
ghost use Rattle.babel_capture.specs.Fragments.{lost_sight, stepped, whole_sight};
ghost use Rattle.babel_capture.specs.Passage.{is_lost};
ghost use Rattle.babel_capture.specs.Pieces.{fragment_of, joined, meeting};
ghost use Rattle.babel_capture.specs.Sight.{sight_of};
ghost use Rattle.babel_capture.specs.declared.datagram.Standing.TheVariants as standings;
ghost use Rattle.babel_capture.specs.declared.pieces.Meeting.TheVariants as meetings;

use crate::fragment::{DatagramId, Fragment, UdpPlace};
use crate::part::Part;
use crate::pieces::{Meeting, Pieces};
use crate::seen::Seen;
use crate::udp::{look_at_lost, look_into_udp};
use std::alloc::{AllocError, Global};

/// A datagram that comes in fragments.
#[derive(Drop)]
pub(crate) struct Datagram {
    pub(crate) id: DatagramId,
    /// The offset of the block that has the first fragment to come.
    pub(crate) at: u64,
    /// The latest time that was read when that came, in nanoseconds since the start of 1970.
    pub(crate) came: u128,
    /// Whether the time for which it is known ends within the window.
    pub(crate) ends_within: bool,
    /// Whether that goes to a group of Babel, and says that it is of UDP.
    pub(crate) is_to_group: bool,
    /// Where UDP begins, if its first fragment came.
    pub(crate) udp: Option<UdpPlace>,
    pub(crate) standing: Standing,
    pub(crate) pieces: Pieces,
}

/// How a datagram stands.
#[derive(Clone, Copy)]
pub(crate) enum Standing {
    /// Fragments of it are missing.
    Open,
    /// It is whole.
    Whole,
    /// Fragments of it overlap, so that it is dropped: RFC 5722, 4.
    Dropped,
    /// It is none of Babel's, as its first fragment says.
    Other,
}

/// What a fragment is to the datagrams that are known.
#[derive(Clone, Copy)]
pub(crate) enum Step {
    /// It repeats another, or its datagram was dropped, or is none of Babel's.
    Ignored,
    /// It is one more of a datagram, which lacks others still.
    Added,
    /// It is the last that was missing.
    Completes,
    /// It overlaps others, so that the datagram is dropped.
    Overlaps,
    /// It begins a datagram.
    Anew,
}

/// Whether the fragment is the first one of a datagram that is not Babel's.
pub(crate) fn is_of_another(fragment: &Fragment<'_>) -> bool
    ensures { result ≡ is_of_another (fragment_of fragment.now) }
{
    fragment.offset == 0 && fragment.udp.is_none()
}

/// What one that meets the others so is to a datagram that is whole.
fn step_to_whole(meeting: Meeting) -> Step
    ensures { result ≡ step_to_whole meeting }
{
    match meeting {
        Meeting::Repeats => Step::Ignored,
        Meeting::Overlaps | Meeting::Apart => Step::Anew,
    }
}

/// What one is to a datagram that is none of Babel's.
fn step_to_other(fragment: &Fragment<'_>) -> Step
    ensures { result ≡ step_to_other (fragment_of fragment.now) }
{
    if fragment.udp.is_some() {
        Step::Anew
    } else {
        Step::Ignored
    }
}

impl Datagram {
    /// Whether fragments of it are missing.
    fn is_open(&self) -> bool
        ensures { result ≡ is_open self.now.standing }
    {
        matches!(self.standing, Standing::Open)
    }

    /// Whether fragments of it are missing, and it counts within the window.
    pub(crate) fn is_lost(&self) -> bool
        ensures { result ≡ is_lost self.now }
    {
        self.is_open() && self.ends_within
    }

    /// One of which a fragment came then, in the block at this offset. If that says that it is none
    /// of Babel's, nothing of it is kept.
    pub(crate) fn new(
        alloc: Global,
        at: u64,
        came: u128,
        ends_within: bool,
        fragment: &Fragment<'_>,
    ) -> Result<Datagram, AllocError>
        requires { fragment.now.offset + fragment.now.len < 2 ^ 16 }
        ensures datagram { IfOk result
            (λ datagram. datagram ≡ begins at came ends_within (fragment_of fragment.now)) }
        ensures id { IfOk result (λ datagram. datagram.id ≡ fragment.now.id) }
    {
        let mut datagram = Datagram {
            id: fragment.id,
            at,
            came,
            ends_within,
            is_to_group: fragment.is_to_group,
            udp: fragment.udp,
            standing: Standing::Other,
            pieces: Pieces::new(alloc),
        };
        if is_of_another(fragment) {
            return Ok(datagram);
        }
        datagram.standing = Standing::Open;
        datagram.pieces.add(alloc, fragment)?;
        Ok(datagram)
    }

    /// What it is where fragments of it are missing: as the first one tells or, without that, as
    /// its group does.
    pub(crate) fn look_lost(&self) -> Seen<'static>
        ensures { sight_of result ≡ lost_sight self.now }
    {
        let place = self.id.origin.place;
        let ends = self.id.ends();
        match self.udp {
            Some(udp) => look_at_lost(place, &ends, udp.is_of_routers),
            None => {
                if self.is_to_group {
                    look_at_lost(place, &ends, true)
                } else {
                    Seen::Other
                }
            }
        }
    }

    /// What it is where it is whole, of these octets.
    pub(crate) fn look_whole<'a>(&self, octets: &'a [u8]) -> Seen<'a>
        requires { octets.now ≡ joined (values_of self.now.pieces) }
        ensures { sight_of result ≡ whole_sight self.now }
    {
        let Some(udp) = self.udp else {
            return Seen::Other;
        };
        let whole = Part {
            octets,
            whole: self.pieces.end() as usize,
        };
        look_into_udp(
            self.id.origin.place,
            &self.id.ends(),
            false,
            whole.after(udp.at as usize),
        )
    }

    /// What a fragment is to it, where it lacks none or was dropped.
    pub(crate) fn settled_step(&self, fragment: &Fragment<'_>) -> Step
        requires { fragment.now.offset + fragment.now.len < 2 ^ 16 }
        ensures { result ≡ step_to_settled self.now (fragment_of fragment.now)
            self.now.standing }
    {
        match self.standing {
            Standing::Whole => step_to_whole(self.pieces.meeting(fragment)),
            Standing::Other => step_to_other(fragment),
            Standing::Dropped | Standing::Open => Step::Ignored,
        }
    }

    /// Takes one fragment more of it.
    pub(crate) fn take(
        &mut self,
        alloc: Global,
        fragment: &Fragment<'_>,
    ) -> Result<Step, AllocError>
        requires { fragment.now.offset + fragment.now.len < 2 ^ 16 }
        ensures step { IfOk result (λ step. step ≡ step_in self.old (fragment_of fragment.now)) }
        ensures stepped { IfOk result (λ step. self.new
            ≡ stepped self.old (fragment_of fragment.now) step) }
        ensures err { OnErr result (self.new ≡ self.old) }
    {
        match self.standing {
            Standing::Open => self.take_open(alloc, fragment),
            _ => Ok(self.settled_step(fragment)),
        }
    }

    /// Takes one fragment more, where some are missing.
    fn take_open(&mut self, alloc: Global, fragment: &Fragment<'_>) -> Result<Step, AllocError>
        requires fits { fragment.now.offset + fragment.now.len < 2 ^ 16 }
        requires open { self.old.standing ≡ standings.Open }
        ensures step { IfOk result (λ step. step ≡ step_in self.old (fragment_of fragment.now)) }
        ensures stepped { IfOk result (λ step. self.new
            ≡ stepped self.old (fragment_of fragment.now) step) }
        ensures err { OnErr result (self.new ≡ self.old) }
    {
        let meeting = self.pieces.meeting(fragment);
        if let Meeting::Repeats = meeting {
            return Ok(Step::Ignored);
        }
        if is_of_another(fragment) {
            return Ok(Step::Anew);
        }
        if let Meeting::Overlaps = meeting {
            self.standing = Standing::Dropped;
            return Ok(Step::Overlaps);
        }
        self.add(alloc, fragment)
    }

    /// Adds a fragment that stands apart from those that came.
    fn add(&mut self, alloc: Global, fragment: &Fragment<'_>) -> Result<Step, AllocError>
        requires fits { fragment.now.offset + fragment.now.len < 2 ^ 16 }
        requires open { self.old.standing ≡ standings.Open }
        requires apart { meeting self.old.pieces (fragment_of fragment.now) ≡ meetings.Apart }
        requires own { is_of_another (fragment_of fragment.now) ≡ false }
        ensures step { IfOk result (λ step. step ≡ step_in self.old (fragment_of fragment.now)) }
        ensures stepped { IfOk result (λ step. self.new
            ≡ stepped self.old (fragment_of fragment.now) step) }
        ensures err { OnErr result (self.new ≡ self.old) }
    {
        self.pieces.add(alloc, fragment)?;
        self.udp = fragment.udp.or(self.udp);
        if self.pieces.is_whole() {
            self.standing = Standing::Whole;
            Ok(Step::Completes)
        } else {
            Ok(Step::Added)
        }
    }
}
