ghost use Rattle.std.specs.Prelude.{◌≡◌, ◌+◌, ◌^◌, ◌<◌, ◌≤◌, [], ℕ, IfNone, IfOk, IfSome, IsSome};
ghost use Rattle.std.specs.Prelude.{None, OnErr, OnOk, Some};
ghost use Rattle.std.specs.BTreeMap.{get, insert_entry};
ghost use Rattle.std.specs.List.{list_any};
ghost use Rattle.std.specs.Map.{values_of};
ghost use Rattle.std.specs.Ordering.{nat_cmp};
ghost use Rattle.babel_capture.specs.Pieces.{KeptPiece, fragment_of, furthest, is_same, is_whole};
ghost use Rattle.babel_capture.specs.Pieces.{joined, len_of, meeting, overlaps, piece_of, share};
ghost use Rattle.babel_capture.specs.declared.pieces.Meeting.TheVariants as meetings;

use crate::fragment::Fragment;
use std::alloc::{AllocError, Global};
use std::collections::BTreeMap;
use std::marker::Model;

/// A fragment as it is kept.
#[derive(Drop)]
struct Piece {
    more: bool,
    len: u16,
    octets: Vec<u8>,
}

impl Model for Piece {
    ghost use Rattle.babel_capture.specs.Pieces.{KeptPiece};

    ghost Value = { KeptPiece };

    ghost view = { λ p. record { more = p.more; len = p.len; octets = p.octets.items } };
}

/// The fragments of one datagram that came, none of which overlap.
#[derive(Drop)]
pub(crate) struct Pieces {
    by_offset: BTreeMap<u16, Piece>,
    /// How many octets of the datagram they had.
    len: u16,
    /// Where in the datagram the furthest of them ends.
    end: u16,
    /// Whether one of them is the last one.
    has_last: bool,
}

impl Model for Pieces {
    ghost use Rattle.babel_capture.specs.Keeping.{AreKept};
    ghost use Rattle.babel_capture.specs.Pieces.{KeptPieces};

    ghost Value = { KeptPieces };

    ghost view = { λ p. p.by_offset.entries };

    ghost invariant = { λ p. AreKept p.by_offset.entries p.len p.end p.has_last };
}

/// How one fragment more stands to those that came.
#[derive(Clone, Copy)]
pub(crate) enum Meeting {
    /// It stands apart from each of them.
    Apart,
    /// It repeats one of them, octet by octet.
    Repeats,
    /// It overlaps one of them.
    Overlaps,
}

impl Piece {
    /// Keeps a fragment.
    fn new(alloc: Global, fragment: &Fragment<'_>) -> Result<Piece, AllocError>
        ensures { IfOk result (λ piece. piece ≡ piece_of (fragment_of fragment.now)) }
    {
        let octets = Vec::from_slice(alloc, fragment.octets)?;
        Ok(Piece {
            more: fragment.more,
            len: fragment.len,
            octets,
        })
    }

    /// Whether the fragment is the same, octet by octet.
    fn is_same(&self, fragment: &Fragment<'_>) -> bool
        ensures { result ≡ is_same self.now (piece_of (fragment_of fragment.now)) }
    {
        self.more == fragment.more
            && self.len == fragment.len
            && self.octets.as_slice() == fragment.octets
    }
}

/// Where the last of these begins that begins before this place, and how many octets it had.
fn last_before(pieces: &BTreeMap<u16, Piece>, end: u16) -> Option<(u16, u16)>
    ensures none { IfNone result ((at : ℕ) → at < end → get nat_cmp pieces.now at ≡ None) }
    ensures some { IfSome result (λ last. (piece : KeptPiece) × (last.0 < end)
        × (get nat_cmp pieces.now last.0 ≡ Some piece) × (piece.len ≡ last.1)) }
    ensures greatest { IfSome result (λ last. (at : ℕ) → at < end
        → IsSome (get nat_cmp pieces.now at) → at ≤ last.0) }
{
    let (at, piece) = pieces.range(..end).next_back()?;
    Some((*at, piece.len))
}

impl Pieces {
    /// None came.
    pub(crate) fn new(alloc: Global) -> Pieces
        ensures { result ≡ [] }
    {
        Pieces {
            by_offset: BTreeMap::new(alloc),
            len: 0,
            end: 0,
            has_last: false,
        }
    }

    /// How many octets of the datagram they had.
    pub(crate) fn len(&self) -> u16
        ensures { result ≡ len_of self.now }
    {
        self.len
    }

    /// Where in the datagram the furthest of them ends.
    pub(crate) fn end(&self) -> u16
        ensures { result ≡ furthest self.now }
    {
        self.end
    }

    /// Whether the datagram is whole.
    pub(crate) fn is_whole(&self) -> bool
        ensures { result ≡ is_whole self.now }
    {
        self.has_last && self.len == self.end
    }

    /// Whether one of them shares octets with the fragment.
    fn shares(&self, fragment: &Fragment<'_>) -> bool
        requires { fragment.now.offset + fragment.now.len < 2 ^ 16 }
        ensures { result ≡ list_any
            (share (fragment.now.offset, piece_of (fragment_of fragment.now))) self.now }
    {
        match last_before(&self.by_offset, fragment.offset + fragment.len) {
            None => false,
            Some((at, len)) => u32::from(fragment.offset) < u32::from(at) + u32::from(len),
        }
    }

    /// Whether the fragment overlaps them.
    fn overlaps(&self, fragment: &Fragment<'_>) -> bool
        requires { fragment.now.offset + fragment.now.len < 2 ^ 16 }
        ensures { result ≡ overlaps self.now
            (fragment.now.offset, piece_of (fragment_of fragment.now)) }
    {
        let end = fragment.offset + fragment.len;
        if self.shares(fragment) {
            return true;
        }
        if self.has_last {
            !fragment.more || self.end < end
        } else {
            !fragment.more && end < self.end
        }
    }

    /// How the fragment stands to them.
    pub(crate) fn meeting(&self, fragment: &Fragment<'_>) -> Meeting
        requires { fragment.now.offset + fragment.now.len < 2 ^ 16 }
        ensures { result ≡ meeting self.now (fragment_of fragment.now) }
    {
        match self.by_offset.get(&fragment.offset) {
            Some(piece) => {
                if piece.is_same(fragment) {
                    Meeting::Repeats
                } else {
                    Meeting::Overlaps
                }
            }
            None => {
                if self.overlaps(fragment) {
                    Meeting::Overlaps
                } else {
                    Meeting::Apart
                }
            }
        }
    }

    /// Adds a fragment that stands apart from them.
    pub(crate) fn add(&mut self, alloc: Global, fragment: &Fragment<'_>) -> Result<(), AllocError>
        requires fits { fragment.now.offset + fragment.now.len < 2 ^ 16 }
        requires apart { meeting self.old (fragment_of fragment.now) ≡ meetings.Apart }
        ensures ok { OnOk result (self.new
            ≡ insert_entry nat_cmp self.old fragment.now.offset
            (piece_of (fragment_of fragment.now))) }
        ensures len { OnOk result (len_of self.new ≡ len_of self.old + fragment.now.len) }
        ensures err { OnErr result (self.new ≡ self.old) }
    {
        let piece = Piece::new(alloc, fragment)?;
        if self.by_offset.insert(fragment.offset, piece).is_err() {
            return Err(AllocError);
        }
        self.len += fragment.len;
        self.end = self.end.max(fragment.offset + fragment.len);
        if !fragment.more {
            self.has_last = true;
        }
        Ok(())
    }

    /// The octets of the datagram, up to the first that the recorder did not keep.
    pub(crate) fn joined(&self, alloc: Global) -> Result<Vec<u8>, AllocError>
        ensures { IfOk result (λ octets. octets.items ≡ joined (values_of self.now)) }
    {
        let mut octets = Vec::new(alloc);
        for piece in self.by_offset.values() {
            octets.extend_from_slice(&piece.octets)?;
            if piece.octets.len() < piece.len as usize {
                break;
            }
        }
        Ok(octets)
    }
}
