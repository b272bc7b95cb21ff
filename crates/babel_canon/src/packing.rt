//! The canonical text of pairs, written as they come. It is canonical after each pair, since the
//! length in the last packet's header is written anew with each: nothing is left to close.
ghost use Rattle.std.specs.Prelude.{◌≡◌, ◌+◌, ◌≤◌, ◌++◌, ◌∷◌, ℕ, List, [], length, IfOk, OnOk};
ghost use Rattle.babel_tlv.specs.Group.{IsCanonicalText};
ghost use Rattle.babel_tlv.specs.Writing.{written_after};
ghost use Rattle.babel_tlv.specs.Pair.{Pair};
ghost use Rattle.babel_canon.specs.Packing.{HasLength, headed};
ghost use Rattle.babel_canon.specs.Writing.{IsTextOf};

use crate::body::Body;
use crate::text::Text;
use babel_tlv::{Held, Key, MAGIC, VERSION, Writing, put_group};
use byteorder::{ByteOrder, NetworkEndian};
use std::alloc::{AllocError, Global};

/// How many octets are kept ready for each pair: an Update with a short prefix has fewer, and a
/// text with longer ones grows.
const ROOM: usize = 24;

/// The header of a packet with an empty body.
const HEADER: [u8; 4] = [MAGIC, VERSION, 0, 0];

/// Writes the length of a body into the header at `at`.
fn set_body_len(text: &mut Vec<u8>, at: usize, len: u16)
    requires { at + 4 ≤ length text.now.items }
    ensures says { HasLength at len text.old.items text.new.items }
    ensures len { length text.new.items ≡ length text.old.items }
{
    NetworkEndian::write_u16(&mut text[at + 2..], len);
}

impl Text {
    /// The text of no pairs, with room for this many.
    pub(crate) fn new(alloc: Global, body: Body, pairs: usize) -> Result<Text, AllocError>
        ensures { IfOk result (λ text. IsTextOf body text []) }
    {
        let mut octets = Vec::with_capacity(alloc, pairs.saturating_mul(ROOM))?;
        octets.extend_from_slice(&HEADER)?;
        Ok(Text {
            body,
            octets,
            at: 0,
            len: 0,
            writing: Writing::new(),
        })
    }

    /// Begins a packet.
    fn begin(&mut self) -> Result<(), AllocError>
        ensures octets { OnOk result
            (self.new.octets.items ≡ self.old.octets.items ++ headed 0 []) }
        ensures at { OnOk result (self.new.at ≡ length self.old.octets.items) }
        ensures len { OnOk result (self.new.len ≡ 0) }
        ensures writing { OnOk result (self.new.writing ≡ written_after []) }
        ensures body { OnOk result (self.new.body ≡ self.old.body) }
    {
        let at = self.octets.len();
        self.octets.extend_from_slice(&HEADER)?;
        self.at = at;
        self.len = 0;
        self.writing = Writing::new();
        Ok(())
    }

    /// Puts a group after the others of the packet.
    fn append(&mut self, group: &[u8]) -> Result<(), AllocError>
        requires { self.old.len + length group.now ≤ 65535 }
        ensures octets { OnOk result ((front body : List ℕ) → length front ≡ self.old.at
            → self.old.octets.items ≡ front ++ headed self.old.len body
            → self.new.octets.items ≡ front ++ headed self.new.len (body ++ group.now)) }
        ensures at { OnOk result (self.new.at ≡ self.old.at) }
        ensures len { OnOk result (self.new.len ≡ self.old.len + length group.now) }
        ensures writing { OnOk result (self.new.writing ≡ self.old.writing) }
        ensures body { OnOk result (self.new.body ≡ self.old.body) }
    {
        self.octets.extend_from_slice(group)?;
        self.len += group.len();
        set_body_len(&mut self.octets, self.at, self.len as u16);
        Ok(())
    }

    /// Puts the group of a pair after the others, in a new packet where the last one has no room
    /// for it.
    pub(crate) fn push(&mut self, key: &Key, held: &Held) -> Result<(), AllocError>
        ensures { OnOk result ((body : ℕ) (pairs : List Pair) → IsTextOf body self.old pairs
            → IsTextOf body self.new (pairs ++ (key.now, held.now) ∷ [])) }
    {
        let limit = self.body.octets() as usize;
        let group = put_group(&mut self.writing, key, held);
        if limit < self.len.saturating_add(group.len()) {
            self.begin()?;
            let group = put_group(&mut self.writing, key, held);
            self.append(&group)?;
            return Ok(());
        }
        self.append(&group)?;
        Ok(())
    }

    /// The octets of the text.
    pub(crate) fn into_octets(self) -> Vec<u8>
        ensures { (body : ℕ) (pairs : List Pair) → IsTextOf body self pairs
            → IsCanonicalText body pairs result.items }
    {
        let Text { octets, len, .. } = self;
        let mut octets = octets;
        if len == 0 {
            octets.clear();
        }
        octets
    }
}

/// The canonical octets of pairs, in packets with bodies of at most this many octets.
pub(crate) fn write_text(
    alloc: Global,
    body: Body,
    pairs: &[(Key, Held)],
) -> Result<Vec<u8>, AllocError>
    ensures { IfOk result (λ text. IsCanonicalText body pairs.now text.items) }
{
    let mut text = Text::new(alloc, body, pairs.len())?;
    for (key, held) in pairs {
        text.push(key, held)?;
    }
    Ok(text.into_octets())
}
