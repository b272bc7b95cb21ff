ghost use Rattle.std.specs.Prelude.{◌+◌, ◌≤◌, length};

use crate::body::Body;
use babel_tlv::Writing;

/// The canonical octets of the pairs so far, in packets with bodies of at most `body` octets. The
/// last packet can still grow: its offset is known, and the length of its body, which its header
/// has.
#[derive(Drop)]
pub(crate) struct Text {
    pub body: Body,
    pub octets: Vec<u8>,
    pub at: usize,
    pub len: usize,
    pub writing: Writing,
    ghost placed: { at + 4 ≤ length octets.items },
}
