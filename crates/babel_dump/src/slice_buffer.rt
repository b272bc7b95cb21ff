ghost use Rattle.std.specs.Prelude.{◌≡◌, ◌≤◌, [], IfOk, vec_capacity};

use std::alloc::{AllocError, Global};

/// So many octets are written at once, or fewer by less than a line.
const SLICE: usize = 65_536;

/// No line is longer, in octets, and no three lines of a difference are. The longest but for the
/// name of an interface, which has room of its own, is the end of an object of `events`, of 1,866
/// at most: a change of a route with an IPv6 next hop, for two IPv6 prefixes, with four names.
pub(crate) const LONGEST_LINE: usize = 2_048;

/// An empty buffer that has room for a slice of a text, and so for a line.
pub(crate) fn slice_buffer(alloc: Global) -> Result<Vec<u8>, AllocError>
    ensures empty { IfOk result (λ buffer. buffer.items ≡ []) }
    ensures room { IfOk result (λ buffer. 2048 ≤ vec_capacity buffer) }
{
    Ok(Vec::with_capacity(alloc, SLICE)?)
}
