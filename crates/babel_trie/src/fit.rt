//! How large a block can start at an address.
ghost use Rattle.std.specs.Prelude.{◌≡◌, ◌+◌, ◌^◌, ◌<◌, ◌≤◌};
ghost use Rattle.babel_trie.specs.Cut.{IsLargestFit};

/// The bits of the largest block that has at most one address more than this.
fn room_bits(above: u128) -> u32
    ensures fits { 2 ^ result ≤ above + 1 }
    ensures most { above + 1 < 2 ^ (result + 1) }
    ensures few { result ≤ 128 }
{
    match above.checked_add(1) {
        Some(size) => 127 - size.leading_zeros(),
        None => 128,
    }
}

/// In how many bits the addresses differ of the largest block that starts at this address and ends
/// at the last or before.
pub fn first_bits(at: u128, last: u128) -> u8
    requires { at ≤ last }
    ensures fit { IsLargestFit at last result }
    ensures few { result ≤ 128 }
{
    let room = room_bits(last - at);
    let aligned = at.trailing_zeros();
    if aligned < room {
        aligned as u8
    } else {
        room as u8
    }
}

/// The last address of a block.
pub fn last_address(start: u128, bits: u8) -> u128
    requires { start + 2 ^ bits ≤ 2 ^ 128 }
    ensures { result + 1 ≡ start + 2 ^ bits }
{
    if bits >= 128 {
        return u128::MAX;
    }
    start + ((1 << bits) - 1)
}
