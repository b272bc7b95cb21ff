//! Addresses and prefixes, appended octet by octet to a buffer that has room for them.
ghost use Rattle.std.specs.Prelude.{◌≡◌, ◌+◌, ℕ, false, List, ◌∷◌, [], ◌++◌, ◌*◌, ◌/◌, ◌%◌, ◌^◌};
ghost use Rattle.std.specs.Prelude.{◌<◌, ◌≤◌, map, take};
ghost use Rattle.std.specs.List.{join_with_byte};
ghost use Rattle.std.specs.Fmt.{decimal, digits, digit_glyph};
ghost use Rattle.babel_prefix.specs.Short.{short};
ghost use Rattle.babel_prefix.specs.Text.{groups_from, groups_text, printed, printed_bits};
ghost use Rattle.babel_prefix.specs.declared.family.Family.TheVariants.{V6};
ghost use Rattle.babel_dump.specs.Slices.{HasRoom, TookRoom};
ghost use Rattle.babel_dump.specs.Spelling.{address_text, from_prefix, prefix_text};
ghost use Rattle.babel_dump.specs.declared.spelling.Spelling.{Spelling};

use crate::push::{push_octet, push_text};
use crate::spelling::Spelling;
use babel_prefix::{Addr, Family, Prefix};

/// What stands for a destination or a source in a line: an address or a prefix.
pub(crate) trait Shown: Copy {
    ghost text: { Spelling → Self → List ℕ };

    ghost from: { Spelling → Self → List ℕ };

    fn push(self, buffer: &mut Vec<u8>, spelling: Spelling)
        requires { HasRoom buffer.old 43 }
        ensures text { buffer.new.items ≡ buffer.old.items ++ text spelling self }
        ensures room { TookRoom buffer.old buffer.new 43 };

    /// Appends ` from ` and this source, where it is shown.
    fn push_from(self, buffer: &mut Vec<u8>, spelling: Spelling)
        requires { HasRoom buffer.old 51 }
        ensures text { buffer.new.items ≡ buffer.old.items ++ from spelling self }
        ensures room { TookRoom buffer.old buffer.new 51 };
}

impl Shown for Addr {
    ghost use Rattle.babel_dump.specs.Spelling.{address_text, from_address};

    ghost text = { address_text };

    ghost from = { from_address };

    fn push(self, buffer: &mut Vec<u8>, spelling: Spelling) {
        push_addr(buffer, spelling, self);
    }

    fn push_from(self, buffer: &mut Vec<u8>, spelling: Spelling) {
        push_text(buffer, " from ");
        push_addr(buffer, spelling, self);
    }
}

impl Shown for Prefix {
    ghost use Rattle.babel_dump.specs.Spelling.{from_prefix, prefix_text};

    ghost text = { prefix_text };

    ghost from = { from_prefix };

    fn push(self, buffer: &mut Vec<u8>, spelling: Spelling) {
        push_prefix(buffer, spelling, self);
    }

    fn push_from(self, buffer: &mut Vec<u8>, spelling: Spelling) {
        push_from(buffer, spelling, self);
    }
}

/// Appends ` from ` and a source prefix; in short nothing where its length is 0.
pub(crate) fn push_from(buffer: &mut Vec<u8>, spelling: Spelling, src: Prefix)
    requires { HasRoom buffer.old 51 }
    ensures text { buffer.new.items ≡ buffer.old.items ++ from_prefix spelling src }
    ensures room { TookRoom buffer.old buffer.new 51 }
{
    match spelling {
        Spelling::Short if src.len() == 0 => {}
        _ => {
            push_text(buffer, " from ");
            push_prefix(buffer, spelling, src);
        }
    }
}

/// Appends the address, `/`, and the length in decimal.
pub(crate) fn push_prefix(buffer: &mut Vec<u8>, spelling: Spelling, prefix: Prefix)
    requires { HasRoom buffer.old 43 }
    ensures text { buffer.new.items ≡ buffer.old.items ++ prefix_text spelling prefix }
    ensures room { TookRoom buffer.old buffer.new 43 }
{
    push_addr(buffer, spelling, prefix.addr());
    push_octet(buffer, b'/');
    push_small(buffer, prefix.len());
}

/// Appends the address.
pub(crate) fn push_addr(buffer: &mut Vec<u8>, spelling: Spelling, addr: Addr)
    requires { HasRoom buffer.old 39 }
    ensures text { buffer.new.items ≡ buffer.old.items ++ address_text spelling addr }
    ensures room { TookRoom buffer.old buffer.new 39 }
{
    match spelling {
        Spelling::Long => push_long(buffer, addr),
        Spelling::Short => push_short(buffer, addr),
    }
}

/// Appends the short text of the address.
fn push_short(buffer: &mut Vec<u8>, addr: Addr)
    requires { HasRoom buffer.old 39 }
    ensures text { buffer.new.items ≡ buffer.old.items ++ short addr }
    ensures room { TookRoom buffer.old buffer.new 39 }
{
    let Some(gap) = addr.gap() else {
        push_long(buffer, addr);
        return;
    };
    let bits = addr.bits();
    let left = 8 - gap.start - gap.len;
    push_some(buffer, bits, 8, gap.start);
    push_text(buffer, "::");
    push_some(buffer, bits, left, left);
}

/// Appends groups joined by `:`, so many of those below a place.
fn push_some(buffer: &mut Vec<u8>, bits: u128, below: u8, count: u8)
    requires few { below ≤ 8 }
    requires within { count ≤ below }
    requires room { HasRoom buffer.old (5 * count) }
    ensures text { buffer.new.items
        ≡ buffer.old.items ++ groups_text (take count (groups_from below bits)) }
    ensures room { TookRoom buffer.old buffer.new (5 * count) }
{
    let last = below - count;
    for place in (last..below).rev() {
        push_group(buffer, group(bits, place));
        if place > last {
            push_octet(buffer, b':');
        }
    }
}

/// Appends the long text of the address.
fn push_long(buffer: &mut Vec<u8>, addr: Addr)
    requires { HasRoom buffer.old 39 }
    ensures text { buffer.new.items ≡ buffer.old.items ++ printed addr }
    ensures room { TookRoom buffer.old buffer.new 39 }
{
    match addr.family() {
        Family::V4 => push_dotted(buffer, (addr.bits() as u32).to_be_bytes()),
        Family::V6 => push_groups(buffer, addr.bits()),
    }
}

/// Appends the four octets in decimal, joined by `.`.
fn push_dotted(buffer: &mut Vec<u8>, octets: [u8; 4])
    requires { HasRoom buffer.old 23 }
    ensures text { buffer.new.items
        ≡ buffer.old.items ++ join_with_byte 46 (map decimal octets) }
    ensures room { TookRoom buffer.old buffer.new 23 }
{
    let [a, b, c, d] = octets;
    push_small(buffer, a);
    push_octet(buffer, b'.');
    push_small(buffer, b);
    push_octet(buffer, b'.');
    push_small(buffer, c);
    push_octet(buffer, b'.');
    push_small(buffer, d);
}

/// Appends a number of few digits in decimal, digit by digit.
fn push_small(buffer: &mut Vec<u8>, number: u8)
    requires { HasRoom buffer.old 3 }
    ensures text { buffer.new.items ≡ buffer.old.items ++ decimal number }
    ensures room { TookRoom buffer.old buffer.new 3 }
{
    if number < 10 {
        push_digit(buffer, number);
        return;
    }
    if number < 100 {
        push_digit(buffer, number / 10);
        push_digit(buffer, number % 10);
        return;
    }
    push_digit(buffer, number / 100);
    push_digit(buffer, number / 10 % 10);
    push_digit(buffer, number % 10);
}

/// Appends the eight groups in hexadecimal, joined by `:`.
fn push_groups(buffer: &mut Vec<u8>, bits: u128)
    requires { HasRoom buffer.old 39 }
    ensures text { buffer.new.items ≡ buffer.old.items ++ printed_bits V6 bits }
    ensures room { TookRoom buffer.old buffer.new 39 }
{
    push_four_groups(
        buffer,
        group(bits, 7),
        group(bits, 6),
        group(bits, 5),
        group(bits, 4),
    );
    push_octet(buffer, b':');
    push_four_groups(
        buffer,
        group(bits, 3),
        group(bits, 2),
        group(bits, 1),
        group(bits, 0),
    );
}

/// The group of 16 bits at a place, the lowest at place 0.
fn group(bits: u128, place: u8) -> u16
    requires { place ≤ 7 }
    ensures { result ≡ bits / 2 ^ (16 * place) % 2 ^ 16 }
{
    (bits >> (16 * place) & 0xffff) as u16
}

/// Appends four groups in hexadecimal, joined by `:`.
fn push_four_groups(buffer: &mut Vec<u8>, a: u16, b: u16, c: u16, d: u16)
    requires { HasRoom buffer.old 19 }
    ensures text { buffer.new.items ≡ buffer.old.items
        ++ join_with_byte 58 (map (digits 16 false) (a ∷ b ∷ c ∷ d ∷ [])) }
    ensures room { TookRoom buffer.old buffer.new 19 }
{
    push_group(buffer, a);
    push_octet(buffer, b':');
    push_group(buffer, b);
    push_octet(buffer, b':');
    push_group(buffer, c);
    push_octet(buffer, b':');
    push_group(buffer, d);
}

/// Appends a group of 16 bits in hexadecimal.
fn push_group(buffer: &mut Vec<u8>, group: u16)
    requires { HasRoom buffer.old 4 }
    ensures text { buffer.new.items ≡ buffer.old.items ++ digits 16 false group }
    ensures room { TookRoom buffer.old buffer.new 4 }
{
    if group < 0x10 {
        push_digit(buffer, group as u8);
        return;
    }
    if group < 0x100 {
        push_digit(buffer, (group / 0x10) as u8);
        push_digit(buffer, (group % 0x10) as u8);
        return;
    }
    if group < 0x1000 {
        push_digit(buffer, (group / 0x100) as u8);
        push_digit(buffer, (group / 0x10 % 0x10) as u8);
        push_digit(buffer, (group % 0x10) as u8);
        return;
    }
    push_digit(buffer, (group / 0x1000) as u8);
    push_digit(buffer, (group / 0x100 % 0x10) as u8);
    push_digit(buffer, (group / 0x10 % 0x10) as u8);
    push_digit(buffer, (group % 0x10) as u8);
}

/// Appends a digit.
fn push_digit(buffer: &mut Vec<u8>, digit: u8)
    requires digit { digit < 16 }
    requires room { HasRoom buffer.old 1 }
    ensures text { buffer.new.items ≡ buffer.old.items ++ digit_glyph false digit ∷ [] }
    ensures room { TookRoom buffer.old buffer.new 1 }
{
    let glyph = if digit < 10 {
        b'0' + digit
    } else {
        b'a' + (digit - 10)
    };
    push_octet(buffer, glyph);
}
