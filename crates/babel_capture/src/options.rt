ghost use Rattle.std.specs.Prelude.{◌≡◌, ◌≤◌, ◌+◌, ◌<◌, false, length, drop};
ghost use Rattle.babel_capture.specs.Layers.{options};
ghost use Rattle.babel_capture.specs.Options.{all_options, has_bad_len, is_last, name_with};
ghost use Rattle.babel_capture.specs.Options.{offset_with, option_len, padded};
ghost use Rattle.babel_capture.specs.Options.{past_option, resolution_with};

use crate::clock::Resolution;
use crate::order::Order;

/// The codes of options: draft-ietf-opsawg-pcapng, 3.5, 4.2.
const LAST: u16 = 0;

const INTERFACE_NAME: u16 = 2;

const TIME_RESOLUTION: u16 = 9;

const TIME_OFFSET: u16 = 14;

/// The octets of an option's code and length: draft-ietf-opsawg-pcapng, 3.5.
const OPTION_HEADER: usize = 4;

/// The options of an interface, as far as they were read.
#[derive(Clone, Copy)]
pub struct Options<'a> {
    /// The name that was found, which is empty where there is none.
    pub name: &'a [u8],
    /// How many units of time a second has.
    pub resolution: Option<Resolution>,
    /// The seconds that are added to each time.
    pub offset: Option<i64>,
    /// The octets that are left.
    pub octets: &'a [u8],
    /// Whether an option ran past them, or had a length that it can't have.
    pub is_bad: bool,
}

/// The options in these octets, each read.
pub fn read_options(order: Order, octets: &[u8]) -> Options<'_>
    ensures { options result ≡ all_options order octets.now }
{
    let mut options = Options {
        name: &[],
        resolution: None,
        offset: None,
        octets,
        is_bad: false,
    };
    for _ in 0..octets.len() {
        options = options.past_option(order);
    }
    options
}

impl<'a> Options<'a> {
    /// Past the next option; the same where none comes next.
    #[tactic(auto, unfolding(crate::specs::Options::past_option))]
    fn past_option(self, order: Order) -> Options<'a>
        ensures { options result ≡ past_option order (options self.entry) }
    {
        if self.is_bad || is_last(order, self.octets) {
            return self;
        }
        if has_bad_len(order, self.octets) {
            return Options {
                name: self.name,
                resolution: self.resolution,
                offset: self.offset,
                octets: self.octets,
                is_bad: true,
            };
        }
        let len = order.u16_at(self.octets, 2) as usize;
        Options {
            name: self.name_with(order, len),
            resolution: self.resolution_with(order),
            offset: self.offset_with(order),
            octets: after_padded(self.octets, len),
            is_bad: false,
        }
    }

    /// The name, with an option of so many octets.
    fn name_with(self, order: Order, len: usize) -> &'a [u8]
        requires long { 4 + len ≤ length self.octets.now }
        requires len { len ≡ option_len order self.octets.now }
        ensures { result.now ≡ name_with order (options self.entry) }
    {
        if order.u16_at(self.octets, 0) == INTERFACE_NAME && self.name.is_empty() {
            &self.octets[OPTION_HEADER..OPTION_HEADER + len]
        } else {
            self.name
        }
    }

    /// The resolution of times, with the next option.
    fn resolution_with(self, order: Order) -> Option<Resolution>
        requires long { 4 ≤ length self.octets.now }
        requires fits { has_bad_len order self.octets.now ≡ false }
        ensures { result ≡ resolution_with order (options self.entry) }
    {
        if self.resolution.is_none() && order.u16_at(self.octets, 0) == TIME_RESOLUTION {
            Some(Resolution::of(self.octets[OPTION_HEADER]))
        } else {
            self.resolution
        }
    }

    /// The offset of times, with the next option.
    fn offset_with(self, order: Order) -> Option<i64>
        requires long { 4 ≤ length self.octets.now }
        requires fits { has_bad_len order self.octets.now ≡ false }
        ensures { result ≡ offset_with order (options self.entry) }
    {
        if self.offset.is_none() && order.u16_at(self.octets, 0) == TIME_OFFSET {
            Some(order.i64_at(self.octets, OPTION_HEADER))
        } else {
            self.offset
        }
    }
}

/// Whether the next option runs past these octets, or has a length that it can't have.
fn has_bad_len(order: Order, octets: &[u8]) -> bool
    requires { 4 ≤ length octets.now }
    ensures { result ≡ has_bad_len order octets.now }
{
    let len = order.u16_at(octets, 2) as usize;
    octets.len() < OPTION_HEADER + len
        || match order.u16_at(octets, 0) {
            TIME_RESOLUTION => len != 1,
            TIME_OFFSET => len != 8,
            _ => false,
        }
}

/// The octets after an option of so many, and after those that make them a multiple of 4.
fn after_padded(octets: &[u8], len: usize) -> &[u8]
    requires { len < 65536 }
    ensures { result.now ≡ drop (padded len) octets.now }
{
    octets
        .get(OPTION_HEADER + (len + 3) / 4 * 4..)
        .unwrap_or(&[])
}

/// Whether no option comes next.
fn is_last(order: Order, octets: &[u8]) -> bool
    ensures { result ≡ is_last order octets.now }
{
    octets.len() < OPTION_HEADER || order.u16_at(octets, 0) == LAST
}
