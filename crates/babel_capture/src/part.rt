ghost use Rattle.std.specs.Prelude.{◌≡◌, ◌-◌, drop, take};

/// A part of a frame: the octets of it that the recorder kept, which are its first, and how many
/// octets it had on the wire.
#[derive(Clone, Copy)]
pub(crate) struct Part<'a> {
    pub octets: &'a [u8],
    pub whole: usize,
}

impl<'a> Part<'a> {
    /// What comes after the first `len` octets; nothing where there are no more.
    pub fn after(self, len: usize) -> Part<'a>
        ensures octets { result.octets.now ≡ drop len self.entry.octets.now }
        ensures whole { result.whole ≡ self.entry.whole - len }
    {
        Part {
            octets: self.octets.get(len..).unwrap_or(&[]),
            whole: self.whole.saturating_sub(len),
        }
    }

    /// The first `len` octets, which were on the wire.
    pub fn first(self, len: usize) -> Part<'a>
        ensures octets { result.octets.now ≡ take len self.entry.octets.now }
        ensures whole { result.whole ≡ len }
    {
        Part {
            octets: self.octets.get(..len).unwrap_or(self.octets),
            whole: len,
        }
    }
}
