ghost use Rattle.std.specs.Prelude.{◌≡◌, ◌<◌, ◌≤◌, IfOk, length, vec_len};
ghost use Rattle.std.specs.Option.{MatchOption};

use std::alloc::{AllocError, Global};

/// The most octets that a name has.
const LONGEST: usize = 64;

/// The name of an address or a router-id.
#[derive(Drop)]
pub struct Name {
    octets: Vec<u8>,
    ghost short: { vec_len octets ≤ 64 },
}

impl Name {
    /// The name with these octets; `None` where they are more than 64.
    pub(crate) fn new(alloc: Global, octets: &[u8]) -> Result<Option<Name>, AllocError>
        ensures { IfOk result (λ name. MatchOption name (64 < length octets.now)
            (λ some. (length octets.now ≤ 64) × (some.octets.items ≡ octets.now))) }
    {
        if octets.len() > LONGEST {
            return Ok(None);
        }
        let mut name = Vec::new(alloc);
        name.extend_from_slice(octets)?;
        Ok(Some(Name { octets: name }))
    }

    /// Its octets.
    pub(crate) fn octets(&self) -> &[u8]
        ensures octets { result.now ≡ self.now.octets.items }
        ensures short { length result.now ≤ 64 }
    {
        &self.octets
    }
}
