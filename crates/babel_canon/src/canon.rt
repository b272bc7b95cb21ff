ghost use Rattle.std.specs.Prelude.{◌≡◌, IfOk, IfErr};
ghost use Rattle.babel_canon.specs.Canonical.{AreCanonical, CanonicalFault, CountsCanonical};
ghost use Rattle.babel_canon.specs.Canonical.{IsCanonical, SaysCanonical};
ghost use Rattle.babel_canon.specs.Fewest.{AreFewest};

use crate::body::Body;
use crate::packing::write_text;
use crate::pairs::CanonicalPairs;
use crate::text::Text;
use babel_table::{Limits, Table};
use babel_tlv::{Fault, Held, Key};
use std::alloc::Global;
use std::marker::Model;

/// The canonical form of a table: its canonical pairs, and their octets.
#[derive(Drop)]
pub struct Canon {
    pairs: Vec<(Key, Held)>,
    bytes: Vec<u8>,
}

impl Model for Canon {
    ghost use Rattle.babel_canon.specs.Canonical.{Canonical};

    ghost Value = { Canonical };

    ghost view = { λ c. record { pairs = c.pairs.items; octets = c.bytes.items } };
}

impl Canon {
    /// The canonical pairs: by family, IPv4 first, then by destination, then by source.
    pub fn pairs(&self) -> &[(Key, Held)]
        ensures { result.now ≡ self.now.pairs }
    {
        &self.pairs
    }

    /// The canonical octets of the pairs.
    pub fn bytes(&self) -> &[u8]
        ensures { result.now ≡ self.now.octets }
    {
        &self.bytes
    }

    /// The canonical octets of the pairs, which are dropped.
    pub fn into_bytes(self) -> Vec<u8>
        ensures { result.items ≡ self.octets }
    {
        self.bytes
    }
}

/// The canonical pairs of a table: by family, IPv4 first, then by destination, then by source.
/// `TooManyPairs` if they are more than the entries of the limits, which is known before any of
/// them is made; else `Memory`, if there is too little.
///
/// The pairs do not overlap and have the answers of the table, and no such list has fewer.
pub fn canonical_pairs(
    alloc: Global,
    limits: Limits,
    table: &Table,
) -> Result<Vec<(Key, Held)>, Fault>
    ensures ok { IfOk result (λ pairs. AreCanonical limits table.now.rows pairs.items) }
    ensures err { IfErr result (CanonicalFault limits table.now.rows) }
{
    let pairs = CanonicalPairs::of(alloc, limits, table)?;
    let mut list = Vec::with_capacity(alloc, pairs.count())?;
    pairs.put(&mut list)?;
    Ok(list)
}

/// The octets of the canonical pairs of a table, in packets with bodies of at most this many
/// octets. No list of the pairs is made. `Err` as of `canonical_pairs`.
pub fn canonical_octets(
    alloc: Global,
    limits: Limits,
    body: Body,
    table: &Table,
) -> Result<Vec<u8>, Fault>
    ensures ok { IfOk result (λ octets. SaysCanonical limits body table.now.rows octets.items) }
    ensures err { IfErr result (CanonicalFault limits table.now.rows) }
{
    let pairs = CanonicalPairs::of(alloc, limits, table)?;
    let mut text = Text::new(alloc, body, pairs.count())?;
    pairs.put(&mut text)?;
    Ok(text.into_octets())
}

/// How many canonical pairs a table has. None of them is made. `Err` as of `canonical_pairs`.
pub fn pair_count(alloc: Global, limits: Limits, table: &Table) -> Result<usize, Fault>
    ensures ok { IfOk result (CountsCanonical limits table.now.rows) }
    ensures err { IfErr result (CanonicalFault limits table.now.rows) }
{
    let pairs = CanonicalPairs::of(alloc, limits, table)?;
    Ok(pairs.count())
}

/// The canonical form of a table, in packets with bodies of at most this many octets.
/// `TooManyPairs` if its canonical pairs are more than the entries of the limits, which is known
/// before any of them is made; else `Memory`, if there is too little.
///
/// The pairs do not overlap and have the answers of the table, and no such list has fewer.
pub fn canonical(alloc: Global, limits: Limits, body: Body, table: &Table) -> Result<Canon, Fault>
    ensures ok { IfOk result (IsCanonical limits body table.now.rows) }
    ensures fewest { IfOk result (λ canon. AreFewest table.now.rows canon.pairs) }
    ensures err { IfErr result (CanonicalFault limits table.now.rows) }
{
    let pairs = canonical_pairs(alloc, limits, table)?;
    let bytes = write_text(alloc, body, &pairs)?;
    Ok(Canon { pairs, bytes })
}
