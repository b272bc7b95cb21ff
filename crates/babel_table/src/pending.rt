ghost use Rattle.std.specs.Prelude.{◌≡◌, ◌≢◌, ◌≤◌, ◌+◌, ◌++◌, [], length, IfOk};
ghost use Rattle.babel_tlv.specs.FrameFaults.{HasHeader, body_len};
ghost use Rattle.babel_table.specs.Feeding.{IsPartial};

use byteorder::{ByteOrder, NetworkEndian};
use std::alloc::{AllocError, Global};
use std::marker::Model;

/// A packet's header: RFC 8966, 4.2.
const HEADER: usize = 4;

/// A header and the longest body that it can announce.
const LONGEST_PACKET: usize = HEADER + 65_535;

/// The octets so far of a packet that isn't whole. Room for the longest packet is taken at once.
#[derive(Drop)]
pub struct Pending {
    octets: Vec<u8>,
}

impl Model for Pending {
    ghost use Rattle.std.specs.Prelude.{◌≤◌, ℕ, List, vec_len};
    ghost use Rattle.std.specs.Vec.{vec_capacity};

    ghost Value = { List ℕ };

    ghost view = { λ p. p.octets.items };

    ghost invariant = { λ p. (65539 ≤ vec_capacity p.octets) × (vec_len p.octets ≤ 65539) };
}

impl Pending {
    /// No octets; an error if there is no room for the longest packet.
    pub fn new(alloc: Global) -> Result<Pending, AllocError>
        ensures { IfOk result (λ pending. pending ≡ []) }
    {
        let octets = Vec::with_capacity(alloc, LONGEST_PACKET)?;
        Ok(Pending { octets })
    }

    /// The octets so far.
    pub fn octets(&self) -> &[u8]
        ensures { result.now ≡ self.now }
    {
        &self.octets
    }

    /// Drops the octets, and keeps the room.
    pub fn clear(&mut self)
        ensures { self.new ≡ [] }
    {
        self.octets.clear();
    }

    /// Adds octets for which there is room.
    pub fn add(&mut self, octets: &[u8])
        requires { length self.old + length octets.now ≤ 65539 }
        ensures { self.new ≡ self.old ++ octets.now }
    {
        self.octets.extend_from_slice(octets).unwrap();
    }

    /// Adds octets until there are so many, and gives the others.
    fn add_up_to<'a>(&mut self, len: usize, octets: &'a [u8]) -> &'a [u8]
        requires { len ≤ 65539 }
        ensures whole { self.new ++ result.now ≡ self.old ++ octets.now }
        ensures stays { len ≤ length self.old → self.new ≡ self.old }
        ensures some { length self.old ≤ len → length self.new ≤ len }
        ensures full { result.now ≢ [] → len ≤ length self.new }
    {
        let missing = len.saturating_sub(self.octets.len());
        let (front, behind) = octets.split_at(octets.len().min(missing));
        self.add(front);
        behind
    }

    /// Adds what belongs to the packet, and gives the octets after it.
    pub fn fill<'a>(&mut self, octets: &'a [u8]) -> &'a [u8]
        requires { IsPartial self.old }
        ensures whole { self.new ++ result.now ≡ self.old ++ octets.now }
        ensures one { HasHeader self.new → length self.new ≤ 4 + body_len self.new }
        ensures full { result.now ≢ []
            → HasHeader self.new × (length self.new ≡ 4 + body_len self.new) }
    {
        let rest = self.add_up_to(HEADER, octets);
        if self.octets.len() < HEADER {
            return rest;
        }
        let body = NetworkEndian::read_u16(&self.octets[2..]) as usize;
        self.add_up_to(HEADER + body, rest)
    }
}
