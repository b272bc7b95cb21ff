//! The rows of a list of changes.
ghost use Rattle.std.specs.Prelude.{◌≡◌, ◌+◌, ◌-◌, ◌*◌, ◌^◌, ◌%◌, ◌<◌, ◌≤◌};
ghost use Rattle.std.specs.Prelude.{map, length, OnOk, OnErr, Option, None, true, false};
ghost use Rattle.babel_prefix.specs.Address.{block_of};
ghost use Rattle.babel_prefix.specs.Covers.{IsAddressPrefix, IsBlock};
ghost use Rattle.babel_prefix.specs.Members.{Listed};
ghost use Rattle.babel_prefix.specs.Width.{width_of};
ghost use Rattle.babel_trie.specs.Cut.{block_from, largest_in};
ghost use Rattle.babel_trie.specs.Held.{sources_at};
ghost use Rattle.babel_trie.specs.Interned.{Stands, Represents, IsTrie, HasTrie};
ghost use Rattle.babel_trie.specs.Nested.{block_rows, entry_at, node_block, rows_of};
ghost use Rattle.babel_trie.specs.Runs.{AreRuns, StartBelow};
ghost use Rattle.babel_trie.specs.Shape.{Shape, leaf};
ghost use Rattle.babel_trie.specs.Sinks.{GoesOn, StopsIn};
ghost use Rattle.babel_trie.specs.Spans.{each_with, run_rows};
ghost use Rattle.babel_trie.specs.declared.runs.Change.{Change};
ghost use Rattle.babel_trie.specs.declared.table.Loose.TheVariants.{Split};
ghost use Rattle.babel_trie.specs.declared.table.Sources.{Sources};
ghost use Rattle.babel_trie.specs.declared.table.Sources.TheVariants.{Constant};

use crate::cut::run_last;
use crate::fit::{first_bits, last_address};
use crate::lawful::LawfulOrd;
use crate::rows::Row;
use crate::runs::Change;
use crate::sink::Sink;
use crate::table::{Loose, Node, Sources, Table, bit_at};
use babel_prefix::{Addr, Family, Prefix};

/// The place, shifted by this many bits.
#[tactic(auto, using(crate::proofs::ListLaws::no_place, crate::proofs::ListLaws::place_shifted))]
fn shifted(place: u128, bits: u8, family: Family) -> u128
    requires bits { bits ≤ width_of family }
    requires place { place < 2 ^ (width_of family - bits) }
    ensures { result ≡ place * 2 ^ bits }
{
    if bits == 128 {
        return 0;
    }
    place << bits
}

/// The prefix of the block with this many free bits at an address.
fn block_prefix(family: Family, start: u128, bits: u8) -> Prefix
    requires bits { bits ≤ width_of family }
    requires block { IsBlock (width_of family) (block_from (width_of family) start bits) }
    ensures family { result.address.family ≡ family }
    ensures valid { IsAddressPrefix result }
    ensures block { block_of result ≡ block_from (width_of family) start bits }
{
    let len = family.width() - bits;
    Prefix::new(Addr::new(family, start).unwrap(), len).unwrap()
}

/// The prefix of the block at this place among the blocks that differ in this many bits.
fn node_prefix(family: Family, bits: u8, place: u128) -> Prefix
    requires bits { bits ≤ width_of family }
    requires place { place < 2 ^ (width_of family - bits) }
    ensures family { result.address.family ≡ family }
    ensures valid { IsAddressPrefix result }
    ensures block { block_of result ≡ node_block (width_of family) bits place }
{
    block_prefix(family, shifted(place, bits, family), bits)
}

/// The places of the halves of a block.
#[tactic(auto, using(crate::proofs::ListLaws::child_place))]
fn places(family: Family, bits: u8, place: u128) -> (u128, u128)
    requires some { 0 < bits }
    requires bits { bits ≤ width_of family }
    requires place { place < 2 ^ (width_of family - bits) }
    ensures low { result.0 ≡ place * 2 }
    ensures high { result.1 ≡ place * 2 + 1 }
    ensures low_in { result.0 < 2 ^ (width_of family - (bits - 1)) }
    ensures high_in { result.1 < 2 ^ (width_of family - (bits - 1)) }
{
    (place * 2, place * 2 + 1)
}

/// Whether nothing is answered for any source.
fn answers_nothing<V: Copy>(sources: Sources<Option<V>>) -> bool
    ensures yes { result ≡ true → sources ≡ Constant None }
    ensures no { result ≡ false → sources ≡ Constant None → ⊥ }
{
    match sources {
        Sources::Constant(None) => true,
        _ => false,
    }
}

/// Whether nothing is answered beside the block of a node.
fn has_nothing_beside<V: Copy>(node: &Node<Option<V>>) -> bool
    ensures yes { result ≡ true → 0 < node.now.skip → node.now.outside ≡ Constant None }
{
    node.skip == 0 || answers_nothing(node.outside)
}

/// The bits that are left in the block of a node, and its place.
fn block_of_node<V: Copy>(
    node: &Node<Option<V>>,
    family: Family,
    bits: u8,
    place: u128,
) -> (u8, u128)
    requires skip { node.now.skip < bits }
    requires bits { bits ≤ width_of family }
    requires place { place < 2 ^ (width_of family - bits) }
    ensures bits { result.0 ≡ bits - node.now.skip }
    ensures place { result.1 ≡ place * 2 ^ node.now.skip + node.now.path % 2 ^ node.now.skip }
    ensures inside { result.1 < 2 ^ (width_of family - result.0) }
{
    let first = shifted(place, node.skip, family);
    (bits - node.skip, first + node.path % bit_at(node.skip))
}

/// Puts out the row of one destination prefix and the sources of a block, where something is
/// answered there.
fn push_constant<V: Copy, S: Sink<V>>(
    constant: Option<V>,
    family: Family,
    dst: Prefix,
    bits: u8,
    place: u128,
    out: &mut S,
) -> Result<(), S::Error>
    requires dst_family { dst.address.family ≡ family }
    requires bits { bits ≤ width_of family }
    requires place { place < 2 ^ (width_of family - bits) }
    requires can { S.can_put out.old }
    ensures can { OnOk result (S.can_put out.new) }
    ensures ok { OnOk result ((t : Shape (Option V)) → leaf constant ≡ t
        → GoesOn S.has out.old out.new (block_rows family dst bits place t)) }
    ensures err { OnErr result ((t : Shape (Option V)) → leaf constant ≡ t
        → StopsIn S.has S.stopped out.old out.new (block_rows family dst bits place t)) }
{
    let Some(value) = constant else {
        return Ok(());
    };
    out.put((dst, node_prefix(family, bits, place), value))?;
    Ok(())
}

impl<V: LawfulOrd> Table<Option<V>> {
    /// Puts out the rows of one destination prefix and the sources of a block, in order.
    #[cycle(push_rows)]
    fn push_sources<S: Sink<V>>(
        &self,
        sources: &Sources<Option<V>>,
        family: Family,
        dst: Prefix,
        bits: u8,
        place: u128,
        out: &mut S,
    ) -> Result<(), S::Error>
        requires trie { HasTrie bits self.now.nodes.items sources.now }
        requires dst_family { dst.address.family ≡ family }
        requires bits { bits ≤ width_of family }
        requires place { place < 2 ^ (width_of family - bits) }
        requires can { S.can_put out.old }
        ensures can { OnOk result (S.can_put out.new) }
        ensures ok { OnOk result ((t : Shape (Option V))
            → Represents self.now.nodes.items sources.now t
            → GoesOn S.has out.old out.new (block_rows family dst bits place t)) }
        ensures err { OnErr result ((t : Shape (Option V))
            → Represents self.now.nodes.items sources.now t
            → StopsIn S.has S.stopped out.old out.new (block_rows family dst bits place t)) }
    {
        match sources {
            Sources::Constant(constant) => push_constant(*constant, family, dst, bits, place, out),
            Sources::Stored(number) => {
                let node = &self.nodes()[number.index()];
                self.push_node(node, family, dst, bits, place, out)
            }
        }
    }

    /// The same of the sources that a node stands for: where nothing is answered beside its block,
    /// of the two halves of that.
    #[cycle(push_rows)]
    fn push_node<S: Sink<V>>(
        &self,
        node: &Node<Option<V>>,
        family: Family,
        dst: Prefix,
        bits: u8,
        place: u128,
        out: &mut S,
    ) -> Result<(), S::Error>
        requires trie { IsTrie bits self.now.nodes.items (Split node.now) }
        requires dst_family { dst.address.family ≡ family }
        requires bits { bits ≤ width_of family }
        requires place { place < 2 ^ (width_of family - bits) }
        requires can { S.can_put out.old }
        ensures can { OnOk result (S.can_put out.new) }
        ensures ok { OnOk result ((t : Shape (Option V))
            → Stands self.now.nodes.items (Split node.now) t
            → GoesOn S.has out.old out.new (block_rows family dst bits place t)) }
        ensures err { OnErr result ((t : Shape (Option V))
            → Stands self.now.nodes.items (Split node.now) t
            → StopsIn S.has S.stopped out.old out.new (block_rows family dst bits place t)) }
    {
        if has_nothing_beside(node) {
            let (bits, place) = block_of_node(node, family, bits, place);
            let (low_place, high_place) = places(family, bits, place);
            self.push_sources(&node.low, family, dst, bits - 1, low_place, out)?;
            return self.push_sources(&node.high, family, dst, bits - 1, high_place, out);
        }
        let (low, high) = self.halves(Loose::Split(*node));
        let (low_place, high_place) = places(family, bits, place);
        self.push_rows(&low, family, dst, bits - 1, low_place, out)?;
        self.push_rows(&high, family, dst, bits - 1, high_place, out)
    }

    /// The same of sources that are not stored.
    #[cycle(push_rows)]
    pub fn push_rows<S: Sink<V>>(
        &self,
        whole: &Loose<Option<V>>,
        family: Family,
        dst: Prefix,
        bits: u8,
        place: u128,
        out: &mut S,
    ) -> Result<(), S::Error>
        requires trie { IsTrie bits self.now.nodes.items whole.now }
        requires dst_family { dst.address.family ≡ family }
        requires bits { bits ≤ width_of family }
        requires place { place < 2 ^ (width_of family - bits) }
        requires can { S.can_put out.old }
        ensures can { OnOk result (S.can_put out.new) }
        ensures ok { OnOk result ((t : Shape (Option V))
            → Stands self.now.nodes.items whole.now t
            → GoesOn S.has out.old out.new (block_rows family dst bits place t)) }
        ensures err { OnErr result ((t : Shape (Option V))
            → Stands self.now.nodes.items whole.now t
            → StopsIn S.has S.stopped out.old out.new (block_rows family dst bits place t)) }
    {
        match whole {
            Loose::Same(constant) => push_constant(*constant, family, dst, bits, place, out),
            Loose::Split(node) => self.push_node(node, family, dst, bits, place, out),
        }
    }

    /// Puts out the rows of the largest blocks from one destination to another, in order, all with
    /// the same sources.
    fn push_blocks<S: Sink<V>>(
        &self,
        sources: Sources<Option<V>>,
        family: Family,
        from: u128,
        last: u128,
        out: &mut S,
    ) -> Result<(), S::Error>
        requires trie { HasTrie (width_of family) self.now.nodes.items sources }
        requires some { from ≤ last }
        requires fits { last < 2 ^ width_of family }
        requires can { S.can_put out.old }
        ensures can { OnOk result (S.can_put out.new) }
        ensures ok { let width = width_of family in OnOk result (GoesOn S.has out.old out.new
            (map (entry_at family) (rows_of width (each_with
            (sources_at width self.now.nodes.items sources) (largest_in width from last))))) }
        ensures err { let width = width_of family in OnErr result (StopsIn S.has S.stopped
            out.old out.new (map (entry_at family) (rows_of width (each_with
            (sources_at width self.now.nodes.items sources) (largest_in width from last))))) }
    {
        let whole = self.opened(sources);
        let mut at = from;
        loop {
            let bits = first_bits(at, last);
            let dst = block_prefix(family, at, bits);
            self.push_rows(&whole, family, dst, family.width(), 0, out)?;
            let end = last_address(at, bits);
            if end == last {
                return Ok(());
            }
            at = end + 1;
        }
    }

    /// Puts out the rows of a list of changes, in order.
    pub fn push_runs<S: Sink<V>>(
        &self,
        runs: &[Change<Sources<Option<V>>>],
        family: Family,
        out: &mut S,
    ) -> Result<(), S::Error>
        requires runs { AreRuns runs.now }
        requires below { StartBelow (2 ^ width_of family) runs.now }
        requires each { (x : Change (Sources (Option V))) → Listed runs.now x
            → HasTrie (width_of family) self.now.nodes.items x.sources }
        requires can { S.can_put out.old }
        ensures can { OnOk result (S.can_put out.new) }
        ensures ok { OnOk result (GoesOn S.has out.old out.new
            (map (entry_at family) (run_rows (width_of family) self.now.nodes.items runs.now))) }
        ensures err { OnErr result (StopsIn S.has S.stopped out.old out.new
            (map (entry_at family) (run_rows (width_of family) self.now.nodes.items runs.now))) }
    {
        let top = last_address(0, family.width());
        let mut rest = runs;
        while let Some((run, later)) = rest.split_first() {
            if !answers_nothing(run.sources) {
                self.push_blocks(run.sources, family, run.start, run_last(top, later), out)?;
            }
            rest = later;
        }
        Ok(())
    }
}
