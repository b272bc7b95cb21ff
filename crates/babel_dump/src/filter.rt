ghost use Rattle.std.specs.Prelude.{◌≡◌, ◌↔◌, IsTrue, length};
ghost use Rattle.babel_dump.specs.Filter.{has_id, is_kept, is_within, keeps_dst, keeps_every};
ghost use Rattle.babel_dump.specs.Filter.{keeps_id, keeps_key, kept_rows};

use babel_prefix::Prefix;
use babel_table::Table;
use babel_tlv::{Held, Key};

/// Which rows are shown, or told of: those for which all holds that is asked for.
#[derive(Clone, Copy)]
pub struct Filter {
    /// The destination is this prefix, or a longer one in it: `--within`.
    pub within: Option<Prefix>,
    /// The destination contains this prefix, which may be one address: `--match`.
    pub matching: Option<Prefix>,
    /// The source is this prefix: `--source`.
    pub source: Option<Prefix>,
    /// The route has this router-id: `--id`. An unreachable row has none.
    pub router_id: Option<[u8; 8]>,
}

impl Filter {
    /// The filter that asks for nothing, and so keeps every row.
    pub fn every() -> Filter
        ensures { result ≡ keeps_every }
    {
        Filter {
            within: None,
            matching: None,
            source: None,
            router_id: None,
        }
    }

    /// Whether it asks for nothing.
    pub fn is_every(&self) -> bool
        ensures { IsTrue result ↔ (self.now ≡ keeps_every) }
    {
        self.within.is_none()
            && self.matching.is_none()
            && self.source.is_none()
            && self.router_id.is_none()
    }

    /// Whether it keeps a row, or a canonical pair.
    pub fn keeps(&self, key: &Key, held: &Held) -> bool
        ensures { result ≡ is_kept self.now (key.now, held.now) }
    {
        self.keeps_key(key) && self.keeps_id(held)
    }

    /// Whether it keeps rows with this key, if their router-id is kept.
    pub(crate) fn keeps_key(&self, key: &Key) -> bool
        ensures { result ≡ keeps_key self.now key.now }
    {
        let src = key.src();
        self.keeps_dst(key.dst()) && self.source.is_none_or(|source| src == source)
    }

    /// Whether it keeps rows with this destination, if the rest of them is kept.
    fn keeps_dst(&self, dst: Prefix) -> bool
        ensures { result ≡ keeps_dst self.now dst }
    {
        self.within.is_none_or(|outer| is_within(dst, outer))
            && self.matching.is_none_or(|inner| is_within(inner, dst))
    }

    /// Whether it keeps rows with this router-id, or without any.
    fn keeps_id(&self, held: &Held) -> bool
        ensures { result ≡ keeps_id self.now held.now }
    {
        match self.router_id {
            Some(id) => has_id(held, id),
            None => true,
        }
    }

    /// How many rows of a table it keeps.
    pub(crate) fn count(&self, table: &Table) -> usize
        ensures { result ≡ length (kept_rows self.now table.now.rows) }
    {
        let rows = table.rows();
        // For the proof: there are as many rows as fit.
        let _most = rows.len();
        let mut count = 0;
        for (key, held) in rows {
            if self.keeps(&key, &held) {
                count += 1;
            }
        }
        count
    }
}

/// Whether a prefix is another, or a longer one in it.
fn is_within(inner: Prefix, outer: Prefix) -> bool
    ensures { result ≡ is_within inner outer }
{
    outer.len() <= inner.len() && outer.contains(&inner.addr())
}

/// Whether what is held is a route with this router-id.
fn has_id(held: &Held, id: [u8; 8]) -> bool
    ensures { result ≡ has_id id held.now }
{
    match held {
        Held::Route(ann) => ann.router_id() == id,
        Held::Unreachable => false,
    }
}
