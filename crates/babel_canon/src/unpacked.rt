ghost use Rattle.std.specs.Prelude.{◌≡◌, ◌∷◌, ◌++◌, List, [], OnOk, OnErr};
ghost use Rattle.babel_prefix.specs.Entries.{Entry};
ghost use Rattle.babel_canon.specs.Sinks.{HasUnpacked};
ghost use Rattle.babel_canon.specs.declared.values.PackedValue.{PackedValue};

use crate::grids::Row;
use crate::pair_sink::PairSink;
use crate::values::{PackedValue, Values};
use babel_prefix::Prefix;
use babel_tlv::Key;
use babel_trie::Sink;

/// Puts rows with packed values into a sink, as pairs with their values unpacked.
#[derive(Drop)]
pub(crate) struct Unpacked<'a, S> {
    pub values: &'a Values,
    pub out: &'a mut S,
}

impl<'a, S: PairSink> Sink<PackedValue> for Unpacked<'a, S> {
    ghost use Rattle.babel_canon.specs.declared.unpacked.Unpacked.{Unpacked};

    type Error = S::Error;

    ghost can_put = { λ sink. S.can_put sink.out.now };

    ghost has = { λ start sink rows. HasUnpacked S.has S.has start.values.now.list.items start.out
        sink.values.now.list.items sink.out rows };

    ghost stopped = { λ start sink rows. HasUnpacked S.has S.stopped
        start.values.now.list.items start.out sink.values.now.list.items sink.out rows };

    fn put(&mut self, row: Row) -> Result<(), S::Error>
        requires family { row.0.address.family ≡ row.1.address.family }
        requires can { S.can_put self.old.out.now }
        ensures can { OnOk result (S.can_put self.new.out.now) }
        ensures ok { OnOk result ((start : Unpacked S) (rows : List (Entry PackedValue))
            → HasUnpacked S.has S.has start.values.now.list.items start.out
            self.old.values.now.list.items self.old.out rows
            → HasUnpacked S.has S.has start.values.now.list.items start.out
            self.new.values.now.list.items self.new.out (rows ++ row ∷ [])) }
        ensures err { OnErr result ((start : Unpacked S) (rows : List (Entry PackedValue))
            → HasUnpacked S.has S.has start.values.now.list.items start.out
            self.old.values.now.list.items self.old.out rows
            → HasUnpacked S.has S.stopped start.values.now.list.items start.out
            self.new.values.now.list.items self.new.out (rows ++ row ∷ [])) }
    {
        let (dst, src, value) = row;
        let key = Key::new(dst, src).unwrap();
        self.out.put(key, self.values.value(value))
    }
}
