ghost use Rattle.std.specs.Prelude.{◌-◌, ◌^◌, ◌<◌, ◌≤◌, ◌∷◌, ◌++◌, List, [], OnOk};
ghost use Rattle.std.specs.Prelude.{OnErr, vec_capacity};
ghost use Rattle.babel_tlv.specs.Pair.{Pair};

use crate::byte_out::ByteOut;
use crate::filter::Filter;
use crate::format::Format;
use crate::slices::write_kept;
use crate::write::WriteFailed;
use babel_canon::PairSink;
use babel_tlv::{Held, Key, View};

/// Writes the line of each pair that a filter keeps, but for the last of them, which the buffer
/// has.
#[derive(Drop)]
pub(crate) struct PairLines<'a, W> {
    pub writer: &'a mut W,
    pub buffer: &'a mut Vec<u8>,
    pub format: &'a Format,
    pub filter: Filter,
    pub view: View,
}

impl<'a, W: ByteOut> PairSink for PairLines<'a, W> {
    ghost use Rattle.babel_dump.specs.PairLines.{CanWrite, HasLines, StoppedAtLine};
    ghost use Rattle.babel_dump.specs.declared.pair_lines.PairLines.{PairLines};

    type Error = WriteFailed;

    ghost can_put = { CanWrite W.state };

    ghost has = { HasLines W.state };

    ghost stopped = { StoppedAtLine W.state };

    fn put(&mut self, key: Key, held: Held) -> Result<(), WriteFailed>
        requires { CanWrite W.state self.old }
        ensures can { OnOk result (CanWrite W.state self.new) }
        ensures ok { OnOk result ((start : PairLines W) (pairs : List Pair)
            → HasLines W.state start self.old pairs
            → HasLines W.state start self.new (pairs ++ (key, held) ∷ [])) }
        ensures err { OnErr result ((start : PairLines W) (pairs : List Pair)
            → HasLines W.state start self.old pairs
            → StoppedAtLine W.state start self.new (pairs ++ (key, held) ∷ [])) }
    {
        write_kept(
            self.writer,
            self.format,
            &self.filter,
            self.view,
            key,
            held,
            self.buffer,
        )
    }
}
