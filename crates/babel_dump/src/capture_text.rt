ghost use Rattle.std.specs.Prelude.{◌≡◌, IfOk};
ghost use Rattle.babel_dump.specs.CaptureText.{dump_text};

use crate::output::hex_output;
use std::alloc::{AllocError, Global};

/// A dump as it is, or, if it has any octets, as hexadecimal digits on a line.
pub(crate) fn dump_text(alloc: Global, hex: bool, dump: Vec<u8>) -> Result<Vec<u8>, AllocError>
    ensures { IfOk result (λ text. text.items ≡ dump_text hex dump.items) }
{
    if hex && !dump.is_empty() {
        hex_output(alloc, &dump)
    } else {
        Ok(dump)
    }
}
