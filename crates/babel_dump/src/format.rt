ghost use Rattle.std.specs.Prelude.{◌≡◌};
ghost use Rattle.babel_dump.specs.LoneSender.{spelling_of};
ghost use Rattle.babel_dump.specs.Names.{style_of};

use crate::spelling::Spelling;
use crate::style::Style;

/// How a run writes what it found.
#[derive(Drop)]
pub enum Format {
    /// Lines to be read by people.
    Text(Style),
    /// Lines of one JSON object each (RFC 8259), to be read by programs.
    Json(Style),
}

impl Format {
    /// How it writes addresses and router-ids.
    pub fn style(&self) -> &Style
        ensures { result.now ≡ style_of self.now }
    {
        match self {
            Format::Text(style) | Format::Json(style) => style,
        }
    }

    /// How it writes addresses.
    pub fn spelling(&self) -> Spelling
        ensures { result ≡ spelling_of self.now }
    {
        self.style().spelling
    }
}
