ghost use Rattle.std.specs.Prelude.{◌≡◌, ◌+◌, ◌^◌, ◌<◌, ◌≤◌};
ghost use Rattle.babel_capture.specs.Sections.{no_sections, with_section};

/// In how many sections of a capture datagrams of Babel came.
#[derive(Clone, Copy)]
pub struct Sections {
    pub count: u64,
    /// The number of the first interface of the last one.
    pub last: Option<u64>,
}

impl Sections {
    /// No sections.
    pub(crate) fn new() -> Sections
        ensures { result ≡ no_sections }
    {
        Sections {
            count: 0,
            last: None,
        }
    }

    /// With one packet more, which came in this section, if it is one of Babel.
    pub(crate) fn with(self, section: Option<u64>) -> Sections
        requires { self.count + 1 < 2 ^ 64 }
        ensures value { result ≡ with_section self section }
        ensures more { result.count ≤ self.count + 1 }
    {
        let Some(section) = section else {
            return self;
        };
        if self.last == Some(section) {
            return self;
        }
        Sections {
            count: self.count + 1,
            last: Some(section),
        }
    }
}
