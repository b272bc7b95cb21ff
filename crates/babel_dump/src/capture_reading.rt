use babel_capture::Window;

/// How a capture is read.
#[derive(Clone, Copy)]
pub struct CaptureReading {
    /// How many octets are read at most: `--max-octets`.
    pub limit: u32,
    /// Which packets of it are read, by when they came: `--since`, `--until`.
    pub window: Window,
    /// Whether a capture that is cut short is read to its last whole record: `--accept-cut`.
    pub accept_cut: bool,
    /// Whether a datagram of which fragments are missing is left out: `--accept-missing`.
    pub accept_missing: bool,
    /// Whether the capture is refused if a wanted datagram of it is left out: `--strict`.
    pub strict: bool,
}
