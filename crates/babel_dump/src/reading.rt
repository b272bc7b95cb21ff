ghost use Rattle.std.specs.Prelude.{◌≡◌};
ghost use Rattle.std.specs.Option.{option_copied};
ghost use Rattle.babel_dump.specs.Given.{capture_limit, capture_reading_of, usual_reading};
ghost use Rattle.babel_dump.specs.Given.{wanted_by};
ghost use Rattle.babel_dump.specs.Misplaced.{other_time_name, time_name};

use crate::capture_reading::CaptureReading;
use crate::factor::Factor;
use babel_capture::{Place, Wanted, Window};
use babel_prefix::Addr;
use babel_table::{Limits, USUAL_SEED};
use babel_tlv::Mode;

/// How many octets a capture may have where its dump may not have more.
const USUAL_CAPTURE: u32 = 1_073_741_824;

/// An option that asks for times.
#[derive(Clone, Copy)]
pub enum TimeOption {
    Since,
    Until,
    Expiry,
}

impl TimeOption {
    /// The option, for an input or the first of two.
    pub(crate) fn name(self) -> &'static str
        ensures { result.now ≡ time_name self }
    {
        match self {
            TimeOption::Since => "--since",
            TimeOption::Until => "--until",
            TimeOption::Expiry => "--expiry",
        }
    }

    /// The option for the other of two inputs, if it has one of its own.
    pub(crate) fn other_name(self) -> Option<&'static str>
        ensures { option_copied result ≡ other_time_name self }
    {
        match self {
            TimeOption::Since => Some("--other-since"),
            TimeOption::Until => Some("--other-until"),
            TimeOption::Expiry => None,
        }
    }
}

/// How a dump is read, or the dump of its sender in a capture.
#[derive(Clone, Copy)]
pub struct Reading {
    /// How many octets are read at most, and how many rows its table has at most: `--max-octets`,
    /// `--max-routes`.
    pub limits: Limits,
    /// Whether retracted keys stay as unreachable rows: `--hold`.
    pub mode: Mode,
    /// The address that the dump's packets were sent from: `--from`, or `--other-from`.
    pub sender: Addr,
    /// Whether it is read of a capture that has it, as the first octets of the input tell.
    pub is_capture: bool,
    /// The seed by which keys are found in it: `Feeder::with_seed`. It makes no difference to what is
    /// read.
    pub seed: u128,
    /// The place where they were captured, in a capture: `--interface`, or `--other-interface`.
    /// Where it is left out, there may be only one.
    pub place: Option<Place>,
    /// Which packets of a capture are read, by when they came: `--since`, `--until`, or
    /// `--other-since`, `--other-until`.
    pub window: Window,
    /// The first of these options, if one was given for this input.
    pub time_option: Option<TimeOption>,
    /// After how many times its Interval a row of a capture's table is gone: `--expiry`. None is
    /// where it is left out.
    pub expiry: Option<Factor>,
    /// Whether a capture that is cut short is read to its last whole record: `--accept-cut`.
    pub accept_cut: bool,
    /// Whether a datagram of which fragments are missing is left out: `--accept-missing`.
    pub accept_missing: bool,
    /// Whether the dump is refused if a TLV of it is ignored, a datagram was left out of it, or it
    /// has no Update: `--strict`.
    pub strict: bool,
}

impl Reading {
    /// A dump of this sender, whose TLVs may be ignored.
    pub fn of(limits: Limits, mode: Mode, sender: Addr) -> Reading
        ensures { result ≡ usual_reading limits mode sender }
    {
        Reading {
            limits,
            mode,
            sender,
            is_capture: false,
            seed: USUAL_SEED,
            place: None,
            window: Window::Whole,
            time_option: None,
            expiry: None,
            accept_cut: false,
            accept_missing: false,
            strict: false,
        }
    }

    /// How a capture is read for the dump of the sender.
    pub(crate) fn of_capture(&self) -> CaptureReading
        ensures { result ≡ capture_reading_of self.now }
    {
        CaptureReading {
            limit: capture_limit(self.limits.bytes()),
            window: self.window,
            accept_cut: self.accept_cut,
            accept_missing: self.accept_missing,
            strict: self.strict,
        }
    }

    /// Whose datagrams of a capture are its dump.
    pub(crate) fn wanted(&self) -> Wanted
        ensures { result ≡ wanted_by self.now }
    {
        Wanted {
            sender: Some(self.sender),
            place: self.place,
            are_listed: true,
            accepts_missing: self.accept_missing,
        }
    }
}

/// How many octets a capture may have if its dump may have this many.
pub(crate) fn capture_limit(dump: u32) -> u32
    ensures { result ≡ capture_limit dump }
{
    USUAL_CAPTURE.max(dump)
}
