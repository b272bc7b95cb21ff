//! Why nothing came of what was asked for, and what is said of that.
ghost use Rattle.std.specs.Prelude.{◌≡◌, None};
ghost use Rattle.std.specs.Option.{option_copied};
ghost use Rattle.babel_dump.specs.AskedRun.{misplaced_told};
ghost use Rattle.babel_dump.specs.EventsCause.{TellsFault};
ghost use Rattle.babel_dump.specs.Remarks.{SaysHint};
ghost use Rattle.babel_dump.specs.Trouble.{refused_status, trouble_status, unwritten_status};

use crate::asked::Asked;
use crate::escaped::Escaped;
use crate::hearing::Unheard;
use crate::hint::Hint;
use crate::input_fault::InputFault;
use crate::inputs::Inputs;
use crate::job::{DumpFile, Job};
use crate::names_fault::NamesFault;
use crate::pairs_fault::PairsFault;
use crate::place_word::NamedOrigin;
use crate::run_fault::{RunFault, Side};
use crate::says::{Says, Watched};
use crate::stop::Stop;
use crate::write::WriteFailed;
use babel_capture::{Fault as CaptureFault, Origin};
use babel_tlv::Fault;
use std::alloc::AllocError;
use std::io;
use std::io::ErrorKind;

/// Why nothing came of what was asked for.
#[derive(Drop)]
pub enum Trouble {
    /// This option is for captures alone, and was given for a dump; of `--origins` it is on this
    /// side.
    Misplaced(Side, &'static str),
    /// What has no `--from` on this side is a dump.
    NoSender(Side),
    /// What has no `--from` is a capture in which not one sender alone announces, but so many do.
    NotOneSender(usize),
    /// What has no `--from` can't be read twice, to find the sender first.
    ReadOnce,
    /// By the capture's first packet the moment of one option is later than that of the other.
    Backwards {
        since: &'static str,
        until: &'static str,
    },
    /// The tables of a capture's senders have more routes than the limit.
    TooManyRoutes,
    /// The names are refused.
    Names(NamesFault),
    /// The run has a fault.
    Fault(RunFault),
    /// The TLVs of a sender in a capture are refused.
    Sender {
        /// The capture that has it, of two.
        side: Side,
        origin: Origin,
        /// The name of its interface, as the capture has it, once that is told.
        name: Option<Vec<u8>>,
        fault: InputFault,
    },
}

impl From<AllocError> for Trouble {
    ghost use Rattle.std.specs.Prelude.{◌≡◌};
    ghost use Rattle.babel_tlv.specs.declared.fault.Fault.TheVariants as faults;
    ghost use Rattle.babel_dump.specs.declared.input_fault.InputFault.TheVariants as input_faults;
    ghost use Rattle.babel_dump.specs.declared.run_fault.RunFault.TheVariants as run_faults;
    ghost use Rattle.babel_dump.specs.declared.run_fault.Side.TheVariants as sides;
    ghost use Rattle.babel_dump.specs.declared.trouble.Trouble.TheVariants as troubles;

    ghost from_gives = { λ _ trouble. trouble
        ≡ troubles.Fault (run_faults.Input sides.First (input_faults.Dump faults.Memory)) };

    fn from(error: AllocError) -> Trouble {
        Trouble::Fault(RunFault::from(error))
    }
}

impl From<RunFault> for Trouble {
    fn from(fault: RunFault) -> Trouble {
        Trouble::Fault(fault)
    }
}

impl From<InputFault> for Trouble {
    ghost use Rattle.babel_dump.specs.EventsCause.{TellsFault};
    ghost use Rattle.babel_dump.specs.declared.run_fault.Side.TheVariants as sides;

    ghost from_gives = { TellsFault sides.First };

    fn from(fault: InputFault) -> Trouble {
        Trouble::of_input(Side::First, fault, ("--since", "--until"))
    }
}

impl From<WriteFailed> for Trouble {
    ghost use Rattle.std.specs.Prelude.{◌≡◌};
    ghost use Rattle.babel_dump.specs.declared.run_fault.RunFault.TheVariants as run_faults;
    ghost use Rattle.babel_dump.specs.declared.trouble.Trouble.TheVariants as troubles;

    ghost from_gives = { λ _ trouble. trouble ≡ troubles.Fault run_faults.Write };

    fn from(failed: WriteFailed) -> Trouble {
        Trouble::Fault(RunFault::from(failed))
    }
}

impl From<Unheard> for Trouble {
    ghost use Rattle.std.specs.Prelude.{◌≡◌};
    ghost use Rattle.babel_dump.specs.Followed.{trouble_of};
    ghost use Rattle.babel_dump.specs.declared.stop.Stop.TheVariants as stops;

    ghost from_gives = { λ fault trouble. trouble ≡ trouble_of (stops.Unheard fault) };

    fn from(fault: Unheard) -> Trouble {
        match fault {
            Unheard::Memory => Trouble::from(AllocError),
            Unheard::Sender { origin, fault } => {
                Trouble::of_sender(origin, InputFault::Dump(fault))
            }
        }
    }
}

impl From<Stop> for Trouble {
    ghost use Rattle.std.specs.Prelude.{◌≡◌};
    ghost use Rattle.babel_dump.specs.Followed.{trouble_of};

    ghost from_gives = { λ stop trouble. trouble ≡ trouble_of stop };

    fn from(fault: Stop) -> Trouble {
        match fault {
            Stop::Unheard(fault) => Trouble::from(fault),
            Stop::LeftOut(datagram) => Trouble::from(InputFault::LeftOut(datagram)),
            Stop::Ignored {
                origin,
                tlv,
                ignores_encoding_4,
            } => Trouble::of_sender(
                origin,
                InputFault::Ignored {
                    tlv,
                    ignores_encoding_4,
                },
            ),
        }
    }
}

impl Trouble {
    /// That of a sender whose TLVs are refused; the name of its interface is not told yet.
    pub(crate) fn of_sender(origin: Origin, fault: InputFault) -> Trouble
        ensures { result ≡ Trouble.Sender Side.First origin None fault }
    {
        Trouble::Sender {
            side: Side::First,
            origin,
            name: None,
            fault,
        }
    }

    /// That of a job whose input on this side has a fault.
    pub fn of_job(job: &Job, side: Side, fault: InputFault) -> Trouble
        ensures status { trouble_status None result ≡ refused_status fault }
        ensures placed { misplaced_told result ≡ None }
    {
        Trouble::of_input(side, fault, job.moment_options(side))
    }

    /// That of a fault of the input on this side, which these options have read from a moment and
    /// up to one.
    pub(crate) fn of_input(
        side: Side,
        fault: InputFault,
        options: (&'static str, &'static str),
    ) -> Trouble
        ensures status { trouble_status None result ≡ refused_status fault }
        ensures placed { misplaced_told result ≡ None }
        ensures tells { TellsFault side fault result }
    {
        if fault.is_empty_window() {
            let (since, until) = options;
            Trouble::Backwards { since, until }
        } else {
            Trouble::Fault(RunFault::Input(side, fault))
        }
    }

    /// The exit status, where it is not known why a write failed: 2 where the words don't suit the
    /// input.
    fn status(&self) -> u8
        ensures { result ≡ trouble_status None self.now }
    {
        match self {
            Trouble::Misplaced(..)
            | Trouble::NoSender(_)
            | Trouble::NotOneSender(_)
            | Trouble::ReadOnce
            | Trouble::Backwards { .. } => 2,
            Trouble::TooManyRoutes => 3,
            Trouble::Names(fault) => fault.status(),
            Trouble::Fault(fault) => fault.status(),
            Trouble::Sender { fault, .. } => fault.status(),
        }
    }

    /// The file that it is of, if it is of one file, and its line does not name that. Too many
    /// differences are of both. Of `--origins` the capture at this place was read last.
    fn file<'a>(&self, asked: &'a Asked, place: usize) -> Option<&'a DumpFile> {
        if self.status() == 5 || asked.named().0.is_some() {
            return None;
        }
        match self {
            Trouble::Fault(RunFault::Input(_, InputFault::Dump(Fault::TooManyPairs)))
                if asked.compares() => None,
            Trouble::Misplaced(..) | Trouble::Backwards { .. } => asked.capture(place),
            Trouble::Fault(RunFault::Input(side, _)) | Trouble::Sender { side, .. } => {
                asked.capture(place).or(asked.input(*side))
            }
            Trouble::NoSender(Side::Other) | Trouble::Fault(RunFault::Pairs(_)) => asked.other(),
            Trouble::Names(_) => asked.names(),
            _ => None,
        }
    }
}

/// Says why nothing came of what was asked for, and what can be done about it, by what is
/// remembered of the readers, and why a write failed. The answer is the exit status.
pub fn say_trouble<S: Says, R: Watched>(
    says: &mut S,
    asked: &Asked,
    trouble: &Trouble,
    inputs: &Inputs<R>,
    others: &Inputs<R>,
    unwritten: Option<&io::Error>,
) -> u8
    ensures status { result ≡ trouble_status (option_copied unwritten.entry) trouble.now }
    ensures silent { result ≡ 141 → says.new ≡ says.old }
{
    if let Trouble::Fault(RunFault::Write) = trouble {
        return say_unwritten(says, unwritten);
    }
    say_line(says, asked, trouble);
    let begun = inputs.begun.saturating_add(others.begun);
    if let Some(DumpFile::Named(name)) = trouble.file(asked, begun.saturating_sub(1)) {
        let name = Escaped(name.as_str());
        says.say(&format_args!("hint: in {name}"));
    }
    let (reader, other) = (inputs.last_read(), others.last_read());
    match trouble {
        Trouble::Fault(RunFault::Input(side, fault)) => {
            let reader = match side {
                Side::First => reader,
                Side::Other => other,
            };
            explain(says, asked, *side, fault, reader);
        }
        Trouble::Fault(RunFault::Pairs(fault)) => explain_pairs(says, asked, fault, other),
        Trouble::Sender {
            side,
            origin,
            fault,
            ..
        } => {
            say_hint(says, &Hint::of(asked, *side, fault, &[]));
            say_hint(says, &Hint::of_offset_in(*origin, fault));
        }
        Trouble::TooManyRoutes => say_hint(says, &Hint::of_routes(asked)),
        Trouble::Names(fault) => explain_names(says, *fault, reader),
        Trouble::NotOneSender(_) => say_senders(says, asked.file()),
        _ => {}
    }
    trouble.status()
}

/// Says that a write failed, and why; but nothing where the reader of the output has closed the
/// pipe. The answer is the exit status; a shell's for SIGPIPE where it is closed.
pub fn say_unwritten<S: Says>(says: &mut S, error: Option<&io::Error>) -> u8
    ensures status { result ≡ unwritten_status (option_copied error.entry) }
    ensures silent { result ≡ 141 → says.new ≡ says.old }
{
    match error {
        Some(error) if matches!(error.kind(), ErrorKind::BrokenPipe) => 141,
        _ => {
            says.say(&RunFault::Write);
            say_why(says, error);
            4
        }
    }
}

/// Says how to find the senders in a file.
fn say_senders<S: Says>(says: &mut S, file: &DumpFile) {
    let name = Escaped(file.name());
    says.say(&format_args!("hint: babel-dump senders {name} lists the senders"));
}

/// Says the line of a trouble.
fn say_line<S: Says>(says: &mut S, asked: &Asked, trouble: &Trouble) {
    let file = asked.named();
    match trouble {
        Trouble::Misplaced(side, option) => {
            says.say(&format_args!("{file}{side}{option} is for captures, and this is a dump"));
        }
        Trouble::NoSender(side) => says.say(&format_args!("{file}{side}a dump needs --from")),
        Trouble::NotOneSender(0) => says.say(&"--from is needed: no sender announces here"),
        Trouble::NotOneSender(senders) => {
            says.say(&format_args!("--from is needed: {senders} senders announce here"));
        }
        Trouble::ReadOnce => says.say(&"--from is needed: only a named file is read twice"),
        Trouble::Backwards { since, until } => {
            says.say(&format_args!("{file}{since} is later than {until}"));
        }
        Trouble::TooManyRoutes => says.say(&format_args!("{file}too many routes")),
        Trouble::Names(fault) => says.say(fault),
        Trouble::Fault(fault) => says.say(&format_args!("{file}{fault}")),
        Trouble::Sender {
            side,
            origin,
            name,
            fault,
        } if !asked.names_sender() => {
            let name = name.as_deref().unwrap_or(&[]);
            let origin = *origin;
            let sender = NamedOrigin { origin, name };
            says.say(&format_args!("{file}{side}{sender}: {fault}"));
        }
        Trouble::Sender { fault, .. } => says.say(&format_args!("{file}{fault}")),
    }
}

/// Says why the input on this side has a fault, and what can be done about it. Captures were joined
/// where the first octets of one stand in place of a block.
fn explain<S: Says, R: Watched>(
    says: &mut S,
    asked: &Asked,
    side: Side,
    fault: &InputFault,
    reader: &R,
) {
    match fault {
        InputFault::Read => say_why(says, reader.error()),
        InputFault::Capture(CaptureFault::BadLength { at }) => {
            if let Some(octets) = reader.four_at(*at) {
                say_hint(says, &Hint::of_block(&octets));
            }
        }
        _ => {
            say_hint(says, &Hint::of(asked, side, fault, reader.begins()));
            say_hint(says, &Hint::of_offset(fault, reader.begins()));
        }
    }
}

/// Says why the pairs of `--each` have a fault, and what can be done about it.
fn explain_pairs<S: Says, R: Watched>(says: &mut S, asked: &Asked, fault: &PairsFault, reader: &R) {
    match fault {
        PairsFault::Read => say_why(says, reader.error()),
        PairsFault::TooLong => say_hint(says, &Hint::of_octets(asked)),
        PairsFault::NotAPair { .. } => says.say(
            &"hint: a line has a destination and a source of one family, with blanks between them",
        ),
    }
}

/// Says why the names have a fault, and what can be done about it.
fn explain_names<S: Says, R: Watched>(says: &mut S, fault: NamesFault, reader: &R) {
    match fault {
        NamesFault::Read => say_why(says, reader.error()),
        NamesFault::NotAName { .. } => says.say(
            &"hint: a line has an address or a router-id and its name, of 64 octets at most; each \
              is named once",
        ),
        NamesFault::TooLong | NamesFault::Memory => {}
    }
}

/// Says why a device failed, if it did.
fn say_why<S: Says>(says: &mut S, error: Option<&io::Error>) {
    if let Some(error) = error {
        says.say(&format_args!("hint: {error}"));
    }
}

/// Says a hint, if there is one.
pub(crate) fn say_hint<S: Says>(says: &mut S, hint: &Option<Hint>)
    ensures { SaysHint S.hears says.old hint.now says.new }
{
    if let Some(hint) = hint {
        says.say(hint);
    }
}
