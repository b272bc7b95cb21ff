ghost use Rattle.std.specs.Prelude.{IfOk, IfErr};
ghost use Rattle.babel_prefix.specs.Address.{Address};
ghost use Rattle.babel_table.specs.Seen.{seen_rows};
ghost use Rattle.babel_canon.specs.Answers.{AnswerTheSame};
ghost use Rattle.babel_canon.specs.AnswersTell.{AnswersTell};
ghost use Rattle.babel_canon.specs.Headline.{TellsApart, ReadsAgain};
ghost use Rattle.babel_canon.specs.Sent.{sent};
ghost use Rattle.babel_canon.specs.Normalises.{NormaliseFault, Normalises, SaysFewest, as_they_are};
ghost use Rattle.babel_canon.specs.Views.{AnswerTheSameUnder, ReadsAgainSeen};

use crate::body::Body;
use crate::canon::canonical_octets;
use babel_prefix::Addr;
use babel_table::{Limits, read_dump};
use babel_tlv::{Fault, Mode, View};
use std::alloc::Global;

/// The canonical octets of a dump that this sender sent, in packets with bodies of at most this
/// many octets.
///
/// The canonical octets of two dumps, under the same limits, mode and body size, are equal exactly
/// where the dumps give every destination and source the same answer; read with any sender, they
/// give these answers again, and normalising them gives them back, unless memory runs out. They say
/// the fewest pairs that do not overlap and have these answers.
///
/// The faults are those of the dump, then `TooManyPairs` if its canonical pairs are more than the
/// entries of the limits, and `Memory`.
pub fn normalise(
    alloc: Global,
    limits: Limits,
    mode: Mode,
    body: Body,
    sender: Addr,
    dump: &[u8],
) -> Result<Vec<u8>, Fault>
    ensures ok { IfOk result (λ text.
        Normalises as_they_are limits mode body (sent sender dump.now) text.items) }
    ensures err { IfErr result (NormaliseFault as_they_are limits mode (sent sender dump.now)) }
    ensures answers_tell { IfOk result (λ text.
        AnswersTell (Normalises as_they_are limits mode body)
        (NormaliseFault as_they_are limits mode)
        limits.via_v6 mode (sent sender dump.now) text.items) }
    ensures tells_apart { IfOk result (λ text.
        TellsApart AnswerTheSame (Normalises as_they_are limits mode body)
        limits mode (sent sender dump.now) text.items) }
    ensures reads_again { IfOk result (λ text. (any : Address)
        → ReadsAgain AnswerTheSame (Normalises as_they_are limits mode body)
        (NormaliseFault as_they_are limits mode)
        limits mode (sent sender dump.now) text.items any) }
    ensures fewest { IfOk result (λ text.
        SaysFewest as_they_are limits mode body (sent sender dump.now) text.items) }
{
    let _sizes = (limits.entries(), body.octets());
    normalise_under(alloc, limits, mode, body, View::all(), sender, dump)
}

/// The canonical octets of a dump under a view: those of what the view sees of the dump's answers.
///
/// The canonical octets of two dumps under a view, with the same limits, mode and body size, are
/// equal exactly where the dumps give every destination and source the same answer under the view:
/// none, unreachable, or routes whose kept fields are equal. Read with any sender, they give the
/// answers under the view again, and normalising them, with the view or without, gives them back,
/// unless memory runs out. They say the fewest pairs that do not overlap and have what the view
/// sees of the answers.
///
/// The faults are those of the dump, then `TooManyPairs` if its canonical pairs under the view are
/// more than the entries of the limits, and `Memory`.
pub fn normalise_under(
    alloc: Global,
    limits: Limits,
    mode: Mode,
    body: Body,
    view: View,
    sender: Addr,
    dump: &[u8],
) -> Result<Vec<u8>, Fault>
    ensures ok { IfOk result (λ text.
        Normalises (seen_rows view) limits mode body (sent sender dump.now) text.items) }
    ensures err { IfErr result
        (NormaliseFault (seen_rows view) limits mode (sent sender dump.now)) }
    ensures tells_apart { IfOk result (λ text.
        TellsApart (AnswerTheSameUnder view) (Normalises (seen_rows view) limits mode body)
        limits mode (sent sender dump.now) text.items) }
    ensures reads_again { IfOk result (λ text. (any : Address)
        → ReadsAgainSeen view (seen_rows view) limits mode body
        (sent sender dump.now) text.items any
        × ReadsAgainSeen view as_they_are limits mode body (sent sender dump.now) text.items any) }
    ensures fewest { IfOk result (λ text.
        SaysFewest (seen_rows view) limits mode body (sent sender dump.now) text.items) }
{
    let _valid = (limits.entries(), body.octets());
    let table = read_dump(alloc, limits, mode, sender, dump)?;
    let seen = table.seen(view);
    let octets = canonical_octets(alloc, limits, body, &seen)?;
    Ok(octets)
}
