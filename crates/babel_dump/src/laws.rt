//! Laws of the definitions.
ghost use Rattle.babel_dump.specs.ExtractLaws.{ExtractedIsFramed};
ghost use Rattle.babel_dump.specs.Fellows.{FellowsAreMutual};
ghost use Rattle.babel_dump.specs.FirstIgnored.{FirstIsFirst, NoneIsNone, OffsetsOfDumpsRise};
ghost use Rattle.babel_dump.specs.FirstLeftOut.{NoneIsLeftOut, RefusedIsFirst};
ghost use Rattle.babel_dump.specs.FollowedSenders.{FewAreFollowed, WhoAnnouncesIsFollowed};
ghost use Rattle.babel_dump.specs.OneOutcome.{FaultIsOfAll, FaultIsOne, NamedIsNotSeveral};
ghost use Rattle.babel_dump.specs.OneOutcome.{NothingWritten, OutcomeIsOne, OutcomeOrFault};
ghost use Rattle.babel_dump.specs.OneOutcome.{WrittenIsPrefix};

/// What the run of a job answers over devices that say their octets, failed calls and running out of
/// memory aside, is settled by the octets of its readers: one outcome and one text, or one fault.
/// This does not speak of the faults of captures.
pub fn outcome_is_one()
    ensures outcome { OutcomeIsOne }
    ensures outcome_or_fault { OutcomeOrFault }
    ensures fault { FaultIsOne }
{}

/// The fault of a dump is that of all octets that its reader had; of a dump in a capture it is that
/// of packets of the blocks with which these begin, and the sender is at one place.
pub fn fault_is_of_all()
    ensures { FaultIsOfAll }
{}

/// A run whose write failed leaves the first octets of the text that it was to write, and a run with
/// any other fault nothing.
pub fn written_is_prefix()
    ensures prefix { WrittenIsPrefix }
    ensures nothing { NothingWritten }
{}

/// What a run of `extract` wrote, as it is, no job refuses as truncated, or for a wrong magic or
/// version: not as its first dump, and not as the other of a comparison.
pub fn extracted_is_framed()
    ensures { ExtractedIsFramed }
{}

/// A run of `extract` that names an interface is never refused for several.
pub fn named_interface_is_one()
    ensures { NamedIsNotSeveral }
{}

/// A report says that no TLV was ignored exactly where no TLV is; and, as offsets in a dump rise,
/// the first that it says was ignored is the first that is.
pub fn ignored_is_first()
    ensures none { NoneIsNone }
    ensures first { FirstIsFirst }
    ensures rise { OffsetsOfDumpsRise }
{}

/// A report of a capture says that no datagram was left out exactly where none was; and the one for
/// which strict reading refuses a capture is the first of its packets that was left out.
pub fn left_out_is_first()
    ensures none { NoneIsLeftOut }
    ensures first { RefusedIsFirst }
{}

/// The fellow that a sender of one capture has in another has it as its own: so each is in one pair.
pub fn fellows_are_mutual()
    ensures { FellowsAreMutual }
{}

/// Where a capture has no more than 65,536 senders, `events` follows all of them: its records are
/// taken as they are. Where no more than 65,536 announce anything, it follows each of these, from
/// its first Update on.
pub fn few_are_followed()
    ensures few { FewAreFollowed }
    ensures announcing { WhoAnnouncesIsFollowed }
{}
