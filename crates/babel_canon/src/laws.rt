//! Laws of the definitions.
ghost use Rattle.babel_canon.specs.AnswersAreTold.{AnswerIsOne, AnswersAreTold};
ghost use Rattle.babel_canon.specs.AnswersAreTold.{SettledIsOne, TableAnswers};
ghost use Rattle.babel_canon.specs.RoundTrip.{TextReadsBack};
ghost use Rattle.babel_canon.specs.BoxesTell.{BoxesAnswer, BoxesTellApart};
ghost use Rattle.babel_canon.specs.DifferenceLaws.{DifferencesAreFewest, DifferencesAreOne};
ghost use Rattle.babel_canon.specs.DifferenceLaws.{ManyAreMore};
ghost use Rattle.babel_canon.specs.DifferenceLaws.{FirstHasLeast, NoneWhereSame};
ghost use Rattle.babel_canon.specs.Fewest.{BoxesAreFewest};
ghost use Rattle.babel_canon.specs.Packing.{TextIsOne};
ghost use Rattle.babel_canon.specs.Normalises.{Headline};
ghost use Rattle.babel_canon.specs.Routes.{NoneWhereRoutesSame, RouteDifferencesAreOne};
ghost use Rattle.babel_canon.specs.Routes.{RoutesHeadline, SameRoutesAnswer};
ghost use Rattle.babel_canon.specs.Views.{HeadlineUnder};
ghost use Rattle.babel_canon.specs.ViewsTell.{AllNormalises, AllRowsAreSeen};
ghost use Rattle.babel_canon.specs.ViewsTell.{AnswersAreSeen, SeenAnswersTell};
ghost use Rattle.babel_canon.specs.OneOutcome.{NormalFormIsOne, NormaliseFaultIsOne};
ghost use Rattle.babel_canon.specs.OneOutcome.{NormalFormHasNoFault, VerdictIsOne};

/// Pairs have exactly one canonical text for each size of a body.
pub fn text_is_one()
    ensures { TextIsOne }
{}

/// The canonical text of pairs with distinct keys, read with any sender, has no fault, at most 83
/// octets a pair, and exactly these pairs as rows: in mode Hold, and in mode Plain if no pair is
/// unreachable.
pub fn text_reads_back()
    ensures { TextReadsBack }
{}

/// The boxes of rows have the answers of the rows, and are equal exactly where the answers are.
pub fn boxes_are_answers()
    ensures answer { BoxesAnswer }
    ensures tell_apart { BoxesTellApart }
{}

/// The boxes of rows, of both families together, do not overlap and have the answers of the rows,
/// and no such list has fewer pairs.
pub fn boxes_are_fewest()
    ensures { BoxesAreFewest }
{}

/// Two dumps give every destination and source the same answer exactly if their canonical octets
/// are equal; and these, read with any sender, give those answers again, and are their own
/// canonical form, from which only running out of memory keeps them.
pub fn canonical_octets_tell_answers()
    ensures { Headline }
{}

/// The same for every view; tables answer the same under a view exactly where what the view sees of
/// them answers the same. The view that keeps every field sees rows as they are, and the canonical
/// octets under it are those without a view.
pub fn canonical_octets_tell_answers_under()
    ensures headline { HeadlineUnder }
    ensures seen { SeenAnswersTell }
    ensures rows { AllRowsAreSeen }
    ensures all { AllNormalises }
{}

/// What a view sees of rows answers, address by address, what it sees of the rows' answer.
pub fn answers_are_seen()
    ensures { AnswersAreSeen }
{}

/// A dump has at most one canonical text for each size of a body; out of memory aside, at most one
/// fault that keeps it from one; and never both.
pub fn normal_form_is_one()
    ensures text { NormalFormIsOne }
    ensures fault { NormaliseFaultIsOne }
    ensures no_fault { NormalFormHasNoFault }
{}

/// Two tables have at most one verdict.
pub fn verdict_is_one()
    ensures { VerdictIsOne }
{}

/// Two tables have no difference exactly where they give every destination and source the same
/// answer; the first one has the least pair of addresses at which they differ; and no disjoint
/// lists of rows, one of each family, that tell the same differences are together shorter.
pub fn differences_are_boxes()
    ensures none { NoneWhereSame }
    ensures first { FirstHasLeast }
    ensures fewest { DifferencesAreFewest }
{}

/// Two tables have at most one list of differences; it is more than the limit exactly where it has
/// more members.
pub fn differences_are_one()
    ensures one { DifferencesAreOne }
    ensures many { ManyAreMore }
{}

/// What a dump answers for two addresses is what its table answers, and is one; so is what a
/// settled dump answers; and canonical octets tell dumps apart exactly where these answers do, and,
/// read with any sender, answer alike and are their own canonical form.
pub fn answers_are_told()
    ensures table { TableAnswers }
    ensures one { AnswerIsOne }
    ensures settled { SettledIsOne }
    ensures headline { AnswersAreTold }
{}

/// Two dumps have the same routes under a view exactly if their route octets are equal; and these,
/// read with any sender, give those routes again, and are their own route octets, from which only
/// running out of memory keeps them. Tables with the same routes answer the same.
pub fn route_octets_tell_routes()
    ensures headline { RoutesHeadline }
    ensures answers { SameRoutesAnswer }
{}

/// Two tables have at most one list of keys for which they hold what differs, and it is empty
/// exactly where their rows are equal.
pub fn route_differences_are_one()
    ensures one { RouteDifferencesAreOne }
    ensures none { NoneWhereRoutesSame }
{}
