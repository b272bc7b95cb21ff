//! Laws of the definitions. A caller keeps what was heard along.
ghost use Rattle.babel_selection.specs.Announcing.{BeginsDistances, UpdateKeepsDistances};
ghost use Rattle.babel_selection.specs.Hearing.{BeginsCounts, BeginsLast, HelloKeepsCounts};
ghost use Rattle.babel_selection.specs.Hearing.{IhuKeepsLast};
ghost use Rattle.babel_selection.specs.Selection.{SelectedIsLeast, SelectedIsUsable};
ghost use Rattle.babel_selection.specs.Selection.{UnfeasibleIsNotSelected};
ghost use Rattle.babel_selection.specs.ToldKeys.{ToldAreOfAnswer};

use babel_timeline::Sender;

/// What is counted of Hellos, one by one, is what all of them say.
pub fn hellos_are_counted<S: Sender>()
    ensures begun { BeginsCounts S.cmp }
    ensures hello { HelloKeepsCounts S.cmp }
{}

/// Of IHUs that are taken one by one, the last of each pair is kept.
pub fn ihus_are_last<S: Sender>()
    ensures begun { BeginsLast S.cmp }
    ensures ihu { IhuKeepsLast S.cmp }
{}

/// What is kept of Updates, one by one, is the source table of all of them: RFC 8966, 3.7.3.
pub fn distances_are_kept()
    ensures begun { BeginsDistances }
    ensures update { UpdateKeepsDistances }
{}

/// What is selected is feasible and not infinite, and it is announced by the router itself or of
/// the least metric; what the router's own entry forbids is never selected.
pub fn selected_is_best()
    ensures usable { SelectedIsUsable }
    ensures least { SelectedIsLeast }
    ensures unfeasible { UnfeasibleIsNotSelected }
{}

/// It is told of the keys that match, and than which no key that matches and is used is longer.
pub fn told_are_of_answer()
    ensures { ToldAreOfAnswer }
{}
