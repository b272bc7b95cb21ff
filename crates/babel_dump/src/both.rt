//! The tables of the two dumps of a comparison.
ghost use Rattle.std.specs.Prelude.{◌≡◌, IfOk, length, take};
ghost use Rattle.babel_canon.specs.Joined.{differences_left, differing};
ghost use Rattle.babel_canon.specs.Routes.{AreRouteDifferences};
ghost use Rattle.babel_dump.specs.Command.{IsOutcomeOfAnswers, IsOutcomeOfBoth};
ghost use Rattle.babel_dump.specs.RunText.{differences_status};

use crate::outcome::{Outcome, Reports};
use babel_canon::{Difference, RouteDifferences};
use babel_table::Table;
use std::alloc::{AllocError, Global};

/// The tables of two dumps, as one view sees both.
#[derive(Drop)]
pub(crate) struct SeenTables {
    pub left: Table,
    pub right: Table,
}

impl SeenTables {
    /// The outcome with this status, and the reports of both.
    pub fn outcome(&self, status: u8) -> Outcome
        ensures { IsOutcomeOfBoth result status self.now.left.report self.now.right.report }
    {
        let reports = Reports::Dumps(*self.left.report(), *self.right.report());
        Outcome { status, reports }
    }

    /// The keys for which they hold what differs.
    pub fn route_differences(&self) -> RouteDifferences<'_>
        ensures are { AreRouteDifferences self.now.left.rows self.now.right.rows
            (differences_left result) }
        ensures value { differences_left result
            ≡ differing self.now.left.rows self.now.right.rows }
    {
        RouteDifferences::of(&self.left, &self.right)
    }

    /// The first of them alone, if there is one. The others are not looked for.
    pub fn first_route_difference(&self, alloc: Global) -> Result<Vec<Difference>, AllocError>
        ensures { IfOk result (λ first. first.items
            ≡ take 1 (differing self.now.left.rows self.now.right.rows)) }
    {
        self.route_differences().take(1).collect(alloc)
    }

    /// The outcome of comparing their routes.
    pub fn compared_routes(&self) -> Outcome
        ensures outcome { IsOutcomeOfBoth result
            (differences_status (length (differing self.now.left.rows self.now.right.rows)))
            self.now.left.report self.now.right.report }
        ensures are { AreRouteDifferences self.now.left.rows self.now.right.rows
            (differing self.now.left.rows self.now.right.rows) }
    {
        match self.route_differences().next() {
            Some(_) => self.outcome(1),
            None => self.outcome(0),
        }
    }

    /// The outcome of comparing what the two answer, with this status: where it is 0, the answers
    /// are the same, and the outcome says how many routes differ.
    pub fn compared(&self, alloc: Global, status: u8) -> Result<Outcome, AllocError>
        ensures { IfOk result (IsOutcomeOfAnswers status self.now.left self.now.right) }
    {
        if status != 0 {
            return Ok(self.outcome(status));
        }
        let routes: Vec<Difference> = self.route_differences().collect(alloc)?;
        let reports = Reports::Alike(*self.left.report(), *self.right.report(), routes.len());
        Ok(Outcome { status, reports })
    }
}
