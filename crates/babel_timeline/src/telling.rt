ghost use Rattle.std.specs.Prelude.{◌≡◌, ◌∷◌, ◌++◌, [], OnOk, None, Some};
ghost use Rattle.babel_timeline.specs.declared.telling.Telling.TheVariants as tellings;

use crate::best_match::BestMatch;
use crate::change::Change;
use crate::sender::Sender;
use crate::watch::Silence;
use babel_prefix::Addr;
use babel_tlv::Request;
use std::alloc::AllocError;

/// What is told: a line of its own.
#[derive(Clone, Copy)]
pub enum Telling<S> {
    /// What is held for a subject changes.
    Change(Change<S>),
    /// The answer for the two addresses that are asked for changes.
    Answer {
        /// When, in nanoseconds since the start of 1970.
        time: u128,
        /// Whose answer.
        sender: S,
        /// The best match now; `None` where there is none.
        answer: Option<BestMatch>,
        /// The best match before; `None` where there was none.
        before: Option<BestMatch>,
    },
    /// A sender requests something: RFC 8966, 4.6.10, 4.6.11.
    Request {
        /// When, in nanoseconds since the start of 1970.
        time: u128,
        /// Who requests it.
        sender: S,
        /// Of whom; `None` where that is no unicast address.
        to: Option<Addr>,
        /// What is requested.
        request: Request,
    },
    /// A sender falls silent: RFC 8966, 3.4.1, appendix A.1.
    Silent {
        /// When, in nanoseconds since the start of 1970.
        time: u128,
        /// Who.
        sender: S,
        /// When its last Hello came.
        since: u128,
        /// How many routes it holds.
        routes: usize,
    },
    /// A sender that was silent sends a Hello again.
    Returns {
        /// When, in nanoseconds since the start of 1970.
        time: u128,
        /// Who.
        sender: S,
    },
}

impl<S: Sender> Telling<S> {
    /// Adds that a sender falls silent, which holds so many routes.
    pub(crate) fn add_silence(
        told: &mut Vec<Telling<S>>,
        silence: &Silence<S>,
        routes: usize,
    ) -> Result<(), AllocError>
        ensures { OnOk result (told.new.items ≡ told.old.items
            ++ tellings.Silent silence.now.time silence.now.sender silence.now.since routes ∷ []) }
    {
        told.push(Telling::Silent {
            time: silence.time,
            sender: silence.sender,
            since: silence.since,
            routes,
        })?;
        Ok(())
    }

    /// Adds that a sender returns.
    pub(crate) fn add_return(
        told: &mut Vec<Telling<S>>,
        time: u128,
        sender: S,
    ) -> Result<(), AllocError>
        ensures { OnOk result
            (told.new.items ≡ told.old.items ++ tellings.Returns time sender ∷ []) }
    {
        told.push(Telling::Returns { time, sender })?;
        Ok(())
    }

    /// Adds that a sender answers this at a time, after nothing.
    pub fn add_route(
        told: &mut Vec<Telling<S>>,
        time: u128,
        sender: S,
        best: &BestMatch,
    ) -> Result<(), AllocError>
        ensures { OnOk result (told.new.items
            ≡ told.old.items ++ tellings.Answer time sender (Some best.now) None ∷ []) }
    {
        told.push(Telling::Answer {
            time,
            sender,
            answer: Some(*best),
            before: None,
        })?;
        Ok(())
    }
}
