//! The text of a time, where it is not appended to a buffer.
use crate::push_time::{DAY, Date, HOUR, MINUTE, SECOND, date_of};
use babel_capture::Time;
use std::fmt;

/// A time, of which `Display` gives the text: `2026-11-25T13:30:22.248872000Z`.
#[derive(Clone, Copy)]
pub(crate) struct TimeText(pub Time);

impl fmt::Display for TimeText {
    fn fmt<W: fmt::Write>(&self, f: &mut fmt::Formatter<W>) -> fmt::Result {
        let nanoseconds = self.0.nanoseconds();
        let Date { year, month, day } = date_of((nanoseconds / u128::from(DAY)) as u32);
        let clock = (nanoseconds % u128::from(DAY)) as u64;
        let (hour, minute) = (clock / HOUR, clock / MINUTE % 60);
        let (second, fraction) = (clock / SECOND % 60, clock % SECOND);
        write!(
            f,
            "{year:04}-{month:02}-{day:02}T{hour:02}:{minute:02}:{second:02}.{fraction:09}Z"
        )
    }
}
