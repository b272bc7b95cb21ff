//! Options that are for captures alone.
ghost use Rattle.std.specs.Prelude.{◌≡◌};
ghost use Rattle.std.specs.Option.{option_copied};
ghost use Rattle.babel_dump.specs.Misplaced.{misplaced};

use crate::reading::Reading;

/// The option that is for captures alone and was given for a dump, by how an input is read, or the
/// first of two, and the other, and by whether they are captures.
pub(crate) fn misplaced(
    first: &Reading,
    other: Option<&Reading>,
    is_capture: bool,
    other_is_capture: bool,
) -> Option<&'static str>
    ensures { option_copied result
        ≡ misplaced first.now (option_copied other.entry) is_capture other_is_capture }
{
    if first.place.is_some() && !is_capture {
        return Some("--interface");
    }
    if let Some(other) = other {
        if other.place.is_some() && !other_is_capture {
            return Some("--other-interface");
        }
    }
    if !is_capture && !other_is_capture {
        if first.accept_cut {
            return Some("--accept-cut");
        }
        if first.accept_missing {
            return Some("--accept-missing");
        }
        if let Some(option) = first.time_option {
            return Some(option.name());
        }
    }
    if other_is_capture {
        return None;
    }
    other?.time_option?.other_name()
}
