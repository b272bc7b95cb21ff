//! The words of `show --origins` and `diff --origins`.
use crate::asked::Asked;
use crate::each_sender::EachSender;
use crate::filter_words::filter;
use crate::given_words::GivenWords;
use crate::job::{DiffStyle, DumpFile};
use crate::origins_job::Origins;
use crate::words::{asked_of_each, both_files, refuse_two_inputs, shown, two_captures};
use babel_tlv::View;
use std::alloc::AllocError;

/// What `show --origins` asks for.
pub(crate) fn show_origins(
    given: &mut GivenWords<'_, '_>,
    style: DiffStyle,
) -> Result<Asked, AllocError> {
    let file = given.file("file");
    let more = given.files("more")?;
    refuse_two_inputs(given, &["file", "more"]);
    let left = asked_of_each(given, shown(), file);
    let none = Vec::new(given.alloc);
    Ok(origins(given, left, None, more, none, View::all(), style))
}

/// Refuses the first of the options of `diff` that are for `--origins`, if one is given. `clap` does
/// so where no option is given that `--origins` excludes.
pub(crate) fn refuse_without_origins(given: &mut GivenWords<'_, '_>) {
    for id in ["within", "match", "source", "id", "and"] {
        if given.has_words(id) {
            given.refuse(format!(in given.alloc; "--{id} needs --origins\n"));
            return;
        }
    }
}

/// What `diff --origins` asks for.
pub(crate) fn diff_origins(
    given: &mut GivenWords<'_, '_>,
    style: DiffStyle,
) -> Result<Asked, AllocError> {
    let view = given.view();
    let SideFiles {
        left,
        right,
        more_left,
        more_right,
    } = files_of_sides(given)?;
    let (left, right) = two_captures(given, left, right);
    if !view.router_id {
        given.refuse_with("--origins and --ignore router-id exclude each other\n");
    }
    let right = Some(right);
    Ok(origins(given, left, right, more_left, more_right, view, style))
}

/// The files of the captures on two sides: the first on each, and more on each.
struct SideFiles {
    left: DumpFile,
    right: DumpFile,
    more_left: Vec<DumpFile>,
    more_right: Vec<DumpFile>,
}

/// The files of `diff --origins`: with `--and` those after it are on the other side, and all before
/// it on the first.
fn files_of_sides(given: &mut GivenWords<'_, '_>) -> Result<SideFiles, AllocError> {
    let mut more_right = given.files("and")?;
    if more_right.is_empty() {
        let (left, right) = both_files(given);
        return Ok(SideFiles {
            left,
            right,
            more_left: Vec::new(given.alloc),
            more_right,
        });
    }
    refuse_two_inputs(given, &["file", "other", "more", "and"]);
    let mut more_left = given.files("other")?;
    more_left.append(&mut given.files("more")?)?;
    Ok(SideFiles {
        left: given.file("file"),
        right: more_right.remove(0),
        more_left,
        more_right,
    })
}

/// What is asked for of who originates what in captures on one side, or on two.
fn origins(
    given: &mut GivenWords<'_, '_>,
    left: EachSender,
    right: Option<EachSender>,
    more_left: Vec<DumpFile>,
    more_right: Vec<DumpFile>,
    view: View,
    style: DiffStyle,
) -> Asked {
    Asked::Origins(Origins {
        left,
        right,
        more_left,
        more_right,
        filter: filter(given),
        has_metric: view.metric,
        style,
    })
}
