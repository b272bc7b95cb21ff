//! The help texts of `clap`, as they are printed.
use std::alloc::{AllocError, Global};

/// No line of a help text is longer, where it has a blank to break at.
const COLUMNS: usize = 80;

/// A help text whose lines are broken at blanks where they are too long. A line goes on below its
/// last column: where the text after two blanks begins.
pub(crate) fn wrapped(alloc: Global, text: &str) -> Result<String, AllocError> {
    let mut lines = String::new(alloc);
    for line in text.lines() {
        push_wrapped(&mut lines, line)?;
        lines.push('\n')?;
    }
    Ok(lines)
}

/// Appends a line, as several where it is too long.
fn push_wrapped(lines: &mut String, line: &str) -> Result<(), AllocError> {
    let indent = line
        .rfind("  ")
        .map_or(0, |blanks| blanks.saturating_add(2));
    let mut column: usize = 0;
    for (place, word) in line.split(' ').enumerate() {
        let end = column.saturating_add(1).saturating_add(word.len());
        if place == 0 {
            column = word.len();
        } else if end > COLUMNS && column > indent {
            lines.push('\n')?;
            push_blanks(lines, indent)?;
            column = indent.saturating_add(word.len());
        } else {
            lines.push(' ')?;
            column = end;
        }
        lines.push_str(word)?;
    }
    Ok(())
}

fn push_blanks(lines: &mut String, count: usize) -> Result<(), AllocError> {
    for _ in 0..count {
        lines.push(' ')?;
    }
    Ok(())
}
