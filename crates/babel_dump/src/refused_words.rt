//! What is said of words that `clap` refuses, and the texts that it was asked for.
use crate::command::command;
use crate::commands::COMMANDS;
use crate::escaped::Escaped;
use crate::help_text::wrapped;
use crate::job::Refusal;
use crate::options::has_option;
use clap::Error;
use clap::error::ErrorKind;
use std::alloc::{AllocError, Global};
use std::fmt;

/// How the line begins that tells of an option which the command has not.
const UNEXPECTED: &str = "error: unexpected argument '";

/// How the tip begins that a word could be passed as a value.
const AS_A_VALUE: &str = "  tip: to pass '";

/// Why these words give no matches, of which `clap` said this.
pub(crate) fn refusal(alloc: Global, words: &[&str], error: &Error) -> Result<Refusal, AllocError> {
    let kind = error.kind();
    if kind == ErrorKind::OutOfMemory {
        return Ok(Refusal::Memory);
    }
    if !error.use_stderr() {
        let help = error.to_string(alloc)?;
        return Ok(Refusal::Help(wrapped(alloc, help.as_str())?));
    }
    let said = said_escaped(alloc, words, error)?;
    let text = format!(in alloc; "{}", Told(said.as_str()))?;
    if kind == ErrorKind::InvalidSubcommand {
        if let Some(word) = words.first() {
            let word = String::from_str(alloc, word)?;
            return Ok(Refusal::NoCommand { text, word });
        }
    }
    if let Some(word) = word_taken(words, said.as_str()) {
        let word = String::from_str(alloc, word)?;
        return Ok(Refusal::NoOption { text, word });
    }
    Ok(Refusal::Usage(text))
}

/// What `clap` says of these words, of which it said this, where their control characters are
/// escaped.
fn said_escaped(alloc: Global, words: &[&str], error: &Error) -> Result<String, AllocError> {
    let mut plain = Vec::new(alloc);
    for word in words {
        let word = Escaped(word);
        plain.push(format!(in alloc; "{word}")?)?;
    }
    match command(alloc)?.try_get_matches_from(plain.as_slice()) {
        Ok(_matches) => error.to_string(alloc),
        Err(escaped) if escaped.kind() == ErrorKind::OutOfMemory => Err(AllocError),
        Err(escaped) => escaped.to_string(alloc),
    }
}

/// What `clap` says, without what misleads: no file is called as an option is, and an option that
/// other commands have is not taken for one that looks like it.
#[derive(Clone, Copy)]
struct Told<'a>(&'a str);

impl fmt::Display for Told<'_> {
    fn fmt<W: fmt::Write>(&self, f: &mut fmt::Formatter<W>) -> fmt::Result {
        let option = option_of_others(self.0);
        let mut after_empty = false;
        for (place, line) in self.0.lines().enumerate() {
            let misleads = line.starts_with(AS_A_VALUE) || (option.is_some() && is_guess(line));
            if misleads || (after_empty && line.is_empty()) {
                continue;
            }
            writeln!(f, "{line}")?;
            if let (0, Some(option)) = (place, option) {
                write!(
                    f,
                    "\n  tip: --{option} is an option of {}\n",
                    CommandsWith(option)
                )?;
            }
            after_empty = line.is_empty();
        }
        Ok(())
    }
}

/// Whether a line comes of a guess which option was meant.
fn is_guess(line: &str) -> bool {
    line.starts_with("  tip: ") || line.starts_with("Usage: ")
}

/// What this says is unexpected, as it is said.
fn unexpected(said: &str) -> Option<&str> {
    let (word, _) = said.strip_prefix(UNEXPECTED)?.split_once('\'')?;
    Some(word)
}

/// The word after the command that is taken for the option of which this says that it is
/// unexpected.
fn word_taken<'a>(words: &[&'a str], said: &str) -> Option<&'a str> {
    let option = unexpected(said)?;
    for word in words.get(1..)? {
        if word.starts_with('-') && word.starts_with(option) {
            return Some(*word);
        }
    }
    None
}

/// The option, without its hyphens, of which this says that it is unexpected, if a command has it.
fn option_of_others(said: &str) -> Option<&str> {
    let option = unexpected(said)?.strip_prefix("--")?;
    for command in COMMANDS {
        if has_option(command.name, option) {
            return Some(option);
        }
    }
    None
}

/// The names of the commands that have this option, with commas between them.
#[derive(Clone, Copy)]
struct CommandsWith<'a>(&'a str);

impl fmt::Display for CommandsWith<'_> {
    fn fmt<W: fmt::Write>(&self, f: &mut fmt::Formatter<W>) -> fmt::Result {
        let mut is_first = true;
        for command in COMMANDS {
            if has_option(command.name, self.0) {
                if !is_first {
                    f.write_str(", ")?;
                }
                f.write_str(command.name)?;
                is_first = false;
            }
        }
        Ok(())
    }
}
