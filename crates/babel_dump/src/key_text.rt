//! The line of a key, as `sha256sum` writes it, or as JSON.
ghost use Rattle.std.specs.Prelude.{◌≡◌, ◌++◌, IfOk, OnOk};
ghost use Rattle.std.specs.Option.{option_copied};
ghost use Rattle.babel_dump.specs.KeyText.{file_text, has_escape, key_in, key_json, key_line};
ghost use Rattle.babel_dump.specs.KeyText.{name_escape};

use crate::format::Format;
use sha2::{Digest, Sha256};
use std::alloc::{AllocError, Global};
use std::fmt;
use std::fmt::{Display, Formatter, Write};

/// A file's name, as the lines of keys have it, a colon and a space; nothing where none is named.
#[derive(Clone, Copy)]
pub struct Named<'a>(pub Option<&'a str>);

impl Display for Named<'_> {
    fn fmt<W: Write>(&self, f: &mut Formatter<W>) -> fmt::Result {
        let Some(file) = self.0 else {
            return Ok(());
        };
        write_file(f, file)?;
        f.write_str(": ")
    }
}

/// Writes a file's name.
fn write_file<W: Write>(f: &mut Formatter<W>, file: &str) -> fmt::Result {
    for c in file.chars() {
        match escape_of(c) {
            Some(escape) => f.write_str(escape)?,
            None => f.write_char(c)?,
        }
    }
    Ok(())
}

/// The line of the key of these octets, which are named so in this format.
pub(crate) fn key_output(
    alloc: Global,
    format: &Format,
    octets: &[u8],
    named: &[u8],
) -> Result<Vec<u8>, AllocError>
    ensures { IfOk result (λ line. line.items ≡ key_in format.now octets.now named.now) }
{
    match format {
        Format::Text(_) => key_line(alloc, octets, named),
        Format::Json(_) => key_json(alloc, octets, named),
    }
}

/// Their SHA-256 in lower-case hexadecimal digits, and these members: an object.
fn key_json(alloc: Global, octets: &[u8], members: &[u8]) -> Result<Vec<u8>, AllocError>
    ensures { IfOk result (λ line. line.items ≡ key_json octets.now members.now) }
{
    let digits = hex::encode(alloc, Sha256::digest(octets))?;
    let mut line = Vec::new(alloc);
    line.extend_from_slice(br#"{"key":""#)?;
    line.extend_from_slice(digits.as_bytes())?;
    line.extend_from_slice(br#"","#)?;
    line.extend_from_slice(members)?;
    line.extend_from_slice(b"}\n")?;
    Ok(line)
}

/// Their SHA-256 in lower-case hexadecimal digits, two spaces and the file's name; with a backslash
/// first where the name has a character that is escaped.
fn key_line(alloc: Global, octets: &[u8], file: &[u8]) -> Result<Vec<u8>, AllocError>
    ensures { IfOk result (λ line. line.items ≡ key_line octets.now file.now) }
{
    let digits = hex::encode(alloc, Sha256::digest(octets))?;
    let mut line = Vec::new(alloc);
    if has_escape(file) {
        line.push(b'\\')?;
    }
    line.extend_from_slice(digits.as_bytes())?;
    line.extend_from_slice(b"  ")?;
    push_file(&mut line, file)?;
    line.push(b'\n')?;
    Ok(line)
}

/// Whether a file's name has a character that is escaped.
fn has_escape(file: &[u8]) -> bool
    ensures { result ≡ has_escape file.now }
{
    for octet in file {
        if escape_of(char::from(*octet)).is_some() {
            return true;
        }
    }
    false
}

/// Appends a file's name.
pub(crate) fn push_file(line: &mut Vec<u8>, file: &[u8]) -> Result<(), AllocError>
    ensures { OnOk result (line.new.items ≡ line.old.items ++ file_text file.now) }
{
    for octet in file {
        match escape_of(char::from(*octet)) {
            Some(escape) => line.extend_from_slice(escape.as_bytes())?,
            None => line.push(*octet)?,
        }
    }
    Ok(())
}

/// What stands for a character of a file's name, if it does not stand for itself.
fn escape_of(c: char) -> Option<&'static str>
    ensures { option_copied result ≡ name_escape c }
{
    match c {
        '\\' => Some(r"\\"),
        '\n' => Some(r"\n"),
        '\r' => Some(r"\r"),
        _ => None,
    }
}
