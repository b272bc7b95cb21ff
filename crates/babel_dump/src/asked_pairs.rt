//! The pairs of addresses that a text asks for, one on a line.
ghost use Rattle.std.specs.Prelude.{◌≡◌, ◌∷◌, [], IfOk, IfErr, IfSome, map, take, IsUtf8};
ghost use Rattle.std.specs.Option.{IfNone};
ghost use Rattle.std.specs.List.{slice_split};
ghost use Rattle.babel_prefix.specs.Address.{Address};
ghost use Rattle.babel_prefix.specs.Text.{AddressText};
ghost use Rattle.babel_dump.specs.AskedPairs.{AskFor, AsksBy, SaysPair, is_passed_over};
ghost use Rattle.babel_dump.specs.AskedPairs.{lines_of, words_of};
ghost use Rattle.babel_dump.specs.Parts.{IsFaultOfLines};
ghost use Rattle.babel_dump.specs.declared.addr_pair.AddrPair.{AddrPair};

use crate::addr_pair::AddrPair;
use crate::pairs_fault::PairsFault;
use crate::run_fault::RunFault;
use babel_prefix::{Addr, parse_addr};
use std::alloc::{AllocError, Global};
use std::str;

/// What the words of a line ask for.
#[derive(Clone, Copy)]
enum Asked {
    /// Nothing: the line is skipped.
    Nothing,
    /// What is answered for these addresses.
    Pair(AddrPair),
    /// They are not a pair of addresses.
    Wrong,
}

/// The pairs that the lines of a text ask for, in their order. A line has a destination and a
/// source, with blanks between and around them. A line is skipped that has only blanks, or
/// whose first octet other than a blank is `#`.
///
/// # Errors
///
/// `Pairs` with the first line that is neither; out of memory.
pub(crate) fn asked_pairs(alloc: Global, text: &[u8]) -> Result<Vec<AddrPair>, RunFault>
    ensures ok { IfOk result (λ pairs. AskFor (lines_of text.now) pairs.items) }
    ensures fault { IfErr result (IsFaultOfLines (lines_of text.now)) }
{
    let lines = lines(alloc, text)?;
    let mut pairs = Vec::with_capacity(alloc, lines.len())?;
    for (index, line) in lines.iter().enumerate() {
        match asked_by(alloc, line)? {
            Asked::Nothing => {}
            Asked::Pair(pair) => pairs.push(pair).map_err(AllocError::from)?,
            Asked::Wrong => return Err(RunFault::Pairs(PairsFault::NotAPair { line: index + 1 })),
        }
    }
    Ok(pairs)
}

/// The lines of a text.
pub(crate) fn lines(alloc: Global, text: &[u8]) -> Result<Vec<&[u8]>, AllocError>
    ensures { IfOk result (λ lines. map (λ line. line.now) lines.items ≡ lines_of text.now) }
{
    text.split(|octet| *octet == b'\n').collect(alloc)
}

/// What a line asks for.
fn asked_by(alloc: Global, line: &[u8]) -> Result<Asked, AllocError>
    ensures { IfOk result (AsksBy (words_of line.now)) }
{
    Ok(asked_in(&first_words(alloc, line)?))
}

/// The first words of a line, at most three: a pair has two.
pub(crate) fn first_words(alloc: Global, line: &[u8]) -> Result<Vec<&[u8]>, AllocError>
    ensures { IfOk result (λ words. map (λ word. word.now) words.items
        ≡ take 3 (words_of line.now)) }
{
    line.split(|octet| octet.is_ascii_whitespace())
        .filter(|word| !word.is_empty())
        .take(3)
        .collect(alloc)
}

/// What a line asks for whose first words these are, at most three.
fn asked_in(words: &[&[u8]]) -> Asked
    ensures { AsksBy (map (λ word. word.now) words.now) result }
{
    match *words {
        [] => Asked::Nothing,
        [first, ..] if first.starts_with(b"#") => Asked::Nothing,
        [dst, src] => match pair(dst, src) {
            Some(pair) => Asked::Pair(pair),
            None => Asked::Wrong,
        },
        _ => Asked::Wrong,
    }
}

/// The pair of a destination and a source, if they are addresses of one family.
fn pair(dst: &[u8], src: &[u8]) -> Option<AddrPair>
    ensures some { IfSome result (SaysPair (dst.now ∷ src.now ∷ [])) }
    ensures none { IfNone result ((pair : AddrPair) → SaysPair (dst.now ∷ src.now ∷ []) pair → ⊥) }
{
    let (dst, src) = (address(dst)?, address(src)?);
    if dst.family() == src.family() {
        Some(AddrPair { dst, src })
    } else {
        None
    }
}

/// The address whose text a word is.
fn address(word: &[u8]) -> Option<Addr>
    ensures some { IfSome result (λ address. IsUtf8 word.now × AddressText word.now address) }
    ensures none { IfNone result ((address : Address) → IsUtf8 word.now
        → AddressText word.now address → ⊥) }
{
    parse_addr(str::from_utf8(word).ok()?)
}
