//! Patterns, and the paths that they match.
//!
//! The parts of a pattern stand between its slashes, as those of a path do. In a part `*` stands for any
//! characters, `?` for one character, and any other for itself. The part `**` stands for any parts, also for
//! none.
ghost use Rattle.std.specs.Prelude.{◌≡◌, ◌==◌, ◌-◌, ℕ, List, ◌∷◌, ◌++◌, IfOk, false, length, map};
ghost use Rattle.std.specs.Prelude.{slice_index_or};
ghost use Rattle.std.specs.List.{slice_split};
ghost use Rattle.std.specs.Str.{chars};
ghost use Rattle.named_files.specs.Patterns.{is_any_parts, matches, may_be_pattern, may_match_below};
ghost use Rattle.named_files.specs.Patterns.{part_matches, parts, parts_begin};
ghost use Rattle.named_files.specs.Patterns.{parts_match, sign_matches, texts};
ghost use Rattle.named_files.specs.Rows.{row_behind_part, row_behind_sign};

use crate::rows::{any_more, one_more, unbegun};
use std::alloc::{AllocError, Global};

/// Whether a pattern matches a path. It takes time in proportion to the product of their lengths, at most.
/// The error is out of memory.
pub fn matches(alloc: Global, pattern: &str, path: &str) -> Result<bool, AllocError>
    ensures { IfOk result (λ answer. answer ≡ matches pattern.now path.now) }
{
    let wanted = parts(alloc, pattern)?;
    let there = parts(alloc, path)?;
    parts_match(alloc, wanted.as_slice(), there.as_slice())
}

/// Whether a pattern may match a path below the folder of this one. Where it answers `false`, it matches
/// none. The error is out of memory.
pub fn may_match_below(alloc: Global, pattern: &str, folder: &str) -> Result<bool, AllocError>
    ensures may { IfOk result (λ answer. answer ≡ may_match_below pattern.now folder.now) }
    ensures none { IfOk result (λ answer. answer ≡ false
        → (rest : List ℕ) → matches pattern.now (folder.now ++ 47 ∷ rest) ≡ false) }
{
    let wanted = parts(alloc, pattern)?;
    let there = parts(alloc, folder)?;
    parts_begin(alloc, wanted.as_slice(), there.as_slice())
}

/// Whether a word may be a pattern: `*` or `?` stands in it.
pub fn may_be_pattern(word: &str) -> bool
    ensures { result ≡ may_be_pattern word.now }
{
    word.as_bytes()
        .iter()
        .any(|byte| *byte == b'*' || *byte == b'?')
}

/// The parts of a path or of a pattern, each as its characters. The error is out of memory.
fn parts(alloc: Global, path: &str) -> Result<Vec<Vec<char>>, AllocError>
    ensures { IfOk result (λ them. texts them.items ≡ parts path.now) }
{
    let texts = part_texts(alloc, path)?;
    let mut parts = Vec::new(alloc);
    for text in &texts {
        parts.push(characters(alloc, text)?)?;
    }
    Ok(parts)
}

/// The parts of a path or of a pattern, as texts. The error is out of memory.
fn part_texts<'p>(alloc: Global, path: &'p str) -> Result<Vec<&'p str>, AllocError>
    ensures { IfOk result (λ them.
        map (λ part. part.now) them.items ≡ slice_split (λ byte. byte == 47) path.entry.now) }
{
    path.split('/').collect(alloc)
}

/// The characters of a text. The error is out of memory.
fn characters(alloc: Global, text: &str) -> Result<Vec<char>, AllocError>
    ensures { IfOk result (λ them. them.items ≡ chars text.now) }
{
    text.chars().collect(alloc)
}

/// Whether the parts of a pattern match those of a path. The error is out of memory.
fn parts_match(alloc: Global, wanted: &[Vec<char>], there: &[Vec<char>]) -> Result<bool, AllocError>
    ensures { IfOk result (λ answer. answer ≡ parts_match (texts wanted.now) (texts there.now)) }
{
    let mut row = unbegun(alloc, there)?;
    for part in wanted {
        row = row_behind_part(alloc, part.as_slice(), there, row.as_slice())?;
    }
    Ok(is_last_set(row.as_slice()))
}

/// Whether the parts of a pattern may match those of a path with more behind them. The error is out of
/// memory.
fn parts_begin(alloc: Global, wanted: &[Vec<char>], there: &[Vec<char>]) -> Result<bool, AllocError>
    ensures { IfOk result (λ answer. answer ≡ parts_begin (texts wanted.now) (texts there.now)) }
{
    let mut left = wanted;
    for text in there {
        let Some((part, more)) = left.split_first() else {
            return Ok(false);
        };
        if is_any_parts(part.as_slice()) {
            return Ok(true);
        }
        if !part_matches(alloc, part.as_slice(), text.as_slice())? {
            return Ok(false);
        }
        left = more;
    }
    Ok(!left.is_empty())
}

/// The row behind one more part of a pattern. The error is out of memory.
fn row_behind_part(
    alloc: Global,
    part: &[char],
    there: &[Vec<char>],
    row: &[bool],
) -> Result<Vec<bool>, AllocError>
    ensures { IfOk result (λ more. more.items ≡ row_behind_part part.now (texts there.now) row.now) }
{
    if is_any_parts(part) {
        return any_more(alloc, row);
    }
    let passing = passing_parts(alloc, part, there)?;
    one_more(alloc, passing.as_slice(), row)
}

/// Which parts of a path the part of a pattern matches. The error is out of memory.
fn passing_parts(alloc: Global, part: &[char], there: &[Vec<char>]) -> Result<Vec<bool>, AllocError>
    ensures { IfOk result (λ passing. passing.items ≡ map (part_matches part.now) (texts there.now)) }
{
    let mut passing = Vec::new(alloc);
    for text in there {
        passing.push(part_matches(alloc, part, text.as_slice())?)?;
    }
    Ok(passing)
}

/// Whether the part of a pattern stands for any parts.
fn is_any_parts(part: &[char]) -> bool
    ensures { result ≡ is_any_parts part.now }
{
    match part {
        ['*', '*'] => true,
        _ => false,
    }
}

/// Whether the part of a pattern matches the part of a path. The error is out of memory.
fn part_matches(alloc: Global, signs: &[char], part: &[char]) -> Result<bool, AllocError>
    ensures { IfOk result (λ answer. answer ≡ part_matches signs.now part.now) }
{
    let mut row = unbegun(alloc, part)?;
    for sign in signs {
        row = row_behind_sign(alloc, *sign, part, row.as_slice())?;
    }
    Ok(is_last_set(row.as_slice()))
}

/// The row behind one more sign of a part. The error is out of memory.
fn row_behind_sign(
    alloc: Global,
    sign: char,
    part: &[char],
    row: &[bool],
) -> Result<Vec<bool>, AllocError>
    ensures { IfOk result (λ more. more.items ≡ row_behind_sign sign part.now row.now) }
{
    if sign == '*' {
        return any_more(alloc, row);
    }
    let passing = passing_characters(alloc, sign, part)?;
    one_more(alloc, passing.as_slice(), row)
}

/// Which characters of a part the sign of a pattern stands for. The error is out of memory.
fn passing_characters(alloc: Global, sign: char, part: &[char]) -> Result<Vec<bool>, AllocError>
    ensures { IfOk result (λ passing. passing.items ≡ map (sign_matches sign) part.now) }
{
    part.iter()
        .map(|c| sign == '?' || sign == *c)
        .collect(alloc)
}

/// Whether the last flag of a row is set.
fn is_last_set(row: &[bool]) -> bool
    ensures { result ≡ slice_index_or row.now (length row.now - 1) false }
{
    row.last().copied().unwrap_or(false)
}
