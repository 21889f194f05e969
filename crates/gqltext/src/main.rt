//! `gqltext`: GraphQL texts from standard input. Each is written as the tree that it is read as, as the text
//! that is printed of that tree, or as refused. It serves `tools/fuzz`, and no function has a clause but that
//! it is safe.
//!
//! The input is texts, each behind a line with the number of its bytes. The output is a line for each: `tree`
//! and the tree, or `refused`, where, and why. With `print` it is `text` in place of `tree`, the text that is
//! printed, escaped, and `again`. That text is read as an equal tree, of which the same is printed. Where it
//! isn't, `another tree`, `another text` or a refusal stands there. The status is 0, or 2 for words or an
//! input that say something else. It is 3 where memory ran out, and 4 where the output can't be written.
#![tactic(auto)]

/// Tells the parts one after the other.
macro_rules! tell {
    ($text:expr; $($part:expr),* $(,)?) => {{
        $($part.tell($text)?;)*
        Ok::<(), AllocError>(())
    }};
}

mod answer;
mod definitions;
mod readable;
mod tree;

use crate::answer::{Asked, Sort, push_answer};
use graphql_text::parsing::ParseOptions;
use std::alloc::Global;
use std::env;
use std::io::{self, BufWriter, ErrorKind, Read, Write};
use std::process::ExitCode;

const USAGE: &str =
    "usage: gqltext [print] document|selections|type|value [--max-depth N] [--max-tokens N]";

/// What the words behind the first say of the limits.
fn options(words: &[String]) -> Option<ParseOptions> {
    let mut options = ParseOptions::new();
    for pair in words.chunks(2) {
        let [name, number] = pair else {
            return None;
        };
        let number = number.parse::<usize>().ok()?;
        match name.as_str() {
            "--max-depth" => options.max_depth = number,
            "--max-tokens" => options.max_tokens = number,
            _ => return None,
        }
    }
    Some(options)
}

/// What is asked by these words, of which `print` may have stood in front.
fn asked_of(prints: bool, words: &[String]) -> Option<Asked> {
    let [sort, rest @ ..] = words else {
        return None;
    };
    Some(Asked {
        sort: Sort::of(sort.as_str())?,
        prints,
        options: options(rest)?,
    })
}

/// What is asked by these words.
fn asked(words: &[String]) -> Option<Asked> {
    match words {
        [first, rest @ ..] if first.as_str() == "print" => asked_of(true, rest),
        _ => asked_of(false, words),
    }
}

/// The first text of an input, and what stands behind it.
fn divided(input: &str) -> Option<(&str, &str)> {
    let (length, rest) = input.split_once('\n')?;
    rest.split_at_checked(length.parse::<usize>().ok()?)
}

/// Writes the answer to each text of an input. Answers whether the input is texts.
fn write_answers<W: Write>(
    alloc: Global,
    asked: Asked,
    input: &str,
    output: &mut W,
) -> io::Result<bool> {
    let mut rest = input;
    let mut line = String::new(alloc);
    // Each text stands behind a line, so there are fewer of them than bytes.
    for _ in 0..input.len() {
        if rest.is_empty() {
            break;
        }
        let Some((text, behind)) = divided(rest) else {
            return Ok(false);
        };
        line.clear();
        push_answer(alloc, &mut line, asked, text)?;
        output.write_all(line.as_bytes())?;
        rest = behind;
    }
    output.flush()?;
    Ok(true)
}

/// Reads the words and the input, and writes the answers. Answers whether the words and the input are some.
fn run(rt: &HostRuntime, alloc: Global) -> io::Result<bool> {
    let words: Vec<String> = env::args(rt)?.skip(1).collect(alloc)?;
    let Some(asked) = asked(words.as_slice()) else {
        return Ok(false);
    };
    let input = io::read_to_string(alloc, rt.stdin())?;
    let mut output = BufWriter::new(alloc, rt.stdout())?;
    write_answers(alloc, asked, input.as_str(), &mut output)
}

fn main(rt: HostRuntime) -> ExitCode {
    let status = match run(&rt, rt.alloc()) {
        Ok(true) => 0,
        Ok(false) => {
            let _ = rt.eprintln(USAGE);
            2
        }
        Err(error) if error.kind() == ErrorKind::OutOfMemory => 3,
        Err(error) if error.kind() == ErrorKind::InvalidData => 2,
        Err(_) => 4,
    };
    ExitCode::from(status)
}
