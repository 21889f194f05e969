//! Sinks that texts are written to: one that fails part way, and writers of bytes.

use graphql_ast::definition::Definition;
use graphql_nodes::source::FileId;
use graphql_printing::printing::{definitions, value};
use graphql_text::parsing::{ParseOptions, parse_definitions, parse_value};
use std::alloc::Global;
use std::fmt;
use std::fmt::Write as _;
use std::io::{self, BufWriter, Write as _};
use std::test::Fail;

/// The text of what is written here, in which each sort of piece stands: strings, names, numbers and blanks.
static TEXT: &str =
    "\"\"\"d\"\"\"\ntype T @a(b: \"\\u0007\\n\") {\n  f(g: Int = 1): [T!]!\n}\n\n{\n  a\n}";

/// A sink that takes so many bytes, and fails once it has no room for the next.
#[derive(Drop)]
struct Narrow {
    taken: Vec<u8>,
    room: usize,
}

impl fmt::Write for Narrow {
    fn write_str(&mut self, s: &str) -> fmt::Result {
        for byte in s.as_bytes() {
            if self.room == 0 {
                return Err(fmt::Error);
            }
            self.room -= 1;
            self.taken.push(*byte).map_err(|_| fmt::Error)?;
        }
        Ok(())
    }
}

/// Whether a sink of this room takes the front of the text that fits, and its error comes through exactly
/// where the text is longer.
fn is_cut(alloc: Global, tree: &[Definition], room: usize) -> bool {
    let mut sink = Narrow {
        taken: Vec::new(alloc),
        room,
    };
    let ended = write!(sink, "{}", definitions(tree));
    let front = TEXT.as_bytes().get(..room).unwrap_or(TEXT.as_bytes());
    ended.is_ok() == (room >= TEXT.len()) && sink.taken.as_slice() == front
}

/// Whether all this holds in each room, up to one that is too large.
fn is_cut_in_each_room(alloc: Global) -> bool {
    let Ok(tree) = parse_definitions(alloc, FileId(1), TEXT, ParseOptions::new()) else {
        return false;
    };
    for room in 0..TEXT.len() + 2 {
        if !is_cut(alloc, tree.as_slice(), room) {
            return false;
        }
    }
    true
}

#[test]
fn what_fails_part_way_has_the_front(rt: HostRuntime) {
    assert!(rt; is_cut_in_each_room(rt.alloc()));
}

/// What is written of a value to a list of bytes, and to one through a buffer.
fn written_bytes(alloc: Global, text: &str) -> io::Result<(Vec<u8>, Vec<u8>)> {
    let mut plain = Vec::new(alloc);
    let mut behind = Vec::new(alloc);
    if let Ok(read) = parse_value(alloc, FileId(1), text, ParseOptions::new()) {
        write!(plain, "{}", value(&read))?;
        let mut buffer = BufWriter::new(alloc, &mut behind)?;
        write!(buffer, "{}", value(&read))?;
        buffer.flush()?;
    }
    Ok((plain, behind))
}

#[test]
fn values_are_written_to_writers(rt: HostRuntime) {
    let text = "{a: [1, \"\\n\u{1f600}\"], b: E}";
    let written = written_bytes(rt.alloc(), text);
    assert!(rt; written.is_ok());
    if let Ok((plain, behind)) = written {
        assert!(rt; plain.as_slice() == text.as_bytes());
        assert!(rt; behind.as_slice() == text.as_bytes());
    }
}
