//! Runs whose reader or writers fail, or whose input is no text or bytes in memory; and the causes for which
//! there is no answer.

use crate::over_notation::failing::{FailingReader, FailingWriter};
use crate::over_notation::running::{answer_on, ended, expect_run};
use gqltool_run::failure::Failure;
use program_io::input::{BytesInMemory, Input};
use program_io::status::Status;
use std::alloc::Global;
use std::io::{self, Error, ErrorKind, Read, Write};

const NOT_READ: &str = "cannot read input\n";

#[test]
fn readers_that_fail(rt: HostRuntime) {
    for (text, kind, status, errors) in [
        (
            "def object T\n",
            ErrorKind::BrokenPipe,
            Status::Refused,
            NOT_READ,
        ),
        ("", ErrorKind::PermissionDenied, Status::Refused, NOT_READ),
        // The whole input is read before a line is tested.
        ("foo\n", ErrorKind::BrokenPipe, Status::Refused, NOT_READ),
        (
            "def object T\n",
            ErrorKind::OutOfMemory,
            Status::Exhausted,
            "out of memory\n",
        ),
    ] {
        let mut reader = FailingReader {
            bytes: text.as_bytes(),
            kind,
        };
        expect_run(&rt, &["schema"], &mut reader, status, "", errors);
    }
}

#[test]
fn input_that_is_no_text(rt: HostRuntime) {
    let rows: [&[u8]; 4] = [
        b"\xff",
        b"def object T\n\xc3",
        b"foo\n\xc3\x28",
        b"\xed\xa0\x80",
    ];
    for input in rows {
        let mut reader = input;
        expect_run(&rt, &["schema"], &mut reader, Status::Refused, "", NOT_READ);
        let mut in_memory = BytesInMemory(input);
        expect_run(
            &rt,
            &["schema"],
            &mut in_memory,
            Status::Refused,
            "",
            NOT_READ,
        );
    }
}

#[test]
fn bytes_in_memory_are_run_on_as_a_reader_is(rt: HostRuntime) {
    let rows: [(&[u8], Status, &str, &str); 2] = [
        (b"def object T\n", Status::Done, "def object T\n", ""),
        (b"foo\n", Status::Refused, "", "line 1: unknown line\n"),
    ];
    for (bytes, status, output, errors) in rows {
        let mut in_memory = BytesInMemory(bytes);
        expect_run(&rt, &["schema"], &mut in_memory, status, output, errors);
    }
}

/// A line to write out, and a query whose walks are one line each.
const LINES: &str = "def object T\nfield a Int\n";

const WALKED: &str = "def object Query\nfield a Int\n===\noperation query -\nsel 0 field a\n";

#[test]
fn writers_that_fail(rt: HostRuntime) {
    for (word, text, room, fails_at_flush) in [
        ("schema", LINES, 0, false),
        ("schema", LINES, 5, false),
        ("schema", LINES, 1000, true),
        ("walk", WALKED, 0, false),
        ("walk", WALKED, 5, false),
        ("walk", WALKED, 1000, true),
    ] {
        let mut reader = text.as_bytes();
        let mut output = FailingWriter {
            room,
            fails_at_flush,
        };
        let mut said = Vec::new(rt.alloc());
        let ended = ended(rt.alloc(), &[word], &mut reader, &mut output, &mut said);
        assert_eq!(rt; ended, Status::NotWritten);
        assert_eq!(rt; said.as_slice(), "cannot write output\n".as_bytes());
    }
}

/// How a run ends whose writers have so much room.
fn ended_in<R: Input>(
    alloc: Global,
    word: &str,
    reader: &mut R,
    room: usize,
    errors_room: usize,
) -> Status {
    let mut output = FailingWriter {
        room,
        fails_at_flush: false,
    };
    let mut errors = FailingWriter {
        room: errors_room,
        fails_at_flush: false,
    };
    ended(alloc, &[word], reader, &mut output, &mut errors)
}

#[test]
fn error_writers_that_fail_change_no_status(rt: HostRuntime) {
    for errors_room in [0, 3] {
        for (word, text, room, status) in [
            ("schema", LINES, 1000, Status::Done),
            (
                "schema",
                "def object T\ndef object T\n",
                1000,
                Status::Faults,
            ),
            ("schema", "foo", 1000, Status::Refused),
            ("doc", "", 1000, Status::Refused),
            ("schema", LINES, 0, Status::NotWritten),
            ("walk", WALKED, 0, Status::NotWritten),
        ] {
            let mut reader = text.as_bytes();
            let ended = ended_in(rt.alloc(), word, &mut reader, room, errors_room);
            assert_eq!(rt; ended, status, "of {text:?}");
        }
        let mut reader = FailingReader {
            bytes: LINES.as_bytes(),
            kind: ErrorKind::OutOfMemory,
        };
        let ended = ended_in(rt.alloc(), "schema", &mut reader, 1000, errors_room);
        assert_eq!(rt; ended, Status::Exhausted);
    }
}

#[test]
fn nothing_is_read_where_the_words_are_refused(rt: HostRuntime) {
    let rows: [&[&str]; 5] = [
        &[],
        &["schema", "x"],
        &["coord"],
        &["coord", "9"],
        &["coord", ""],
    ];
    for words in rows {
        let mut reader = "foo".as_bytes();
        let mut written = Vec::new(rt.alloc());
        let mut said = Vec::new(rt.alloc());
        let ended = ended(rt.alloc(), words, &mut reader, &mut written, &mut said);
        assert_eq!(rt; ended, Status::Refused);
        assert_eq!(rt; reader, "foo".as_bytes());
    }
}

#[test]
fn the_cause_names_the_refused_line(rt: HostRuntime) {
    let answer = answer_on(rt.alloc(), &["schema"], b"def object T\nfoo\n");
    let number = match answer {
        Err(Failure::RefusedLine(line)) => line.number,
        _ => 0,
    };
    assert_eq!(rt; number, 2);
}
