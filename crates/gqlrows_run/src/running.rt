//! The whole run over texts of rows.

use crate::report::report_on;
use crate::row::read_rows;
use crate::stop::Stop;
use program_io::status::Status;
use program_io::writing::write_out;
use std::alloc::{AllocError, Global};
use std::fs;
use std::io::{self, ErrorKind, Read, Write};
use std::rt::Files;

/// A text of rows, and how what is said of it begins: with the name of its file, if it has one.
#[derive(Drop)]
struct Source {
    place: String,
    text: String,
}

/// Runs the rows of these files, or of a reader where there is none, and writes which differ from what they
/// expect, and how many.
///
/// `Done` is the answer where none differs, `Faults` where one does. `Refused` is the answer where a file
/// can't be read or one of its lines is refused, and `Exhausted` where memory runs out. Then nothing was
/// written on `output`. `NotWritten` is the answer where the report can't be written. What is wrong is said
/// on `errors`, in one line; that it can't be said there changes nothing.
pub fn run_rows<F: Files + AllocGlobal, R: Read + Drop, O: Write, E: Write>(
    rt: &F,
    files: &[String],
    reader: R,
    output: &mut O,
    errors: &mut E,
) -> Status {
    let (report, status) = match report_of(rt, files, reader) {
        Ok(report) => report,
        Err(stop) => {
            let _ = writeln!(errors, "{stop}");
            return stop.status();
        }
    };
    if write_out(output, report.as_str()).is_ok() {
        return status;
    }
    let _ = writeln!(errors, "cannot write output");
    Status::NotWritten
}

/// The report on all rows. No row is run where a line of any file is refused.
fn report_of<F: Files + AllocGlobal, R: Read + Drop>(
    rt: &F,
    files: &[String],
    reader: R,
) -> Result<(String, Status), Stop> {
    let alloc = rt.alloc();
    let mut sources = Vec::new(alloc);
    if files.is_empty() {
        let read = io::read_to_string(alloc, reader);
        sources.push(source_of(alloc, String::new(alloc), read)?)?;
    }
    for file in files {
        let read = fs::read_to_string(rt, file.as_str());
        sources.push(source_of(alloc, format!(in alloc; "{file}: ")?, read)?)?;
    }
    let mut rows = Vec::new(alloc);
    for source in sources.iter() {
        read_rows(
            alloc,
            source.place.as_str(),
            source.text.as_str(),
            &mut rows,
        )?;
    }
    Ok(report_on(alloc, rows.as_slice())?)
}

/// A text that was read, or why it wasn't.
fn source_of(alloc: Global, place: String, read: io::Result<String>) -> Result<Source, Stop> {
    match read {
        Ok(text) => Ok(Source { place, text }),
        Err(error) if error.kind() == ErrorKind::OutOfMemory => Err(Stop::Memory(AllocError)),
        Err(_) => Err(Stop::Refused(format!(in alloc; "{place}cannot read input")?)),
    }
}
