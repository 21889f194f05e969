//! Documents, read from a whole text of the notation.
ghost use Rattle.std.specs.Prelude.{◌≡◌, All, IfErr, IfOk, OnOk, Some};
ghost use Rattle.bench_notation.specs.Components.{header_alone};
ghost use Rattle.bench_notation.specs.Documents.{AreDividedDocumentsOf, AreDocumentsOf, IsDividedReadError};
ghost use Rattle.bench_notation.specs.Documents.{IsLinesError, IsReadError, LeadTo};
ghost use Rattle.bench_notation.specs.Line.{IsLine, lines_of, line_location, texts_of, words_of};
ghost use Rattle.bench_notation.specs.Refusals.{SaysNothing, WhenRefused};

use crate::above::{Above, Position};
use crate::item::OpenItem;
use crate::line::{Header, Line, read_line};
use crate::names::Names;
use crate::refusal::{LineError, ReadError, RefusedLine};
use crate::words::take_words;
use graphql_ast::document::Document;
use graphql_nodes::collections::items::Items;
use graphql_nodes::source::{FileId, SourceSpan};
use graphql_nodes::take_apart;
use std::alloc::{AllocError, Global};
use std::mem;

/// The file that the input counts as. What stands on a line has that line's number, from 1 on, as the start
/// and the end of its location in this file.
pub const INPUT_FILE: FileId = FileId(1);

/// The location of what stands on a line of the input.
fn line_location(number: usize) -> SourceSpan
    ensures { result ≡ line_location number }
{
    SourceSpan {
        file: INPUT_FILE,
        start: number,
        end: number,
    }
}

/// Where a text is divided.
#[derive(Drop)]
enum Division {
    /// Nowhere.
    Never,
    /// At a line that is still to come.
    ToCome,
    /// Behind these documents.
    After(Items<Document>),
}

/// The documents that the lines so far say.
struct DocumentReader {
    division: Division,
    /// The documents before the last, from the division on if there is one.
    documents: Items<Document>,
    /// The last document, without the item that is being read.
    document: Document,
    item: Option<OpenItem>,
}

impl Drop for DocumentReader {
    fn drop(self) {
        take_apart!(self: division, documents, document, item);
    }
}

impl DocumentReader {
    ghost use Rattle.bench_notation.specs.Documents.{nothing_read, position_next, item_ended, document_ended};
    ghost use Rattle.bench_notation.specs.Documents.{divided, line_added, Takes};

    fn new(alloc: Global, division: Division) -> DocumentReader
        ensures { result ≡ nothing_read division }
    {
        DocumentReader {
            division,
            documents: Items::new(alloc),
            document: Document::new(alloc),
            item: None,
        }
    }

    /// Where the next line comes.
    fn position(&self) -> Position
        ensures { result ≡ position_next self.now }
    {
        Position {
            above: match &self.item {
                Some(item) => item.above(),
                None => Above::Nothing,
            },
            may_divide: matches!(self.division, Division::ToCome),
        }
    }

    /// Takes one more line, of these words.
    fn take_line(
        &mut self,
        names: &mut Names,
        text: &str,
        words: &[&str],
        number: usize,
    ) -> Result<(), LineError>
        requires { texts_of words.now ≡ words_of text.now }
        ensures taken { OnOk result (Takes text.now (line_location number) self.old self.new) }
        ensures refused { IfErr result
            (WhenRefused (SaysNothing (position_next self.old) (line_location number) text.now)) }
    {
        let location = line_location(number);
        let line = read_line(names, text, words, self.position(), location)?;
        Ok(self.add(names.alloc(), line, location)?)
    }

    /// Adds what a line says. A component with no header above it adds nothing.
    fn add(&mut self, alloc: Global, line: Line, location: SourceSpan) -> Result<(), AllocError>
        ensures { OnOk result (self.new ≡ line_added line location self.old) }
    {
        match line {
            Line::Empty => Ok(()),
            Line::Break => self.end_document(alloc),
            Line::Division => self.divide(alloc),
            Line::Header(header) => self.begin_item(alloc, header, location),
            Line::Component(component) => match &mut self.item {
                Some(item) => item.add(alloc, component, location),
                None => Ok(()),
            },
        }
    }

    /// Ends the item that is being read, after which that of this header is read.
    fn begin_item(
        &mut self,
        alloc: Global,
        header: Header,
        location: SourceSpan,
    ) -> Result<(), AllocError>
        ensures { OnOk result (self.new
            ≡ record (item_ended self.old) { item = Some (header_alone header location) }) }
    {
        match &mut self.item {
            Some(item) => {
                let ended = item.begin_next(alloc, header, location)?;
                self.document.definitions.push(ended)
            }
            None => {
                self.item = Some(OpenItem::new(alloc, header, location));
                Ok(())
            }
        }
    }

    /// Ends the item that is being read, if there is one.
    fn end_item(&mut self, alloc: Global) -> Result<(), AllocError>
        ensures { OnOk result (self.new ≡ item_ended self.old) }
    {
        match self.item.take() {
            Some(item) => self.document.definitions.push(item.close(alloc)?),
            None => Ok(()),
        }
    }

    fn end_document(&mut self, alloc: Global) -> Result<(), AllocError>
        ensures { OnOk result (self.new ≡ document_ended self.old) }
    {
        self.end_item(alloc)?;
        let document = mem::replace(&mut self.document, Document::new(alloc));
        self.documents.push(document)
    }

    /// Ends the document, after which the documents so far are those before the division.
    fn divide(&mut self, alloc: Global) -> Result<(), AllocError>
        ensures { OnOk result (self.new ≡ divided self.old) }
    {
        self.end_document(alloc)?;
        let before = mem::replace(&mut self.documents, Items::new(alloc));
        self.division = Division::After(before);
        Ok(())
    }

    /// Ends the last document. All documents, of which there is at least one, are handed out.
    fn finish(&mut self, alloc: Global) -> Result<Vec<Document>, AllocError>
        ensures documents { IfOk result (λ documents. documents.items ≡ (document_ended self.old).documents) }
        ensures division { OnOk result (self.new.division ≡ self.old.division) }
    {
        self.end_document(alloc)?;
        Ok(mem::replace(&mut self.documents, Items::new(alloc)).into_vec())
    }
}

/// How many bytes a line takes, roughly: a text has about so many lines as that goes into its length.
const BYTES_OF_LINE: usize = 16;

/// Takes the lines of a text, the first of which is counted as line 1.
fn take_lines<'a>(
    alloc: Global,
    text: &'a str,
    reader: &mut DocumentReader,
) -> Result<(), ReadError>
    ensures read { OnOk result (All IsLine (lines_of text.now)) }
    ensures leads { OnOk result (LeadTo 1 (lines_of text.now) reader.old reader.new) }
    ensures refused { IfErr result (IsLinesError reader.old (lines_of text.now)) }
{
    let mut names = Names::new(alloc, text.len() / BYTES_OF_LINE)?;
    let mut words = Vec::new(alloc);
    let mut number = 0;
    let mut left = Some(text);
    while let Some(rest) = left {
        let (line, behind) = take_words(&mut words, rest)?;
        number += 1;
        match reader.take_line(&mut names, line, words.as_slice(), number) {
            Ok(()) => {}
            Err(LineError::Refused(reason)) => {
                return Err(ReadError::Refused(RefusedLine { number, reason }));
            }
            Err(LineError::Memory) => return Err(ReadError::Memory),
        }
        left = behind;
    }
    Ok(())
}

/// Reads a whole text that no line divides: its documents, of which there is at least one. They have no
/// sources, and their locations are lines of [`INPUT_FILE`].
///
/// The first line that is refused ends the reading, and a line that would divide the text is: `Refused` has
/// its number. It says nothing that may stand there, and each line before it says something. `Memory` is out
/// of memory, and says nothing of the text. There is no other error.
pub fn read(alloc: Global, text: &str) -> Result<Vec<Document>, ReadError>
    ensures read { OnOk result (All IsLine (lines_of text.now)) }
    ensures said { IfOk result (λ documents. AreDocumentsOf text.now documents.items) }
    ensures refused { IfErr result (IsReadError (lines_of text.now)) }
{
    let mut reader = DocumentReader::new(alloc, Division::Never);
    take_lines(alloc, text, &mut reader)?;
    Ok(reader.finish(alloc)?)
}

/// The documents of a text that a line divides, of which there is at least one in each part.
pub struct DividedDocuments {
    /// Those before the division.
    pub schema: Vec<Document>,
    /// Those behind it.
    pub executable: Vec<Document>,
}

impl Drop for DividedDocuments {
    fn drop(self) {
        take_apart!(self: schema, executable);
    }
}

/// Reads a whole text that one line divides: its documents, which have no sources, and whose locations are
/// lines of [`INPUT_FILE`].
///
/// The first line that is refused ends the reading, and a second line that would divide the text is:
/// `Refused` has its number. It says nothing that may stand there, and each line before it says something.
/// `NoDivision` is the error where none is refused and none divides the text. `Memory` is out of memory, and
/// says nothing of the text.
pub fn read_divided(alloc: Global, text: &str) -> Result<DividedDocuments, ReadError>
    ensures read { OnOk result (All IsLine (lines_of text.now)) }
    ensures said { IfOk result (λ documents.
        AreDividedDocumentsOf text.now documents.schema.items documents.executable.items) }
    ensures refused { IfErr result (IsDividedReadError (lines_of text.now)) }
{
    let mut reader = DocumentReader::new(alloc, Division::ToCome);
    take_lines(alloc, text, &mut reader)?;
    let executable = reader.finish(alloc)?;
    match mem::replace(&mut reader.division, Division::Never) {
        Division::After(schema) => Ok(DividedDocuments {
            schema: schema.into_vec(),
            executable,
        }),
        Division::Never | Division::ToCome => Err(ReadError::NoDivision),
    }
}
