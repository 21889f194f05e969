//! Requests for answers about files.

/// How a run reports what is at fault.
///
/// Words ask for one form at most. Where both flags are set, the form is JSON.
#[derive(Debug, Clone, Copy, PartialEq, Eq)]
pub struct Reporting {
    /// `--json`: standard output has JSON alone, one object a line.
    pub json: bool,
    /// `--github`: standard output has a workflow command of GitHub for each fault, and nothing else.
    pub github: bool,
    /// `--max-faults N`: so many faults are reported at most, and the others counted.
    pub max_faults: Option<usize>,
}

/// A request for an answer about files.
///
/// A file is named as the words name it, and `-` is standard input, which is named at most once. Files stand
/// in the order of the words.
#[derive(Debug, Drop)]
pub enum Request<'w> {
    /// `schema`: the schema of these files, at least one, as text.
    Schema {
        /// `--adopt`: what has extensions and no definition is taken as defined.
        adopt: bool,
        /// `--ignore-builtin`: further definitions of built-in types are passed over.
        ignore_builtin: bool,
        /// How faults are reported.
        reporting: Reporting,
        /// The files of the schema.
        files: Vec<&'w str>,
    },
    /// `check`: the faults of these documents and of their schema.
    Check(Typing<'w>),
    /// `typed`: these documents, typed over their schema, as text.
    Typed(Typing<'w>),
    /// `fields`: the fields that each operation of these documents reaches over their schema.
    Fields(Typing<'w>),
    /// `lookup`: what a schema coordinate points to in the schema of these files, at least one.
    Lookup {
        /// The text of the coordinate, as the words have it.
        coordinate: &'w str,
        /// How it is reported that the coordinate points to nothing.
        reporting: Reporting,
        /// The files of the schema.
        files: Vec<&'w str>,
    },
    /// `format`: these files, at least one, in the layout of the printer.
    Format {
        /// `--check`: only the names of the files whose text differs.
        check: bool,
        /// How the files are reported.
        reporting: Reporting,
        /// The files.
        files: Vec<&'w str>,
    },
}

/// The documents that a command types, and the schema that it types them over.
#[derive(Debug, Drop)]
pub struct Typing<'w> {
    /// How faults are reported.
    pub reporting: Reporting,
    /// The files of the schema, at least one.
    pub schema: Vec<&'w str>,
    /// The files of the documents, at least one.
    pub documents: Vec<&'w str>,
}
