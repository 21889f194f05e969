//! The phases of each work, and their times. A repetition answers what it counts, and the first one is not
//! timed, so that all others find the memory of an earlier one.

use crate::bench::{Bench, Built, Questions, Ready, Typed};
use crate::failure::Failure;
use crate::questions::{count_fields, count_subtypes};
use crate::report::Value::{Count, Equality};
use crate::report::{Item, Value};
use crate::walked::count_walked;
use apollo_compiler::SourceFile;
use apollo_compiler::compiled::Compiled;
use apollo_compiler::compiling::compile_with_keys;
use apollo_executable::document::ExecutableDocument;
use apollo_schema::schema::Schema;
use bench_notation::documents::DividedDocuments;
use graphql_ast::definition::Definition;
use graphql_ast::document::Document;
use graphql_nodes::collections::items::Items;
use graphql_nodes::collections::shared::Shared;
use leafcheck::checking::leaf_faults;
use std::alloc::AllocError;
use std::io::Write;
use std::time::{Clock, Instant};

/// How many seconds go by between two words of how far a run is.
const SECONDS_BETWEEN: u64 = 2;

/// How many nanoseconds a second has.
const NANOSECONDS: u128 = 1_000_000_000;

/// The name of a phase.
pub type Phase = &'static str;

/// Takes the times of phases.
#[derive(Drop)]
pub struct Stopwatch<'a, C: Clock> {
    pub bench: &'a Bench,
    clock: &'a C,
    told: Instant,
    /// A phase and how many nanoseconds it took, in the order of time.
    times: Vec<(Phase, u64)>,
}

/// What is counted, and timed.
pub type Counted = Result<Vec<Item>, Failure>;

/// Does the work of the command as often as it says.
pub fn time<C: Clock>(bench: &Bench, clock: &C, ready: &Ready, errors: &mut impl Write) -> Counted {
    let mut items = Stopwatch::start(bench, clock)?.repeat(ready)?;
    let mut watch = Stopwatch::start(bench, clock)?;
    for done in 0..bench.command.repeat {
        items = watch.repeat(ready)?;
        watch.tell(done + 1, errors)?;
    }
    watch.push_times(&mut items)?;
    if let Ready::Text(_) = ready {
        let read = (" bytes read a second\n", "bytes_read_per_second");
        let written = (" bytes written a second\n", "bytes_written_per_second");
        watch.push_rate(&mut items, "parse", "bytes", read)?;
        watch.push_rate(&mut items, "print", "bytes_written", written)?;
    }
    Ok(items)
}

impl<'a, C: Clock> Stopwatch<'a, C> {
    pub fn start(bench: &'a Bench, clock: &'a C) -> Result<Stopwatch<'a, C>, Failure> {
        Ok(Stopwatch {
            bench,
            clock,
            told: Instant::now(clock)?,
            times: Vec::new(bench.alloc),
        })
    }

    /// The moment at which a phase begins.
    pub fn now(&self) -> Result<Instant, Failure> {
        Ok(Instant::now(self.clock)?)
    }

    /// Notes that a phase took from that moment to now, and hands back what it made.
    pub fn took<T: Drop>(&mut self, phase: Phase, began: Instant, made: T) -> Result<T, Failure> {
        let nanoseconds = began.elapsed(self.clock)?.as_nanos();
        let nanoseconds = u64::try_from(nanoseconds).unwrap_or(u64::MAX);
        self.times.push((phase, nanoseconds))?;
        Ok(made)
    }

    /// Frees what was made, in a phase of its own.
    pub fn time_drop<T: Drop>(&mut self, made: T) -> Result<(), Failure> {
        let began = self.now()?;
        drop(made);
        self.took("drop", began, ())
    }

    /// Says how many repetitions are done, where two seconds went by since the last word. That it cannot be
    /// said there changes nothing.
    pub fn tell<E: Write>(&mut self, done: usize, errors: &mut E) -> Result<(), Failure> {
        if self.told.elapsed(self.clock)?.as_secs() >= SECONDS_BETWEEN {
            let all = self.bench.command.repeat;
            let _ = writeln!(errors, "{done} of {all} repetitions");
            self.told = self.now()?;
        }
        Ok(())
    }

    /// How many nanoseconds a phase took, each time.
    fn times_of(&self, phase: &str) -> Result<Vec<u64>, AllocError> {
        let of_phase = self.times.iter().filter(|time| time.0 == phase);
        of_phase.map(|time| time.1).collect(self.bench.alloc)
    }

    /// Adds how many bytes a second a phase went over, by its least time. Their count has the key `counted`,
    /// and what is added has these words and this key.
    pub fn push_rate(
        &self,
        items: &mut Vec<Item>,
        phase: Phase,
        counted: &str,
        (words, key): (&'static str, &'static str),
    ) -> Result<(), AllocError> {
        let mut times = self.times_of(phase)?;
        let (least, _, _) = summary(times.as_mut_slice()).unwrap_or((0, 0, 0));
        let all = (count_of(items.as_slice(), counted) as u128).saturating_mul(NANOSECONDS);
        if let Some(rate) = all.checked_div(u128::from(least)) {
            let rate = Value::Count(usize::try_from(rate).unwrap_or(usize::MAX));
            items.push((words, key, rate))?;
        }
        Ok(())
    }

    /// Adds what the times of each phase come to.
    pub fn push_times(&self, items: &mut Vec<Item>) -> Result<(), AllocError> {
        let bench = self.bench;
        let phases = bench.command.phases;
        for phase in phases.split(' ') {
            let mut times = self.times_of(phase)?;
            if let Some((least, median, mean)) = summary(times.as_mut_slice()) {
                items.extend_from_slice(&[
                    (" min ", "phase", Value::Phase(phase)),
                    (" median ", "least", Value::Time(least)),
                    (" mean ", "median", Value::Time(median)),
                    (" ns\n", "mean", Value::Time(mean)),
                ])?;
            }
        }
        Ok(())
    }

    fn repeat(&mut self, ready: &Ready) -> Counted {
        match ready {
            Ready::Schema(documents) => self.time_schema(documents.as_slice()),
            Ready::Lookups((schema, questions)) => self.time_lookups(schema, questions),
            Ready::Documents((documents, schema)) => {
                self.time_documents(schema, documents.executable.as_slice())
            }
            Ready::Walks((_, document)) => self.time_walks(document),
            Ready::LeafFaults((schema, document)) => self.time_leaf_faults(schema, document),
            Ready::Compilation(documents) => self.time_compile(documents),
            Ready::Text(file) => self.time_text(file),
        }
    }

    fn time_schema(&mut self, documents: &[Document]) -> Counted {
        let built = self.schema_build(documents)?;
        let written = self.to_ast(&built.0)?;
        let is_equal = self.rebuild_and_compare(&built.0, &written)?;
        let (types, faults) = (built.0.types.len(), built.1.as_slice().len());
        let definitions = Count(written.definitions.len());
        self.time_drop((built, written))?;
        let counts = [
            (" types, ", "types", Count(types)),
            (" definitions out, ", "definitions_out", definitions),
            (" faults, ", "faults", Count(faults)),
            (" when rebuilt\n", "equal_when_rebuilt", Equality(is_equal)),
        ];
        Ok(counts.to_vec(self.bench.alloc)?)
    }

    fn schema_build(&mut self, documents: &[Document]) -> Result<Built, Failure> {
        let began = self.now()?;
        let built = self.bench.build(documents)?;
        self.took("schema-build", began, built)
    }

    fn to_ast(&mut self, schema: &Schema) -> Result<Document, Failure> {
        let began = self.now()?;
        let definitions = schema.to_ast(self.bench.alloc)?;
        let definitions = self.took("to_ast", began, definitions)?;
        let mut document = Document::new(self.bench.alloc);
        document.definitions = Items::from_vec(definitions);
        Ok(document)
    }

    /// Whether the schema of its write-out equals a schema.
    fn rebuild_and_compare(
        &mut self,
        schema: &Schema,
        written: &Document,
    ) -> Result<bool, Failure> {
        let began = self.now()?;
        let again = self.bench.rebuild(written)?;
        let is_equal = again.0 == *schema;
        self.took("rebuild+eq", began, is_equal)
    }

    fn time_lookups(&mut self, schema: &Schema, questions: &Questions) -> Counted {
        let (fields, subtypes) = (questions.0.as_slice(), questions.1.as_slice());
        let began = self.now()?;
        let found = count_fields(schema, fields);
        let found = Count(self.took("type_field", began, found)?);
        let began = self.now()?;
        let are = count_subtypes(schema, subtypes);
        let are = Count(self.took("is_subtype", began, are)?);
        let (fields, subtypes) = (Count(fields.len()), Count(subtypes.len()));
        let counts = [
            (" calls of type_field, ", "type_field_calls", fields),
            (" found, ", "type_field_found", found),
            (" calls of is_subtype, ", "is_subtype_calls", subtypes),
            (" true\n", "is_subtype_true", are),
        ];
        Ok(counts.to_vec(self.bench.alloc)?)
    }

    fn time_documents(&mut self, schema: &Schema, documents: &[Document]) -> Counted {
        let typed = self.doc_build(schema, documents)?;
        let written = self.doc_to_ast(&typed.0)?;
        let [operations, fragments] = sizes(&typed.0);
        let faults = (" faults\n", "faults", Count(typed.1.as_slice().len()));
        self.time_drop((typed, written))?;
        Ok([operations, fragments, faults].to_vec(self.bench.alloc)?)
    }

    fn doc_build(&mut self, schema: &Schema, documents: &[Document]) -> Result<Typed, Failure> {
        let began = self.now()?;
        let typed = self.bench.type_over(schema, documents)?;
        self.took("doc-build", began, typed)
    }

    fn doc_to_ast(&mut self, document: &ExecutableDocument) -> Result<Document, Failure> {
        let began = self.now()?;
        let written = document.to_ast(self.bench.alloc)?;
        self.took("doc-to_ast", began, written)
    }

    fn time_walks(&mut self, document: &ExecutableDocument) -> Counted {
        let began = self.now()?;
        let root = count_walked(self.bench.alloc, document, false)?;
        let root = Count(self.took("root-walks", began, root)?);
        let began = self.now()?;
        let all = count_walked(self.bench.alloc, document, true)?;
        let all = Count(self.took("all-walks", began, all)?);
        let root = (" root fields, ", "root_fields", root);
        let all = (" fields in all\n", "all_fields", all);
        let [operations, fragments] = sizes(document);
        Ok([operations, fragments, root, all].to_vec(self.bench.alloc)?)
    }

    fn time_leaf_faults(&mut self, schema: &Schema, document: &ExecutableDocument) -> Counted {
        let began = self.now()?;
        let faults = leaf_faults(self.bench.alloc, schema, document)?;
        let faults = Count(self.took("leaf_faults", began, faults)?.len());
        let [operations, fragments] = sizes(document);
        let faults = (" leaf faults\n", "leaf_faults", faults);
        Ok([operations, fragments, faults].to_vec(self.bench.alloc)?)
    }

    fn time_text(&mut self, file: &Shared<SourceFile>) -> Counted {
        let began = self.now()?;
        let read = self.bench.parse(file)?;
        let read = self.took("parse", began, read)?;
        let began = self.now()?;
        let printed = self.bench.print(&read)?;
        let printed = self.took("print", began, printed)?;
        let (definitions, written) = (Count(read.definitions.len()), Count(printed.len()));
        self.time_drop((read, printed))?;
        let counts = [
            (" bytes, ", "bytes", Count(file.text.len())),
            (" definitions, ", "definitions", definitions),
            (" bytes written\n", "bytes_written", written),
        ];
        Ok(counts.to_vec(self.bench.alloc)?)
    }

    /// The whole call, and beside it each phase of it, with all that these give kept.
    fn time_compile(&mut self, documents: &DividedDocuments) -> Counted {
        let counts = self.time_one_call(documents)?;
        self.time_phases(documents)?;
        Ok(counts)
    }

    fn time_one_call(&mut self, documents: &DividedDocuments) -> Counted {
        let (schema, executable) = (documents.schema.as_slice(), documents.executable.as_slice());
        let (alloc, keys, options) = (
            self.bench.alloc,
            self.bench.keys,
            self.bench.command.options,
        );
        let began = self.now()?;
        let made = compile_with_keys(alloc, keys, options, schema, executable, true)?;
        let made = self.took("compile", began, made)?;
        let counts = counts_of(&made);
        self.time_drop(made)?;
        Ok(counts.to_vec(alloc)?)
    }

    fn time_phases(&mut self, documents: &DividedDocuments) -> Result<(), Failure> {
        let began = self.now()?;
        let built = self.schema_build(documents.schema.as_slice())?;
        let written = self.to_ast(&built.0)?;
        let _again = self.rebuild(&written)?;
        let typed = self.doc_build(&built.0, documents.executable.as_slice())?;
        let _erased = self.doc_to_ast(&typed.0)?;
        self.took("all-phases", began, ())
    }

    /// The schema of a write-out, and its own write-out.
    fn rebuild(&mut self, written: &Document) -> Result<(Built, Vec<Definition>), Failure> {
        let began = self.now()?;
        let again = self.bench.rebuild(written)?;
        let again = self.took("rebuild", began, again)?;
        let began = self.now()?;
        let written = again.0.to_ast(self.bench.alloc)?;
        let written = self.took("rebuild-to_ast", began, written)?;
        Ok((again, written))
    }
}

/// The count under a key, or 0 where there is none.
fn count_of(items: &[Item], key: &str) -> usize {
    match items.iter().find(|item| item.1 == key) {
        Some((_, _, Value::Count(count))) => *count,
        _ => 0,
    }
}

/// The least of these times, the one in the middle, and the mean, rounded down. Of an even number of times
/// the greater of the two in the middle counts. They are put in ascending order. An empty list has none.
pub fn summary(times: &mut [u64]) -> Option<(u64, u64, u64)> {
    times.sort_unstable();
    let least = *times.first()?;
    let median = *times.get(times.len() / 2)?;
    let mut total: u128 = 0;
    for time in times.iter() {
        total = total.saturating_add(u128::from(*time));
    }
    let mean = total.checked_div(times.len() as u128)?;
    Some((least, median, u64::try_from(mean).unwrap_or(u64::MAX)))
}

fn counts_of(made: &Compiled) -> [Item; 6] {
    let [operations, fragments] = sizes(&made.document);
    let definitions = Count(made.ast.len());
    let schema_faults = Count(made.schema_faults.as_slice().len());
    let document_faults = Count(made.document_faults.as_slice().len());
    [
        (" types, ", "types", Count(made.schema.types.len())),
        (" definitions out, ", "definitions_out", definitions),
        (" faults; ", "schema_faults", schema_faults),
        operations,
        fragments,
        (" faults\n", "document_faults", document_faults),
    ]
}

/// How many operations and fragments a typed document has.
fn sizes(document: &ExecutableDocument) -> [Item; 2] {
    let operations = Count(document.operations.len());
    let fragments = Count(document.fragments.len());
    [
        (" operations, ", "operations", operations),
        (" fragments, ", "fragments", fragments),
    ]
}
