//! Runs of `gqlbench` over systems whose answers are known.

use crate::over_notation::failing::FailingWriter;
use gqlbench_run::memory::ProcessStatus;
use gqlbench_run::phases::summary;
use gqlbench_run::running::run;
use program_io::status::Status;
use std::alloc::Global;
use std::cell::Cell;
use std::io::{self, Error, ErrorKind};
use std::process::Abort;
use std::random::RandomSource;
use std::test::Fail;
use std::time::{Clock, Duration};

/// A system whose clock goes on by so much at each reading, and whose random bytes are all the same. Or one
/// that says nothing of the time, of random bytes or of the process.
#[derive(Drop)]
struct System<'a> {
    now: Cell<u64>,
    step: Option<u64>,
    random: Option<u8>,
    status: Option<&'a str>,
}

fn system_of<'a>(step: Option<u64>, random: Option<u8>, status: Option<&'a str>) -> System<'a> {
    let now = Cell::new(0);
    System {
        now,
        step,
        random,
        status,
    }
}

impl Clock for System<'_> {
    fn monotonic(&self) -> io::Result<Duration> {
        let step = self.step.ok_or(Error::from(ErrorKind::Other))?;
        let now = self.now.get().wrapping_add(step);
        self.now.set(now);
        Ok(Duration::from_nanos(now))
    }

    fn since_1970(&self) -> io::Result<Duration> {
        self.monotonic()
    }
}

impl RandomSource for System<'_> {
    fn fill_bytes(&self, buf: &mut [u8]) -> io::Result<()> {
        buf.fill(self.random.ok_or(Error::from(ErrorKind::Other))?);
        Ok(())
    }
}

impl ProcessStatus for System<'_> {
    fn status_text(&self, alloc: Global) -> io::Result<String> {
        let status = self.status.ok_or(Error::from(ErrorKind::NotFound))?;
        Ok(status.to_string(alloc)?)
    }
}

/// Expects a run to end so, to write this, and to say that.
fn expect(
    rt: &(impl Abort + AllocGlobal),
    system: &System<'_>,
    words: &[&str],
    input: &str,
    outcome: (Status, &str, &str),
) {
    let mut reader = input.as_bytes();
    let mut output = Vec::new(rt.alloc());
    let mut errors = Vec::new(rt.alloc());
    let status = run(
        rt.alloc(),
        system,
        words,
        &mut reader,
        &mut output,
        &mut errors,
    );
    assert_eq!(rt; errors.as_slice(), outcome.2.as_bytes(), "{words:?}");
    assert_eq!(rt; output.as_slice(), outcome.1.as_bytes(), "{words:?}");
    assert_eq!(rt; status, outcome.0, "{words:?}");
}

/// An interface, an object type that has it, and an extension of no union. The built-in types have 35
/// fields.
const INPUT: &str = "def interface I
field a Int
def object Query
implements I
field a Int
field b I
ext union U
member Query
";

/// Two documents behind a schema. They have a query whose fragment leads back to itself, and a mutation
/// without a root. A fragment that nothing spreads has a field that lacks subselections.
const DIVIDED: &str = "def object Query
field a Int
field q Query
===
operation query -
sel 0 spread F
sel 0 field a
fragment F Query
sel 0 field q
sel 1 field a
sel 1 spread F
---
operation mutation M
fragment G Query
sel 0 field q
sel 0 field zz
";

/// GraphQL text of both sorts.
const TEXT: &str = "type Query { a: Int }\n\n{ a }\n";

/// The phases of the work on a schema, as lines and as objects.
const SCHEMA_PHASES: &str = "\
schema-build   min            7 median            7 mean            7 ns
to_ast         min            7 median            7 mean            7 ns
rebuild+eq     min            7 median            7 mean            7 ns
drop           min            7 median            7 mean            7 ns
";

const SCHEMA_PHASES_IN_JSON: &str = "\
{\"phase\":\"schema-build\",\"least\":7,\"median\":7,\"mean\":7}
{\"phase\":\"to_ast\",\"least\":7,\"median\":7,\"mean\":7}
{\"phase\":\"rebuild+eq\",\"least\":7,\"median\":7,\"mean\":7}
{\"phase\":\"drop\",\"least\":7,\"median\":7,\"mean\":7}
";

/// The word of a work, the options of a build and a number, an input, and the parts of the report, as lines
/// and as objects.
const REPORTS: [(&str, &[&str], &str, &[&str], &[&str]); 8] = [
    (
        "schema",
        &["3"],
        INPUT,
        &[
            "15 types, 2 definitions out, 1 faults, equal when rebuilt\n",
            SCHEMA_PHASES,
        ],
        &[
            "{\"types\":15,\"definitions_out\":2,\"faults\":1,\"equal_when_rebuilt\":true}\n",
            SCHEMA_PHASES_IN_JSON,
        ],
    ),
    (
        "schema",
        &["--adopt", "+1"],
        INPUT,
        &[
            "16 types, 4 definitions out, 0 faults, equal when rebuilt\n",
            SCHEMA_PHASES,
        ],
        &[
            "{\"types\":16,\"definitions_out\":4,\"faults\":0,\"equal_when_rebuilt\":true}\n",
            SCHEMA_PHASES_IN_JSON,
        ],
    ),
    (
        "lookups",
        &["--ignore-builtin", "2"],
        INPUT,
        &[
            "\
38 calls of type_field, 38 found, 39 calls of is_subtype, 2 true
type_field     min            7 median            7 mean            7 ns
is_subtype     min            7 median            7 mean            7 ns
",
        ],
        &[
            "\
{\"type_field_calls\":38,\"type_field_found\":38,\"is_subtype_calls\":39,\"is_subtype_true\":2}
{\"phase\":\"type_field\",\"least\":7,\"median\":7,\"mean\":7}
{\"phase\":\"is_subtype\",\"least\":7,\"median\":7,\"mean\":7}
",
        ],
    ),
    (
        "doc",
        &["2"],
        DIVIDED,
        &[
            "\
1 operations, 2 fragments, 3 faults
doc-build      min            7 median            7 mean            7 ns
doc-to_ast     min            7 median            7 mean            7 ns
drop           min            7 median            7 mean            7 ns
",
        ],
        &[
            "\
{\"operations\":1,\"fragments\":2,\"faults\":3}
{\"phase\":\"doc-build\",\"least\":7,\"median\":7,\"mean\":7}
{\"phase\":\"doc-to_ast\",\"least\":7,\"median\":7,\"mean\":7}
{\"phase\":\"drop\",\"least\":7,\"median\":7,\"mean\":7}
",
        ],
    ),
    (
        "walk",
        &["--adopt", "3"],
        DIVIDED,
        &[
            "\
1 operations, 2 fragments, 4 root fields, 8 fields in all
root-walks     min            7 median            7 mean            7 ns
all-walks      min            7 median            7 mean            7 ns
",
        ],
        &[
            "\
{\"operations\":1,\"fragments\":2,\"root_fields\":4,\"all_fields\":8}
{\"phase\":\"root-walks\",\"least\":7,\"median\":7,\"mean\":7}
{\"phase\":\"all-walks\",\"least\":7,\"median\":7,\"mean\":7}
",
        ],
    ),
    (
        "leaf",
        &["--ignore-builtin", "2"],
        DIVIDED,
        &[
            "\
1 operations, 2 fragments, 1 leaf faults
leaf_faults    min            7 median            7 mean            7 ns
",
        ],
        &[
            "\
{\"operations\":1,\"fragments\":2,\"leaf_faults\":1}
{\"phase\":\"leaf_faults\",\"least\":7,\"median\":7,\"mean\":7}
",
        ],
    ),
    (
        "compile",
        &["--adopt", "2"],
        DIVIDED,
        &[
            "\
14 types, 1 definitions out, 0 faults; 1 operations, 2 fragments, 3 faults
compile        min            7 median            7 mean            7 ns
all-phases     min           91 median           91 mean           91 ns
schema-build   min            7 median            7 mean            7 ns
to_ast         min            7 median            7 mean            7 ns
rebuild        min            7 median            7 mean            7 ns
rebuild-to_ast min            7 median            7 mean            7 ns
doc-build      min            7 median            7 mean            7 ns
doc-to_ast     min            7 median            7 mean            7 ns
drop           min            7 median            7 mean            7 ns
",
        ],
        &[
            "\
{\"types\":14,\"definitions_out\":1,\"schema_faults\":0,\"operations\":1,\"fragments\":2,\"document_faults\":3}
{\"phase\":\"compile\",\"least\":7,\"median\":7,\"mean\":7}
{\"phase\":\"all-phases\",\"least\":91,\"median\":91,\"mean\":91}
{\"phase\":\"schema-build\",\"least\":7,\"median\":7,\"mean\":7}
{\"phase\":\"to_ast\",\"least\":7,\"median\":7,\"mean\":7}
{\"phase\":\"rebuild\",\"least\":7,\"median\":7,\"mean\":7}
{\"phase\":\"rebuild-to_ast\",\"least\":7,\"median\":7,\"mean\":7}
{\"phase\":\"doc-build\",\"least\":7,\"median\":7,\"mean\":7}
{\"phase\":\"doc-to_ast\",\"least\":7,\"median\":7,\"mean\":7}
{\"phase\":\"drop\",\"least\":7,\"median\":7,\"mean\":7}
",
        ],
    ),
    (
        "text",
        &["2"],
        TEXT,
        &[
            "\
29 bytes, 2 definitions, 32 bytes written
parse          min            7 median            7 mean            7 ns
print          min            7 median            7 mean            7 ns
drop           min            7 median            7 mean            7 ns
4142857142 bytes read a second
4571428571 bytes written a second
",
        ],
        &[
            "\
{\"bytes\":29,\"definitions\":2,\"bytes_written\":32}
{\"phase\":\"parse\",\"least\":7,\"median\":7,\"mean\":7}
{\"phase\":\"print\",\"least\":7,\"median\":7,\"mean\":7}
{\"phase\":\"drop\",\"least\":7,\"median\":7,\"mean\":7}
{\"bytes_read_per_second\":4142857142}
{\"bytes_written_per_second\":4571428571}
",
        ],
    ),
];

/// Expects a run on these words to write these parts, over a system that gives no random bytes. It expects
/// the same with `--random-keys` between them, over a system that does.
fn expect_report<'a>(
    rt: &(impl Abort + AllocGlobal),
    before: &[&'a str],
    behind: &[&'a str],
    input: &str,
    parts: &[&str],
) -> Result<(), Fail> {
    let mut output = String::new(rt.alloc());
    for part in parts {
        output.push_str(*part)?;
    }
    let outcome = (Status::Done, output.as_str(), "");
    let mut words = before.to_vec(rt.alloc())?;
    words.extend_from_slice(behind)?;
    let fixed = system_of(Some(7), None, None);
    expect(rt, &fixed, words.as_slice(), input, outcome);
    words.insert(before.len(), "--random-keys")?;
    let drawn = system_of(Some(7), Some(0x5a), None);
    expect(rt, &drawn, words.as_slice(), input, outcome);
    Ok(())
}

#[test]
fn reports(rt: HostRuntime) -> Result<(), Fail> {
    for (work, behind, input, lines, objects) in REPORTS {
        expect_report(&rt, &[work], behind, input, lines)?;
        expect_report(&rt, &[work, "--json"], behind, input, objects)?;
    }
    Ok(())
}

/// Expects runs on these words, over a system that says nothing, to end without a report.
fn expect_none(
    rt: &(impl Abort + AllocGlobal),
    rows: &[&[&str]],
    input: &str,
    end: (Status, &str),
) {
    for words in rows {
        let system = system_of(None, None, None);
        expect(rt, &system, *words, input, (end.0, "", end.1));
    }
}

#[test]
fn words_that_are_no_command(rt: HostRuntime) {
    let rows: [&[&str]; 16] = [
        &[],
        &["schema"],
        &["schema", "0"],
        &["schema", "-1"],
        &["schema", "x"],
        &["schema", "18446744073709551616"],
        &["schema", "3", "--adopt"],
        &["schema", "--random-keys"],
        &["schema", "--adopt", "--random-keys", "3"],
        &["walk", "--random-keys", "--random-keys", "3"],
        &["schema", "--json"],
        &["leaf", "--json", "--json", "3"],
        &["doc", "--random-keys", "--json", "3"],
        &["compile", "--adopt", "--json", "3"],
        &["lookups", "--adopt", "--adopt", "3"],
        &["document", "3"],
    ];
    let usage =
        "usage: gqlbench schema|lookups|doc|walk|leaf|compile|text [--json] [--random-keys] [--adopt] [--ignore-builtin] REPEAT (without --random-keys tables hash by fixed keys)\n";
    expect_none(&rt, &rows, "foo", (Status::Refused, usage));
}

#[test]
fn inputs_and_clocks_that_cannot_be_read(rt: HostRuntime) {
    let unknown = (Status::Refused, "line 1: unknown line\n");
    let undivided = (Status::Refused, "missing ===\n");
    let stopped = (Status::Exhausted, "cannot read the clock\n");
    let schemas: [&[&str]; 2] = [&["schema", "1"], &["lookups", "1"]];
    let divided: [&[&str]; 4] = [
        &["doc", "1"],
        &["walk", "1"],
        &["leaf", "1"],
        &["compile", "1"],
    ];
    expect_none(&rt, &schemas, "foo", unknown);
    expect_none(&rt, &[&["text", "1"]], TEXT, stopped);
    expect_none(&rt, &divided, INPUT, undivided);
    expect_none(&rt, &schemas, INPUT, stopped);
    expect_none(&rt, &divided, DIVIDED, stopped);
}

#[test]
fn texts_that_are_refused(rt: HostRuntime) {
    let system = system_of(Some(7), None, None);
    let said = "byte 1: expected a selection, found `}`\n";
    let outcome = (Status::Refused, "", said);
    expect(&rt, &system, &["text", "1"], "{}", outcome);
}

#[test]
fn keys_that_cannot_be_drawn(rt: HostRuntime) {
    let not_drawn = (Status::Exhausted, "cannot draw random keys\n");
    for work in [
        "schema", "lookups", "doc", "walk", "leaf", "compile", "text",
    ] {
        expect_none(&rt, &[&[work, "--random-keys", "1"]], "foo", not_drawn);
    }
}

const LOOKUPS_WITH_MEMORY: &str = "\
35 calls of type_field, 35 found, 35 calls of is_subtype, 0 true
type_field     min   3000000000 median   3000000000 mean   3000000000 ns
is_subtype     min   3000000000 median   3000000000 mean   3000000000 ns
memory 5120 kB
";

const LOOKUPS_WITH_MEMORY_IN_JSON: &str = "\
{\"type_field_calls\":35,\"type_field_found\":35,\"is_subtype_calls\":35,\"is_subtype_true\":0}
{\"phase\":\"type_field\",\"least\":3000000000,\"median\":3000000000,\"mean\":3000000000}
{\"phase\":\"is_subtype\",\"least\":3000000000,\"median\":3000000000,\"mean\":3000000000}
{\"memory_kb\":5120}
";

/// Expects a run of which the system says this, and whose repetitions take long, to say how far it is and
/// to write that.
fn expect_long(rt: &(impl Abort + AllocGlobal), words: &[&str], status: &str, output: &str) {
    let system = system_of(Some(3_000_000_000), None, Some(status));
    let said = "1 of 2 repetitions\n2 of 2 repetitions\n";
    expect(rt, &system, words, "", (Status::Done, output, said));
}

#[test]
fn long_runs_and_memory_that_the_system_tells(rt: HostRuntime) {
    let told = "Name:\tgqlbench\nVmPeak:\t    9000 kB\nVmHWM:\t    5120 kB\nVmRSS:\t    4000 kB\n";
    expect_long(&rt, &["lookups", "2"], told, LOOKUPS_WITH_MEMORY);
    expect_long(
        &rt,
        &["lookups", "--json", "2"],
        told,
        LOOKUPS_WITH_MEMORY_IN_JSON,
    );
}

#[test]
fn long_runs_and_statuses_that_tell_no_memory(rt: HostRuntime) {
    let lines = LOOKUPS_WITH_MEMORY.trim_end_matches("memory 5120 kB\n");
    for status in [
        "",
        "Name:\tVmHWM: 5120 kB\n",
        "Name:\tgqlbench\nVmHWM:\t    5120",
        "Name:\tgqlbench\nVmHWM:\t kB\n",
        "Name:\tgqlbench\nVmHWM:\t    x5120 kB\n",
        "Name:\tgqlbench\nVmHWM:\t 18446744073709551616 kB\n",
    ] {
        expect_long(&rt, &["lookups", "2"], status, lines);
    }
}

#[test]
fn writers_that_take_nothing(rt: HostRuntime) {
    let mut output = FailingWriter {
        room: 0,
        fails_at_flush: false,
    };
    let mut errors = Vec::new(rt.alloc());
    let status = run(
        rt.alloc(),
        &system_of(Some(7), None, None),
        &["schema", "1"],
        &mut INPUT.as_bytes(),
        &mut output,
        &mut errors,
    );
    assert_eq!(rt; status, Status::NotWritten);
    assert_eq!(rt; errors.as_slice(), "cannot write output\n".as_bytes());
}

#[test]
fn summaries_of_lists(rt: HostRuntime) -> Result<(), Fail> {
    let rows: [(&[u64], Option<(u64, u64, u64)>); 7] = [
        (&[], None),
        (&[7], Some((7, 7, 7))),
        (&[9, 4], Some((4, 9, 6))),
        (&[3, 1, 2], Some((1, 2, 2))),
        (&[10, 40, 20, 30], Some((10, 30, 25))),
        (&[5, 5, 5, 1, 1], Some((1, 5, 3))),
        (
            &[u64::MAX, u64::MAX, u64::MAX],
            Some((u64::MAX, u64::MAX, u64::MAX)),
        ),
    ];
    for (times, expected) in rows {
        let mut list = times.to_vec(rt.alloc())?;
        assert_eq!(rt; summary(list.as_mut_slice()), expected);
    }
    Ok(())
}
