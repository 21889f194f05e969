//! Files that `format --write` replaces, and names of folders, patterns and files.

use graphql_nodes::collections::hash_keys::HashKeys;
use peglinden_run::running::run;
use program_io::in_memory::FilesInMemory;
use program_io::input::BytesInMemory;
use program_io::replaced_in_memory::ReplacedInMemory;
use program_io::status::Status;
use std::alloc::{AllocError, Global};
use std::process::Abort;
use std::test::Fail;

/// Files in a folder, one in the layout of the printer and others not, some of them with comments, and one
/// that is no document.
static FILES: [(&str, &[u8]); 8] = [
    ("in/a.graphql", b"scalar A\n"),
    ("in/b.graphql", b"scalar  B\n"),
    ("in/c.gql", b"scalar  C"),
    ("in/d.graphqls", b"scalar  D\r\n"),
    ("in/e.graphql", b"scalar E"),
    ("notes/f.graphql", b"# Why.\nscalar F # How.\n"),
    ("broken.graphql", b"scalar"),
    ("page.graphql", b"{ a }"),
];

/// The files that were replaced, each with its text behind a colon.
fn shown(alloc: Global, replaced: &[(String, String)]) -> Result<String, AllocError> {
    let mut text = String::new(alloc);
    for (path, new) in replaced {
        text.push_str(format!(in alloc; "{path}:{new}|")?.as_str())?;
    }
    Ok(text)
}

/// Expects a run on these words, with a blank between two, to end so, to write this and to say that, and to
/// replace these files.
fn expect(
    rt: &(impl Abort + AllocGlobal),
    words: &str,
    outcome: (Status, &str, &str),
    replaced: &str,
) -> Result<(), Fail> {
    let words: Vec<&str> = words.split(' ').collect(rt.alloc())?;
    let mut writer = ReplacedInMemory(Vec::new(rt.alloc()));
    let mut output = Vec::new(rt.alloc());
    let mut errors = Vec::new(rt.alloc());
    let status = run(
        rt.alloc(),
        HashKeys::FIXED,
        words.as_slice(),
        &FilesInMemory(&FILES),
        &mut writer,
        &mut BytesInMemory(b""),
        &mut output,
        &mut errors,
    );
    let shown = shown(rt.alloc(), writer.0.as_slice())?;
    assert_eq!(rt; errors.as_slice(), outcome.2.as_bytes());
    assert_eq!(rt; output.as_slice(), outcome.1.as_bytes());
    assert_eq!(rt; shown.as_str(), replaced);
    assert_eq!(rt; status, outcome.0);
    Ok(())
}

/// Only files whose text differs are replaced, and the last line of each ends as before.
#[test]
fn differing_files_are_replaced(rt: HostRuntime) -> Result<(), Fail> {
    let replaced = "in/b.graphql:scalar B\n|in/c.gql:scalar C|in/d.graphqls:scalar D\r\n|";
    let named = "in/b.graphql\nin/c.gql\nin/d.graphqls\n";
    expect(
        &rt,
        "format --write in",
        (Status::Done, named, ""),
        replaced,
    )?;
    expect(
        &rt,
        "format --write in/e.graphql",
        (Status::Done, "", ""),
        "",
    )
}

/// Files with comments are replaced only where these may be dropped.
#[test]
fn comments_are_not_lost(rt: HostRuntime) -> Result<(), Fail> {
    expect(
        &rt,
        "format --write --drop-comments notes",
        (Status::Done, "notes/f.graphql\n", ""),
        "notes/f.graphql:scalar F\n|",
    )?;
    let said = concat!(
        "error: cannot write `notes/f.graphql`: its comments in lines 1 and 2 would be lost, ",
        "unless `--drop-comments` is given\n\n1 fault\n",
    );
    expect(
        &rt,
        "format --write in notes",
        (Status::Refused, "", said),
        "",
    )
}

/// A file that is no document keeps all from being replaced.
#[test]
fn nothing_is_replaced_beside_a_refused_file(rt: HostRuntime) -> Result<(), Fail> {
    let said = "error: expected a name, found the end of the text
  --> broken.graphql:1:7
   |
 1 | scalar
   |       ^

1 fault
";
    expect(
        &rt,
        "format --write in broken.graphql",
        (Status::Refused, "", said),
        "",
    )
}

/// Folders and patterns stand for their files, and each file is read once.
#[test]
fn words_name_files(rt: HostRuntime) -> Result<(), Fail> {
    let again = "warning: `in/a.graphql` is named more than once, and read once\n";
    let rows = [
        (
            "format --check in/a.graphql in/e.graphql",
            (Status::Done, "", ""),
        ),
        (
            "format in/a.graphql in/?.gql",
            (Status::Done, "scalar A\n\nscalar C\n", ""),
        ),
        (
            "format in/a.graphql in/a.graphql",
            (Status::Done, "scalar A\n", again),
        ),
        (
            "format --check in",
            (
                Status::Faults,
                "in/b.graphql\nin/c.gql\nin/d.graphqls\n",
                "",
            ),
        ),
        (
            "format none",
            (
                Status::Refused,
                "",
                "error: cannot read `none`: entity not found\n\n1 fault\n",
            ),
        ),
        (
            "format **/*.md",
            (
                Status::Refused,
                "",
                "error: cannot read `**/*.md`: nothing found\n\n1 fault\n",
            ),
        ),
    ];
    for (words, outcome) in rows {
        expect(&rt, words, outcome, "")?;
    }
    Ok(())
}
