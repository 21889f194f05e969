//! Tests of the names of files on a command line: folders, patterns and files, in memory.

use named_files::naming::{NamedFiles, named_files};
use program_io::file_error::FileError;
use program_io::files::Files;
use program_io::folders::{Entry, Folders, PathKind};
use program_io::in_memory::FilesInMemory;
use program_io::replaced_in_memory::ReplacedInMemory;
use program_io::replacing::Replacing;
use std::alloc::{AllocError, Global};
use std::io::{Error, ErrorKind};
use std::process::Abort;
use std::test::Fail;

/// A repository: a schema in a folder, queries in others, and what is left out.
static FILES: [(&str, &[u8]); 13] = [
    ("schema/types/book.graphql", b""),
    ("schema/query.graphqls", b""),
    ("schema/old.gql", b""),
    ("schema/notes.md", b""),
    ("schema/.draft.graphql", b""),
    ("schema/.git/head.graphql", b""),
    ("schema-next/query.graphql", b""),
    ("queries/v12.graphql", b""),
    ("queries/v1.graphql", b""),
    ("queries/deep/er/v2.graphql", b""),
    ("a*b.graphql", b""),
    ("plain/readme.md", b""),
    ("top.graphql", b""),
];

/// The files that are named, with a blank between two; behind a name that stands for none `!` and why. Behind
/// `|` stand those that are named again.
fn shown(alloc: Global, named: &NamedFiles) -> Result<String, AllocError> {
    let mut text = String::new(alloc);
    for one in &named.named {
        text.push_str(one.path.as_str())?;
        if let Some(refusal) = &one.refusal {
            text.push_str(format!(in alloc; "!{refusal}")?.as_str())?;
        }
        text.push(' ')?;
    }
    text.push('|')?;
    for path in &named.repeated {
        text.push(' ')?;
        text.push_str(path.as_str())?;
    }
    Ok(text)
}

/// Expects these words, with a blank between two, to name this.
fn expect<F: Folders>(
    rt: &(impl Abort + AllocGlobal),
    folders: &F,
    words: &str,
    expected: &str,
) -> Result<(), Fail> {
    let words: Vec<&str> = words.split(' ').collect(rt.alloc())?;
    let named = named_files(rt.alloc(), folders, words.as_slice())?;
    let shown = shown(rt.alloc(), &named)?;
    assert_eq!(rt; shown.as_str(), expected);
    Ok(())
}

/// A folder stands for its files of GraphQL text, in the order of their paths, without what is hidden.
#[test]
fn folders_stand_for_their_files(rt: HostRuntime) -> Result<(), Fail> {
    let schema = "schema/old.gql schema/query.graphqls schema/types/book.graphql |";
    let rows = [
        ("schema", schema),
        ("schema/", schema),
        ("schema/types", "schema/types/book.graphql |"),
        ("schema/.git", "schema/.git/head.graphql |"),
        ("plain", "plain!nothing found |"),
        ("top.graphql -", "top.graphql - |"),
        ("nowhere", "nowhere |"),
    ];
    for (words, expected) in rows {
        expect(&rt, &FilesInMemory(&FILES), words, expected)?;
    }
    Ok(())
}

/// A pattern stands for the files that it matches, unless a file has that name.
#[test]
fn patterns_stand_for_what_they_match(rt: HostRuntime) -> Result<(), Fail> {
    let rows = [
        (
            "queries/*.graphql",
            "queries/v1.graphql queries/v12.graphql |",
        ),
        ("queries/v?.graphql", "queries/v1.graphql |"),
        (
            "queries/**/*.graphql",
            "queries/deep/er/v2.graphql queries/v1.graphql queries/v12.graphql |",
        ),
        ("**/v2.graphql", "queries/deep/er/v2.graphql |"),
        ("*.graphql", "a*b.graphql top.graphql |"),
        ("*/*.gql", "schema/old.gql |"),
        (
            "s*/query.*",
            "schema-next/query.graphql schema/query.graphqls |",
        ),
        ("plain/*", "plain/readme.md |"),
        ("*.md", "*.md!nothing found |"),
        ("schema/?", "schema/?!nothing found |"),
        ("a*b.graphql", "a*b.graphql |"),
    ];
    for (words, expected) in rows {
        expect(&rt, &FilesInMemory(&FILES), words, expected)?;
    }
    Ok(())
}

/// Each file is named once, where it is named first.
#[test]
fn files_are_named_once(rt: HostRuntime) -> Result<(), Fail> {
    let rows = [
        (
            "schema/query.graphqls schema",
            "schema/query.graphqls schema/old.gql schema/types/book.graphql | schema/query.graphqls",
        ),
        (
            "top.graphql top.graphql top.graphql",
            "top.graphql | top.graphql top.graphql",
        ),
        ("*.md *.md", "*.md!nothing found | *.md"),
    ];
    for (words, expected) in rows {
        expect(&rt, &FilesInMemory(&FILES), words, expected)?;
    }
    Ok(())
}

/// Folders that are not to be listed, or that have a folder in them at each depth.
#[derive(Drop)]
struct OddFolders {
    is_locked: bool,
}

impl Files for OddFolders {
    ghost use Rattle.std.specs.Prelude.{⊤};

    ghost holds = { λ _ _ _. ⊤ };

    ghost may_fail = { λ _ _. ⊤ };

    fn read(&self, _alloc: Global, _path: &str) -> Result<String, FileError> {
        Err(FileError::CannotRead(Error::from(ErrorKind::PermissionDenied)))
    }
}

impl Folders for OddFolders {
    ghost use Rattle.std.specs.Prelude.{⊤};

    ghost stands = { λ _ _ _. ⊤ };

    ghost lists = { λ _ _ _. ⊤ };

    ghost may_hide = { λ _ _. ⊤ };

    fn kind_at(&self, _path: &str) -> PathKind {
        PathKind::Folder
    }

    fn entries(&self, alloc: Global, _prefix: &str) -> Result<Vec<Entry>, FileError> {
        if self.is_locked {
            return Err(FileError::CannotRead(Error::from(ErrorKind::PermissionDenied)));
        }
        match one_folder(alloc) {
            Ok(entries) => Ok(entries),
            Err(_) => Err(FileError::Memory),
        }
    }
}

/// A folder in a folder.
fn one_folder(alloc: Global) -> Result<Vec<Entry>, AllocError> {
    let name = String::from_str(alloc, "in")?;
    let mut entries = Vec::new(alloc);
    entries.push(Entry {
        name,
        is_folder: true,
    })?;
    Ok(entries)
}

/// A folder that can't be listed is named with the reason, and the words behind it are named all the same.
#[test]
fn locked_folders_are_refused(rt: HostRuntime) -> Result<(), Fail> {
    let folders = OddFolders { is_locked: true };
    expect(
        &rt,
        &folders,
        "a b",
        "a/!permission denied b/!permission denied |",
    )
}

/// Folders that nest without an end are refused, at some depth.
#[test]
fn endless_folders_are_refused(rt: HostRuntime) -> Result<(), Fail> {
    let folders = OddFolders { is_locked: false };
    let named = named_files(rt.alloc(), &folders, &["a"])?;
    let shown = shown(rt.alloc(), &named)?;
    assert_eq!(rt; named.named.len(), 1);
    assert!(rt; shown.as_str().starts_with("a/in/in/in/"));
    assert!(rt; shown.as_str().ends_with("/in/!folders nest too deep |"));
    Ok(())
}

/// What was replaced is known in memory.
#[test]
fn replaced_files_are_known(rt: HostRuntime) {
    let mut replaced = ReplacedInMemory(Vec::new(rt.alloc()));
    assert!(rt;
        replaced
            .replace(rt.alloc(), "a.graphql", "scalar A\n")
            .is_ok()
    );
    assert!(rt; replaced.replace(rt.alloc(), "b.graphql", "").is_ok());
    assert_eq!(rt; replaced.0.len(), 2);
    assert_eq!(rt; replaced.0[0].0.as_str(), "a.graphql");
    assert_eq!(rt; replaced.0[0].1.as_str(), "scalar A\n");
    assert_eq!(rt; replaced.0[1].0.as_str(), "b.graphql");
}
