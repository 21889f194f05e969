//! Which files the words of a command line name.
ghost use Rattle.std.specs.Prelude.{◌≡◌, IfOk, OnOk, map, true};
ghost use Rattle.named_files.specs.Naming.{AreNamed, FindsSome, IsInOrder, NamesKind, NamesWord, first_ones};
ghost use Rattle.named_files.specs.Naming.{parts_of, with_one};
ghost use Rattle.named_files.specs.Seen.{Tracks};
ghost use Rattle.named_files.specs.Walks.{Adds, FindsOne};
ghost use Rattle.named_files.specs.Wanted.{enters, takes};

use crate::found::Found;
use crate::order::put_in_order;
use crate::patterns::may_be_pattern;
use crate::prefixes::{as_prefix, base};
use crate::refusal::Refusal;
use crate::walks::{MOST_NESTED, add_below, add_one};
use crate::wanted::Wanted;
use program_io::folders::{Folders, PathKind};
use program_io::with_input::is_input;
use std::alloc::{AllocError, Global};
use std::collections::BTreeSet;

/// The files that words name.
#[derive(Debug, Drop)]
pub struct NamedFiles {
    /// The files, and the names that stand for none, each path once, in the order of the words.
    pub named: Vec<Found>,
    /// The paths that are named again, in the order of the words.
    pub repeated: Vec<String>,
}

/// The files that words name, in the order of the words, each once.
///
/// `-` and the path of a file name themselves, and so does a word at which nothing stands. A folder names the
/// files below it that end in `.graphql`, `.graphqls` or `.gql`, in the order of their paths. A word with `*`
/// or `?` at which nothing stands is a pattern, and names the files that it matches, in the order of their
/// paths. Below a folder what is hidden is left out, and links to folders are not followed. A folder or a
/// pattern that names no file is a refusal, and so is a folder that can't be listed. The error is out of
/// memory.
pub fn named_files<F: Folders>(
    alloc: Global,
    folders: &F,
    words: &[&str],
) -> Result<NamedFiles, AllocError>
    ensures { IfOk result
        (AreNamed (F.stands folders.now) (F.lists folders.now) (F.may_hide folders.now)
        (map (λ word. word.now) words.now)) }
{
    let mut all = Vec::new(alloc);
    for word in words {
        add_word(alloc, folders, word, &mut all)?;
    }
    first_ones(alloc, all)
}

/// Adds what a word names. The error is out of memory.
fn add_word<F: Folders>(
    alloc: Global,
    folders: &F,
    word: &str,
    all: &mut Vec<Found>,
) -> Result<(), AllocError>
    ensures { OnOk result (Adds
        (NamesWord (F.stands folders.now) (F.lists folders.now) (F.may_hide folders.now) word.now)
        all.old.items all.new.items) }
{
    if is_input(word) {
        return add_one(alloc, word, None, all);
    }
    add_kind(alloc, folders, word, folders.kind_at(word), all)
}

/// Adds what a word names at which this stands. The error is out of memory.
fn add_kind<F: Folders>(
    alloc: Global,
    folders: &F,
    word: &str,
    kind: PathKind,
    all: &mut Vec<Found>,
) -> Result<(), AllocError>
    ensures { OnOk result (Adds
        (NamesKind (F.lists folders.now) (F.may_hide folders.now) word.now kind)
        all.old.items all.new.items) }
{
    match kind {
        PathKind::File => add_one(alloc, word, None, all),
        PathKind::Folder => {
            let prefix = as_prefix(alloc, word)?;
            add_some(alloc, folders, &Wanted::Graphql, word, prefix.as_str(), all)
        }
        PathKind::Nothing => {
            if !may_be_pattern(word) {
                return add_one(alloc, word, None, all);
            }
            let prefix = base(alloc, word)?;
            let wanted = Wanted::Matching(word);
            add_some(alloc, folders, &wanted, word, prefix.as_str(), all)
        }
    }
}

/// Adds what is found for a word below the folder of a prefix. The error is out of memory.
fn add_some<F: Folders>(
    alloc: Global,
    folders: &F,
    wanted: &Wanted<'_>,
    word: &str,
    prefix: &str,
    all: &mut Vec<Found>,
) -> Result<(), AllocError>
    ensures { OnOk result (Adds
        (FindsSome (takes wanted.now) (enters wanted.now) (F.lists folders.now) (F.may_hide folders.now)
        word.now prefix.now) all.old.items all.new.items) }
{
    let mut found = Vec::new(alloc);
    add_below(alloc, folders, wanted, MOST_NESTED, prefix, &mut found)?;
    add_in_order(alloc, word, found, all)
}

/// Adds what was found in the order of the paths; or that nothing was found for a word. The error is out of
/// memory.
fn add_in_order(
    alloc: Global,
    word: &str,
    mut found: Vec<Found>,
    all: &mut Vec<Found>,
) -> Result<(), AllocError>
    ensures { OnOk result (Adds (IsInOrder word.now found.items) all.old.items all.new.items) }
{
    if found.is_empty() {
        return add_one(alloc, word, Some(Refusal::NothingFound), all);
    }
    put_in_order(&mut found)?;
    all.append(&mut found)?;
    Ok(())
}

/// The first of each path, and the paths that are named again. The error is out of memory.
fn first_ones(alloc: Global, all: Vec<Found>) -> Result<NamedFiles, AllocError>
    ensures { IfOk result (λ named. parts_of named ≡ first_ones all.items) }
{
    let mut named = NamedFiles {
        named: Vec::new(alloc),
        repeated: Vec::new(alloc),
    };
    let mut seen = BTreeSet::new(alloc);
    for one in all {
        add_first(&mut named, &mut seen, one)?;
    }
    Ok(named)
}

/// Adds one more, or its path where that is named already. The error is out of memory.
fn add_first(
    named: &mut NamedFiles,
    seen: &mut BTreeSet<String>,
    one: Found,
) -> Result<(), AllocError>
    requires { Tracks seen.old named.old.named.items }
    ensures added { OnOk result (parts_of named.new ≡ with_one (parts_of named.old) one) }
    ensures tracks { OnOk result (Tracks seen.new named.new.named.items) }
{
    let path = one.path.clone()?;
    if seen.insert(path)? {
        named.named.push(one)?;
    } else {
        named.repeated.push(one.path)?;
    }
    Ok(())
}
