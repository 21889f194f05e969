//! Walks over a fragment that has another name than its key, which no row can say.

use crate::executable::making::{empty, field, name};
use apollo_executable::{
    ExecutableDocument, Field, FieldWalk, Fragment, FragmentSpread, Selection, SelectionSet,
};
use graphql_ast::directive::DirectiveList;
use graphql_nodes::node::Node;
use std::alloc::{AllocError, Global};
use std::test::Fail;
use telling::walks::{End, push_fields, push_walk};

/// Adds fields that were collected, what the walk gives beside them, whether it is over for good, and in how
/// many turns.
fn push_beside(
    text: &mut String,
    collected: Result<Vec<&Node<Field>>, AllocError>,
    walk: FieldWalk<'_>,
) -> Result<(), AllocError> {
    let mut walk = walk;
    push_fields(text, collected?.as_slice())?;
    text.push_str("= ")?;
    let is_end = push_walk(text, &mut walk)? == End::Over;
    let is_over = is_end && walk.next().is_none();
    let turns = walk.turns();
    write!(text, "{is_over} in {turns}\n")
}

/// Adds what both walks over a set give.
fn push_walks(
    alloc: Global,
    text: &mut String,
    document: &ExecutableDocument,
    set: &SelectionSet,
) -> Result<(), AllocError> {
    text.push_str("root ")?;
    let collected = set.collect_root(alloc, document);
    push_beside(text, collected, set.root_fields(alloc, document))?;
    text.push_str("all ")?;
    let collected = set.collect_all(alloc, document);
    push_beside(text, collected, set.all_fields(alloc, document))
}

/// A set with spreads of these names behind what it has.
fn spreading(
    alloc: Global,
    set: SelectionSet,
    texts: [&str; 2],
) -> Result<SelectionSet, AllocError> {
    let mut set = set;
    for text in texts {
        let spread = FragmentSpread::new(alloc, name(alloc, text)?);
        set.push(Selection::of_fragment_spread(alloc, spread)?)?;
    }
    Ok(set)
}

/// The fragment `Own`, of a field and spreads of its key and its name.
fn fragment(alloc: Global) -> Result<Node<Fragment>, AllocError> {
    let mut set = empty(alloc)?;
    set.push(Selection::of_field(alloc, field(alloc, "a")?)?)?;
    let fragment = Fragment {
        name: name(alloc, "Own")?,
        directives: DirectiveList::new(alloc),
        selection_set: spreading(alloc, set, ["F", "Own"])?,
    };
    Node::new(alloc, fragment)
}

/// A document with this fragment under another key than its name.
fn document(alloc: Global) -> Result<ExecutableDocument, AllocError> {
    let mut document = ExecutableDocument::new(alloc);
    let (key, fragment) = (name(alloc, "F")?, fragment(alloc)?);
    match document.fragments.insert(key, fragment) {
        Ok(_) => Ok(document),
        Err(_) => Err(AllocError),
    }
}

/// What walks give over a set with spreads of the name and the key, and over the own sets of the fragments of
/// a document.
fn told(alloc: Global, document: &ExecutableDocument) -> Result<String, AllocError> {
    let mut text = String::new(alloc);
    let start = spreading(alloc, empty(alloc)?, ["Own", "F"])?;
    push_walks(alloc, &mut text, document, &start)?;
    for fragment in document.fragments.values() {
        let name = &fragment.name;
        write!(text, "{name}\n")?;
        push_walks(alloc, &mut text, document, &fragment.selection_set)?;
    }
    Ok(text)
}

#[test]
fn a_fragment_is_opened_under_its_key(rt: HostRuntime) -> Result<(), Fail> {
    let document = document(rt.alloc())?;
    let text = told(rt.alloc(), &document)?;
    let expected =
        "root a - = a - true in 7\nall a - = a - true in 7\nOwn\nroot a - a - = a - a - true in 8\nall a - a - = a - a - true in 8\n";
    assert_eq!(rt; text.as_str(), expected);
    Ok(())
}
