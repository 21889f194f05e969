//! Boxes, shared values, texts and files.

use crate::nodes::shown::is_shown;
use graphql_nodes::collections::boxed::Boxed;
use graphql_nodes::collections::shared::Shared;
use graphql_nodes::collections::static_text::StaticText;
use graphql_nodes::collections::text::Text;
use graphql_nodes::source::SourceFile;
use likeness::{are_alike, is_copied, is_made, is_printed};
use std::alloc::{AllocError, Global};
use std::rc::Rc;

/// Whether these boxes hold 6 and 7.
fn are_6_and_7(boxed: Boxed<i32>, other: Boxed<i32>) -> bool {
    let seen = [*boxed, *other];
    seen == [6, 7] && [*boxed.into_box(), other.into_inner()] == seen
}

/// Whether 5 is boxed, copied and shown, 6 written in its place, and 7 boxed beside it.
fn are_boxed(alloc: Global) -> Result<bool, AllocError> {
    let mut boxed = Boxed::from_box(Box::new(alloc, 5)?);
    let is_made = is_made(Boxed::new(alloc, 5), &boxed) && is_copied(&boxed);
    let is_shown = is_shown(alloc, &boxed, "5");
    *boxed = 6;
    let other = boxed.same_allocator(7)?;
    Ok(is_made && is_shown && are_6_and_7(boxed, other))
}

/// Whether 7 is shared, copied and shown.
fn is_shared(alloc: Global) -> Result<bool, AllocError> {
    let shared = Shared::from_rc(Rc::new(alloc, 7)?);
    let is_made = is_made(Shared::new(alloc, 7), &shared) && is_copied(&shared);
    Ok(is_made && is_shown(alloc, &shared, "7") && *shared.into_rc() == 7)
}

/// A text with quotes in it.
const QUOTED: &str = "a \"b\"";

/// Whether the text reads as that one, is printed, copied and made so, and is shown with its quotes.
fn is_quoted(alloc: Global, text: &Text) -> bool {
    (text.as_str(), text.len(), text.is_empty()) == (QUOTED, 5, false)
        && is_printed(alloc, text, QUOTED)
        && is_shown(alloc, text, "\"a \\\"b\\\"\"")
        && is_copied(text)
        && is_made(Text::from_str(alloc, QUOTED), text)
}

/// Whether that text is kept.
fn is_text_kept(alloc: Global) -> Result<bool, AllocError> {
    let text = Text::from_string(String::from_str(alloc, QUOTED)?);
    Ok(is_quoted(alloc, &text) && text.into_string().as_str() == QUOTED)
}

/// Whether the text `words` is kept where it stands.
fn is_static_text_kept(alloc: Global) -> bool {
    let text = StaticText::from("words");
    text.as_str() == "words"
        && are_alike(&text, &StaticText::new("words"))
        && is_copied(&text)
        && is_shown(alloc, &text, "\"words\"")
}

/// Whether a file is copied and shown.
fn is_file_kept(alloc: Global) -> Result<bool, AllocError> {
    let file = SourceFile::new(alloc, "a.graphql", "{ a }")?;
    let shown = "SourceFile { path: \"a.graphql\", text: \"{ a }\" }";
    Ok(is_copied(&file) && is_shown(alloc, &file, shown))
}

#[test]
fn boxes_and_shared_values_are_copied_shown_and_taken_apart(rt: HostRuntime) {
    let alloc = rt.alloc();
    assert!(rt; are_boxed(alloc) == Ok(true));
    assert!(rt; is_shared(alloc) == Ok(true));
}

#[test]
fn texts_and_files_are_copied_and_shown(rt: HostRuntime) {
    let alloc = rt.alloc();
    assert!(rt; is_text_kept(alloc) == Ok(true));
    assert!(rt; is_static_text_kept(alloc));
    assert!(rt; is_file_kept(alloc) == Ok(true));
}
