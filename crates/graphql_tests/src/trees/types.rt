//! References to types: their forms, where they are compatible, and their copies.

use crate::nodes::samples::{PLACE, name};
use bench_notation::names::Names;
use bench_notation::refusal::LineError;
use bench_notation::type_notation::{MOST_BRACKETS, push_type, read_type};
use graphql_ast::Type;
use graphql_nodes::Boxed;
use likeness::{are_equal, is_copied_so};
use std::alloc::{AllocError, Global};

/// The type `[Page!]`, with its name at a location.
fn pages(alloc: Global) -> Result<Type, AllocError> {
    let page = Type::named(name(alloc, "Page", Some(PLACE))?).non_null();
    page.list(alloc)
}

/// The type `[Page!]`, of the variants.
fn listed(alloc: Global) -> Result<Type, AllocError> {
    let page = Type::NonNullNamed(name(alloc, "Page", None)?);
    Ok(Type::List(Boxed::new(alloc, page)?))
}

/// Whether the type is one that can't be null, if there was memory for it.
fn is_non_null(ty: Result<Type, AllocError>) -> Option<bool> {
    match ty {
        Ok(ty) => Some(ty.is_non_null()),
        Err(_) => None,
    }
}

#[test]
fn type_references(rt: HostRuntime) {
    let alloc = rt.alloc();
    let optional = name(alloc, "Page", None).map(Type::named);
    let all_pages = pages(alloc).map(Type::non_null);
    assert!(rt; are_equal(optional, all_pages) == Some(false));
    assert!(rt; are_equal(pages(alloc), listed(alloc)) == Some(true));
    let optional = name(alloc, "Page", None).map(Type::named);
    assert!(rt; is_non_null(optional) == Some(false));
    let page = name(alloc, "Page", None).map(Type::named);
    assert!(rt; is_non_null(page.map(Type::non_null)) == Some(true));
    assert!(rt; is_non_null(pages(alloc)) == Some(false));
    assert!(rt; is_non_null(pages(alloc).map(Type::non_null)) == Some(true));
}

/// Whether the type's name is `Page`, at the location.
fn is_of_page(ty: &Type) -> bool {
    let name = ty.inner_named_type();
    (name.as_str(), name.location()) == ("Page", Some(PLACE))
}

#[test]
fn type_references_are_copied(rt: HostRuntime) {
    let all_pages = pages(rt.alloc()).map(Type::non_null);
    assert!(rt; is_copied_so(all_pages, is_of_page));
}

/// The type that is written so.
fn read(alloc: Global, word: &str) -> Result<Type, LineError> {
    let mut names = Names::new(alloc, 1)?;
    read_type(&mut names, word, MOST_BRACKETS, PLACE)
}

/// Whether there was memory to write the type, and it is written so.
fn is_written(alloc: Global, ty: &Type, word: &str) -> bool {
    let mut text = String::new(alloc);
    push_type(&mut text, ty).is_ok() && text.as_str() == word
}

/// Whether the type that is made of this one is written so.
fn is_made_so<F: FnOnce(Type) -> Type + Drop>(
    alloc: Global,
    word: &str,
    make: F,
    wanted: &str,
) -> bool
where
    requires { F.IsAlwaysCallable make }
{
    match read(alloc, word) {
        Ok(ty) => is_written(alloc, &make(ty), wanted),
        Err(_) => false,
    }
}

/// Whether the type is a name or a list, as is given, and that of its items is written so.
fn has_items(alloc: Global, word: &str, is_named: bool, item: &str) -> bool {
    match read(alloc, word) {
        Ok(ty) => {
            (ty.is_named(), ty.is_list()) == (is_named, !is_named)
                && is_written(alloc, ty.item_type(), item)
        }
        Err(_) => false,
    }
}

/// Types, whether each is a name, the type of its items, and the type with null and without.
const FORMS: &[(&str, bool, &str, &str, &str)] = &[
    ("Int", true, "Int", "Int", "Int!"),
    ("Int!", true, "Int!", "Int", "Int!"),
    ("[Int!]", false, "Int!", "[Int!]", "[Int!]!"),
    ("[[Int]]!", false, "[Int]", "[[Int]]", "[[Int]]!"),
];

#[test]
fn types_are_names_or_lists_with_null_or_without(rt: HostRuntime) {
    let alloc = rt.alloc();
    for (word, is_named, item, nullable, non_null) in FORMS {
        assert!(rt; has_items(alloc, word, *is_named, item), "at {word}");
        assert!(rt;
            is_made_so(alloc, word, Type::nullable, nullable),
            "at {word}"
        );
        assert!(rt;
            is_made_so(alloc, word, Type::non_null, non_null),
            "at {word}"
        );
    }
}

/// Whether a variable of the first type may stand where the second is expected, if both are types.
fn is_assignable(alloc: Global, variable: &str, location: &str) -> Option<bool> {
    match (read(alloc, variable), read(alloc, location)) {
        (Ok(variable), Ok(location)) => Some(variable.is_assignable_to(&location)),
        _ => None,
    }
}

/// Types of variables, types of locations, and whether they are compatible.
const COMPATIBLE: &[(&str, &str, bool)] = &[
    ("Int", "Int", true),
    ("Int", "Float", false),
    ("Int!", "Int", true),
    ("Int", "Int!", false),
    ("Int!", "Int!", true),
    ("Int!", "Float!", false),
    ("Int", "[Int]", false),
    ("Int!", "[Int]", false),
    ("[Int]", "Int", false),
    ("[Int]!", "Int!", false),
    ("[Int!]", "[Int]", true),
    ("[Int]", "[Int!]", false),
    ("[Int]!", "[Int]", true),
    ("[Int]", "[Int]!", false),
    ("[Int!]!", "[Int]!", true),
    ("[Int!]!", "[Float]", false),
    ("[[Int!]!]!", "[[Int]]", true),
    ("[[Int!]]", "[[Int]!]", false),
];

#[test]
fn types_of_variables_are_compatible_item_by_item(rt: HostRuntime) {
    for (variable, location, wanted) in COMPATIBLE {
        let is_compatible = is_assignable(rt.alloc(), variable, location);
        assert!(rt;
            is_compatible == Some(*wanted),
            "at {variable} and {location}"
        );
    }
}
