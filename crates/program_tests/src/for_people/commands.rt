//! Each command, where nothing is at fault and where something is.

use crate::for_people::rows::{expect_done, expect_faults, expect_refused};
use std::test::Fail;

/// The field that isn't there. That another is left without selections is not said besides.
const MISSING_FIELD: &str = "error: type `Book` does not have a field `pages`
  --> faulty.graphql:3:5
   |
 3 |     pages
   |     ^^^^^
   = path: query Page → book → pages

1 fault
";

const MISSING_FIELD_JSON: &str =
    "{\"type\":\"fault\",\"kind\":\"UndefinedField\",\"message\":\"type `Book` does not have a field `pages`\",\"file\":\"faulty.graphql\",\"line\":3,\"column\":5,\"end_line\":3,\"end_column\":10,\"path\":{\"root\":{\"kind\":\"query\",\"name\":\"Page\"},\"keys\":[\"book\",\"pages\"]},\"type_name\":\"Book\",\"field_name\":\"pages\"}
{\"type\":\"summary\",\"faults\":1,\"files\":2}
";

const MISSING_FIELD_COMMAND: &str =
    "::error file=faulty.graphql,line=3,col=5::type `Book` does not have a field `pages`\n";

const SECOND_BOOK: &str = "error: the type `Book` is defined multiple times in the schema
  --> twice.graphql:2:6
   |
 2 | type Book { price: Int }
   |      ^^^^
note: first defined here
  --> twice.graphql:1:6
   |
 1 | type Book { title: String }
   |      ^^^^

1 fault
";

/// The schema of `store.graphql`, in our layout.
const STORE: &str = "type Query {\n  book: Book\n}\n\ntype Book {\n  title: String\n}\n";

#[test]
fn commands_without_a_fault(rt: HostRuntime) -> Result<(), Fail> {
    let page = "query Page {\n  book {\n    title\n  }\n}\n";
    let fields = "query Page\n  Query.book 1\n  Book.title 1\n";
    expect_done(
        &rt,
        &[
            ("schema store.graphql", STORE),
            ("check --schema store.graphql page.graphql", ""),
            ("typed --schema store.graphql page.graphql", page),
            ("fields --schema store.graphql page.graphql", fields),
        ],
    )
}

#[test]
fn commands_with_a_fault(rt: HostRuntime) -> Result<(), Fail> {
    let first_book = "type Book {\n  title: String\n}\n";
    expect_faults(
        &rt,
        &[
            ("schema twice.graphql", first_book, SECOND_BOOK),
            (
                "check --schema store.graphql faulty.graphql",
                "",
                MISSING_FIELD,
            ),
            (
                "check --json --schema store.graphql faulty.graphql",
                MISSING_FIELD_JSON,
                "",
            ),
            (
                "check --max-faults 0 --schema store.graphql faulty.graphql",
                "",
                "1 fault, 0 shown\n",
            ),
            (
                "check --github --schema store.graphql faulty.graphql",
                MISSING_FIELD_COMMAND,
                "1 fault\n",
            ),
            (
                "fields --schema store.graphql faulty.graphql",
                "query Page\n  Query.book 1\n",
                MISSING_FIELD,
            ),
        ],
    )
}

#[test]
fn what_a_coordinate_points_to(rt: HostRuntime) -> Result<(), Fail> {
    expect_done(
        &rt,
        &[
            (
                "lookup Book.title store.graphql",
                "# store.graphql:6:3\ntitle: String\n",
            ),
            (
                "lookup Money parts.graphql",
                "# parts.graphql:8:1\nenum Money {\n  EURO\n}\n",
            ),
            (
                "lookup Book.price parts.graphql",
                "# parts.graphql:4:3\n\"\"\"What it costs.\"\"\"\nprice(in: Money = EURO): Int\n",
            ),
            (
                "lookup Place.shelf parts.graphql",
                "# parts.graphql:13:3\nshelf: Int = 1\n",
            ),
            (
                "lookup @shown(where:) parts.graphql",
                "# parts.graphql:1:18\nwhere: Place\n",
            ),
            (
                "lookup @skip parts.graphql",
                "# built-in\ndirective @skip(if: Boolean!) on FIELD | FRAGMENT_SPREAD | INLINE_FRAGMENT\n",
            ),
        ],
    )
}

/// What is at fault in the schema is nothing to `lookup`; what points to nothing is.
#[test]
fn lookups_are_at_fault_where_nothing_is_found(rt: HostRuntime) -> Result<(), Fail> {
    let title = "# twice.graphql:1:13\ntitle: String\n";
    expect_done(&rt, &[("lookup Book.title twice.graphql", title)])?;
    let missing = "error: `Book.price` points to nothing: type does not have attribute `price`\n";
    expect_faults(&rt, &[("lookup Book.price twice.graphql", "", missing)])?;
    let refused =
        "error: `Book.` is not a schema coordinate, as `Type`, `Type.field`, `Type.field(argument:)`, `@directive` or `@directive(argument:)` are\n";
    expect_refused(&rt, &[("lookup Book. store.graphql", refused)])
}

/// Texts that have the layout, and texts that haven't.
#[test]
fn files_are_formatted(rt: HostRuntime) -> Result<(), Fail> {
    let books = "type Book {\n  title: String\n}\n\ntype Book {\n  price: Int\n}\n";
    expect_done(
        &rt,
        &[
            ("format store.graphql", STORE),
            ("format twice.graphql", books),
            ("format --check store.graphql page.graphql", ""),
        ],
    )?;
    expect_faults(
        &rt,
        &[
            (
                "format --check store.graphql twice.graphql",
                "twice.graphql\n",
                "",
            ),
            (
                "format --check \x1b[31m.graphql",
                "\u{fffd}[31m.graphql\n",
                "",
            ),
        ],
    )
}
