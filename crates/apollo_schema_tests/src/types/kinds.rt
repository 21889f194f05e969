//! The origins of components, types by their kinds, and schemas that are made of parts.

use crate::types::lookups::USERS;
use crate::types::schemas::{made_again, schema_of};
use apollo_schema::schema::Schema;
use apollo_types::extended_type::ExtendedType;
use apollo_types::extensible::Extensible;
use apollo_types::schema_definition::SchemaDefinition;
use graphql_ast::type_reference::Type;
use graphql_nodes::name::Name;
use likeness::{both, is_made};
use std::alloc::{AllocError, Global};
use std::process::Abort;
use telling::Tell;

/// Adds the roots of a schema's definition, where its components come from, and its extensions.
fn push_definition(
    alloc: Global,
    text: &mut String,
    definition: &SchemaDefinition,
) -> Result<(), AllocError> {
    for (operation_type, root) in definition.iter_root_operations() {
        let name = &root.name;
        write!(text, "{operation_type} is {name}\n")?;
    }
    text.push_str("schema: ")?;
    for origin in definition.iter_origins() {
        origin.tell(text)?;
    }
    text.push_str("\nextensions: ")?;
    definition.extensions(alloc)?.tell(text)?;
    text.push_str("\n")
}

/// Adds where the components of a type come from, and its extensions.
fn push_origins(alloc: Global, text: &mut String, ty: &ExtendedType) -> Result<(), AllocError> {
    let name = ty.name();
    write!(text, "{name}: ")?;
    for origin in ty.iter_origins() {
        origin.tell(text)?;
    }
    text.push_str("\nextensions: ")?;
    ty.extensions(alloc)?.tell(text)?;
    text.push_str("\n")
}

/// A schema of copies of these parts.
fn made_of(alloc: Global, schema: &Schema) -> Result<Schema, AllocError> {
    let first = both(schema.sources.clone(), schema.schema_definition.clone());
    let second = both(schema.directive_definitions.clone(), schema.types.clone());
    let ((sources, definition), (directives, types)) = both(first, second)?;
    Schema::from_parts(alloc, sources, definition, directives, types)
}

/// Expects this to be said of the origins in the schema of a text. Copies of its parts make an equal schema.
fn expect_origins(rt: &(impl Abort + AllocGlobal), input: &str, expected: &str) {
    let schema = schema_of(rt.alloc(), input).expect(rt, "a schema");
    let mut text = String::new(rt.alloc());
    push_definition(rt.alloc(), &mut text, &schema.schema_definition).expect(rt, "memory");
    for ty in schema.types.values() {
        if !ty.is_built_in() {
            push_origins(rt.alloc(), &mut text, ty).expect(rt, "memory");
        }
    }
    assert_eq!(rt; text.as_str(), expected, "of {input:?}");
    assert!(rt; is_made(made_of(rt.alloc(), &schema), &schema));
}

/// A type of each kind, with what it may hold in its definition and in an extension.
const KINDS: &str =
    "def scalar S\n@ d\ndef object O\nimplements I\nfield f Int\ndef interface I\nfield f Int\ndef union U\nmember O\ndef enum E\nvalue A\ndef input N\nfield f Int\next scalar S\n@ d\next object O\nfield g Int\next interface I\nimplements J\next union U\nmember S\next enum E\nvalue B\next input N\nfield g Int";

/// Schemas, and what is said of the origins in each.
const ORIGINS: &[(&str, &str)] = &[
    // Roots come in the order of operation types.
    (
        "ext-schema\nroot subscription S\nschema\n@ d\nroot mutation M\next-schema\n@ e\nroot query Q\n",
        "query is Q\nmutation is M\nsubscription is S\nschema: definition extension 1 of 1:6 extension 1 of 1:6 definition extension 0 of 1:1 \nextensions: extension 1 of 1:6 extension 0 of 1:1 \n",
    ),
    // Origins go by directives, then names, then fields.
    (
        "ext object Query\nfield withArg String\nfield@ deprecated\narg arg Boolean\ndef object Query\nfield int Int\next object Query\nimplements Inter\ndef interface Inter\nfield string String\next object Query\n@ customDirective\next object Query\nfield string String\ndirective customDirective\non OBJECT",
        "query is Query\nschema: definition \nextensions: \nQuery: extension 2 of 1:11 extension 1 of 1:7 definition extension 0 of 1:1 extension 3 of 1:13 \nextensions: extension 2 of 1:11 extension 1 of 1:7 extension 0 of 1:1 extension 3 of 1:13 \nInter: definition \nextensions: \n",
    ),
    // Types of each kind have origins.
    (
        KINDS,
        "schema: \nextensions: \nS: definition extension 0 of 1:14 \nextensions: extension 0 of 1:14 \nO: definition definition extension 1 of 1:16 \nextensions: extension 1 of 1:16 \nI: extension 2 of 1:18 definition \nextensions: extension 2 of 1:18 \nU: definition extension 3 of 1:20 \nextensions: extension 3 of 1:20 \nE: definition extension 4 of 1:22 \nextensions: extension 4 of 1:22 \nN: definition extension 5 of 1:24 \nextensions: extension 5 of 1:24 \n",
    ),
];

#[test]
fn origins_go_by_roots_directives_names_and_fields(rt: HostRuntime) {
    for (input, expected) in ORIGINS {
        expect_origins(&rt, input, expected);
    }
}

/// Adds the words of what holds.
fn push_words(text: &mut String, words: &[(&str, bool)]) -> Result<(), AllocError> {
    for (word, holds) in words {
        if *holds {
            write!(text, " {word}")?;
        }
    }
    Ok(())
}

/// Adds as what a name is found, and as what a list of it can be used.
fn push_found(
    alloc: Global,
    text: &mut String,
    schema: &Schema,
    name: &Name,
) -> Result<(), AllocError> {
    let list = Type::named(name.clone()?).list(alloc)?;
    write!(text, "{name}:")?;
    push_words(
        text,
        &[
            ("scalar", schema.get_scalar(name).is_some()),
            ("object", schema.get_object(name).is_some()),
            ("interface", schema.get_interface(name).is_some()),
            ("union", schema.get_union(name).is_some()),
            ("enum", schema.get_enum(name).is_some()),
            ("input object", schema.get_input_object(name).is_some()),
            ("input", schema.is_input_type(&list)),
            ("output", schema.is_output_type(&list)),
        ],
    )
}

/// Adds what a type is by itself.
fn push_kinds(alloc: Global, text: &mut String, ty: &ExtendedType) -> Result<(), AllocError> {
    let made = made_again(alloc, ty)?;
    text.push_str(", is")?;
    push_words(
        text,
        &[
            ("scalar", ty.is_scalar() && ty.as_scalar().is_some()),
            ("object", ty.is_object() && ty.as_object().is_some()),
            (
                "interface",
                ty.is_interface() && ty.as_interface().is_some(),
            ),
            ("union", ty.is_union() && ty.as_union().is_some()),
            ("enum", ty.is_enum() && ty.as_enum().is_some()),
            (
                "input object",
                ty.is_input_object() && ty.as_input_object().is_some(),
            ),
            ("leaf", ty.is_leaf()),
            ("input", ty.is_input_type()),
            ("output", ty.is_output_type()),
            ("described", ty.description().is_some()),
            ("with directives", !ty.directives().is_empty()),
            (
                "made again at no location",
                made == *ty && made.location().is_none(),
            ),
        ],
    )?;
    text.push_str("\n")
}

/// Adds what each type is, and the name of none.
fn push_types(alloc: Global, text: &mut String, schema: &Schema) -> Result<(), AllocError> {
    for ty in schema.types.values() {
        if !ty.is_built_in() {
            push_found(alloc, text, schema, ty.name())?;
            push_kinds(alloc, text, ty)?;
        }
    }
    push_found(alloc, text, schema, &Name::new_unchecked(alloc, "Gone")?)?;
    text.push_str("\n")
}

#[test]
fn each_type_is_of_its_kind_alone(rt: HostRuntime) {
    let mut text = String::new(rt.alloc());
    for input in [KINDS, USERS] {
        let schema = schema_of(rt.alloc(), input).expect(&rt, "a schema");
        push_types(rt.alloc(), &mut text, &schema).expect(&rt, "memory");
    }
    assert_eq!(rt;
        text.as_str(),
        "S: scalar input output, is scalar leaf input output with directives made again at no location\nO: object output, is object output made again at no location\nI: interface output, is interface output made again at no location\nU: union output, is union output made again at no location\nE: enum input output, is enum leaf input output made again at no location\nN: input object input, is input object input made again at no location\nGone:\nQuery: object output, is object output made again at no location\nUser: object output, is object output made again at no location\nNode: interface output, is interface output made again at no location\nPet: union output, is union output made again at no location\nDate: scalar input output, is scalar leaf input output made again at no location\nSize: enum input output, is enum leaf input output made again at no location\nFilter: input object input, is input object input made again at no location\nGone:\n"
    );
}
