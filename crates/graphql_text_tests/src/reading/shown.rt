//! What trees of texts hold, and where their parts stand.

use crate::reading::told::{FILE, Whole, are_told};
use crate::reading::trees::definitions;
use graphql_ast::definition::Definition;
use graphql_ast::document::Document;
use graphql_ast::selection::Selection;
use graphql_nodes::collections::shared::Shared;
use graphql_nodes::source::{SourceFile, SourceSpan};
use graphql_text::parse_error::ParseError;
use graphql_text::parsing::{ParseOptions, parse_document};
use std::alloc::Global;
use std::test::Fail;

fn span(start: usize, end: usize) -> Option<SourceSpan> {
    Some(SourceSpan {
        file: FILE,
        start,
        end,
    })
}

/// Whether the name, the variable, its type and its default value, and the selections stand where they are
/// spelled.
fn operation_stands(read: &[Definition]) -> bool {
    let [Definition::OperationDefinition(operation)] = read else {
        return false;
    };
    let [variable] = operation.variables.as_slice() else {
        return false;
    };
    let (Some(name), Some(value)) = (&operation.name, &variable.default_value) else {
        return false;
    };
    operation.location() == span(1, 51)
        && name.location() == span(7, 8)
        && variable.location() == span(9, 27)
        && variable.ty.location() == span(12, 19)
        && value.location() == span(20, 25)
        && selections_stand(operation.selection_set.as_slice())
}

/// Whether the field, its second argument, the spread, its name and its directive do.
fn selections_stand(read: &[Selection]) -> bool {
    let [Selection::Field(field), Selection::FragmentSpread(spread)] = read else {
        return false;
    };
    let ([_, argument], [directive]) = (field.arguments.as_slice(), spread.directives.as_slice())
    else {
        return false;
    };
    field.location() == span(29, 43)
        && argument.location() == span(36, 42)
        && argument.value.location() == span(38, 42)
        && spread.location() == span(43, 50)
        && spread.fragment_name.location() == span(46, 47)
        && directive.location() == span(48, 50)
}

/// Whether the description is this text, at these bytes, and the name stands behind it.
fn description_stands(read: &[Definition]) -> bool {
    let [Definition::ScalarTypeDefinition(scalar)] = read else {
        return false;
    };
    let Some(description) = &scalar.description else {
        return false;
    };
    description.as_str() == "one\n  two"
        && description.location() == span(0, 29)
        && scalar.name.location() == span(37, 38)
        && scalar.location() == span(0, 38)
}

/// Whether the document of a file has its definitions, and the file under its number.
fn holds_file(read: &Document, source: &Shared<SourceFile>) -> bool {
    match read.sources.get(&FILE) {
        Some(file) => { read.sources.len() == 1 && *file == *source && read.definitions.len() == 1 }
        None => false,
    }
}

/// Whether the document of a file holds it.
fn file_is_held(alloc: Global) -> Result<bool, ParseError> {
    let source = Shared::new(alloc, SourceFile::new(alloc, "a.graphql", "{a}")?)?;
    let read = parse_document(alloc, FILE, &source, ParseOptions::new())?;
    Ok(holds_file(&read, &source))
}

const OPERATION: &str = " query Q($x:[Int!]!=[1,2]@d){f(a:$x,b:\"é\")...F @i}";

const SCALAR: &str = "\"\"\"\n    one\n      two\n    \"\"\" scalar S";

static DEFINITIONS: [(&str, &str); 15] = [
    (
        OPERATION,
        "[OperationDefinition(OperationDefinition { operation_type: Query, name: Some(\"Q\"), variables: [VariableDefinition { name: \"x\", ty: NonNullList(NonNullNamed(\"Int\")), default_value: Some(List([Int(\"1\"), Int(\"2\")])), directives: DirectiveList([Directive { name: \"d\", arguments: [] }]) }], directives: DirectiveList([]), selection_set: [Field(Field { alias: None, name: \"f\", arguments: [Argument { name: \"a\", value: Variable(\"x\") }, Argument { name: \"b\", value: String(\"é\") }], directives: DirectiveList([]), selection_set: [] }), FragmentSpread(FragmentSpread { fragment_name: \"F\", directives: DirectiveList([Directive { name: \"i\", arguments: [] }]) })] })]",
    ),
    (
        "{b:a(x:{})@d(y:[]){...on T{c}...@i{on}}}",
        "[OperationDefinition(OperationDefinition { operation_type: Query, name: None, variables: [], directives: DirectiveList([]), selection_set: [Field(Field { alias: Some(\"b\"), name: \"a\", arguments: [Argument { name: \"x\", value: Object([]) }], directives: DirectiveList([Directive { name: \"d\", arguments: [Argument { name: \"y\", value: List([]) }] }]), selection_set: [InlineFragment(InlineFragment { type_condition: Some(\"T\"), directives: DirectiveList([]), selection_set: [Field(Field { alias: None, name: \"c\", arguments: [], directives: DirectiveList([]), selection_set: [] })] }), InlineFragment(InlineFragment { type_condition: None, directives: DirectiveList([Directive { name: \"i\", arguments: [] }]), selection_set: [Field(Field { alias: None, name: \"on\", arguments: [], directives: DirectiveList([]), selection_set: [] })] })] })] })]",
    ),
    (
        "mutation@d{a}fragment F on T@d{...G}",
        "[OperationDefinition(OperationDefinition { operation_type: Mutation, name: None, variables: [], directives: DirectiveList([Directive { name: \"d\", arguments: [] }]), selection_set: [Field(Field { alias: None, name: \"a\", arguments: [], directives: DirectiveList([]), selection_set: [] })] }), FragmentDefinition(FragmentDefinition { name: \"F\", type_condition: \"T\", directives: DirectiveList([Directive { name: \"d\", arguments: [] }]), selection_set: [FragmentSpread(FragmentSpread { fragment_name: \"G\", directives: DirectiveList([]) })] })]",
    ),
    (
        "\"d\"schema@d{query:Q subscription:S}extend schema{mutation:M}",
        "[SchemaDefinition(SchemaDefinition { description: Some(\"d\"), directives: DirectiveList([Directive { name: \"d\", arguments: [] }]), root_operations: [(Query, \"Q\"), (Subscription, \"S\")] }), SchemaExtension(SchemaExtension { directives: DirectiveList([]), root_operations: [(Mutation, \"M\")] })]",
    ),
    (
        "\"\"\"d\"\"\"scalar S extend scalar S@d",
        "[ScalarTypeDefinition(ScalarTypeDefinition { description: Some(\"d\"), name: \"S\", directives: DirectiveList([]) }), ScalarTypeExtension(ScalarTypeExtension { name: \"S\", directives: DirectiveList([Directive { name: \"d\", arguments: [] }]) })]",
    ),
    (
        "type T implements &A&B{f:Int}",
        "[ObjectTypeDefinition(ObjectTypeDefinition { description: None, name: \"T\", implements_interfaces: [\"A\", \"B\"], directives: DirectiveList([]), fields: [FieldDefinition { description: None, name: \"f\", arguments: [], ty: Named(\"Int\"), directives: DirectiveList([]) }] })]",
    ),
    (
        "\"t\"type T@d{\"f\"f(\"a\"a:[A!]=B@e):Int!@g}",
        "[ObjectTypeDefinition(ObjectTypeDefinition { description: Some(\"t\"), name: \"T\", implements_interfaces: [], directives: DirectiveList([Directive { name: \"d\", arguments: [] }]), fields: [FieldDefinition { description: Some(\"f\"), name: \"f\", arguments: [InputValueDefinition { description: Some(\"a\"), name: \"a\", ty: List(NonNullNamed(\"A\")), default_value: Some(Enum(\"B\")), directives: DirectiveList([Directive { name: \"e\", arguments: [] }]) }], ty: NonNullNamed(\"Int\"), directives: DirectiveList([Directive { name: \"g\", arguments: [] }]) }] })]",
    ),
    (
        "extend type T implements A&B",
        "[ObjectTypeExtension(ObjectTypeExtension { name: \"T\", implements_interfaces: [\"A\", \"B\"], directives: DirectiveList([]), fields: [] })]",
    ),
    (
        "interface I implements A@d extend interface I{f:I}",
        "[InterfaceTypeDefinition(InterfaceTypeDefinition { description: None, name: \"I\", implements_interfaces: [\"A\"], directives: DirectiveList([Directive { name: \"d\", arguments: [] }]), fields: [] }), InterfaceTypeExtension(InterfaceTypeExtension { name: \"I\", implements_interfaces: [], directives: DirectiveList([]), fields: [FieldDefinition { description: None, name: \"f\", arguments: [], ty: Named(\"I\"), directives: DirectiveList([]) }] })]",
    ),
    (
        "union U=|A|B",
        "[UnionTypeDefinition(UnionTypeDefinition { description: None, name: \"U\", directives: DirectiveList([]), members: [\"A\", \"B\"] })]",
    ),
    (
        "extend union U@d=A",
        "[UnionTypeExtension(UnionTypeExtension { name: \"U\", directives: DirectiveList([Directive { name: \"d\", arguments: [] }]), members: [\"A\"] })]",
    ),
    (
        "enum E@d{\"a\"A@e B}extend enum E{C}",
        "[EnumTypeDefinition(EnumTypeDefinition { description: None, name: \"E\", directives: DirectiveList([Directive { name: \"d\", arguments: [] }]), values: [EnumValueDefinition { description: Some(\"a\"), value: \"A\", directives: DirectiveList([Directive { name: \"e\", arguments: [] }]) }, EnumValueDefinition { description: None, value: \"B\", directives: DirectiveList([]) }] }), EnumTypeExtension(EnumTypeExtension { name: \"E\", directives: DirectiveList([]), values: [EnumValueDefinition { description: None, value: \"C\", directives: DirectiveList([]) }] })]",
    ),
    (
        "\"i\"input I{a:[[Int]!]=null}extend input I@d",
        "[InputObjectTypeDefinition(InputObjectTypeDefinition { description: Some(\"i\"), name: \"I\", directives: DirectiveList([]), fields: [InputValueDefinition { description: None, name: \"a\", ty: List(NonNullList(Named(\"Int\"))), default_value: Some(Null), directives: DirectiveList([]) }] }), InputObjectTypeExtension(InputObjectTypeExtension { name: \"I\", directives: DirectiveList([Directive { name: \"d\", arguments: [] }]), fields: [] })]",
    ),
    (
        "directive@d on|FIELD|SCHEMA",
        "[DirectiveDefinition(DirectiveDefinition { description: None, name: \"d\", arguments: [], repeatable: false, locations: [Field, Schema] })]",
    ),
    (
        "\"d\"directive@repeatable(a:Int=1)repeatable on INPUT_OBJECT",
        "[DirectiveDefinition(DirectiveDefinition { description: Some(\"d\"), name: \"repeatable\", arguments: [InputValueDefinition { description: None, name: \"a\", ty: Named(\"Int\"), default_value: Some(Int(\"1\")), directives: DirectiveList([]) }], repeatable: true, locations: [InputObject] })]",
    ),
];

const ORGANIZATION: &str =
    "[Field(Field { alias: None, name: \"id\", arguments: [], directives: DirectiveList([]), selection_set: [] }), Field(Field { alias: None, name: \"organization\", arguments: [], directives: DirectiveList([]), selection_set: [Field(Field { alias: None, name: \"id\", arguments: [], directives: DirectiveList([]), selection_set: [] })] })]";

static SELECTIONS: [(&str, &str); 4] = [
    ("{ id organization { id } }", ORGANIZATION),
    ("id organization { id }", ORGANIZATION),
    (
        "a(b:$c)",
        "[Field(Field { alias: None, name: \"a\", arguments: [Argument { name: \"b\", value: Variable(\"c\") }], directives: DirectiveList([]), selection_set: [] })]",
    ),
    (
        "...F",
        "[FragmentSpread(FragmentSpread { fragment_name: \"F\", directives: DirectiveList([]) })]",
    ),
];

static TYPES: [(&str, &str); 6] = [
    ("T", "Named(\"T\")"),
    ("T!", "NonNullNamed(\"T\")"),
    ("[T]", "List(Named(\"T\"))"),
    ("[T!]", "List(NonNullNamed(\"T\"))"),
    ("[T]!", "NonNullList(Named(\"T\"))"),
    (" [ [ T ] ! ] # !", "List(NonNullList(Named(\"T\")))"),
];

static VALUES: [(&str, &str); 12] = [
    ("-12", "Int(\"-12\")"),
    ("1.50e3", "Float(\"1.50e3\")"),
    (
        "\"\\u{1f600}\\ud83d\\ude00\"",
        "String(\"\u{1f600}\u{1f600}\")",
    ),
    ("\"\"\"\n  a\n    b\n\"\"\"", "String(\"a\\n  b\")"),
    ("true", "Boolean(true)"),
    ("false", "Boolean(false)"),
    ("null", "Null"),
    ("on", "Enum(\"on\")"),
    ("[]", "List([])"),
    ("[1 [A]]", "List([Int(\"1\"), List([Enum(\"A\")])])"),
    ("{}", "Object([])"),
    (
        "{a:1,b:{a:[]},a:2}",
        "Object([(\"a\", Int(\"1\")), (\"b\", Object([(\"a\", List([]))])), (\"a\", Int(\"2\"))])",
    ),
];

#[test]
fn texts_are_read_as_what_they_hold(rt: HostRuntime) {
    for (whole, rows) in [
        (Whole::Definitions, DEFINITIONS.as_slice()),
        (Whole::Selections, SELECTIONS.as_slice()),
        (Whole::Type, TYPES.as_slice()),
        (Whole::Value, VALUES.as_slice()),
    ] {
        assert!(rt; are_told(rt.alloc(), whole, ParseOptions::new(), rows) == Ok(true));
    }
}

#[test]
fn parts_stand_where_they_are_spelled(rt: HostRuntime) {
    assert!(rt; operation_stands(definitions(rt.alloc(), OPERATION).as_slice()));
    assert!(rt; description_stands(definitions(rt.alloc(), SCALAR).as_slice()));
}

#[test]
fn a_document_holds_its_file(rt: HostRuntime) {
    assert!(rt; file_is_held(rt.alloc()) == Ok(true));
}
