//! The scenarios: one for each call, or for calls of one sort, that can run out of memory.

use crate::builders::{self, OfBuilder};
use crate::containers::{Changed, tell_changes};
use crate::coordinates::{self, Form};
use crate::documents::{self, OfBuilt, OfDocuments};
use crate::inputs::{DOCUMENTS, Input, NONE, SCHEMAS, SERVED, SPENT};
use crate::schemas::{self, OfSchema, OfType};
use crate::sets::OfSet;
use crate::stop::{Told, tell_made};
use crate::{compiling, making, texts};
use apollo_schema::schema::Schema;
use std::alloc::Global;

/// What a scenario asks, and of what.
#[derive(Clone, Copy)]
pub enum Scenario {
    /// `Name::new`.
    Names,
    /// `Node::same_location` and `ExtensionId::same_location`.
    SameLocation,
    /// `MetaFields::new`.
    MetaFields,
    /// `Schema::new`.
    NewSchema,
    /// `SchemaBuilder::new`.
    NewBuilder,
    /// Calls that change values.
    Changes(Changed),
    /// Calls of the builder of schemas.
    Builder(OfBuilder),
    /// Builders over sources that are spent.
    SpentSources,
    /// Calls on schemas.
    Schemas(OfSchema),
    /// Calls on executable documents.
    Documents(OfDocuments),
    /// Calls on typed documents.
    Built(OfBuilt),
    /// Calls on the sets of typed documents.
    Sets(OfSet),
    /// The calls that make selections without a schema.
    Selections,
    /// The calls that make selections of a set's type.
    InSet,
    /// `OperationMap::from_one`.
    FromOne,
    /// Coordinates that are read.
    Coordinates(Form),
    /// Coordinates that others stand in.
    CutCoordinates,
    /// GraphQL text that is read.
    Texts(texts::Form),
    /// Documents that are printed as GraphQL text.
    Printed,
    /// `compile`, of documents of the type system.
    CompileSchemas,
    /// `compile`, of documents of both sorts.
    CompileBoth,
}

/// All scenarios, with their names.
pub static SCENARIOS: [(&str, Scenario); 61] = [
    ("name-new", Scenario::Names),
    ("same-location", Scenario::SameLocation),
    ("meta-fields", Scenario::MetaFields),
    ("make-mut", Scenario::Changes(Changed::Node)),
    ("items-push", Scenario::Changes(Changed::Items)),
    ("set-insert", Scenario::Changes(Changed::Set)),
    ("table-insert", Scenario::Changes(Changed::Table)),
    ("append", Scenario::Changes(Changed::Appended)),
    ("builder-new", Scenario::NewBuilder),
    ("schema-new", Scenario::NewSchema),
    ("add-ast", Scenario::Builder(OfBuilder::AddAst)),
    ("build", Scenario::Builder(OfBuilder::Build)),
    (
        "build-with-source",
        Scenario::Builder(OfBuilder::WithSource),
    ),
    ("builder-clone", Scenario::Builder(OfBuilder::Copied)),
    ("spent-sources", Scenario::SpentSources),
    ("schema-to-ast", Scenario::Schemas(OfSchema::Written)),
    (
        "definition-to-ast",
        Scenario::Schemas(OfSchema::DefinitionWritten),
    ),
    (
        "definition-extensions",
        Scenario::Schemas(OfSchema::DefinitionExtended),
    ),
    (
        "type-to-ast",
        Scenario::Schemas(OfSchema::Types(OfType::Written)),
    ),
    (
        "type-extensions",
        Scenario::Schemas(OfSchema::Types(OfType::Extended)),
    ),
    (
        "kind-to-ast",
        Scenario::Schemas(OfSchema::Types(OfType::KindWritten)),
    ),
    (
        "type-write-to",
        Scenario::Schemas(OfSchema::Types(OfType::WrittenTogether)),
    ),
    (
        "kind-extensions",
        Scenario::Schemas(OfSchema::Types(OfType::KindExtended)),
    ),
    (
        "implementers-map",
        Scenario::Schemas(OfSchema::Implementers),
    ),
    ("add-ast-document", Scenario::Documents(OfDocuments::Build)),
    (
        "field-set-from-ast",
        Scenario::Documents(OfDocuments::FieldSets),
    ),
    ("document-to-ast", Scenario::Built(OfBuilt::Written)),
    (
        "operation-to-ast",
        Scenario::Built(OfBuilt::OperationsWritten),
    ),
    (
        "fragment-to-ast",
        Scenario::Built(OfBuilt::FragmentsWritten),
    ),
    ("set-to-ast", Scenario::Sets(OfSet::Written)),
    ("selection-to-ast", Scenario::Sets(OfSet::SelectionsWritten)),
    ("document-clone", Scenario::Built(OfBuilt::Copied)),
    ("root-fields", Scenario::Sets(OfSet::RootFields)),
    ("all-fields", Scenario::Sets(OfSet::AllFields)),
    ("collect-root", Scenario::Sets(OfSet::CollectRoot)),
    ("collect-all", Scenario::Sets(OfSet::CollectAll)),
    ("is-introspection", Scenario::Built(OfBuilt::Introspection)),
    ("make-selections", Scenario::Selections),
    ("make-in-set", Scenario::InSet),
    ("push-selection", Scenario::Changes(Changed::Selections)),
    ("extend-selections", Scenario::Changes(Changed::Extended)),
    ("push-component", Scenario::Changes(Changed::Components)),
    ("push-directive", Scenario::Changes(Changed::Directives)),
    ("insert-operation", Scenario::Changes(Changed::Operations)),
    ("from-one", Scenario::FromOne),
    ("get-mut", Scenario::Changes(Changed::Requested)),
    ("type-from-str", Scenario::Coordinates(Form::Type)),
    ("attribute-from-str", Scenario::Coordinates(Form::Attribute)),
    (
        "field-argument-from-str",
        Scenario::Coordinates(Form::FieldArgument),
    ),
    ("directive-from-str", Scenario::Coordinates(Form::Directive)),
    (
        "directive-argument-from-str",
        Scenario::Coordinates(Form::DirectiveArgument),
    ),
    ("any-from-str", Scenario::Coordinates(Form::Any)),
    ("cut-coordinates", Scenario::CutCoordinates),
    ("parse-document", Scenario::Texts(texts::Form::Document)),
    ("parse-selections", Scenario::Texts(texts::Form::Selections)),
    ("parse-type", Scenario::Texts(texts::Form::Type)),
    ("parse-value", Scenario::Texts(texts::Form::Value)),
    ("document-text", Scenario::Printed),
    ("compile-schemas", Scenario::CompileSchemas),
    ("compile-both", Scenario::CompileBoth),
    ("leaf-faults", Scenario::Built(OfBuilt::Leaves)),
];

impl Scenario {
    /// What the scenario goes over.
    fn inputs(self) -> &'static [Input] {
        match self {
            Scenario::Builder(_) | Scenario::Schemas(_) | Scenario::CompileSchemas => &SCHEMAS,
            Scenario::SpentSources => &SPENT,
            Scenario::InSet => &SERVED,
            Scenario::Documents(_)
            | Scenario::Built(_)
            | Scenario::Sets(_)
            | Scenario::CompileBoth => &DOCUMENTS,
            _ => &NONE,
        }
    }

    /// Makes the scenario's calls over an input.
    fn ask(self, alloc: Global, text: &mut String, input: Input) -> Told {
        match self {
            Scenario::Names => making::names(alloc, text),
            Scenario::SameLocation => making::same_location(alloc, text),
            Scenario::MetaFields => making::meta_fields(alloc, text),
            Scenario::NewSchema => tell_made(text, Schema::new(alloc)),
            Scenario::NewBuilder => builders::new(alloc, text),
            Scenario::Changes(changed) => tell_changes(alloc, text, changed),
            Scenario::Builder(question) => builders::ask(alloc, text, input, question),
            Scenario::SpentSources => builders::ask(alloc, text, input, OfBuilder::WithSource),
            Scenario::Schemas(question) => schemas::ask(alloc, text, input, question),
            Scenario::Documents(question) => documents::ask(alloc, text, input, question),
            Scenario::Built(question) => {
                documents::ask(alloc, text, input, OfDocuments::Built(question))
            }
            Scenario::Sets(question) => {
                let question = OfDocuments::Built(OfBuilt::Sets(question));
                documents::ask(alloc, text, input, question)
            }
            Scenario::Selections => making::selections_made(alloc, text),
            Scenario::InSet => schemas::ask(alloc, text, input, OfSchema::InSet),
            Scenario::FromOne => making::from_one(alloc, text),
            Scenario::Coordinates(form) => coordinates::read_all(alloc, text, form),
            Scenario::CutCoordinates => coordinates::cut(alloc, text),
            Scenario::Texts(form) => texts::read_all(alloc, text, form),
            Scenario::Printed => texts::print_all(alloc, text),
            Scenario::CompileSchemas => compiling::tell_schemas(alloc, text, input),
            Scenario::CompileBoth => compiling::tell_documents(alloc, text, input),
        }
    }

    /// Makes the scenario's calls, and tells their answers in full. `Memory` comes where a request was
    /// refused and all stands that is promised then, and `Wrong` where something else comes than what is
    /// promised.
    pub fn tell(self, alloc: Global, text: &mut String) -> Told {
        for input in self.inputs() {
            self.ask(alloc, text, *input)?;
        }
        Ok(())
    }
}
