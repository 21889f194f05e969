//! Reading definitions and extensions of the type system, behind their descriptions and behind `extend`:
//! GraphQL specification of October 2021, sections 3.3 to 3.13.
ghost use Rattle.std.specs.Prelude.{◌≡◌, true, IfOk};
ghost use Rattle.graphql_grammar.specs.Pieces.{mapped, seq};
ghost use Rattle.graphql_productions.specs.Directives.{directives};
ghost use Rattle.graphql_grammar.specs.Standing.{standing};
ghost use Rattle.graphql_productions.specs.TypeSystem.{described, directive_body, extended, extension_body};
ghost use Rattle.graphql_productions.specs.TypeSystem.{no_described, optional_roots, schema_body};
ghost use Rattle.graphql_productions.specs.TypeSystem.{schema_extension_body, schema_parts, type_body};
ghost use Rattle.graphql_text.specs.Seen.{seen_body, seen_declared, seen_extension};
ghost use Rattle.graphql_text.specs.Reads.{Reads, ReadsSeen};

use crate::reading::directives::directives;
use crate::reading::kinds::{directed, has_part, keyword, parts};
use crate::reading::parts::{input_values, roots};
use crate::reading::separated::{optional_sign, separated};
use crate::reading::target::{Reading, Target, sign};
use graphql_ast::declaration::{SchemaDeclaration, TypeDeclaration};
use graphql_ast::definition::Definition;
use graphql_ast::parts::Parts;
use graphql_ast::type_system::{DirectiveDefinition, InputValueDefinition};
use graphql_grammar::fault::{FaultKind, Item, ReadError};
use graphql_grammar::kind::Kind;
use graphql_grammar::words::Words;
use graphql_nodes::collections::items::Items;
use graphql_nodes::directive_location::DirectiveLocation;
use graphql_nodes::name::{Name, NamedType};
use graphql_nodes::node::Node;
use graphql_nodes::node_str::NodeStr;
use graphql_nodes::operation_type::OperationType;
use graphql_nodes::source::SourceSpan;
use graphql_nodes::type_kind::TypeKind;
use std::alloc::{AllocError, Global};

/// What is read of the schema or of a type, by the word that says which, and else what these arms say.
macro_rules! by_first_word {
    ($target:expr, $words:expr, $schema:ident, $of_type:ident, { $($other:tt)* }) => {
        match $words.next_kind() {
            Some(Kind::Schema) => $schema($target, $words),
            Some(Kind::Scalar) => $of_type($target, $words, TypeKind::Scalar),
            Some(Kind::Type) => $of_type($target, $words, TypeKind::Object),
            Some(Kind::Interface) => $of_type($target, $words, TypeKind::Interface),
            Some(Kind::Union) => $of_type($target, $words, TypeKind::Union),
            Some(Kind::Enum) => $of_type($target, $words, TypeKind::Enum),
            Some(Kind::Input) => $of_type($target, $words, TypeKind::InputObject),
            $($other)*
        }
    };
}

/// What a definition or an extension declares, but its description and its location: the schema or a type.
#[derive(Drop)]
pub(crate) enum Declared {
    Schema(Parts),
    Type(TypeKind, Name, Parts),
}

impl Declared {
    /// The definition with this description, at this location, or the extension there.
    pub(crate) fn into_definition(
        self,
        alloc: Global,
        is_extension: bool,
        description: Option<NodeStr>,
        location: Option<SourceSpan>,
    ) -> Result<Definition, AllocError>
        ensures { IfOk result (λ made. made ≡ seen_declared self is_extension description location) }
    {
        match self {
            Declared::Schema(parts) => {
                let declaration = SchemaDeclaration {
                    is_extension,
                    description,
                    location,
                    parts,
                };
                declaration.into_definition(alloc)
            }
            Declared::Type(kind, name, parts) => {
                let declaration = TypeDeclaration {
                    kind,
                    name,
                    is_extension,
                    description,
                    location,
                    parts,
                };
                declaration.into_definition(alloc)
            }
        }
    }
}

/// A definition of the type system, but its description and its location.
#[derive(Drop)]
pub(crate) enum Body {
    Declared(Declared),
    Directive(Name, Items<Node<InputValueDefinition>>, bool, Items<DirectiveLocation>),
}

impl Body {
    /// The definition with this description, at this location.
    pub(crate) fn into_definition(
        self,
        alloc: Global,
        description: Option<NodeStr>,
        location: Option<SourceSpan>,
    ) -> Result<Definition, AllocError>
        ensures { IfOk result (λ made. made ≡ seen_body self description location) }
    {
        match self {
            Body::Declared(declared) => {
                declared.into_definition(alloc, false, description, location)
            }
            Body::Directive(name, arguments, repeatable, locations) => {
                let definition = DirectiveDefinition {
                    description,
                    name,
                    arguments,
                    repeatable,
                    locations,
                };
                Ok(Definition::DirectiveDefinition(Node::new_opt_location(
                    alloc, definition, location,
                )?))
            }
        }
    }
}

#[tactic(auto, unfolding(graphql_productions::specs::TypeSystem::type_body))]
fn type_body(target: Target, words: &mut Words<'_>, kind: TypeKind) -> Reading<Body>
    ensures { ReadsSeen seen_body (type_body target.file kind target.depth) words.old words.new result }
{
    sign(words, keyword(kind))?;
    let name = target.name(words)?;
    let parts = parts(target, words, kind)?;
    Ok(Body::Declared(Declared::Type(kind, name, parts)))
}

#[tactic(auto, unfolding(graphql_productions::specs::TypeSystem::schema_body))]
fn schema_body(target: Target, words: &mut Words<'_>) -> Reading<Body>
    ensures { ReadsSeen seen_body (schema_body target.file target.depth) words.old words.new result }
{
    sign(words, Kind::Schema)?;
    let directives = directives(target.constant(), words)?;
    let mut parts = directed(target.alloc, directives);
    parts.roots = roots(target, words)?;
    Ok(Body::Declared(Declared::Schema(parts)))
}

#[tactic(auto, unfolding(graphql_productions::specs::TypeSystem::directive_body))]
fn directive_body(target: Target, words: &mut Words<'_>) -> Reading<Body>
    ensures { ReadsSeen seen_body (directive_body target.file target.depth) words.old words.new result }
{
    sign(words, Kind::Directive)?;
    sign(words, Kind::At)?;
    let name = target.name(words)?;
    let arguments = input_values(target, words, Kind::LeftParen, Kind::RightParen)?;
    let repeatable = optional_sign(words, Kind::Repeatable)?;
    sign(words, Kind::On)?;
    let locations = separated(target, words, Kind::Pipe)?;
    Ok(Body::Directive(name, arguments, repeatable, locations))
}

/// What is wrong where no definition follows a description.
fn no_described(words: &Words<'_>) -> FaultKind
    ensures { result ≡ no_described (standing words.now).left }
{
    match words.next_kind() {
        Some(
            Kind::LeftBrace
            | Kind::Query
            | Kind::Mutation
            | Kind::Subscription
            | Kind::Fragment
            | Kind::Extend,
        ) => FaultKind::DescriptionNotAllowed,
        _ => FaultKind::Expected(Item::Definition),
    }
}

/// Reads a definition of the type system behind its description.
pub(crate) fn described(target: Target, words: &mut Words<'_>) -> Reading<Body>
    ensures { ReadsSeen seen_body (described target.file target.depth) words.old words.new result }
{
    by_first_word!(target, words, schema_body, type_body, {
        Some(Kind::Directive) => directive_body(target, words),
        _ => Err(ReadError::Fault(no_described(words))),
    })
}

#[tactic(auto, unfolding(graphql_productions::specs::TypeSystem::extension_body))]
fn extension_body(target: Target, words: &mut Words<'_>, kind: TypeKind) -> Reading<Declared>
    ensures { ReadsSeen seen_extension (extension_body target.file kind target.depth)
        words.old words.new result }
{
    sign(words, keyword(kind))?;
    let name = target.name(words)?;
    let parts = parts(target, words, kind)?;
    if !has_part(&parts) {
        return Err(ReadError::Fault(FaultKind::Expected(Item::ExtensionPart)));
    }
    Ok(Declared::Type(kind, name, parts))
}

fn optional_roots(
    target: Target,
    words: &mut Words<'_>,
) -> Reading<Items<Node<(OperationType, NamedType)>>>
    ensures { Reads (optional_roots target.file target.depth) words.old words.new result }
{
    optional_list!(target, words.next_is(Kind::LeftBrace), roots(target, words))
}

fn schema_parts(target: Target, words: &mut Words<'_>) -> Reading<Parts>
    ensures { Reads (mapped schema_parts
        (seq (directives target.file true target.depth) (optional_roots target.file target.depth)))
        words.old words.new result }
{
    let directives = directives(target.constant(), words)?;
    let mut parts = directed(target.alloc, directives);
    parts.roots = optional_roots(target, words)?;
    Ok(parts)
}

#[tactic(auto, unfolding(graphql_productions::specs::TypeSystem::schema_extension_body))]
fn schema_extension_body(target: Target, words: &mut Words<'_>) -> Reading<Declared>
    ensures { ReadsSeen seen_extension (schema_extension_body target.file target.depth)
        words.old words.new result }
{
    sign(words, Kind::Schema)?;
    let parts = schema_parts(target, words)?;
    if !has_part(&parts) {
        return Err(ReadError::Fault(FaultKind::Expected(Item::ExtensionPart)));
    }
    Ok(Declared::Schema(parts))
}

/// Reads an extension behind `extend`.
pub(crate) fn extended(target: Target, words: &mut Words<'_>) -> Reading<Declared>
    ensures { ReadsSeen seen_extension (extended target.file target.depth) words.old words.new result }
{
    by_first_word!(target, words, schema_extension_body, extension_body, {
        _ => Err(ReadError::Fault(FaultKind::Expected(Item::Extended))),
    })
}
