//! Reading what definitions and extensions of the type system hold: GraphQL specification of October 2021,
//! sections 3.3 to 3.10.
ghost use Rattle.std.specs.Prelude.{◌≡◌, true};
ghost use Rattle.graphql_grammar.specs.Pieces.{optional, separated};
ghost use Rattle.graphql_grammar.specs.Standing.{standing};
ghost use Rattle.graphql_grammar.specs.Words.{begins};
ghost use Rattle.graphql_productions.specs.Nodes.{name};
ghost use Rattle.graphql_productions.specs.Operations.{is_operation_type, no_root};
ghost use Rattle.graphql_productions.specs.TypeSystem.{enum_value_name, enum_value_node, enum_values};
ghost use Rattle.graphql_productions.specs.TypeSystem.{expecting, field_node, fielded, fields, input_node};
ghost use Rattle.graphql_productions.specs.TypeSystem.{input_values, is_described_name, is_enum_value};
ghost use Rattle.graphql_productions.specs.TypeSystem.{names_behind, no_enum_value, parts, root_node, roots};
ghost use Rattle.graphql_productions.proofs.TypeSystemLaws.{enum_value_tame, field_definition_tame};
ghost use Rattle.graphql_productions.proofs.TypeSystemLaws.{input_value_tame, root_tame};
ghost use Rattle.graphql_grammar.specs.declared.fault.Item.TheVariants.{FieldDefinition as FieldItem};
ghost use Rattle.graphql_grammar.specs.declared.fault.Item.TheVariants.{InputValue};
ghost use Rattle.graphql_text.specs.Reads.{Reads};

use crate::reading::descriptions::{is_description, optional_description};
use crate::reading::directives::directives;
use crate::reading::lists::{Read, enclosed_items, optional_items};
use crate::reading::operations::{AfterName, operation_type, typed};
use crate::reading::target::{Reading, Target, sign};
use crate::reading::types::type_reference;
use graphql_ast::type_system::{EnumValueDefinition, FieldDefinition, InputValueDefinition};
use graphql_grammar::fault::{FaultKind, Item};
use graphql_grammar::kind::{Kind, Names};
use graphql_grammar::words::Words;
use graphql_nodes::collections::items::Items;
use graphql_nodes::name::{Name, NamedType};
use graphql_nodes::node::Node;
use graphql_nodes::operation_type::OperationType;

/// Whether what has a name behind a description, or without one, begins with words of a kind.
fn is_described_name(kind: Kind) -> bool
    ensures { result ≡ is_described_name kind }
{
    kind.is_name() || is_description(kind)
}

impl Read for Node<InputValueDefinition> {
    ghost piece = { λ file _ depth. input_node file depth };

    ghost first = { is_described_name };

    ghost wrong = { expecting InputValue };

    ghost law = { λ file _ depth. (input_value_tame file depth).law };

    fn begins(kind: Kind) -> bool {
        is_described_name(kind)
    }

    fn fault(_words: &Words<'_>) -> FaultKind {
        FaultKind::Expected(Item::InputValue)
    }

    #[tactic(auto, unfolding(graphql_productions::specs::TypeSystem::input_node))]
    fn read(target: Target, words: &mut Words<'_>) -> Reading<Node<InputValueDefinition>> {
        Ok(node!(target, words; {
            let description = optional_description(target, words)?;
            let name = target.name(words)?;
            let typed = typed(target, words)?;
            InputValueDefinition {
                description,
                name,
                ty: typed.ty,
                default_value: typed.default_value,
                directives: typed.directives,
            }
        }))
    }
}

/// Reads input values between these signs, if there are any.
#[tactic(auto, unfolding(graphql_productions::specs::TypeSystem::input_values))]
pub(crate) fn input_values(
    target: Target,
    words: &mut Words<'_>,
    opening: Kind,
    closing: Kind,
) -> Reading<Items<Node<InputValueDefinition>>>
    ensures { Reads (input_values target.file opening closing target.depth) words.old words.new result }
{
    optional_items(target, words, opening, closing)
}

impl Read for Node<FieldDefinition> {
    ghost piece = { λ file _ depth. field_node file depth };

    ghost first = { is_described_name };

    ghost wrong = { expecting FieldItem };

    ghost law = { λ file _ depth. (field_definition_tame file depth).law };

    fn begins(kind: Kind) -> bool {
        is_described_name(kind)
    }

    fn fault(_words: &Words<'_>) -> FaultKind {
        FaultKind::Expected(Item::FieldDefinition)
    }

    #[tactic(auto, unfolding(graphql_productions::specs::TypeSystem::field_node))]
    fn read(target: Target, words: &mut Words<'_>) -> Reading<Node<FieldDefinition>> {
        Ok(node!(target, words; {
            let description = optional_description(target, words)?;
            let name = target.name(words)?;
            let arguments = input_values(target, words, Kind::LeftParen, Kind::RightParen)?;
            sign(words, Kind::Colon)?;
            let ty = type_reference(target, words)?;
            let directives = directives(target.constant(), words)?;
            FieldDefinition {
                description,
                name,
                arguments,
                ty,
                directives,
            }
        }))
    }
}

#[tactic(auto, unfolding(graphql_productions::specs::TypeSystem::fields))]
pub(crate) fn fields(target: Target, words: &mut Words<'_>) -> Reading<Items<Node<FieldDefinition>>>
    ensures { Reads (fields target.file target.depth) words.old words.new result }
{
    optional_items(target, words, Kind::LeftBrace, Kind::RightBrace)
}

/// What is wrong where no enum value is defined.
fn no_enum_value(words: &Words<'_>) -> FaultKind
    ensures { result ≡ no_enum_value (standing words.now).left }
{
    match words.next_kind() {
        Some(Kind::True | Kind::False | Kind::Null) => FaultKind::ReservedName,
        _ => FaultKind::Expected(Item::EnumValue),
    }
}

/// Reads the name of an enum value that is defined.
#[tactic(auto, unfolding(graphql_productions::specs::TypeSystem::enum_value_name))]
fn enum_value_name(target: Target, words: &mut Words<'_>) -> Reading<Name>
    ensures { Reads (enum_value_name target.file) words.old words.new result }
{
    let fault = no_enum_value(words);
    let word = words.expect_name(Names::EnumValue, fault)?;
    Ok(target.name_of(words, word)?)
}

impl Read for Node<EnumValueDefinition> {
    ghost piece = { λ file _ depth. enum_value_node file depth };

    ghost first = { is_enum_value };

    ghost wrong = { no_enum_value };

    ghost law = { λ file _ depth. (enum_value_tame file depth).law };

    fn begins(kind: Kind) -> bool {
        Names::EnumValue.has(kind) || is_description(kind)
    }

    fn fault(words: &Words<'_>) -> FaultKind {
        no_enum_value(words)
    }

    #[tactic(auto, unfolding(graphql_productions::specs::TypeSystem::enum_value_node))]
    fn read(target: Target, words: &mut Words<'_>) -> Reading<Node<EnumValueDefinition>> {
        Ok(node!(target, words; {
            let description = optional_description(target, words)?;
            let value = enum_value_name(target, words)?;
            let directives = directives(target.constant(), words)?;
            EnumValueDefinition {
                description,
                value,
                directives,
            }
        }))
    }
}

#[tactic(auto, unfolding(graphql_productions::specs::TypeSystem::enum_values))]
pub(crate) fn enum_values(
    target: Target,
    words: &mut Words<'_>,
) -> Reading<Items<Node<EnumValueDefinition>>>
    ensures { Reads (enum_values target.file target.depth) words.old words.new result }
{
    optional_items(target, words, Kind::LeftBrace, Kind::RightBrace)
}

impl Read for Node<(OperationType, NamedType)> {
    ghost piece = { λ file _ _. root_node file };

    ghost first = { is_operation_type };

    ghost wrong = { no_root };

    ghost law = { λ file _ _. (root_tame file).law };

    fn begins(kind: Kind) -> bool {
        kind.is(Kind::Query) || kind.is(Kind::Mutation) || kind.is(Kind::Subscription)
    }

    fn fault(_words: &Words<'_>) -> FaultKind {
        FaultKind::Expected(Item::RootOperation)
    }

    #[tactic(auto, unfolding(graphql_productions::specs::TypeSystem::root_node))]
    fn read(target: Target, words: &mut Words<'_>) -> Reading<Node<(OperationType, NamedType)>> {
        Ok(node!(target, words; {
            let operation_type = operation_type(words)?;
            sign(words, Kind::Colon)?;
            let name = target.name(words)?;
            (operation_type, name)
        }))
    }
}

/// Reads the roots of a schema between braces.
pub(crate) fn roots(
    target: Target,
    words: &mut Words<'_>,
) -> Reading<Items<Node<(OperationType, NamedType)>>>
    ensures { Reads (roots target.file target.depth) words.old words.new result }
{
    enclosed_items(target, words, Kind::LeftBrace, Kind::RightBrace)
}
