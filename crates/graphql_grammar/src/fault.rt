//! Why words spell nothing.
ghost use Rattle.std.specs.Prelude.{◌≡◌};
ghost use Rattle.graphql_grammar.specs.declared.fault.ReadError.TheVariants.{Memory};

use crate::kind::Kind;
use std::alloc::AllocError;

/// What alone may stand at a place, or, where more than one thing may, the item that is being read there.
#[derive(Clone, Copy, Debug, PartialEq, Eq)]
pub enum Item {
    Definition,
    /// What an extension extends by: directives, or what the definition of its kind holds.
    ExtensionPart,
    /// What a document extends: the schema, or a type by its kind.
    Extended,
    FieldDefinition,
    /// An argument of a field or directive, or a field of an input object type.
    InputValue,
    EnumValue,
    VariableDefinition,
    RootOperation,
    DirectiveLocation,
    Selection,
    Argument,
    Value,
    ObjectField,
    Type,
    Name,
    End,
    /// This word.
    Word(Kind),
}

/// What is wrong with a word at its place.
#[derive(Clone, Copy, Debug, PartialEq, Eq)]
pub enum FaultKind {
    /// Something else was expected.
    Expected(Item),
    /// The name means something else here.
    ReservedName,
    /// A variable in a constant value.
    VariableInConstant,
    /// A name that is no directive location.
    UnknownDirectiveLocation,
    /// A definition that has no description stands behind one.
    DescriptionNotAllowed,
    /// The sign nests deeper than is allowed.
    TooDeep,
}

/// Why nothing was read.
#[derive(Clone, Copy, Debug, PartialEq, Eq)]
pub enum ReadError {
    /// Memory ran out, which says nothing of the words.
    Memory,
    /// What is wrong with the word that comes next.
    Fault(FaultKind),
}

impl From<AllocError> for ReadError {
    ghost from_gives = { λ _ error. error ≡ Memory };

    /// `Memory`.
    fn from(_: AllocError) -> ReadError {
        ReadError::Memory
    }
}
