//! The words with which headers begin, and the words of kinds.
ghost use Rattle.std.specs.Prelude.{◌≡◌, ◌≢◌, MatchOption};
ghost use Rattle.graphql_nodes.specs.OperationTexts.{operation_text};
ghost use Rattle.bench_notation.specs.HeaderWords.{is_extension, role_of, role_word, schema_word, kind_word};

use graphql_nodes::operation_type::OperationType;
use graphql_nodes::type_kind::TypeKind;

/// Whether a header begins a definition or an extension.
#[derive(Debug, Clone, Copy)]
pub enum Role {
    Definition,
    Extension,
}

impl Role {
    /// That of an extension where this is set, and else that of a definition.
    pub fn of(is_extension: bool) -> Role
        ensures { result ≡ role_of is_extension }
    {
        if is_extension {
            Role::Extension
        } else {
            Role::Definition
        }
    }

    /// Whether it is an extension.
    pub fn is_extension(self) -> bool
        ensures { result ≡ is_extension self }
    {
        matches!(self, Role::Extension)
    }

    /// The first word of a type's header.
    pub fn word(self) -> &'static str
        ensures { result.now ≡ role_word self }
    {
        match self {
            Role::Definition => "def",
            Role::Extension => "ext",
        }
    }

    /// The only word of the schema's header.
    pub fn schema_word(self) -> &'static str
        ensures { result.now ≡ schema_word self }
    {
        match self {
            Role::Definition => "schema",
            Role::Extension => "ext-schema",
        }
    }
}

/// The word of a kind, as `input`.
pub fn kind_word(kind: TypeKind) -> &'static str
    ensures { result.now ≡ kind_word kind }
{
    match kind {
        TypeKind::Scalar => "scalar",
        TypeKind::Object => "object",
        TypeKind::Interface => "interface",
        TypeKind::Union => "union",
        TypeKind::Enum => "enum",
        TypeKind::InputObject => "input",
    }
}

/// The kind of this word, and none for any other word.
pub fn kind_of_word(word: &str) -> Option<TypeKind>
    ensures { MatchOption result ((kind : TypeKind) → kind_word kind ≢ word.now) (λ kind. kind_word kind
        ≡ word.now) }
{
    match word {
        "scalar" => Some(TypeKind::Scalar),
        "object" => Some(TypeKind::Object),
        "interface" => Some(TypeKind::Interface),
        "union" => Some(TypeKind::Union),
        "enum" => Some(TypeKind::Enum),
        "input" => Some(TypeKind::InputObject),
        _ => None,
    }
}

/// The kind of operation of this word, and none for any other word.
pub fn operation_of_word(word: &str) -> Option<OperationType>
    ensures { MatchOption result ((operation : OperationType)
        → operation_text operation ≢ word.now) (λ operation. operation_text operation ≡ word.now) }
{
    match word {
        "query" => Some(OperationType::Query),
        "mutation" => Some(OperationType::Mutation),
        "subscription" => Some(OperationType::Subscription),
        _ => None,
    }
}
