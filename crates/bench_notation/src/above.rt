//! What stands above a line, by which it may stand there or not.
ghost use Rattle.std.specs.Prelude.{◌≡◌};
ghost use Rattle.bench_notation.specs.Places.{kind_above, takes_directives, is_object_or_interface};
ghost use Rattle.bench_notation.specs.Places.{has_fields, is_field, takes_arguments, is_union, is_enum};
ghost use Rattle.bench_notation.specs.Places.{is_directive, is_schema, levels_above};

use graphql_nodes::type_kind::TypeKind;

/// What stands above a line in its document.
#[derive(Debug, Clone, Copy)]
pub enum Above {
    /// No header.
    Nothing,
    /// The header of a type of this kind, and no field of it.
    Type(TypeKind),
    /// A field of a type of this kind.
    Field(TypeKind),
    /// The header of a directive.
    Directive,
    /// The header of the schema.
    Schema,
    /// The header of an operation or fragment, or a selection of it, where the next one may stand at so many
    /// depths.
    Selections(u16),
}

/// What stands above a line in its document, and whether a line that divides the documents may stand there.
#[derive(Debug, Clone, Copy)]
pub struct Position {
    pub above: Above,
    pub may_divide: bool,
}

impl Above {
    /// The kind of the type whose header is the last one.
    fn kind(self) -> Option<TypeKind>
        ensures { result ≡ kind_above self }
    {
        match self {
            Above::Type(kind) | Above::Field(kind) => Some(kind),
            Above::Nothing | Above::Directive | Above::Schema | Above::Selections(_) => None,
        }
    }

    /// Whether there is a header, and it is not that of a directive.
    pub fn takes_directives(self) -> bool
        ensures { result ≡ takes_directives self }
    {
        match self {
            Above::Type(_) | Above::Field(_) | Above::Schema | Above::Selections(_) => true,
            Above::Nothing | Above::Directive => false,
        }
    }

    /// Whether the last header is that of an object or interface type.
    pub fn is_object_or_interface(self) -> bool
        ensures { result ≡ is_object_or_interface (kind_above self) }
    {
        matches!(self.kind(), Some(TypeKind::Object | TypeKind::Interface))
    }

    /// Whether the last header is that of a type that has fields.
    pub fn has_fields(self) -> bool
        ensures { result ≡ has_fields (kind_above self) }
    {
        self.is_object_or_interface() || self.kind() == Some(TypeKind::InputObject)
    }

    /// Whether there is a field below the last header.
    pub fn is_field(self) -> bool
        ensures { result ≡ is_field self }
    {
        matches!(self, Above::Field(_))
    }

    /// Whether an argument may stand here: below a directive, or below a field that takes arguments.
    pub fn takes_arguments(self) -> bool
        ensures { result ≡ takes_arguments self }
    {
        match self {
            Above::Directive => true,
            Above::Field(_) => self.is_object_or_interface(),
            Above::Nothing | Above::Type(_) | Above::Schema | Above::Selections(_) => false,
        }
    }

    /// Whether the last header is that of a union.
    pub fn is_union(self) -> bool
        ensures { result ≡ is_union (kind_above self) }
    {
        matches!(self.kind(), Some(TypeKind::Union))
    }

    /// Whether the last header is that of an enum.
    pub fn is_enum(self) -> bool
        ensures { result ≡ is_enum (kind_above self) }
    {
        matches!(self.kind(), Some(TypeKind::Enum))
    }

    /// Whether the last header is that of a directive.
    pub fn is_directive(self) -> bool
        ensures { result ≡ is_directive self }
    {
        matches!(self, Above::Directive)
    }

    /// Whether the last header is that of the schema.
    pub fn is_schema(self) -> bool
        ensures { result ≡ is_schema self }
    {
        matches!(self, Above::Schema)
    }

    /// At how many depths a selection may stand here: at none but below an operation or fragment.
    pub fn levels(self) -> u16
        ensures { result ≡ levels_above self }
    {
        match self {
            Above::Selections(levels) => levels,
            Above::Nothing | Above::Type(_) | Above::Field(_) | Above::Directive | Above::Schema =>
                0,
        }
    }
}
