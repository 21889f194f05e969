//! The six kinds of type: GraphQL specification of October 2021, section 3.4.
ghost use Rattle.std.specs.Prelude.{◌≡◌};
ghost use Rattle.graphql_nodes.specs.KindTexts.{kind_text, kind_definition_text, kind_extension_text};

/// What messages call this kind of types, and then this text.
macro_rules! kind_words {
    ($kind:expr $(, $more:literal)?) => {
        match $kind {
            TypeKind::Scalar => concat!("a scalar type" $(, $more)?),
            TypeKind::Object => concat!("an object type" $(, $more)?),
            TypeKind::Interface => concat!("an interface type" $(, $more)?),
            TypeKind::Union => concat!("a union type" $(, $more)?),
            TypeKind::Enum => concat!("an enum type" $(, $more)?),
            TypeKind::InputObject => concat!("an input object type" $(, $more)?),
        }
    };
}

/// The kind of a type.
#[derive(Clone, Copy, Debug, PartialEq, Eq, Hash)]
pub enum TypeKind {
    Scalar,
    Object,
    Interface,
    Union,
    Enum,
    InputObject,
}

impl TypeKind {
    /// What a message calls a type of this kind, as `an object type`.
    pub fn describe(self) -> &'static str
        ensures { result.now ≡ kind_text self }
    {
        kind_words!(self)
    }

    /// What a message calls a definition of a type of this kind, as `an object type definition`.
    pub fn describe_definition(self) -> &'static str
        ensures { result.now ≡ kind_definition_text self }
    {
        kind_words!(self, " definition")
    }

    /// What a message calls an extension of a type of this kind, as `an object type extension`.
    pub fn describe_extension(self) -> &'static str
        ensures { result.now ≡ kind_extension_text self }
    {
        kind_words!(self, " extension")
    }
}
