//! References to types: GraphQL specification of October 2021, sections 2.11 and 5.8.5.
ghost use Rattle.std.specs.Prelude.{◌≡◌, IfOk, ◌↔◌, IsTrue};

use graphql_nodes::collections::boxed::Boxed;
use graphql_nodes::name::NamedType;
use std::alloc::{AllocError, Global};

/// A reference to a type: a name, or a list of a type, either of which may be non-null.
#[derive(Debug, Drop, PartialEq, Eq, Hash)]
pub enum Type {
    Named(NamedType),
    NonNullNamed(NamedType),
    List(Boxed<Type>),
    NonNullList(Boxed<Type>),
}

impl Type {
    ghost use Rattle.graphql_ast.specs.TypeReferences.{inner_name, is_list, is_named, is_required};
    ghost use Rattle.graphql_ast.specs.TypeReferences.{item_type, made_non_null, made_nullable};
    ghost use Rattle.graphql_ast.specs.TypesCompatible.{are_types_compatible};
    ghost use Rattle.graphql_ast.specs.declared.type_reference.Type.{Named, «List» as ListOf};

    /// The type of this name.
    pub fn named(name: NamedType) -> Type
        ensures { result ≡ Named name }
    {
        Type::Named(name)
    }

    /// The type of lists of this type. The error is out of memory, and drops the type.
    pub fn list(self, alloc: Global) -> Result<Type, AllocError>
        ensures { IfOk result (λ list. list ≡ ListOf self) }
    {
        Ok(Type::List(Boxed::new(alloc, self)?))
    }

    /// The same type without null: its name or outermost list, made non-null. A type that is non-null stays
    /// as it is.
    pub fn non_null(self) -> Type
        ensures { result ≡ made_non_null self }
    {
        match self {
            Type::Named(name) => Type::NonNullNamed(name),
            Type::List(inner) => Type::NonNullList(inner),
            Type::NonNullNamed(_) | Type::NonNullList(_) => self,
        }
    }

    /// The same type with null: its name or outermost list, made nullable. A type that is nullable stays as
    /// it is.
    pub fn nullable(self) -> Type
        ensures { result ≡ made_nullable self }
    {
        match self {
            Type::NonNullNamed(name) => Type::Named(name),
            Type::NonNullList(inner) => Type::List(inner),
            Type::Named(_) | Type::List(_) => self,
        }
    }

    /// The name inside all lists, non-null or not.
    pub fn inner_named_type(&self) -> &NamedType
        ensures { result.now ≡ inner_name self.now }
    {
        match self {
            Type::Named(name) => name,
            Type::NonNullNamed(name) => name,
            Type::List(inner) => inner.inner_named_type(),
            Type::NonNullList(inner) => inner.inner_named_type(),
        }
    }

    /// Whether null is no value of the type. What is inside its lists makes no difference.
    pub fn is_non_null(&self) -> bool
        ensures { result ≡ is_required self.now }
    {
        matches!(self, Type::NonNullNamed(_) | Type::NonNullList(_))
    }

    /// Whether it is the type of lists of a type, non-null or not.
    pub fn is_list(&self) -> bool
        ensures { result ≡ is_list self.now }
    {
        matches!(self, Type::List(_) | Type::NonNullList(_))
    }

    /// Whether it is a name, non-null or not, and so no list.
    pub fn is_named(&self) -> bool
        ensures { result ≡ is_named self.now }
    {
        matches!(self, Type::Named(_) | Type::NonNullNamed(_))
    }

    /// The type of what is in the lists of this type. A type of no lists is its own.
    pub fn item_type(&self) -> &Type
        ensures { result.now ≡ item_type self.now }
    {
        match self {
            Type::Named(_) | Type::NonNullNamed(_) => self,
            Type::List(inner) => inner,
            Type::NonNullList(inner) => inner,
        }
    }

    /// Whether a variable of this type may stand where the target type is expected: `AreTypesCompatible` of
    /// section 5.8.5, which doesn't look at default values.
    pub fn is_assignable_to(&self, target: &Type) -> bool
        ensures { result ≡ are_types_compatible self.now target.now }
    {
        match (self, target) {
            (Type::Named(_) | Type::List(_), Type::NonNullNamed(_) | Type::NonNullList(_)) => false,
            (
                Type::Named(name) | Type::NonNullNamed(name),
                Type::Named(wanted) | Type::NonNullNamed(wanted),
            ) => name == wanted,
            (
                Type::List(item) | Type::NonNullList(item),
                Type::List(wanted) | Type::NonNullList(wanted),
            ) => item.is_assignable_to(wanted),
            _ => false,
        }
    }
}

impl Clone for Type {
    ghost is_clone = { λ a b. b ≡ a };

    /// The same type, with the location of its name. The error is out of memory.
    fn clone(&self) -> Result<Type, AllocError> {
        match self {
            Type::Named(name) => Ok(Type::Named(name.clone()?)),
            Type::NonNullNamed(name) => Ok(Type::NonNullNamed(name.clone()?)),
            Type::List(inner) => Ok(Type::List(inner.same_allocator((**inner).clone()?)?)),
            Type::NonNullList(inner) => Ok(Type::NonNullList(inner.same_allocator(
                (**inner).clone()?,
            )?)),
        }
    }
}
