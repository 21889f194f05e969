//! Arguments, also by their names, and applied directives: GraphQL specification of October 2021, sections
//! 2.6, 2.12 and 3.6.1.
ghost use Rattle.std.specs.Prelude.{◌≡◌, [], ◌∷◌, ◌++◌, filter, find, OnOk, OnErr};
ghost use Rattle.std.specs.List.{list_any};
ghost use Rattle.std.specs.Option.{option_copied};
ghost use Rattle.graphql_ast.specs.AppliedDirectives.{is_called, DirectivesInOrder};

use crate::get_all::GetAll;
use crate::type_system::InputValueDefinition;
use crate::value::Value;
use graphql_nodes::collections::items::Items;
use graphql_nodes::name::Name;
use graphql_nodes::named::first_of_name;
use graphql_nodes::node::Node;
use graphql_nodes::take_apart;
use std::alloc::{AllocError, Global};
use std::ops::Deref;
use thiserror::Error;

/// Why an argument has no value: a value that is given for it is always its value.
#[derive(Clone, Copy, Debug, PartialEq, Eq, Error)]
pub enum ArgumentByNameError {
    /// No value is specified, and the definition has a non-null type and no default value.
    #[error("a required argument is not specified")]
    RequiredArgumentNotSpecified,
    /// No value is specified, and there is no definition of the argument.
    #[error("there is no such argument")]
    NoSuchArgument,
}

/// An argument: a name with a value (section 2.6).
#[derive(Debug, PartialEq, Eq, Hash, Clone)]
pub struct Argument {
    pub name: Name,
    pub value: Node<Value>,
}

impl Argument {
    ghost use Rattle.graphql_ast.specs.ArgumentsByName.{specified_value, argument_value};
    ghost use Rattle.graphql_ast.specs.ArgumentAnswer.{Answers};

    /// The argument of this name with this value.
    pub fn new(name: Name, value: Node<Value>) -> Argument
        ensures { result ≡ record { name = name; value = value } }
    {
        Argument { name, value }
    }

    /// The value of the first argument that has the name's text, if there is one. It takes no memory.
    pub fn specified_argument_by_name<'a>(
        arguments: &'a [Node<Argument>],
        name: &Name,
    ) -> Option<&'a Node<Value>>
        ensures { option_copied result ≡ specified_value arguments.now name.now }
    {
        first_of_name(arguments, name).map(|given| &given.value)
    }

    /// The value of the argument of the name: the specified one, else the default one of its definition, else
    /// none. It takes no memory.
    ///
    /// Where no value is specified, an argument without a definition is
    /// [`NoSuchArgument`](ArgumentByNameError::NoSuchArgument), and one of a non-null type without a default
    /// value is [`RequiredArgumentNotSpecified`](ArgumentByNameError::RequiredArgumentNotSpecified).
    pub fn argument_by_name<'a>(
        arguments: &'a [Node<Argument>],
        name: &Name,
        definition: Option<&'a Node<InputValueDefinition>>,
    ) -> Result<Option<&'a Node<Value>>, ArgumentByNameError>
        ensures { Answers
            (argument_value (specified_value arguments.now name.now) (option_copied definition.entry))
            result }
    {
        if let Some(value) = Argument::specified_argument_by_name(arguments, name) {
            return Ok(Some(value));
        }
        let Some(definition) = definition else {
            return Err(ArgumentByNameError::NoSuchArgument);
        };
        if let Some(value) = &definition.default_value {
            return Ok(Some(value));
        }
        if definition.ty.is_non_null() {
            return Err(ArgumentByNameError::RequiredArgumentNotSpecified);
        }
        Ok(None)
    }
}

/// An applied directive (section 2.12).
#[derive(Debug, PartialEq, Eq, Hash, Clone)]
pub struct Directive {
    pub name: Name,
    pub arguments: Items<Node<Argument>>,
}

impl Directive {
    ghost use Rattle.graphql_ast.specs.ArgumentsByName.{specified_value};

    /// The directive of this name, without arguments.
    pub fn new(alloc: Global, name: Name) -> Directive
        ensures { result ≡ record { name = name; arguments = [] } }
    {
        Directive {
            name,
            arguments: Items::new(alloc),
        }
    }

    /// The value of the first argument that has the name's text, if there is one. It takes no memory.
    pub fn specified_argument_by_name(&self, name: &Name) -> Option<&Node<Value>>
        ensures { option_copied result ≡ specified_value self.now.arguments name.now }
    {
        Argument::specified_argument_by_name(self.arguments.as_slice(), name)
    }
}

/// The directives applied to a definition or to a selection, in order.
#[derive(Debug, PartialEq, Eq, Hash, Clone)]
pub struct DirectiveList(pub Items<Node<Directive>>);

impl DirectiveList {
    /// No directive.
    pub fn new(alloc: Global) -> DirectiveList
        ensures { result.0 ≡ [] }
    {
        DirectiveList(Items::new(alloc))
    }

    /// The directives that have the name's text, in order. It is best for repeatable directives (section
    /// 3.13).
    pub fn get_all<'a, 'n>(&'a self, name: &'n Name) -> GetAll<'a, 'n>
        ensures rest { result ≡ filter (is_called name.now) self.now.0 }
        ensures runs { DirectivesInOrder }
    {
        GetAll::new(self.0.as_slice(), name)
    }

    /// The first directive that has the name's text, if there is one. It is best for directives that aren't
    /// repeatable.
    pub fn get(&self, name: &Name) -> Option<&Node<Directive>>
        ensures { option_copied result ≡ find (is_called name.now) self.now.0 }
    {
        first_of_name(self.0.as_slice(), name)
    }

    /// Whether there is a directive that has the name's text.
    pub fn has(&self, name: &Name) -> bool
        ensures { result ≡ list_any (is_called name.now) self.now.0 }
    {
        self.0.iter().any(|directive| directive.name == *name)
    }

    /// Adds a directive at the end. The error is out of memory: the list is as it was, and the directive is
    /// dropped.
    pub fn push(&mut self, directive: Node<Directive>) -> Result<(), AllocError>
        ensures ok { OnOk result (self.new.0 ≡ self.old.0 ++ directive ∷ []) }
        ensures err { OnErr result (self.new ≡ self.old) }
    {
        self.0.push(directive)
    }

    /// The directives, in order.
    pub fn into_items(self) -> Items<Node<Directive>>
        ensures { result ≡ self.0 }
    {
        let Self(directives) = self;
        directives
    }
}

impl Deref for DirectiveList {
    type Target = Items<Node<Directive>>;

    ghost deref_gives = { λ list items. items ≡ list.0 };

    /// The directives, in order.
    fn deref(&self) -> &Items<Node<Directive>>
        ensures { result.now ≡ self.now.0 }
    {
        &self.0
    }
}

impl Drop for Argument {
    fn drop(self) {
        take_apart!(self: name, value);
    }
}

impl Drop for Directive {
    fn drop(self) {
        take_apart!(self: name, arguments);
    }
}

impl Drop for DirectiveList {
    fn drop(self) {
        let Self(_) = self;
    }
}
