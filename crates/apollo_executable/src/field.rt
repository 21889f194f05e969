//! Fields: GraphQL specification of October 2021, sections 2.5 to 2.7.
ghost use Rattle.std.specs.Prelude.{◌≡◌, IfOk, [], ◌∷◌, ◌++◌, Some};
ghost use Rattle.std.specs.Option.{option_copied};
ghost use Rattle.graphql_ast.specs.ArgumentAnswer.{Answers};
ghost use Rattle.graphql_ast.specs.ArgumentsByName.{defined_argument, specified_value, argument_value};
ghost use Rattle.graphql_ast.specs.TypeReferences.{inner_name};
ghost use Rattle.apollo_schema.specs.Lookups.{type_at};
ghost use Rattle.apollo_executable.specs.NewSelections.{new_field};
ghost use Rattle.apollo_executable.specs.SelectionParts.{response_key};
ghost use Rattle.apollo_executable.specs.Erasure.{erased_field};

use crate::added_directives::append_directives;
use crate::selection::{Field, Selection, SelectionSet};
use apollo_schema::schema::Schema;
use apollo_types::extended_type::ExtendedType;
use graphql_ast::directive::{Argument, ArgumentByNameError, Directive, DirectiveList};
use graphql_ast::selection as ast;
use graphql_ast::type_reference::Type;
use graphql_ast::type_system::FieldDefinition;
use graphql_ast::value::Value;
use graphql_nodes::collections::items::Items;
use graphql_nodes::name::Name;
use graphql_nodes::node::Node;
use std::alloc::{AllocError, Global};

impl Field {
    /// A field of this name and definition, without alias, arguments, directives and selections. Its set
    /// selects from the type that the definition names, inside all lists. The error is out of memory, and
    /// drops the name and the definition.
    ///
    /// [`SelectionSet::new_field`] looks the definition up in a schema.
    pub fn new(
        alloc: Global,
        name: Name,
        definition: Node<FieldDefinition>,
    ) -> Result<Field, AllocError>
        ensures { IfOk result (λ field. field ≡ new_field name definition) }
    {
        let ty = definition.ty.inner_named_type().clone()?;
        Ok(Field {
            definition,
            alias: None,
            name,
            arguments: Items::new(alloc),
            directives: DirectiveList::new(alloc),
            selection_set: SelectionSet::new(alloc, ty),
        })
    }

    /// The key of the field in a response: its alias, or else its name (section 2.7).
    pub fn response_key(&self) -> &Name
        ensures { result.now ≡ response_key self.now }
    {
        match &self.alias {
            Some(alias) => alias,
            None => &self.name,
        }
    }

    /// The type of the field, by its definition.
    pub fn ty(&self) -> &Type
        ensures { result.now ≡ self.now.definition.value.ty }
    {
        &self.definition.ty
    }

    /// The type of a schema that the field's type names, inside all lists, if the schema has it.
    pub fn inner_type_def<'schema>(&self, schema: &'schema Schema) -> Option<&'schema ExtendedType>
        ensures { option_copied result ≡ type_at schema.now.types (inner_name self.now.definition.value.ty) }
    {
        schema.types.get(self.ty().inner_named_type())
    }

    /// The value of the argument of the name: the specified one, else the default one of the field's
    /// definition, else none (sections 2.6 and 3.6.1). It takes no memory.
    ///
    /// Where no value is specified, an argument that the definition lacks is
    /// [`NoSuchArgument`](ArgumentByNameError::NoSuchArgument), and one of a non-null type without a default
    /// value is [`RequiredArgumentNotSpecified`](ArgumentByNameError::RequiredArgumentNotSpecified).
    pub fn argument_by_name(&self, name: &Name) -> Result<Option<&Node<Value>>, ArgumentByNameError>
        ensures { Answers (argument_value (specified_value self.now.arguments name.now)
            (defined_argument self.now.definition.value.arguments name.now)) result }
    {
        let definition = self.definition.argument_by_name(name);
        Argument::argument_by_name(self.arguments.as_slice(), name, definition)
    }

    /// The value of the first argument that has the name's text, if the field specifies one.
    pub fn specified_argument_by_name(&self, name: &Name) -> Option<&Node<Value>>
        ensures { option_copied result ≡ specified_value self.now.arguments name.now }
    {
        Argument::specified_argument_by_name(self.arguments.as_slice(), name)
    }

    /// The same field under this alias.
    pub fn with_alias(mut self, alias: Name) -> Field
        ensures { result ≡ record self { alias = Some alias } }
    {
        self.alias = Some(alias);
        self
    }

    /// The same field under this alias, or without one.
    pub fn with_opt_alias(mut self, alias: Option<Name>) -> Field
        ensures { result ≡ record self { alias = alias } }
    {
        self.alias = alias;
        self
    }

    /// The same field with one more directive at the end. The error is out of memory, and drops the field.
    pub fn with_directive(mut self, directive: Node<Directive>) -> Result<Field, AllocError>
        ensures { IfOk result (λ field. field
            ≡ record self { directives = record { 0 = self.directives.0 ++ directive ∷ [] } }) }
    {
        self.directives.push(directive)?;
        Ok(self)
    }

    /// The same field with these directives at the end. The error is out of memory, and drops the field.
    pub fn with_directives(mut self, directives: Vec<Node<Directive>>) -> Result<Field, AllocError>
        ensures { IfOk result (λ field. field
            ≡ record self { directives = record { 0 = self.directives.0 ++ directives.items } }) }
    {
        append_directives(&mut self.directives, directives)?;
        Ok(self)
    }

    /// The same field with one more argument at the end, without a location. The error is out of memory, and
    /// drops the field.
    pub fn with_argument(
        mut self,
        alloc: Global,
        name: Name,
        value: Node<Value>,
    ) -> Result<Field, AllocError>
        ensures { IfOk result (λ field. field
            ≡ record self {
              arguments = self.arguments
                  ++ record { value = record { name = name; value = value }; location = None } ∷ [];
            }) }
    {
        let argument = Node::new(alloc, Argument::new(name, value))?;
        self.arguments.push(argument)?;
        Ok(self)
    }

    /// The same field with these arguments at the end. The error is out of memory, and drops the field.
    pub fn with_arguments(mut self, arguments: Vec<Node<Argument>>) -> Result<Field, AllocError>
        ensures { IfOk result (λ field. field
            ≡ record self { arguments = self.arguments ++ arguments.items }) }
    {
        self.arguments.append(&mut Items::from_vec(arguments))?;
        Ok(self)
    }

    /// The same field with one more selection at the end of its set. The error is out of memory, and drops
    /// the field.
    pub fn with_selection(mut self, selection: Selection) -> Result<Field, AllocError>
        ensures { IfOk result (λ field. field
            ≡ record self {
              selection_set = record self.selection_set
                  { selections = self.selection_set.selections ++ selection ∷ [] };
            }) }
    {
        self.selection_set.push(selection)?;
        Ok(self)
    }

    /// The same field with these selections at the end of its set. The error is out of memory, and drops the
    /// field.
    pub fn with_selections(mut self, selections: Vec<Selection>) -> Result<Field, AllocError>
        ensures { IfOk result (λ field. field
            ≡ record self {
              selection_set = record self.selection_set
                  { selections = self.selection_set.selections ++ selections.items };
            }) }
    {
        self.selection_set.extend(selections)?;
        Ok(self)
    }

    /// The field as syntax, without its definition. The error is out of memory.
    #[cycle(to_ast)]
    pub fn to_ast(&self, alloc: Global) -> Result<ast::Field, AllocError>
        ensures { IfOk result (λ written. written ≡ erased_field self.now) }
    {
        let selection_set = Items::from_vec(self.selection_set.to_ast(alloc)?);
        let field = self.over(selection_set)?;
        Ok(field)
    }

    /// The field as syntax over these selections.
    fn over(&self, selection_set: Items<ast::Selection>) -> Result<ast::Field, AllocError>
        ensures { IfOk result (λ written. written ≡ record {
          alias = self.now.alias;
          name = self.now.name;
          arguments = self.now.arguments;
          directives = self.now.directives;
          selection_set = selection_set;
        }) }
    {
        Ok(ast::Field {
            alias: self.alias.clone()?,
            name: self.name.clone()?,
            arguments: self.arguments.clone()?,
            directives: self.directives.clone()?,
            selection_set,
        })
    }
}
