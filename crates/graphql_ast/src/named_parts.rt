//! Parts of trees that are found by their name.

use crate::directive::{Argument, Directive};
use crate::type_system::{EnumValueDefinition, FieldDefinition, InputValueDefinition};
use graphql_nodes::name::Name;
use graphql_nodes::named::Named;

impl Named for Argument {
    ghost name_of = { λ argument. argument.name };

    fn name(&self) -> &Name {
        &self.name
    }
}

impl Named for Directive {
    ghost name_of = { λ directive. directive.name };

    fn name(&self) -> &Name {
        &self.name
    }
}

impl Named for FieldDefinition {
    ghost name_of = { λ field. field.name };

    fn name(&self) -> &Name {
        &self.name
    }
}

impl Named for InputValueDefinition {
    ghost name_of = { λ value. value.name };

    fn name(&self) -> &Name {
        &self.name
    }
}

impl Named for EnumValueDefinition {
    ghost name_of = { λ value. value.value };

    fn name(&self) -> &Name {
        &self.value
    }
}
