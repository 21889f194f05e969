//! Types and schemas. Of what is built in, only what isn't as in every schema is written in full.

use crate::containers::At;
use crate::{Tell, Told};
use apollo_component::component::ComponentName;
use apollo_schema::implementers::Implementers;
use apollo_schema::schema::Schema;
use apollo_types::enum_type::EnumType;
use apollo_types::extended_type::ExtendedType;
use apollo_types::extensible::Extensible;
use apollo_types::input_object_type::InputObjectType;
use apollo_types::interface_type::InterfaceType;
use apollo_types::object_type::ObjectType;
use apollo_types::scalar_type::ScalarType;
use apollo_types::schema_definition::SchemaDefinition;
use apollo_types::union_type::UnionType;

impl Tell for ScalarType {
    fn tell(&self, text: &mut String) -> Told {
        tell!(text; "scalar ", self.description, self.name, "\n", self.directives)
    }
}

impl Tell for ObjectType {
    fn tell(&self, text: &mut String) -> Told {
        tell!(text; "object ", self.description, self.name, "\n", self.directives)?;
        tell!(text; self.implements_interfaces, self.fields)
    }
}

impl Tell for InterfaceType {
    fn tell(&self, text: &mut String) -> Told {
        tell!(text; "interface ", self.description, self.name, "\n", self.directives)?;
        tell!(text; self.implements_interfaces, self.fields)
    }
}

impl Tell for UnionType {
    fn tell(&self, text: &mut String) -> Told {
        tell!(text; "union ", self.description, self.name, "\n", self.directives, self.members)
    }
}

impl Tell for EnumType {
    fn tell(&self, text: &mut String) -> Told {
        tell!(text; "enum ", self.description, self.name, "\n", self.directives, self.values)
    }
}

impl Tell for InputObjectType {
    fn tell(&self, text: &mut String) -> Told {
        tell!(text; "input ", self.description, self.name, "\n", self.directives, self.fields)
    }
}

impl Tell for ExtendedType {
    fn tell(&self, text: &mut String) -> Told {
        match self {
            ExtendedType::Scalar(node) => node.tell(text),
            ExtendedType::Object(node) => node.tell(text),
            ExtendedType::Interface(node) => node.tell(text),
            ExtendedType::Union(node) => node.tell(text),
            ExtendedType::Enum(node) => node.tell(text),
            ExtendedType::InputObject(node) => node.tell(text),
        }
    }
}

fn push_root(text: &mut String, word: &str, root: &Option<ComponentName>) -> Told {
    match root {
        Some(root) => tell!(text; word, root),
        None => Ok(()),
    }
}

impl Tell for SchemaDefinition {
    fn tell(&self, text: &mut String) -> Told {
        tell!(text; "schema ", self.description, "\n", self.directives)?;
        push_root(text, "query ", &self.query)?;
        push_root(text, "mutation ", &self.mutation)?;
        push_root(text, "subscription ", &self.subscription)
    }
}

/// The names of object types, and of interface types.
impl Tell for Implementers {
    fn tell(&self, text: &mut String) -> Told {
        tell!(text; "by ", self.objects, "and ", self.interfaces, "\n")
    }
}

/// Whether the type is as in every schema.
fn is_plain(ty: &ExtendedType) -> bool {
    ty.is_built_in()
        && !ty
            .iter_origins()
            .any(|origin| origin.extension_id().is_some())
}

/// Adds the directive definitions and types: all of them, or those alone that aren't as in every schema.
fn push_definitions(text: &mut String, schema: &Schema, all: bool) -> Told {
    for (key, node) in schema.directive_definitions.iter() {
        if !node.is_built_in() {
            tell!(text; key, node)?;
        } else if all {
            tell!(text; key, "\n")?;
        }
    }
    for (key, ty) in schema.types.iter() {
        if !is_plain(ty) {
            tell!(text; key, ty)?;
        } else if all {
            let kind = ty.kind();
            tell!(text; key, At(ty.location()))?;
            write!(text, "{kind:?}\n")?;
        }
    }
    Ok(())
}

/// Adds what a schema has that isn't as in every schema.
pub fn push_own(text: &mut String, schema: &Schema) -> Told {
    tell!(text; schema.sources, schema.schema_definition)?;
    push_definitions(text, schema, false)
}

impl Tell for Schema {
    fn tell(&self, text: &mut String) -> Told {
        tell!(text; self.sources, self.schema_definition)?;
        push_definitions(text, self, true)
    }
}
