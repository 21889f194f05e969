//! The fields of a set, with what they know: their keys and types, and what these are in the schema.

use crate::executable::making::name;
use crate::executable::users::{selected, users_schema};
use apollo_executable::{Field, Fragment, NewFieldError, SelectionSet};
use apollo_schema::schema::Schema;
use bench_notation::type_notation::push_type;
use graphql_ast::directive::DirectiveList;
use std::alloc::{AllocError, Global};
use std::test::Fail;

/// The fragment `vipCustomer on User { id name profilePic }`.
fn vip_customer<'schema>(
    alloc: Global,
    schema: &'schema Schema,
) -> Result<Fragment, NewFieldError<'schema>> {
    let mut set = SelectionSet::new(alloc, name(alloc, "User")?);
    for text in ["id", "name", "profilePic"] {
        let selection = selected(alloc, schema, &set, text)?;
        set.push(selection)?;
    }
    Ok(Fragment {
        name: name(alloc, "vipCustomer")?,
        directives: DirectiveList::new(alloc),
        selection_set: set,
    })
}

/// Adds the key of a field, its type, and what it has in the schema.
fn push_field(text: &mut String, schema: &Schema, field: &Field) -> Result<(), AllocError> {
    let key = field.response_key();
    write!(text, "{key}: ")?;
    push_type(text, field.ty())?;
    let kind = match field.inner_type_def(schema) {
        Some(ty) => ty.kind().describe(),
        None => "undefined",
    };
    write!(text, ", {kind}\n")
}

/// Whether the type of a fragment has no field `nope`, and the fields of the fragment.
fn told(alloc: Global, schema: &Schema, fragment: &Fragment) -> Result<String, AllocError> {
    let mut text = String::new(alloc);
    let (key, set) = (&fragment.name, &fragment.selection_set);
    let ty = &set.ty;
    write!(text, "{key} on {ty}\n")?;
    let is_missing = match set.new_field(alloc, schema, name(alloc, "nope")?) {
        Err(NewFieldError::Lookup(_)) => true,
        _ => false,
    };
    write!(text, "no field nope: {is_missing}\n")?;
    for field in set.fields() {
        push_field(&mut text, schema, field)?;
    }
    Ok(text)
}

#[test]
fn the_fields_of_vip_customer_know_their_types(rt: HostRuntime) -> Result<(), Fail> {
    let schema = users_schema(rt.alloc())?;
    let fragment = vip_customer(rt.alloc(), &schema)?;
    let text = told(rt.alloc(), &schema, &fragment)?;
    let expected =
        "vipCustomer on User\nno field nope: true\nid: ID, a scalar type\nname: String, a scalar type\nprofilePic: URL, a scalar type\n";
    assert_eq!(rt; text.as_str(), expected);
    Ok(())
}
