//! Input values: GraphQL specification of October 2021, section 2.9.
ghost use Rattle.std.specs.Prelude.{◌≡◌, IfOk, None, MatchOption};
ghost use Rattle.std.specs.Int.{w32};
ghost use Rattle.std.specs.Option.{ok_or, option_copied};
ghost use Rattle.std.specs.Str.Parse.{ParsesSigned};
ghost use Rattle.graphql_ast.specs.Values.{as_boolean, as_enum, as_int, as_list, as_object, as_string};
ghost use Rattle.graphql_ast.specs.Values.{as_variable, finite_float, finite_number, is_null};

use graphql_nodes::collections::items::Items;
use graphql_nodes::collections::text::Text;
use graphql_nodes::name::Name;
use graphql_nodes::node::Node;
use std::alloc::AllocError;

/// An input value. Numbers are their texts.
#[derive(Debug, Drop, PartialEq, Eq, Hash)]
pub enum Value {
    Null,
    Enum(Name),
    Variable(Name),
    String(Text),
    Float(Text),
    Int(Text),
    Boolean(bool),
    List(Items<Node<Value>>),
    Object(Items<(Name, Node<Value>)>),
}

impl Value {
    /// Whether the value is `null`.
    pub fn is_null(&self) -> bool
        ensures { result ≡ is_null self.now }
    {
        matches!(self, Value::Null)
    }

    /// The name, if the value is one of an enum.
    pub fn as_enum(&self) -> Option<&Name>
        ensures { option_copied result ≡ as_enum self.now }
    {
        match self {
            Value::Enum(name) => Some(name),
            _ => None,
        }
    }

    /// The name of the variable, if the value is one.
    pub fn as_variable(&self) -> Option<&Name>
        ensures { option_copied result ≡ as_variable self.now }
    {
        match self {
            Value::Variable(name) => Some(name),
            _ => None,
        }
    }

    /// The text, if the value is a string. A number is none.
    pub fn as_str(&self) -> Option<&str>
        ensures { option_copied result ≡ as_string self.now }
    {
        match self {
            Value::String(text) => Some(text.as_str()),
            _ => None,
        }
    }

    /// The number of 64 bits that is nearest to a float or an integer (sections 3.5.1 and 3.5.2). Other
    /// values have none, nor has a number past the greatest finite one. The text is read as `parse` reads
    /// it.
    pub fn to_f64(&self) -> Option<f64>
        ensures { result ≡ finite_number self.now }
    {
        match self {
            Value::Float(text) | Value::Int(text) => finite(text.as_str()),
            _ => None,
        }
    }

    /// The integer, if the value is one of 32 bits with its sign (section 3.5.1). Other values have none, nor
    /// has an integer past these, nor a float without a fraction. The text is read as `parse` reads it.
    pub fn to_i32(&self) -> Option<i32>
        ensures { MatchOption (as_int self.now) (result ≡ None) (λ text.
            ParsesSigned w32 10 text (ok_or result text)) }
    {
        match self {
            Value::Int(text) => text.as_str().parse::<i32>().ok(),
            _ => None,
        }
    }

    /// The answer, if the value is `true` or `false`.
    pub fn to_bool(&self) -> Option<bool>
        ensures { result ≡ as_boolean self.now }
    {
        match self {
            Value::Boolean(value) => Some(*value),
            _ => None,
        }
    }

    /// The values in a list, in order, if the value is one.
    pub fn as_list(&self) -> Option<&[Node<Value>]>
        ensures { option_copied result ≡ as_list self.now }
    {
        match self {
            Value::List(items) => Some(items.as_slice()),
            _ => None,
        }
    }

    /// The fields of an input object, in order, each with its name, if the value is one.
    pub fn as_object(&self) -> Option<&[(Name, Node<Value>)]>
        ensures { option_copied result ≡ as_object self.now }
    {
        match self {
            Value::Object(members) => Some(members.as_slice()),
            _ => None,
        }
    }
}

/// The number that the text writes, if there is one that is finite.
fn finite(text: &str) -> Option<f64>
    ensures { result ≡ finite_float text.now }
{
    match text.parse::<f64>() {
        Ok(number) if number.is_finite() => Some(number),
        _ => None,
    }
}

impl Clone for Value {
    ghost is_clone = { λ a b. b ≡ a };

    /// The same value, with every location in it. The error is out of memory.
    fn clone(&self) -> Result<Value, AllocError> {
        match self {
            Value::Null => Ok(Value::Null),
            Value::Enum(name) => Ok(Value::Enum(name.clone()?)),
            Value::Variable(name) => Ok(Value::Variable(name.clone()?)),
            Value::String(text) => Ok(Value::String(text.clone()?)),
            Value::Float(text) => Ok(Value::Float(text.clone()?)),
            Value::Int(text) => Ok(Value::Int(text.clone()?)),
            Value::Boolean(value) => Ok(Value::Boolean(*value)),
            Value::List(items) => Ok(Value::List(items.clone()?)),
            Value::Object(members) => Ok(Value::Object(members.clone()?)),
        }
    }
}
