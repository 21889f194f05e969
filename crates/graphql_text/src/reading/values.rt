//! Reading input values: GraphQL specification of October 2021, section 2.9.
ghost use Rattle.std.specs.Prelude.{◌≡◌, ◌-◌};
ghost use Rattle.graphql_grammar.specs.Pieces.{Adds, many};
ghost use Rattle.graphql_productions.specs.Values.{block_value, enum_value, false_value, float_value, group};
ghost use Rattle.graphql_productions.specs.Values.{int_value, is_value, list_of, member, nested_group};
ghost use Rattle.graphql_productions.specs.Values.{null_value, object_of, quoted_value, true_value, value};
ghost use Rattle.graphql_productions.specs.Values.{value_node, variable, variable_value};
ghost use Rattle.graphql_text.specs.Reads.{Reads, next_begins};

use crate::reading::target::{Reading, Target, sign};
use graphql_ast::value::Value;
use graphql_grammar::fault::{FaultKind, Item, ReadError};
use graphql_grammar::kind::{Kind, Names};
use graphql_grammar::words::Words;
use graphql_nodes::collections::items::Items;
use graphql_nodes::collections::text::Text;
use graphql_nodes::name::Name;
use graphql_nodes::node::Node;
use graphql_tokens::values::{block_string_value, string_value};

/// A value was expected.
const NO_VALUE: FaultKind = FaultKind::Expected(Item::Value);

#[tactic(auto, unfolding(graphql_productions::specs::Values::int_value))]
fn int_value(target: Target, words: &mut Words<'_>) -> Reading<Value>
    ensures { Reads int_value words.old words.new result }
{
    let word = words.expect_word(Kind::Int, NO_VALUE)?;
    Ok(Value::Int(Text::from_str(target.alloc, word.text)?))
}

#[tactic(auto, unfolding(graphql_productions::specs::Values::float_value))]
fn float_value(target: Target, words: &mut Words<'_>) -> Reading<Value>
    ensures { Reads float_value words.old words.new result }
{
    let word = words.expect_word(Kind::Float, NO_VALUE)?;
    Ok(Value::Float(Text::from_str(target.alloc, word.text)?))
}

#[tactic(auto, unfolding(graphql_productions::specs::Values::quoted_value))]
fn quoted_value(target: Target, words: &mut Words<'_>) -> Reading<Value>
    ensures { Reads quoted_value words.old words.new result }
{
    let word = words.expect_word(Kind::String, NO_VALUE)?;
    Ok(Value::String(string_value(target.alloc, word.text)?))
}

#[tactic(auto, unfolding(graphql_productions::specs::Values::block_value))]
fn block_value(target: Target, words: &mut Words<'_>) -> Reading<Value>
    ensures { Reads block_value words.old words.new result }
{
    let word = words.expect_word(Kind::BlockString, NO_VALUE)?;
    Ok(Value::String(block_string_value(target.alloc, word.text)?))
}

#[tactic(auto, unfolding(graphql_productions::specs::Values::true_value))]
fn true_value(words: &mut Words<'_>) -> Reading<Value>
    ensures { Reads true_value words.old words.new result }
{
    sign(words, Kind::True)?;
    Ok(Value::Boolean(true))
}

#[tactic(auto, unfolding(graphql_productions::specs::Values::false_value))]
fn false_value(words: &mut Words<'_>) -> Reading<Value>
    ensures { Reads false_value words.old words.new result }
{
    sign(words, Kind::False)?;
    Ok(Value::Boolean(false))
}

#[tactic(auto, unfolding(graphql_productions::specs::Values::null_value))]
fn null_value(words: &mut Words<'_>) -> Reading<Value>
    ensures { Reads null_value words.old words.new result }
{
    sign(words, Kind::Null)?;
    Ok(Value::Null)
}

#[tactic(auto, unfolding(graphql_productions::specs::Values::enum_value))]
fn enum_value(target: Target, words: &mut Words<'_>) -> Reading<Value>
    ensures { Reads (enum_value target.file) words.old words.new result }
{
    Ok(Value::Enum(target.name(words)?))
}

/// Reads a variable.
#[tactic(auto, unfolding(graphql_productions::specs::Values::variable))]
pub(crate) fn variable(target: Target, words: &mut Words<'_>) -> Reading<Name>
    ensures { Reads (variable target.file) words.old words.new result }
{
    target.name_behind(words, Kind::Dollar)
}

/// Reads a variable, where the value isn't constant.
#[tactic(auto, unfolding(graphql_productions::specs::Values::variable_or_none))]
fn variable_value(target: Target, words: &mut Words<'_>) -> Reading<Value>
    ensures { Reads (variable_value target.file target.constant) words.old words.new result }
{
    if target.constant {
        return Err(ReadError::Fault(FaultKind::VariableInConstant));
    }
    Ok(Value::Variable(variable(target, words)?))
}

/// Whether a value begins with words of a kind.
fn is_value(kind: Kind) -> bool
    ensures { result ≡ is_value kind }
{
    kind.is_name()
        || kind.is(Kind::Int)
        || kind.is(Kind::Float)
        || kind.is(Kind::String)
        || kind.is(Kind::BlockString)
        || kind.is(Kind::Dollar)
        || kind.is(Kind::LeftBracket)
        || kind.is(Kind::LeftBrace)
}

/// Whether a value comes next.
fn next_is_value(words: &Words<'_>) -> bool
    ensures { result ≡ next_begins is_value words.now }
{
    match words.next_kind() {
        Some(kind) => is_value(kind),
        None => false,
    }
}

/// Reads a value, by its first word.
#[cycle(value)]
fn value(target: Target, words: &mut Words<'_>) -> Reading<Value>
    ensures { Reads (value target.file target.constant target.depth) words.old words.new result }
{
    match words.next_kind() {
        Some(Kind::Int) => int_value(target, words),
        Some(Kind::Float) => float_value(target, words),
        Some(Kind::String) => quoted_value(target, words),
        Some(Kind::BlockString) => block_value(target, words),
        Some(Kind::True) => true_value(words),
        Some(Kind::False) => false_value(words),
        Some(Kind::Null) => null_value(words),
        Some(Kind::Dollar) => variable_value(target, words),
        Some(Kind::LeftBracket | Kind::LeftBrace) => nested_group(target, words),
        Some(kind) if kind.is_name() => enum_value(target, words),
        _ => Err(ReadError::Fault(NO_VALUE)),
    }
}

/// Reads a list or an object.
#[cycle(value)]
#[tactic(auto, using(graphql_productions::proofs::NestedLemmas::no_group, graphql_productions::proofs::NestedLemmas::one_group))]
fn nested_group(target: Target, words: &mut Words<'_>) -> Reading<Value>
    ensures { Reads (nested_group target.file target.constant target.depth) words.old words.new result }
{
    let inside = target.inside()?;
    group(inside, words)
}

/// Reads a list or an object, whose values may be such.
#[cycle(value)]
fn group(target: Target, words: &mut Words<'_>) -> Reading<Value>
    ensures { Reads (group target.file (value_node target.file target.constant target.depth))
        words.old words.new result }
{
    match words.next_kind() {
        Some(Kind::LeftBracket) => list(target, words),
        Some(Kind::LeftBrace) => object(target, words),
        _ => Err(ReadError::Fault(NO_VALUE)),
    }
}

#[cycle(value)]
#[tactic(auto, unfolding(graphql_productions::specs::Values::list_of))]
fn list(target: Target, words: &mut Words<'_>) -> Reading<Value>
    ensures { Reads (list_of (value_node target.file target.constant target.depth))
        words.old words.new result }
{
    sign(words, Kind::LeftBracket)?;
    let values = values(target, words)?;
    words.expect(Kind::RightBracket, NO_VALUE)?;
    Ok(Value::List(values))
}

#[cycle(value)]
fn values(target: Target, words: &mut Words<'_>) -> Reading<Items<Node<Value>>>
    ensures { Reads (many (value_node target.file target.constant target.depth)) words.old words.new result }
{
    let mut values = Items::new(target.alloc);
    'values: while next_is_value(words) {
        let node = value_node(target, words)?;
        values.push(node)?;
    }
    Ok(values)
}

#[cycle(value)]
#[tactic(auto, unfolding(graphql_productions::specs::Values::object_of))]
fn object(target: Target, words: &mut Words<'_>) -> Reading<Value>
    ensures { Reads (object_of target.file (value_node target.file target.constant target.depth))
        words.old words.new result }
{
    sign(words, Kind::LeftBrace)?;
    let members = members(target, words)?;
    words.expect(Kind::RightBrace, FaultKind::Expected(Item::ObjectField))?;
    Ok(Value::Object(members))
}

#[cycle(value)]
fn members(target: Target, words: &mut Words<'_>) -> Reading<Items<(Name, Node<Value>)>>
    ensures { Reads (many (member target.file (value_node target.file target.constant target.depth)))
        words.old words.new result }
{
    let mut members = Items::new(target.alloc);
    'members: while words.next_is_name(Names::Any) {
        let next = member(target, words)?;
        members.push(next)?;
    }
    Ok(members)
}

#[cycle(value)]
#[tactic(auto, unfolding(graphql_productions::specs::Values::member_body))]
fn member(target: Target, words: &mut Words<'_>) -> Reading<(Name, Node<Value>)>
    ensures { Reads (member target.file (value_node target.file target.constant target.depth))
        words.old words.new result }
{
    let name = target.name(words)?;
    sign(words, Kind::Colon)?;
    let value = value_node(target, words)?;
    Ok((name, value))
}

/// Reads a value, at its location.
#[cycle(value)]
pub(crate) fn value_node(target: Target, words: &mut Words<'_>) -> Reading<Node<Value>>
    ensures { Reads (value_node target.file target.constant target.depth) words.old words.new result }
{
    Ok(node!(target, words; value(target, words)?))
}
