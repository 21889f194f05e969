//! Calls that change lists, tables, sets, maps and nodes. What is added is named, and made by the change.

use crate::changing::{Change, try_change};
use crate::parts::{
    are_same, definition, directive, empty_set, name, operation, operation_name, spread,
};
use crate::stop::{Stop, Told, expect, handed_back};
use apollo_component::component::Component;
use apollo_component::directive_list::DirectiveList;
use apollo_executable::{OperationMap, RequestError, SelectionSet};
use graphql_ast::directive::DirectiveList as NodeList;
use graphql_ast::type_system::FieldDefinition;
use graphql_nodes::collections::items::Items;
use graphql_nodes::collections::key_set::KeySet;
use graphql_nodes::collections::table::Table;
use graphql_nodes::name::Name;
use graphql_nodes::node::Node;
use graphql_nodes::operation_type::OperationType;
use std::alloc::Global;
use telling::Tell;

/// What things can be added to.
trait Container {
    /// Adds the thing of this name. Where memory is refused, that is handed back, if the call hands things
    /// back.
    fn add(&mut self, alloc: Global, text: &str) -> Told;
}

/// `Items::push`.
impl Container for Items<Name> {
    fn add(&mut self, alloc: Global, text: &str) -> Told {
        Ok(self.push(name(alloc, text)?)?)
    }
}

/// `KeySet::insert`.
impl Container for KeySet<Name> {
    fn add(&mut self, alloc: Global, text: &str) -> Told {
        match self.insert(name(alloc, text)?) {
            Ok(_) => Ok(()),
            Err(refused) => Err(handed_back(refused.value.as_str() == text)),
        }
    }
}

/// `Table::insert`.
impl Container for Table<Name, Name> {
    fn add(&mut self, alloc: Global, text: &str) -> Told {
        match self.insert(name(alloc, text)?, name(alloc, "v")?) {
            Ok(_) => Ok(()),
            Err(refused) => {
                let (key, put) = (refused.value.0.as_str(), refused.value.1.as_str());
                Err(handed_back(key == text && put == "v"))
            }
        }
    }
}

/// `SelectionSet::push`.
impl Container for SelectionSet {
    fn add(&mut self, alloc: Global, text: &str) -> Told {
        Ok(self.push(spread(alloc, text)?)?)
    }
}

/// `DirectiveList::push`, of the directives of a type.
impl Container for DirectiveList {
    fn add(&mut self, alloc: Global, text: &str) -> Told {
        Ok(self.push(Component::from(directive(alloc, text)?))?)
    }
}

/// `DirectiveList::push`, of the directives of syntax.
impl Container for NodeList {
    fn add(&mut self, alloc: Global, text: &str) -> Told {
        Ok(self.push(directive(alloc, text)?)?)
    }
}

/// `OperationMap::insert`, of an operation of this name, or an anonymous one for `-`.
impl Container for OperationMap {
    fn add(&mut self, alloc: Global, text: &str) -> Told {
        let count = self.len();
        let copy = operation(alloc, text)?;
        match self.insert(operation(alloc, text)?) {
            Ok(old) => expect(
                old.is_some() == (self.len() == count),
                "another one stood there",
            ),
            Err(refused) => Err(handed_back(are_same(&refused, &copy))),
        }
    }
}

/// A value to which these are added, with room for no more: a copy.
fn filled<T: Container + Clone + Drop>(
    alloc: Global,
    mut value: T,
    texts: &[&'static str],
) -> Result<T, Stop> {
    for text in texts {
        value.add(alloc, *text)?;
    }
    Ok(value.clone()?)
}

/// Adds the thing of this name.
#[derive(Clone, Copy)]
struct Add(&'static str);

impl<T: Container> Change<T> for Add {
    fn make(&self, alloc: Global, value: &mut T) -> Told {
        value.add(alloc, self.0)
    }
}

/// Takes over all things of another one, which is empty then, or as it was where memory is refused.
#[derive(Clone, Copy)]
struct AddAll(&'static [&'static str]);

impl Change<Items<Name>> for AddAll {
    fn make(&self, alloc: Global, value: &mut Items<Name>) -> Told {
        let mut other: Items<Name> = filled(alloc, Items::new(alloc), self.0)?;
        let copy = other.clone()?;
        match value.append(&mut other) {
            Ok(()) => expect(other.is_empty(), "the other list is not empty"),
            Err(_) => Err(handed_back(other == copy)),
        }
    }
}

impl Change<Table<Name, Name>> for AddAll {
    fn make(&self, alloc: Global, value: &mut Table<Name, Name>) -> Told {
        let mut other: Table<Name, Name> = filled(alloc, Table::new(alloc), self.0)?;
        let copy = other.clone()?;
        match value.append(&mut other) {
            Ok(()) => expect(other.is_empty(), "the other table is not empty"),
            Err(_) => Err(handed_back(other == copy)),
        }
    }
}

impl Change<SelectionSet> for AddAll {
    fn make(&self, alloc: Global, value: &mut SelectionSet) -> Told {
        let mut selections = Vec::new(alloc);
        for text in self.0 {
            selections.push(spread(alloc, *text)?)?;
        }
        Ok(value.extend(selections)?)
    }
}

/// Gives a field another name.
#[derive(Clone, Copy)]
struct Rename;

impl Change<Node<FieldDefinition>> for Rename {
    fn make(&self, alloc: Global, value: &mut Node<FieldDefinition>) -> Told {
        let name = name(alloc, "other")?;
        let field = value.make_mut()?;
        field.name = name;
        Ok(())
    }
}

/// Makes the operation of this name a subscription, or the anonymous or only one for `-`.
#[derive(Clone, Copy)]
struct Subscribe(&'static str);

impl Change<OperationMap> for Subscribe {
    fn make(&self, alloc: Global, value: &mut OperationMap) -> Told {
        let name = operation_name(alloc, self.0)?;
        match value.get_mut(name.as_ref()) {
            Ok(operation) => {
                operation.operation_type = OperationType::Subscription;
                Ok(())
            }
            Err(RequestError::Memory) => Err(Stop::Memory),
            Err(_) => Err(Stop::Wrong("no operation was found")),
        }
    }
}

/// What a container has, and how it is changed.
type Row<C> = (&'static [&'static str], C);

/// As many as nothing, one, and four, where a list grows.
static GROWING: [Row<Add>; 3] = [
    (&[], Add("a")),
    (&["a"], Add("a")),
    (&["a", "bb", "ccc", "dddd"], Add("a")),
];

/// The same with a new name.
static NEW: [Row<Add>; 3] = [
    (&[], Add("e")),
    (&["a"], Add("e")),
    (&["a", "bb", "ccc", "dddd"], Add("e")),
];

/// Operations: new ones, those that are there already, and anonymous ones.
static OPERATIONS: [Row<Add>; 6] = [
    (&[], Add("A")),
    (&["-", "A"], Add("B")),
    (&["A", "B", "C", "D"], Add("E")),
    (&["A", "B"], Add("A")),
    (&["A"], Add("-")),
    (&["-"], Add("-")),
];

/// Three things.
const THREE: AddAll = AddAll(&["a", "bb", "ccc"]);

/// Two, to which three are added.
static TO_TWO: [Row<AddAll>; 1] = [(&["a", "bb"], THREE)];

/// One, to which three are added.
static TO_ONE: [Row<AddAll>; 1] = [(&["a"], THREE)];

/// More things than a list takes in one step.
const NINE: AddAll = AddAll(&["A", "B", "C", "D", "E", "F", "G", "H", "I"]);

/// As many as nothing, one, and four, to which nine are added.
static EXTENDED: [Row<AddAll>; 3] = [
    (&[], NINE),
    (&["a"], NINE),
    (&["a", "bb", "ccc", "dddd"], NINE),
];

/// Maps, and what is requested.
static REQUESTS: [Row<Subscribe>; 3] = [
    (&["-"], Subscribe("-")),
    (&["A"], Subscribe("-")),
    (&["-", "A", "B"], Subscribe("B")),
];

/// Changes a container of each row, which begins as an empty one.
fn change_each<T: Container + Tell + Clone + PartialEq + Drop, C: Change<T>>(
    alloc: Global,
    text: &mut String,
    empty: T,
    rows: &[Row<C>],
) -> Told {
    for (texts, change) in rows {
        let value = filled(alloc, empty.clone()?, *texts)?;
        try_change(alloc, text, value, change)?;
    }
    Ok(())
}

/// What is changed.
#[derive(Clone, Copy)]
pub enum Changed {
    /// `Node::make_mut`.
    Node,
    /// `Items::push`.
    Items,
    /// `KeySet::insert`.
    Set,
    /// `Table::insert`.
    Table,
    /// `Items::append` and `Table::append`.
    Appended,
    /// `SelectionSet::push`.
    Selections,
    /// `SelectionSet::extend`.
    Extended,
    /// `DirectiveList::push`, of the directives of a type.
    Components,
    /// `DirectiveList::push`, of the directives of syntax.
    Directives,
    /// `OperationMap::insert`.
    Operations,
    /// `OperationMap::get_mut`.
    Requested,
}

/// Changes values of this sort.
pub fn tell_changes(alloc: Global, text: &mut String, changed: Changed) -> Told {
    match changed {
        Changed::Node => try_change(alloc, text, definition(alloc)?, &Rename),
        Changed::Items => change_each(alloc, text, Items::<Name>::new(alloc), &GROWING),
        Changed::Set => change_each(alloc, text, KeySet::<Name>::new(alloc), &NEW),
        Changed::Table => change_each(alloc, text, Table::<Name, Name>::new(alloc), &NEW),
        Changed::Appended => {
            change_each(alloc, text, Items::<Name>::new(alloc), &TO_TWO)?;
            change_each(alloc, text, Table::<Name, Name>::new(alloc), &TO_ONE)
        }
        Changed::Selections => change_each(alloc, text, empty_set(alloc)?, &GROWING),
        Changed::Extended => change_each(alloc, text, empty_set(alloc)?, &EXTENDED),
        Changed::Components => change_each(alloc, text, DirectiveList::new(alloc), &GROWING),
        Changed::Directives => change_each(alloc, text, NodeList::new(alloc), &GROWING),
        Changed::Operations => change_each(alloc, text, OperationMap::new(alloc), &OPERATIONS),
        Changed::Requested => change_each(alloc, text, OperationMap::new(alloc), &REQUESTS),
    }
}
