//! Words, names, nodes, and the containers of trees. Of an option and a list what is there is written, and
//! nothing around it.

use crate::{Tell, Told};
use graphql_nodes::collections::items::Items;
use graphql_nodes::collections::key_set::KeySet;
use graphql_nodes::collections::shared::Shared;
use graphql_nodes::collections::table::Table;
use graphql_nodes::name::Name;
use graphql_nodes::node::Node;
use graphql_nodes::node_str::NodeStr;
use graphql_nodes::source::{FileId, SourceFile, SourceSpan};
use likeness::push_location;
use std::hash::Hash;

/// A word is written as it is, without a space behind it.
impl Tell for &str {
    fn tell(&self, text: &mut String) -> Told {
        text.push_str(*self)
    }
}

/// Where something stands.
#[derive(Clone, Copy)]
pub struct At(pub Option<SourceSpan>);

impl Tell for At {
    fn tell(&self, text: &mut String) -> Told {
        push_location(text, self.0)
    }
}

/// A name, and where it stands.
impl Tell for Name {
    fn tell(&self, text: &mut String) -> Told {
        tell!(text; self.as_str(), " ", At(self.location()))
    }
}

/// A description, in quotes, and where it stands.
impl Tell for NodeStr {
    fn tell(&self, text: &mut String) -> Told {
        write!(text, "{self:?} ")?;
        push_location(text, self.location())
    }
}

impl Tell for FileId {
    fn tell(&self, text: &mut String) -> Told {
        let number = self.0;
        write!(text, "file {number} ")
    }
}

impl Tell for SourceFile {
    fn tell(&self, text: &mut String) -> Told {
        let (path, said) = (&self.path, &self.text);
        write!(text, "{path:?} {said:?}\n")
    }
}

impl<T: Tell> Tell for Option<T> {
    fn tell(&self, text: &mut String) -> Told {
        match self {
            Some(value) => value.tell(text),
            None => Ok(()),
        }
    }
}

/// Where a node stands, and what it holds.
impl<T: Tell> Tell for Node<T> {
    fn tell(&self, text: &mut String) -> Told {
        tell!(text; At(self.location()), **self)
    }
}

impl<T: Tell> Tell for Shared<T> {
    fn tell(&self, text: &mut String) -> Told {
        (**self).tell(text)
    }
}

impl<T: Tell> Tell for &[T] {
    fn tell(&self, text: &mut String) -> Told {
        for value in *self {
            value.tell(text)?;
        }
        Ok(())
    }
}

/// Tells each value of a list. A slice in a variable goes to this function, since a method would lend the
/// variable.
pub fn tell_all<T: Tell>(values: &[T], text: &mut String) -> Told {
    for value in values {
        value.tell(text)?;
    }
    Ok(())
}

/// Tells a list in brackets, where it isn't empty.
pub fn tell_enclosed<T: Tell>(values: &[T], text: &mut String) -> Told {
    if values.is_empty() {
        return Ok(());
    }
    text.push_str("( ")?;
    tell_all(values, text)?;
    text.push_str(") ")
}

impl<T: Tell> Tell for Vec<T> {
    fn tell(&self, text: &mut String) -> Told {
        self.as_slice().tell(text)
    }
}

impl<T: Tell> Tell for Items<T> {
    fn tell(&self, text: &mut String) -> Told {
        for value in self {
            value.tell(text)?;
        }
        Ok(())
    }
}

impl<T: Tell + Eq + Hash> Tell for KeySet<T> {
    fn tell(&self, text: &mut String) -> Told {
        self.as_slice().tell(text)
    }
}

/// Each key, and then its value.
impl<K: Tell + Eq + Hash, V: Tell> Tell for Table<K, V> {
    fn tell(&self, text: &mut String) -> Told {
        for (key, value) in self.iter() {
            key.tell(text)?;
            value.tell(text)?;
        }
        Ok(())
    }
}

/// A list in brackets, where it isn't empty.
#[derive(Clone, Copy)]
pub struct Enclosed<'a, T>(pub &'a Items<T>);

impl<'a, T: Tell> Tell for Enclosed<'a, T> {
    fn tell(&self, text: &mut String) -> Told {
        tell_enclosed(self.0.as_slice(), text)
    }
}
