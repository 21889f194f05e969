//! Reading trees from words, one function a production.

/// What is read where this word comes next, and else nothing.
macro_rules! optional {
    ($comes_next:expr, $read:expr) => {
        if $comes_next {
            Ok(Some($read?))
        } else {
            Ok(None)
        }
    };
}

/// What is read first, and what is added to it, as one list.
macro_rules! one_or_more {
    ($target:expr, $first:expr, $items:ident, $add:expr) => {{
        let first = $first?;
        let mut $items = Items::new($target.alloc);
        $items.push(first)?;
        $add?;
        Ok($items)
    }};
}

/// The list that is read where this word comes next, and else none.
macro_rules! optional_list {
    ($target:expr, $comes_next:expr, $read:expr) => {
        if $comes_next {
            $read
        } else {
            Ok(Items::new($target.alloc))
        }
    };
}

/// The node of what is read, at the location of its words.
macro_rules! node {
    ($target:expr, $words:expr; $read:expr) => {{
        let start = $words.start();
        let read = $read;
        $target.node(read, start, $words.last)?
    }};
}

mod bodies;
mod definitions;
mod descriptions;
mod directives;
mod kinds;
mod lists;
mod locations;
mod operations;
mod parts;
mod selections;
mod separated;
pub(crate) mod target;
mod types;
mod values;
pub(crate) mod whole;
