//! How `new` makes parts of trees.

/// A value of `Self` that has the fields before the `;` and is else empty: without description, where it has
/// one, without directives, and with empty lists.
macro_rules! else_empty {
    ($alloc:ident: $($given:ident),*; description, directives $(, $list:ident)*) => {
        Self {
            description: None,
            directives: DirectiveList::new($alloc),
            $($given,)*
            $($list: Items::new($alloc),)*
        }
    };
    ($alloc:ident: $($given:ident),*; directives $(, $list:ident)*) => {
        Self {
            directives: DirectiveList::new($alloc),
            $($given,)*
            $($list: Items::new($alloc),)*
        }
    };
}

pub(crate) use else_empty;
