//! What is done alike with each field of a value, or with what each variant holds.

/// Takes a value of `Self` apart by its fields, which are named, and drops each: the body of a `Drop` by
/// hand. A derived one is proved anew in each crate that drops the type, at each exit of each function.
#[macro_export]
macro_rules! take_apart {
    ($value:ident: $($field:ident),*) => { let Self { $($field: _),* } = $value; };
}

/// A clone of a value of `Self` by its fields, which are named: the body of a `Clone` by hand. The error is
/// out of memory.
#[macro_export]
macro_rules! clone_fields {
    ($value:ident: $($field:ident),*) => { Ok(Self { $($field: $value.$field.clone()?),* }) };
}

/// What is made of what a value of `Self` holds, whichever of these variants it is: a `match` with an arm
/// for each.
#[macro_export]
macro_rules! of_variants {
    ($value:expr, $held:ident => $made:expr; $($variant:ident),*) => {
        match $value { $(Self::$variant($held) => $made),* }
    };
}
