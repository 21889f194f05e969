//! Values written as text, in full and in order: each name, text and number of a tree, each location and
//! origin, and each fault. Two values that differ in any of these are written otherwise. Hash keys are not
//! written, but asked for.
//!
//! No clause: tests compare the texts.
#![tactic(auto)]

use std::alloc::AllocError;

/// Tells the parts one after the other.
macro_rules! tell {
    ($text:expr; $part:expr) => { $part.tell($text) };
    ($text:expr; $part:expr, $($more:expr),+) => {{
        $part.tell($text)?;
        tell!($text; $($more),+)
    }};
}

pub mod components;
pub mod containers;
pub mod faults;
pub mod keys;
pub mod schemas;
pub mod syntax;
pub mod typed;
pub mod walks;

/// What comes of telling. The error is out of memory, which is asked for nothing but the text: where that has
/// room, none is.
pub type Told = Result<(), AllocError>;

/// A value that is written in full.
pub trait Tell {
    /// Adds all of it.
    fn tell(&self, text: &mut String) -> Told;
}
