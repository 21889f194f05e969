//! Texts of names.
ghost use Rattle.std.specs.Prelude.{◌≡◌, IfOk};
ghost use Rattle.graphql_nodes.specs.NameTexts.{name_text};

use arrayvec::ArrayString;
use std::alloc::{AllocError, Global};

/// The text of a name. A short one, as most are, stands in the block that copies of the name share, and takes
/// no further memory.
#[derive(Drop)]
pub(crate) enum NameText {
    Short(ArrayString<24>),
    Long(String),
}

impl NameText {
    /// A copy of a text. The error is out of memory, which a short text can't have.
    pub fn from_str(alloc: Global, text: &str) -> Result<NameText, AllocError>
        ensures { IfOk result (λ copy. name_text copy ≡ text.now) }
    {
        match ArrayString::from(text) {
            Ok(short) => Ok(NameText::Short(short)),
            Err(_) => Ok(NameText::Long(String::from_str(alloc, text)?)),
        }
    }

    /// The text.
    pub fn as_str(&self) -> &str
        ensures { result.now ≡ name_text self.now }
    {
        match self {
            NameText::Short(text) => text.as_str(),
            NameText::Long(text) => text.as_str(),
        }
    }
}
