//! Why a file is no document.
ghost use Rattle.std.specs.Prelude.{Some};
ghost use Rattle.apollo_compiler.specs.FileRefusals.{refusal_about, refusal_details};

use apollo_reporting::{About, Detail, Reported};
use graphql_nodes::collections::text::Text;
use graphql_nodes::source::SourceSpan;
use graphql_text::parse_error::ParseErrorKind;
use program_io::file_error::FileError;
use std::alloc::{AllocError, Global};
use thiserror::Error;

/// Why a file is no document. `Display` says it in a sentence.
#[derive(Debug, Drop, Error)]
pub enum FileRefusal {
    /// The file of this path can't be read, and why.
    #[error("cannot read `{path}`: {why}")]
    Unread { path: Text, why: FileError },
    /// What is wrong with its text first.
    #[error("{0}")]
    Text(ParseErrorKind),
}

/// Why a file is refused, and the place in its text that it is about. A file that can't be read has none.
pub type RefusedFile = (Option<SourceSpan>, FileRefusal);

/// It has no earlier place and no path of a selection. The details of a file that can't be read are its path,
/// under `unread`. Those of a text are the fields of the variant of its kind.
impl Reported for FileRefusal {
    ghost said_about = { refusal_about };

    ghost said_details = { λ refusal. Some (refusal_details refusal) };

    fn about(&self) -> About<'_> {
        match self {
            FileRefusal::Unread { .. } => About::new("Unread"),
            FileRefusal::Text(kind) => kind.about(),
        }
    }

    fn details(&self, alloc: Global) -> Result<Vec<Detail>, AllocError> {
        match self {
            FileRefusal::Unread { path, .. } => {
                let unread = Detail::text(alloc, "unread", path.as_str())?;
                Ok(vec![in alloc; unread]?)
            }
            FileRefusal::Text(kind) => kind.details(alloc),
        }
    }
}
