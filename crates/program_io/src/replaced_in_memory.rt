//! Texts in memory that replace those of files.
ghost use Rattle.std.specs.Prelude.{◌≡◌, IfOk, string_bytes};

use crate::file_error::FileError;
use crate::replacing::Replacing;
use std::alloc::{AllocError, Global};

/// The paths of files that were replaced, each with its new text, in the order of the calls. Replacing fails
/// only where memory runs out.
#[derive(Debug, Drop)]
pub struct ReplacedInMemory(pub Vec<(String, String)>);

impl Replacing for ReplacedInMemory {
    ghost use Rattle.std.specs.Prelude.{Some};
    ghost use Rattle.program_io.specs.Replaced.{as_bytes};

    ghost replaced = { λ it. Some (as_bytes it.0.items) };

    #[tactic(auto, using(crate::proofs::ReplacedLemmas::pair_more))]
    fn replace(&mut self, alloc: Global, path: &str, text: &str) -> Result<(), FileError> {
        let Ok(pair) = owned_pair(alloc, path, text) else {
            return Err(FileError::Memory);
        };
        match self.0.push(pair) {
            Ok(()) => Ok(()),
            Err(_) => Err(FileError::Memory),
        }
    }
}

/// A path and a text, in memory of their own. The error is out of memory.
fn owned_pair(alloc: Global, path: &str, text: &str) -> Result<(String, String), AllocError>
    ensures { IfOk result (λ pair. (string_bytes pair.0 ≡ path.now) × (string_bytes pair.1 ≡ text.now)) }
{
    let path = String::from_str(alloc, path)?;
    let text = String::from_str(alloc, text)?;
    Ok((path, text))
}
