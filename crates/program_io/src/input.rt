//! Inputs that are read as a whole.

use crate::file_error::FileError;
use crate::texts::{copied, refusal};
use std::alloc::Global;
use std::io::Read;

/// What is read as a whole: any reader, or [`BytesInMemory`].
///
/// The contract of `Read` has no word for a reader that fails. Here there is one, so that whoever reads an
/// input can say that nothing else keeps it from being read.
pub trait Input {
    ghost use Rattle.std.specs.Prelude.{ℕ, List, IfErr, IfOk};
    ghost use Rattle.program_io.specs.Files.{IsReadCause};

    // Reading may give these bytes.
    ghost holds: { Self → List ℕ → Type 0 };

    // Reading may fail.
    ghost may_fail: { Self → Type 0 };

    /// All bytes that there are to read. The error is `Memory` where memory ran out, and `CannotRead` where
    /// reading fails. There is no other error. What was read is then dropped.
    fn read_all(&mut self, alloc: Global) -> Result<Vec<u8>, FileError>
        ensures bytes { IfOk result (λ bytes. holds self.old bytes.items) }
        ensures causes { IfErr result (IsReadCause (may_fail self.old)) };
}

/// Any reader may fail at any time, so nothing says that `CannotRead` doesn't come.
impl<R: Read> Input for R {
    ghost use Rattle.std.specs.Prelude.{◌≡◌, IfSome, ⊤};

    ghost holds = { λ reader bytes. IfSome (R.remaining reader) (λ left. bytes ≡ left) };

    ghost may_fail = { λ _. ⊤ };

    fn read_all(&mut self, alloc: Global) -> Result<Vec<u8>, FileError> {
        let mut bytes = Vec::new(alloc);
        match self.read_to_end(&mut bytes) {
            Ok(_) => Ok(bytes),
            Err(error) => Err(refusal(error)),
        }
    }
}

/// Bytes in memory, of which reading fails only where memory runs out.
#[derive(Debug, Clone, Copy)]
pub struct BytesInMemory<'a>(pub &'a [u8]);

impl Input for BytesInMemory<'_> {
    ghost use Rattle.std.specs.Prelude.{◌≡◌};

    ghost holds = { λ input bytes. bytes ≡ input.0.now };

    ghost may_fail = { λ _. ⊥ };

    fn read_all(&mut self, alloc: Global) -> Result<Vec<u8>, FileError> {
        copied(alloc, self.0)
    }
}
