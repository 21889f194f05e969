//! Files in memory.
ghost use Rattle.std.specs.Prelude.{◌≡◌, is_some};
ghost use Rattle.std.specs.Option.{option_map};
ghost use Rattle.program_io.specs.Files.{bytes_at};

use crate::file_error::FileError;
use crate::files::Files;
use crate::texts::text_of_copy;
use std::alloc::Global;
use std::io::{self, ErrorKind};

/// Files in memory: their paths and their bytes. Of two files of one path the first counts. A path of none is
/// not found; reading a file that is there fails only where it isn't UTF-8, or memory runs out.
#[derive(Clone, Copy)]
pub struct FilesInMemory<'a>(pub &'a [(&'a str, &'a [u8])]);

impl FilesInMemory<'_> {
    /// The bytes of the file of this path.
    fn find(&self, path: &str) -> Option<&[u8]>
        ensures { option_map (λ bytes. bytes.now) result ≡ bytes_at self.now.0.now path.now }
    {
        for file in self.0 {
            if file.0 == path {
                return Some(file.1);
            }
        }
        None
    }

    /// Whether there is a file of this path.
    pub(crate) fn has(&self, path: &str) -> bool
        ensures { result ≡ is_some (bytes_at self.now.0.now path.now) }
    {
        self.find(path).is_some()
    }
}

impl Files for FilesInMemory<'_> {
    ghost use Rattle.std.specs.Prelude.{◌≡◌, None, Some};
    ghost use Rattle.program_io.specs.Files.{bytes_at};

    ghost holds = { λ files path bytes. bytes_at files.0.now path ≡ Some bytes };

    ghost may_fail = { λ files path. bytes_at files.0.now path ≡ None };

    fn read(&self, alloc: Global, path: &str) -> Result<String, FileError> {
        let Some(found) = self.find(path) else {
            return Err(FileError::CannotRead(io::Error::from(ErrorKind::NotFound)));
        };
        text_of_copy(alloc, found)
    }
}
