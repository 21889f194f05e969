//! The files of the system.

use crate::file_error::FileError;
use crate::files::Files;
use crate::texts::{read_text, refusal};
use std::alloc::Global;
use std::fs::{self, File, FileType};
use std::io::{self, ErrorKind};
use std::os::unix::fs::FileTypeExt;

/// A file has so many bytes at most, 4 GiB less one: places in texts are numbers below that.
const MOST_BYTES: u64 = 0xffff_ffff;

/// The files of the system. Nothing is known of them before they are read, and reading may fail at any time.
/// A file may not be there, it may be a folder, or this process may not read it. A device and a file of 4 GiB
/// or more are refused, and a pipe is read to its end.
#[derive(Clone, Copy)]
pub struct SystemFiles<'a, R>(pub &'a R);

impl<R: fs::Files> Files for SystemFiles<'_, R> {
    ghost use Rattle.std.specs.Prelude.{⊤};

    ghost holds = { λ _ _ _. ⊤ };

    ghost may_fail = { λ _ _. ⊤ };

    fn read(&self, alloc: Global, path: &str) -> Result<String, FileError> {
        match open_to_end(self.0, path) {
            Ok(mut file) => read_text(alloc, &mut file),
            Err(error) => Err(refusal(error)),
        }
    }
}

/// Opens what can be read to its end.
fn open_to_end<R: fs::Files>(files: &R, path: &str) -> io::Result<R::File> {
    let metadata = fs::metadata(files, path)?;
    let kind = metadata.file_type();
    if kind.is_dir() {
        return Err(io::Error::new(ErrorKind::IsADirectory, "a folder, and no file"));
    }
    if is_device(&kind) {
        return Err(io::Error::new(ErrorKind::InvalidInput, "a device, and no file"));
    }
    if metadata.len() > MOST_BYTES {
        return Err(io::Error::new(ErrorKind::FileTooLarge, "4 GiB or more"));
    }
    File::open(files, path)
}

/// Whether what is read may have no end, or can't be opened.
fn is_device(kind: &FileType) -> bool {
    kind.is_char_device() || kind.is_block_device() || kind.is_socket()
}
