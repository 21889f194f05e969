//! Files by their paths: those of the system, and files in memory. A caller can make others by [`Files`].

pub use crate::file_refusal::{FileRefusal, RefusedFile};
pub use program_io::file_error::FileError;
pub use program_io::files::Files;
pub use program_io::in_memory::FilesInMemory;
pub use program_io::system::SystemFiles;
