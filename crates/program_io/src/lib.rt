//! What programs read and write, and how they end. They read files by their paths, and standard input, each
//! as a whole, and list folders. They write texts, to their end or in part, and replace files.
//!
//! Proved: a file is read whole, or refused for a cause; a text is written whole, or a beginning of it where
//! the writer fails. Folders of files in memory have what the paths of the files say.
//!
//! No clause: `open_to_end`, `is_device`, `system_entries`, `entry`, `replace_file`, `folder_of`, `create`,
//! `put` and `fill`, which ask the system, and nothing is known of what that answers.
#![tactic(auto)]

pub mod file_error;
pub mod files;
pub mod folders;
mod folders_in_memory;
pub mod in_memory;
pub mod input;
pub mod replaced_in_memory;
pub mod replacing;
pub mod status;
pub mod system;
mod system_folders;
mod system_replacing;
pub mod texts;
pub mod with_input;
pub mod writing;
