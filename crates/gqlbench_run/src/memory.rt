//! How much memory the process had at its highest.

use std::alloc::Global;
use std::{fs, io};

/// What says how the process stands.
pub trait ProcessStatus {
    /// The text that says it, as Linux writes it in `/proc/self/status`. The error is a system that has
    /// none, or out of memory.
    fn status_text(&self, alloc: Global) -> io::Result<String>;
}

impl ProcessStatus for HostRuntime {
    fn status_text(&self, _alloc: Global) -> io::Result<String> {
        fs::read_to_string(self, "/proc/self/status")
    }
}

/// The kilobytes of memory that the process had at its highest, where the system says so.
pub fn peak_memory<P: ProcessStatus>(alloc: Global, system: &P) -> Option<u64> {
    let status = system.status_text(alloc).ok()?;
    let (_, after) = status.split_once("\nVmHWM:")?;
    let (number, _) = after.split_once(" kB\n")?;
    number.trim_start().parse().ok()
}
