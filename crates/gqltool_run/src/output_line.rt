//! Lines of output.
ghost use Rattle.std.specs.Prelude.{◌≡◌, ◌++◌, OnOk, codes, string_bytes};

use std::alloc::AllocError;

/// Adds the line of two texts. The error is out of memory.
pub fn push_line(text: &mut String, first: &str, second: &str) -> Result<(), AllocError>
    ensures { OnOk result (string_bytes text.new
        ≡ string_bytes text.old ++ (first.now ++ (second.now ++ codes "\n"))) }
{
    text.push_str(first)?;
    text.push_str(second)?;
    text.push_str("\n")
}
