//! The calls that read an answer and close it, as C has them.
ghost use Rattle.std.specs.Prelude.{◌≡◌, None, Some, codes};
ghost use Rattle.std.specs.Option.{option_map};
ghost use Rattle.peglinden_c.specs.Buffers.{IsCopied};
ghost use Rattle.peglinden_c.specs.Kept.{errors_held, output_held, status_said};

use crate::copying::copy_text;
use crate::handle::PegAnswer;
use crate::opening::MISUSE;
use std::alloc::Global;

/// The version of the library.
const VERSION: &str = "0.1.0";

/// The status with which the program would exit: 0, 1 or 2. Of a closed answer it is 6.
#[unsafe(no_mangle)]
pub extern "C" fn peg_status(alloc: Global, answer: &mut PegAnswer) -> i32
    ensures kept { answer.new.slot.held ≡ answer.old.slot.held }
    ensures status { result ≡ status_said answer.old.slot.held }
{
    let Some(held) = answer.take(alloc) else {
        return MISUSE;
    };
    let status = held.status();
    *answer = PegAnswer::of(held);
    status
}

/// Copies what the program would write on standard output into a buffer.
#[unsafe(no_mangle)]
pub extern "C" fn peg_output(
    alloc: Global,
    answer: &mut PegAnswer,
    buffer: &mut [u8],
    needed: &mut usize,
) -> i32
    ensures kept { answer.new.slot.held ≡ answer.old.slot.held }
    ensures copied { IsCopied (option_map output_held answer.old.slot.held) result buffer.old buffer.new
        needed.new }
{
    *needed = 0;
    let Some(held) = answer.take(alloc) else {
        return MISUSE;
    };
    let said = copy_text(held.output(), buffer, needed);
    *answer = PegAnswer::of(held);
    said
}

/// Copies what the program would write on standard error into a buffer.
#[unsafe(no_mangle)]
pub extern "C" fn peg_errors(
    alloc: Global,
    answer: &mut PegAnswer,
    buffer: &mut [u8],
    needed: &mut usize,
) -> i32
    ensures kept { answer.new.slot.held ≡ answer.old.slot.held }
    ensures copied { IsCopied (option_map errors_held answer.old.slot.held) result buffer.old buffer.new
        needed.new }
{
    *needed = 0;
    let Some(held) = answer.take(alloc) else {
        return MISUSE;
    };
    let said = copy_text(held.errors(), buffer, needed);
    *answer = PegAnswer::of(held);
    said
}

/// Closes an answer. One that is closed stays so.
#[unsafe(no_mangle)]
pub extern "C" fn peg_close(alloc: Global, answer: &mut PegAnswer)
    ensures { answer.new.slot.held ≡ None }
{
    drop(answer.take(alloc));
}

/// Copies the version of the library into a buffer.
#[unsafe(no_mangle)]
pub extern "C" fn peg_version(buffer: &mut [u8], needed: &mut usize) -> i32
    ensures { IsCopied (Some (codes "0.1.0")) result buffer.old buffer.new needed.new }
{
    copy_text(VERSION, buffer, needed)
}
