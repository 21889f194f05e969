//! Where a text goes while it is made.
ghost use Rattle.std.specs.Prelude.{◌≡◌};
ghost use Rattle.gqltool_run.specs.declared.outlet.CutShort.{CutShort};

use program_io::writing::write_text;
use std::alloc::AllocError;
use std::io::Write;

/// Why a text is not said to its end.
#[derive(Debug, Clone, Copy)]
pub(crate) enum CutShort {
    /// Out of memory.
    Memory,
    /// The outlet failed.
    NotWritten,
}

impl From<AllocError> for CutShort {
    ghost from_gives = { λ _ cut. cut ≡ CutShort.Memory };

    fn from(_error: AllocError) -> CutShort {
        CutShort::Memory
    }
}

/// So many bytes are a piece, which a writer is given.
const PIECE: usize = 64 * 1024;

/// What lets a long text out while it is made: any writer, or [`Kept`].
pub(crate) trait Outlet {
    ghost use Rattle.std.specs.Prelude.{ℕ, List, Option, OnErr, OnOk, length, string_bytes};
    ghost use Rattle.program_io.specs.Writing.{GoesOut, IsBegun};

    // The bytes that are out, where they are known.
    ghost sent: { Self → Option (List ℕ) };

    // So many bytes may be left in a text.
    ghost may_be_left: { Self → ℕ → Type 0 };

    // It may fail.
    ghost may_fail: { Self → Type 0 };

    /// Lets out the whole text where it has grown long, after which it is empty. The error is the outlet's,
    /// after which a beginning of the text is out.
    fn let_out(&mut self, text: &mut String) -> Result<(), CutShort>
        ensures held { OnOk result
            (GoesOut (string_bytes text.old) (sent self.old) (sent self.new) (string_bytes text.new)) }
        ensures begun { OnErr result (IsBegun (string_bytes text.old) (sent self.old) (sent self.new)) }
        ensures left { OnOk result (may_be_left self.old (length (string_bytes text.new))) }
        ensures causes { OnErr result (may_fail self.old) };
}

/// A writer is given each piece. Any writer may fail at any time.
impl<O: Write> Outlet for O {
    ghost use Rattle.std.specs.Prelude.{◌<◌, ◌*◌, ⊤};

    ghost sent = { O.contents };

    ghost may_be_left = { λ _ bytes. bytes < 64 * 1024 };

    ghost may_fail = { λ _. ⊤ };

    fn let_out(&mut self, text: &mut String) -> Result<(), CutShort> {
        if text.len() < PIECE {
            return Ok(());
        }
        match write_text(self, text.as_str()) {
            Ok(()) => {
                text.clear();
                Ok(())
            }
            Err(_) => Err(CutShort::NotWritten),
        }
    }
}

/// What lets nothing out: the whole text is kept.
#[derive(Drop)]
pub(crate) struct Kept;

impl Outlet for Kept {
    ghost use Rattle.std.specs.Prelude.{[], Some, ⊤};

    ghost sent = { λ _. Some [] };

    ghost may_be_left = { λ _ _. ⊤ };

    ghost may_fail = { λ _. ⊥ };

    fn let_out(&mut self, _text: &mut String) -> Result<(), CutShort> {
        Ok(())
    }
}
