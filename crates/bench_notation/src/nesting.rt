//! Lines of selections as trees.
ghost use Rattle.std.specs.Prelude.{◌≡◌, ℕ, ◌+◌, ◌-◌, ◌<◌, ◌≤◌, List, [], ◌∷◌, length, IfOk, OnOk};
ghost use Rattle.bench_notation.specs.Nesting.{selections_at};
ghost use Rattle.bench_notation.specs.OpenSelections.{combined};
ghost use Rattle.bench_notation.specs.declared.selection_line.SelectionLine.{SelectionLine};

use crate::selection_line::SelectionLine;
use graphql_ast::selection::Selection;
use graphql_nodes::collections::items::Items;
use graphql_nodes::take_apart;
use std::alloc::{AllocError, Global};
use std::mem;

/// A selection that may still get selections of its own.
struct OpenSelection {
    /// The selections before it, of its depth.
    before: Items<Selection>,
    line: SelectionLine,
}

impl Drop for OpenSelection {
    fn drop(self) {
        take_apart!(self: before, line);
    }
}

impl OpenSelection {
    ghost use Rattle.std.specs.Prelude.{◌++◌};
    ghost use Rattle.bench_notation.specs.Nesting.{selection_of};

    /// The selections of its depth up to its own, which has these.
    fn close(
        self,
        alloc: Global,
        selections: Items<Selection>,
    ) -> Result<Items<Selection>, AllocError>
        ensures { IfOk result (λ all. all ≡ self.before ++ selection_of self.line selections ∷ []) }
    {
        let OpenSelection { mut before, line } = self;
        before.push(line.into_selection(alloc, selections)?)?;
        Ok(before)
    }
}

/// The selections that the lines so far say.
struct Nesting {
    /// The open selections, each in the one before it.
    path: Vec<OpenSelection>,
    /// The selections of the last open one, or those of no other where none is open.
    selections: Items<Selection>,
}

impl Drop for Nesting {
    fn drop(self) {
        take_apart!(self: path, selections);
    }
}

impl Nesting {
    fn new(alloc: Global) -> Nesting
        ensures { (lines : List SelectionLine) → combined result lines ≡ selections_at 0 lines }
    {
        Nesting {
            path: Vec::new(alloc),
            selections: Items::new(alloc),
        }
    }

    /// Adds what a line says. One that is too deep for what stands above it adds nothing.
    fn add(&mut self, alloc: Global, line: SelectionLine) -> Result<(), AllocError>
        ensures { OnOk result ((lines : List SelectionLine)
            → combined self.new lines ≡ combined self.old (line ∷ lines)) }
    {
        let depth = usize::from(line.depth);
        self.close_to(alloc, depth)?;
        if self.path.len() < depth {
            return Ok(());
        }
        let before = mem::replace(&mut self.selections, Items::new(alloc));
        self.path.push(OpenSelection { before, line })?;
        Ok(())
    }

    /// Closes all but the outermost selections, of which at most so many stay open.
    fn close_to(&mut self, alloc: Global, most: usize) -> Result<(), AllocError>
        ensures most { OnOk result (length self.new.path.items ≤ most) }
        ensures same { OnOk result ((lines : List SelectionLine)
            → ((depth : ℕ) → most < depth → selections_at depth lines ≡ [])
            → combined self.new lines ≡ combined self.old lines) }
    {
        while self.path.len() > most {
            self.close_last(alloc)?;
        }
        Ok(())
    }

    /// Closes the last open selection, if there is one.
    fn close_last(&mut self, alloc: Global) -> Result<(), AllocError>
        ensures one { OnOk result (length self.new.path.items ≡ length self.old.path.items - 1) }
        ensures same { OnOk result ((lines : List SelectionLine)
            → selections_at (length self.old.path.items) lines ≡ []
            → combined self.new lines ≡ combined self.old lines) }
    {
        let Some(last) = self.path.pop() else {
            return Ok(());
        };
        let selections = mem::replace(&mut self.selections, Items::new(alloc));
        self.selections = last.close(alloc, selections)?;
        Ok(())
    }

    /// The selections of no other, once all are closed.
    fn finish(&mut self, alloc: Global) -> Result<Items<Selection>, AllocError>
        ensures { IfOk result (λ selections. selections ≡ combined self.old []) }
    {
        self.close_to(alloc, 0)?;
        Ok(mem::replace(&mut self.selections, Items::new(alloc)))
    }
}

/// The selections that lines say. One of depth 0 stands in no other. Any other stands in the nearest one
/// above it that is less deep, if that is less deep by one and no spread. Else it is left out, with what
/// stands in it.
///
/// The error is out of memory, and drops the lines.
pub fn nested(alloc: Global, lines: Items<SelectionLine>) -> Result<Items<Selection>, AllocError>
    ensures { IfOk result (λ selections. selections ≡ selections_at 0 lines) }
{
    let mut nesting = Nesting::new(alloc);
    for line in lines.into_vec() {
        nesting.add(alloc, line)?;
    }
    nesting.finish(alloc)
}
