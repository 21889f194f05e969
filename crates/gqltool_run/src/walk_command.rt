//! The command `walk`.
ghost use Rattle.std.specs.Prelude.{◌≡◌, ◌++◌, ℕ, Bool, List, [], map, IfErr, IfOk, OnErr, OnOk, codes};
ghost use Rattle.std.specs.Prelude.{string_bytes};
ghost use Rattle.bench_notation.specs.HeaderWords.{name_word};
ghost use Rattle.apollo_executable.specs.Operations.{all_operations};
ghost use Rattle.apollo_executable.specs.Walks.WalkView.{IsNewWalk, TakesAllTurns};
ghost use Rattle.apollo_executable.specs.declared.document.ExecutableDocument.{ExecutableDocument};
ghost use Rattle.apollo_executable.specs.declared.selection.SelectionSet.{SelectionSet};
ghost use Rattle.program_io.specs.Writing.{GoesOut, IsBegun};
ghost use Rattle.gqltool_run.specs.Pieces.{IsCutShort, IsSaid};
ghost use Rattle.gqltool_run.specs.Prepared.{AreLinesOf, has_fault};
ghost use Rattle.gqltool_run.specs.WalkCommand.{AreSetsText, AreWalksText, IsSetText, IsWalkText};
ghost use Rattle.gqltool_run.specs.WalkCommand.{fragment_with_line, operation_line, operation_with_line};
ghost use Rattle.gqltool_run.specs.WalkCommand.{turns_line};

use crate::answer::Answer;
use crate::document_building::has_faults;
use crate::failure::Failure;
use crate::fault_printing::say_faults;
use crate::leaving::leave_to_exit;
use crate::outlet::{CutShort, Kept, Outlet};
use crate::output_line::push_line;
use apollo_compiler::compile_error::CompileError;
use apollo_compiler::compiled::Compiled;
use apollo_executable::document::ExecutableDocument;
use apollo_executable::operation::Operation;
use apollo_executable::selection::{Field, SelectionSet};
use apollo_executable::walks::field_walk::FieldWalk;
use apollo_walks::laws::{walks_reach_each_field_once, walks_take_few_turns};
use graphql_nodes::node::Node;
use std::alloc::{AllocError, Global};

/// The answer of `walk` on what an input is compiled to. For each operation and then each fragment of the
/// typed document it has the lines of its walks. Then comes a line for each fault of the schema, and then one
/// for each fault of the document.
///
/// Its text goes out while it is made, and what is still held of it is answered. The error is out of memory,
/// or the outlet's: then a beginning of the text went out.
pub(crate) fn walk_answer<O: Outlet>(
    alloc: Global,
    compiled: &Compiled,
    outlet: &mut O,
) -> Result<Answer, CutShort>
    ensures said { IfOk result (λ answer.
        IsSaid (AreLinesOf compiled.now) (O.sent outlet.old) (O.sent outlet.new) []
        (string_bytes answer.text)) }
    ensures faults { IfOk result (λ answer. answer.has_faults ≡ has_fault compiled.now) }
    ensures begun { OnErr result
        (IsCutShort (AreLinesOf compiled.now) (O.sent outlet.old) (O.sent outlet.new) []) }
{
    let mut text = String::new(alloc);
    push_walks(alloc, &mut text, outlet, &compiled.document)?;
    say_faults(alloc, &mut text, outlet, compiled.schema_faults.as_slice())?;
    let faults = compiled.document_faults.as_slice();
    say_faults(alloc, &mut text, outlet, faults)?;
    Ok(Answer {
        text,
        has_faults: has_faults(compiled),
    })
}

/// The same answer with its whole text. The error is out of memory. What the input was compiled to is left to
/// the end of the process, but after the error.
pub(crate) fn whole_walk_answer(alloc: Global, compiled: Compiled) -> Result<Answer, Failure>
    ensures text { IfOk result (λ answer. AreLinesOf compiled (string_bytes answer.text)) }
    ensures faults { IfOk result (λ answer. answer.has_faults ≡ has_fault compiled) }
    ensures memory { IfErr result (λ failure. failure ≡ Failure.Exhausted CompileError.Memory) }
{
    match walk_answer(alloc, &compiled, &mut Kept) {
        Ok(answer) => {
            leave_to_exit(compiled);
            Ok(answer)
        }
        // Nothing goes out, so only memory can run out.
        Err(_) => Err(Failure::Exhausted(CompileError::Memory)),
    }
}

/// Each walk over a set takes some number of turns, and the walks over each set have lines.
fn walks_have_texts()
    ensures turns { (deep : Bool) (document : ExecutableDocument) (set : SelectionSet)
        → (turns : ℕ) × TakesAllTurns deep document set turns }
    ensures texts { (document : ExecutableDocument) (set : SelectionSet)
        → (text : List ℕ) × IsSetText document set text }
{
    walks_reach_each_field_once::<Node<Field>>();
    walks_take_few_turns::<Node<Field>>();
}

/// Adds a line, and lets the text out where it has grown long.
fn say_line<O: Outlet>(
    text: &mut String,
    outlet: &mut O,
    first: &str,
    second: &str,
) -> Result<(), CutShort>
    ensures held { OnOk result
        (GoesOut (string_bytes text.old ++ (first.now ++ (second.now ++ codes "\n"))) (O.sent outlet.old)
        (O.sent outlet.new) (string_bytes text.new)) }
    ensures begun { OnErr result
        (IsBegun (string_bytes text.old ++ (first.now ++ (second.now ++ codes "\n"))) (O.sent outlet.old)
        (O.sent outlet.new)) }
{
    push_line(text, first, second)?;
    outlet.let_out(text)
}

/// Adds the walks of all operations and fragments.
fn push_walks<O: Outlet>(
    alloc: Global,
    text: &mut String,
    outlet: &mut O,
    document: &ExecutableDocument,
) -> Result<(), CutShort>
    ensures said { OnOk result
        (IsSaid (AreWalksText document.now) (O.sent outlet.old) (O.sent outlet.new) (string_bytes text.old)
        (string_bytes text.new)) }
    ensures begun { OnErr result
        (IsCutShort (AreWalksText document.now) (O.sent outlet.old) (O.sent outlet.new)
        (string_bytes text.old)) }
{
    walks_have_texts();
    push_operations(alloc, text, outlet, document)?;
    push_fragments(alloc, text, outlet, document)
}

/// Adds the walks of all operations, each below its line.
fn push_operations<O: Outlet>(
    alloc: Global,
    text: &mut String,
    outlet: &mut O,
    document: &ExecutableDocument,
) -> Result<(), CutShort>
    ensures said { OnOk result
        (IsSaid (AreSetsText document.now
        (map operation_with_line (all_operations document.now.operations))) (O.sent outlet.old)
        (O.sent outlet.new) (string_bytes text.old) (string_bytes text.new)) }
    ensures begun { OnErr result
        (IsCutShort (AreSetsText document.now
        (map operation_with_line (all_operations document.now.operations))) (O.sent outlet.old)
        (O.sent outlet.new) (string_bytes text.old)) }
{
    walks_have_texts();
    for operation in document.operations.iter() {
        push_operation_line(text, operation)?;
        push_set(alloc, text, outlet, document, &operation.selection_set)?;
    }
    Ok(())
}

/// Adds the walks of all fragments, each below its line.
fn push_fragments<O: Outlet>(
    alloc: Global,
    text: &mut String,
    outlet: &mut O,
    document: &ExecutableDocument,
) -> Result<(), CutShort>
    ensures said { OnOk result
        (IsSaid (AreSetsText document.now (map fragment_with_line document.now.fragments))
        (O.sent outlet.old) (O.sent outlet.new) (string_bytes text.old) (string_bytes text.new)) }
    ensures begun { OnErr result
        (IsCutShort (AreSetsText document.now (map fragment_with_line document.now.fragments))
        (O.sent outlet.old) (O.sent outlet.new) (string_bytes text.old)) }
{
    walks_have_texts();
    for (name, fragment) in document.fragments.iter() {
        push_line(text, "walk fragment ", name.as_str())?;
        push_set(alloc, text, outlet, document, &fragment.selection_set)?;
    }
    Ok(())
}

/// Adds the line of an operation.
fn push_operation_line(text: &mut String, operation: &Operation) -> Result<(), AllocError>
    ensures { OnOk result (string_bytes text.new ≡ string_bytes text.old ++ operation_line operation.now) }
{
    text.push_str("walk operation ")?;
    text.push_str(operation.operation_type.name())?;
    push_line(text, " ", name_word(operation))
}

/// The name of an operation, or `-` where it has none.
fn name_word(operation: &Operation) -> &str
    ensures { result.now ≡ name_word operation.now.name }
{
    match &operation.name {
        Some(name) => name.as_str(),
        None => "-",
    }
}

/// Adds the lines of the walk over root fields of a set, and those of the walk over all of its fields.
fn push_set<O: Outlet>(
    alloc: Global,
    text: &mut String,
    outlet: &mut O,
    document: &ExecutableDocument,
    set: &SelectionSet,
) -> Result<(), CutShort>
    ensures said { OnOk result
        (IsSaid (IsSetText document.now set.now) (O.sent outlet.old) (O.sent outlet.new)
        (string_bytes text.old) (string_bytes text.new)) }
    ensures begun { OnErr result
        (IsCutShort (IsSetText document.now set.now) (O.sent outlet.old) (O.sent outlet.new)
        (string_bytes text.old)) }
{
    walks_have_texts();
    push_walk(
        alloc,
        text,
        outlet,
        document,
        set,
        false,
        "root ",
        "root-turns ",
    )?;
    push_walk(
        alloc,
        text,
        outlet,
        document,
        set,
        true,
        "all ",
        "all-turns ",
    )
}

/// A walk over a set, below fields too if it is `deep`.
fn walk_over<'doc>(
    alloc: Global,
    document: &'doc ExecutableDocument,
    set: &'doc SelectionSet,
    deep: bool,
) -> FieldWalk<'doc>
    ensures { IsNewWalk deep document.now set.now result }
{
    if deep {
        set.all_fields(alloc, document)
    } else {
        set.root_fields(alloc, document)
    }
}

/// Adds the lines of a walk over a set: `word` stands before the key of each field, and `turns_word` before
/// the turns.
fn push_walk<O: Outlet>(
    alloc: Global,
    text: &mut String,
    outlet: &mut O,
    document: &ExecutableDocument,
    set: &SelectionSet,
    deep: bool,
    word: &str,
    turns_word: &str,
) -> Result<(), CutShort>
    ensures said { OnOk result
        (IsSaid (IsWalkText deep word.now turns_word.now document.now set.now) (O.sent outlet.old)
        (O.sent outlet.new) (string_bytes text.old) (string_bytes text.new)) }
    ensures begun { OnErr result
        (IsCutShort (IsWalkText deep word.now turns_word.now document.now set.now) (O.sent outlet.old)
        (O.sent outlet.new) (string_bytes text.old)) }
{
    walks_have_texts();
    let mut walk = walk_over(alloc, document, set, deep);
    while let Some(field) = walk.next() {
        say_line(text, outlet, word, field?.response_key().as_str())?;
    }
    say_turns(alloc, text, outlet, turns_word, walk.turns())
}

/// Adds the line of a number of turns, and lets the text out where it has grown long.
fn say_turns<O: Outlet>(
    alloc: Global,
    text: &mut String,
    outlet: &mut O,
    word: &str,
    turns: u64,
) -> Result<(), CutShort>
    ensures held { OnOk result
        (GoesOut (string_bytes text.old ++ turns_line word.now turns) (O.sent outlet.old)
        (O.sent outlet.new) (string_bytes text.new)) }
    ensures begun { OnErr result
        (IsBegun (string_bytes text.old ++ turns_line word.now turns) (O.sent outlet.old)
        (O.sent outlet.new)) }
{
    let number = turns.to_string(alloc)?;
    say_line(text, outlet, word, number.as_str())
}
