//! Documents that are compiled in one call: `compile`.

use crate::inputs::Input;
use crate::stop::{Stop, Told};
use apollo_compiler::{CompileError, CompileOptions, Compiled, Document, compile};
use bench_notation::documents::{read, read_divided};
use std::alloc::{AllocError, Global};
use telling::Tell;

fn push_schemas(text: &mut String, compiled: &Compiled) -> Result<(), AllocError> {
    compiled.schema.tell(text)?;
    compiled.schema_faults.tell(text)?;
    compiled.ast.tell(text)?;
    compiled.rebuilt.tell(text)?;
    compiled.rebuilt_faults.tell(text)?;
    compiled.rebuilt_ast.tell(text)
}

fn push_document(text: &mut String, compiled: &Compiled) -> Result<(), AllocError> {
    compiled.document.tell(text)?;
    compiled.document_faults.tell(text)?;
    compiled.erased.tell(text)
}

fn tell_compiled(
    alloc: Global,
    text: &mut String,
    adopts: bool,
    schema: &[Document],
    executable: &[Document],
) -> Told {
    let options = CompileOptions {
        adopt_orphan_extensions: adopts,
        ignore_builtin_redefinitions: false,
    };
    match compile(alloc, options, schema, executable, true) {
        Ok(compiled) => {
            push_schemas(text, &compiled)?;
            Ok(push_document(text, &compiled)?)
        }
        Err(CompileError::Memory) => Err(Stop::Memory),
        Err(CompileError::ExtensionIds) => Err(Stop::Wrong("a source was spent")),
    }
}

/// Documents of the type system.
pub fn tell_schemas(alloc: Global, text: &mut String, input: Input) -> Told {
    let documents = read(alloc, input.text)?;
    tell_compiled(alloc, text, input.adopts, documents.as_slice(), &[])
}

/// Documents of both sorts.
pub fn tell_documents(alloc: Global, text: &mut String, input: Input) -> Told {
    let documents = read_divided(alloc, input.text)?;
    let (schema, executable) = (documents.schema.as_slice(), documents.executable.as_slice());
    tell_compiled(alloc, text, input.adopts, schema, executable)
}
