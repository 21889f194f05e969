//! A schema's write-out, built again.
ghost use Rattle.std.specs.Prelude.{◌≡◌, [], false, true, Err, IfOk};
ghost use Rattle.apollo_schema_laws.specs.WrittenAgain.{written_again};
ghost use Rattle.apollo_meaning.specs.Faults.ListFaults.{faults_of};
ghost use Rattle.apollo_meaning.specs.Order.SpentIds.{SpendsIds};
ghost use Rattle.apollo_schema.specs.MeantSchema.{MeansSchema};
ghost use Rattle.apollo_schema.specs.SchemaWriteOut.{write_schema};

use crate::building::build_prepared;
use crate::compile_error::CompileError;
use crate::compile_options::CompileOptions;
use crate::prepared::Prepared;
use apollo_meaning::build_error::Faults;
use apollo_schema::schema::Schema;
use graphql_ast::definition::Definition;
use graphql_ast::document::Document;
use graphql_nodes::collections::items::Items;
use std::alloc::{AllocError, Global};
use std::slice;

/// A schema as syntax, and what is built of that.
#[derive(Drop)]
pub(crate) struct Rebuilt {
    pub ast: Vec<Definition>,
    pub schema: Schema,
    pub faults: Faults,
    pub ast_again: Vec<Definition>,
}

/// The write-out of a schema, as one document without sources.
fn written(alloc: Global, schema: &Schema) -> Result<Document, AllocError>
    ensures definitions { IfOk result (λ document. document.definitions ≡ write_schema schema.now) }
    ensures sources { IfOk result (λ document. document.sources ≡ []) }
{
    let definitions = schema.to_ast(alloc)?;
    let mut document = Document::new(alloc);
    document.definitions = Items::from_vec(definitions);
    Ok(document)
}

/// The write-out of a schema, and the schema that is built of that alone, with adoption and numbers from 0.
/// An extension of a built-in type has no definition in a write-out, and neither has one of a schema whose
/// definition is implied.
///
/// `Memory` is out of memory; `ExtensionIds` comes only where the numbers don't suffice for the extensions of
/// the write-out.
pub(crate) fn rebuild(
    alloc: Global,
    prepared: &Prepared,
    schema: &Schema,
) -> Result<Rebuilt, CompileError>
    ensures ast { IfOk result (λ rebuilt. rebuilt.ast.items ≡ write_schema schema.now) }
    ensures means { IfOk result (λ rebuilt.
        MeansSchema 0 true (written_again false schema.now) rebuilt.schema) }
    ensures sources { IfOk result (λ rebuilt. rebuilt.schema.sources ≡ []) }
    ensures faults { IfOk result (λ rebuilt. rebuilt.faults.items
        ≡ faults_of true (written_again false schema.now)) }
    ensures ast_again { IfOk result (λ rebuilt. rebuilt.ast_again.items ≡ write_schema rebuilt.schema) }
    ensures spent { result ≡ Err CompileError.ExtensionIds
        → SpendsIds 0 true (written_again false schema.now) }
{
    let options = CompileOptions {
        adopt_orphan_extensions: true,
        ignore_builtin_redefinitions: false,
    };
    let document = written(alloc, schema)?;
    let (again, faults) = build_prepared(alloc, prepared, options, slice::from_ref(&document))?;
    let ast_again = again.to_ast(alloc)?;
    Ok(Rebuilt {
        ast: document.definitions.into_vec(),
        schema: again,
        faults,
        ast_again,
    })
}
