//! The build of a schema from documents.
ghost use Rattle.std.specs.Prelude.{◌≡◌, Err, IfOk};
ghost use Rattle.apollo_meaning.specs.Faults.ListFaults.{faults_of};
ghost use Rattle.apollo_meaning.specs.Order.SpentIds.{SpendsIds};
ghost use Rattle.apollo_schema.specs.MeantSchema.{MeansSchema};
ghost use Rattle.apollo_compiler.specs.Compilation.{AreBuilt};
ghost use Rattle.apollo_compiler.specs.Lists.{all_sources, schema_list};

use crate::compile_error::CompileError;
use crate::compile_options::CompileOptions;
use crate::prepared::Prepared;
use apollo_meaning::build_error::Faults;
use apollo_meaning::laws::a_longer_list_folds_no_less;
use apollo_schema::BuilderError;
use apollo_schema::build_failure::BuildFailure;
use apollo_schema::schema::Schema;
use graphql_ast::document::Document;
use graphql_nodes::collections::hash_keys::HashKeys;
use std::alloc::Global;

/// The schema of the documents with these options, and its faults, as
/// [`SchemaBuilder::build`](apollo_schema::schema_builder::SchemaBuilder::build) gives them. Its extensions
/// are numbered from 0, and its tables hash by these keys. Its sources are those of the documents, merged.
/// Where there are faults, it is what could be built. GraphQL specification of October 2021, section 3.
///
/// `Memory` is out of memory; `ExtensionIds` comes only where the numbers don't suffice for the extensions
/// that are folded. Then all that was built is dropped, and the documents are as they were.
pub fn build_schema(
    alloc: Global,
    keys: HashKeys,
    options: CompileOptions,
    documents: &[Document],
) -> Result<(Schema, Faults), CompileError>
    ensures means { IfOk result (λ built.
        MeansSchema 0 options.adopt_orphan_extensions (schema_list options documents.now) built.0) }
    ensures sources { IfOk result (λ built. built.0.sources ≡ all_sources documents.now) }
    ensures faults { IfOk result (λ built. built.1.items
        ≡ faults_of options.adopt_orphan_extensions (schema_list options documents.now)) }
    ensures spent { result ≡ Err CompileError.ExtensionIds
        → SpendsIds 0 options.adopt_orphan_extensions (schema_list options documents.now) }
{
    let prepared = Prepared::new(alloc, keys)?;
    build_prepared(alloc, &prepared, options, documents)
}

/// The same as [`build_schema`], with the keys of a builder that was prepared.
pub(crate) fn build_prepared(
    alloc: Global,
    prepared: &Prepared,
    options: CompileOptions,
    documents: &[Document],
) -> Result<(Schema, Faults), CompileError>
    ensures built { IfOk result (λ built. AreBuilt options documents.now built.0 built.1.items) }
    ensures spent { result ≡ Err CompileError.ExtensionIds
        → SpendsIds 0 options.adopt_orphan_extensions (schema_list options documents.now) }
{
    a_longer_list_folds_no_less();
    let mut builder = prepared.begin(options)?;
    for document in documents {
        match builder.add_ast(document) {
            Ok(()) => {}
            Err(BuilderError::ExtensionIds) => return Err(CompileError::ExtensionIds),
            Err(BuilderError::Memory) => return Err(CompileError::Memory),
            // No earlier call was refused.
            Err(BuilderError::Failed) => unreachable!(),
        }
    }
    match builder.build() {
        Ok(schema) => Ok((schema, Vec::new(alloc))),
        Err(BuildFailure::Faults(built)) => Ok((built.partial, built.errors)),
        Err(BuildFailure::ExtensionIds) => Err(CompileError::ExtensionIds),
        Err(BuildFailure::Memory) => Err(CompileError::Memory),
        Err(BuildFailure::Failed) => unreachable!(),
    }
}
