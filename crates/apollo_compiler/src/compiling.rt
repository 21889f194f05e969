//! Documents of the type system and executable documents, compiled in one call.
ghost use Rattle.std.specs.Prelude.{◌≡◌, Err, IfOk};
ghost use Rattle.apollo_schema_laws.specs.WrittenAgain.{IsUnmarkedAndRooted};
ghost use Rattle.apollo_meaning.specs.Order.SpentIds.{SpendsIds};
ghost use Rattle.apollo_compiler.specs.Compilation.{IsCompiled, IsRebuiltAsItWas};
ghost use Rattle.apollo_compiler.specs.Lists.{handed_in, schema_list};

use crate::building::build_prepared;
use crate::compile_error::CompileError;
use crate::compile_options::CompileOptions;
use crate::compiled::Compiled;
use crate::document_building::build_executable_document;
use crate::executable_options::ExecutableOptions;
use crate::laws::headline;
use crate::prepared::Prepared;
use crate::rebuilding::rebuild;
use apollo_schema_laws::write_out::a_write_out_folds_no_more;
use graphql_ast::document::Document;
use graphql_nodes::collections::hash_keys::HashKeys;
use std::alloc::Global;

/// Compiles documents: GraphQL specification of October 2021, sections 2.2 to 2.8 and 3.
///
/// The schema documents are built to `schema`, with these options, and `ast` is that as syntax. `rebuilt` is
/// built of `ast` alone, with adoption, and `rebuilt_ast` is that as syntax. The executable documents are
/// built to `document`, over `schema`, and `erased` is that as syntax. Each build has its faults beside it,
/// and is then what could be built. The extensions of both schemas are numbered from 0. Definitions of the
/// type system in executable documents are passed over; with `type_system_definitions_are_errors` each is a
/// fault.
///
/// The sources of `schema` and of `document` are those of their documents, merged: of two files of one number
/// the later stays. `rebuilt` and `erased` have none.
///
/// Where no definition that is handed in is marked built-in and each schema definition names a root, the
/// rebuild has no faults. It then equals `schema` and is written out the same. What else is promised is said
/// by [`headline`].
///
/// `Memory` is out of memory; `ExtensionIds` comes only where the numbers don't suffice for the extensions of
/// the schema documents. No other error comes. The documents are as they were.
///
/// All tables hash by fixed keys: for documents from strangers, take [`compile_with_keys`].
pub fn compile(
    alloc: Global,
    options: CompileOptions,
    schema_documents: &[Document],
    executable_documents: &[Document],
    type_system_definitions_are_errors: bool,
) -> Result<Compiled, CompileError>
    ensures compiled { IfOk result
        (IsCompiled options schema_documents.now executable_documents.now
        type_system_definitions_are_errors) }
    ensures rebuilds { IfOk result (λ compiled. IsUnmarkedAndRooted (handed_in options schema_documents.now)
        → IsRebuiltAsItWas compiled) }
    ensures spent { result ≡ Err CompileError.ExtensionIds
        → SpendsIds 0 options.adopt_orphan_extensions (schema_list options schema_documents.now) }
{
    compile_with_keys(
        alloc,
        HashKeys::FIXED,
        options,
        schema_documents,
        executable_documents,
        type_system_definitions_are_errors,
    )
}

/// The same as [`compile`], errors too, for documents from strangers: all tables of both schemas and of the
/// typed document hash by these keys. What is built, and in what order, is the same under any keys.
pub fn compile_with_keys(
    alloc: Global,
    keys: HashKeys,
    options: CompileOptions,
    schema_documents: &[Document],
    executable_documents: &[Document],
    type_system_definitions_are_errors: bool,
) -> Result<Compiled, CompileError>
    ensures compiled { IfOk result
        (IsCompiled options schema_documents.now executable_documents.now
        type_system_definitions_are_errors) }
    ensures rebuilds { IfOk result (λ compiled. IsUnmarkedAndRooted (handed_in options schema_documents.now)
        → IsRebuiltAsItWas compiled) }
    ensures spent { result ≡ Err CompileError.ExtensionIds
        → SpendsIds 0 options.adopt_orphan_extensions (schema_list options schema_documents.now) }
{
    headline();
    a_write_out_folds_no_more();
    let prepared = Prepared::new(alloc, keys)?;
    let (schema, schema_faults) = build_prepared(alloc, &prepared, options, schema_documents)?;
    let rebuilt = rebuild(alloc, &prepared, &schema)?;
    let executable_options = ExecutableOptions {
        type_system_definitions_are_errors,
    };
    let (document, document_faults) = build_executable_document(
        alloc,
        &schema,
        executable_options,
        executable_documents,
    )?;
    let erased = document.to_ast(alloc)?;
    Ok(Compiled {
        schema,
        schema_faults,
        ast: rebuilt.ast,
        rebuilt: rebuilt.schema,
        rebuilt_faults: rebuilt.faults,
        rebuilt_ast: rebuilt.ast_again,
        document,
        document_faults,
        erased,
    })
}
