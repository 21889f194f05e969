//! Laws of well-formed lists of definitions and their write-outs, for those who build on them.
ghost use Rattle.std.specs.Prelude.{◌≢◌, ℕ, Bool, List, []};
ghost use Rattle.std.specs.List.{AllByRecursion};
ghost use Rattle.graphql_ast.specs.declared.definition.Definition.{Definition};
ghost use Rattle.graphql_productions.specs.DefinitionTreeParts.{document_parts};
ghost use Rattle.graphql_productions.specs.WellFormed.{IsWellFormed};
ghost use Rattle.apollo_meaning.specs.BuiltInTable.{built_in_definitions};
ghost use Rattle.apollo_meaning.specs.Items.ListItems.{Added, added};
ghost use Rattle.apollo_schema.specs.MeantSchema.{MeansSchema};
ghost use Rattle.apollo_schema.specs.SchemaWriteOut.{write_schema};
ghost use Rattle.apollo_schema.specs.declared.schema.Schema.{Schema};
ghost use Rattle.apollo_schema_laws.specs.WrittenAgain.{with_built_ins};
ghost use Rattle.apollo_canonical.specs.WellFormedLists.{AreWellFormed, IsWellFormedDefinition};

use apollo_meaning::laws::{folded_extensions, folded_schema_extensions};

/// The definitions of a well-formed document make a well-formed list, whether redefinitions of built-in
/// types are ignored or not. Well-formed definitions, of which there is one at least, make a well-formed
/// document. GraphQL specification of October 2021, section 2.2.
pub fn documents_are_well_formed_by_their_definitions()
    ensures added { (ignores : Bool) (ds : List Definition) → IsWellFormed (document_parts ds)
        → AreWellFormed (added ignores ds) }
    ensures joined { (ds : List Definition) → ds ≢ [] → AllByRecursion IsWellFormedDefinition ds
        → IsWellFormed (document_parts ds) }
{}

/// The built-in definitions are well-formed, computed: GraphQL specification of October 2021, sections 3.5,
/// 3.13 and 4.2.
pub fn built_in_definitions_are_well_formed()
    ensures { AllByRecursion IsWellFormedDefinition built_in_definitions }
{}

/// Well-formed goes through the schema. Where each definition of a list is well-formed, so is each definition
/// that the schema of the list is written out as. It holds with any setting of adoption and of ignored
/// redefinitions. It holds for the schema that the list means, whole or what could be built of a list with
/// faults. So names are names, numbers are numbers, and no variable stands in a constant. A schema definition
/// that is written names a root, and an extension that is written has a part. Of a list that begins with the
/// built-in definitions only those after them need be well-formed. GraphQL specification of October 2021,
/// sections 2, 3 and 3.3.
pub fn a_write_out_is_well_formed()
    ensures of_any_list { (start : ℕ) (adopts : Bool) (xs : List Added) (schema : Schema)
        → MeansSchema start adopts xs schema → AreWellFormed xs
        → AllByRecursion IsWellFormedDefinition (write_schema schema) }
    ensures after_built_ins { (start : ℕ) (adopts : Bool) (more : List Added) (schema : Schema)
        → MeansSchema start adopts (with_built_ins more) schema → AreWellFormed more
        → AllByRecursion IsWellFormedDefinition (write_schema schema) }
{
    folded_extensions();
    folded_schema_extensions();
}
