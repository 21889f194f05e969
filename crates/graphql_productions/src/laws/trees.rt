//! Laws of trees that words spell: what of them could have come of a text, and where they stand.
ghost use Rattle.std.specs.Prelude.{◌≡◌, ◌≢◌, ℕ, Bool, List, length};
ghost use Rattle.graphql_nodes.specs.declared.source.FileId.{FileId};
ghost use Rattle.graphql_nodes.specs.NodeView.{NodeView};
ghost use Rattle.graphql_ast.specs.declared.definition.Definition.{Definition};
ghost use Rattle.graphql_ast.specs.declared.selection.Selection.{Selection};
ghost use Rattle.graphql_ast.specs.declared.type_reference.Type.{«Type» as TypeReference};
ghost use Rattle.graphql_ast.specs.declared.value.Value.{Value};
ghost use Rattle.graphql_grammar.specs.TextsOfWords.{StandInOrder};
ghost use Rattle.graphql_grammar.specs.Words.{WordView};
ghost use Rattle.graphql_grammar.specs.WordsOfText.{words_of};
ghost use Rattle.graphql_productions.specs.DefinitionTreeParts.{definition_parts, document_parts};
ghost use Rattle.graphql_productions.specs.Documents.{definition, selections, spells_document};
ghost use Rattle.graphql_productions.specs.Places.{IsNowhereBuiltIn, LiesWithin};
ghost use Rattle.graphql_productions.specs.SelectionParts.{selection_parts};
ghost use Rattle.graphql_productions.specs.TreeParts.{node_parts, type_parts, value_parts, wanted_parts};
ghost use Rattle.graphql_productions.specs.Types.{type};
ghost use Rattle.graphql_productions.specs.Values.{value_node};
ghost use Rattle.graphql_productions.specs.WellFormed.{IsWellFormed};

/// What the words of a text spell is well-formed: a document, selections, a type, a value, in which no
/// variable stands where it is constant.
pub fn trees_of_words_are_well_formed()
    ensures document { (file : FileId) (depth allowed : ℕ) (text : List ℕ) (x : List Definition)
        → spells_document file depth x (words_of allowed text) → IsWellFormed (document_parts x) }
    ensures selections { (file : FileId) (depth allowed : ℕ) (text : List ℕ) (x : List Selection)
        → (selections file depth).spells x (words_of allowed text)
        → IsWellFormed (wanted_parts selection_parts x) }
    ensures type_reference { (file : FileId) (depth allowed : ℕ) (text : List ℕ) (x : TypeReference)
        → (type file depth).spells x (words_of allowed text) → IsWellFormed (type_parts x) }
    ensures value { (file : FileId) (constant : Bool) (depth allowed : ℕ) (text : List ℕ) (x : NodeView Value)
        → (value_node file constant depth).spells x (words_of allowed text)
        → IsWellFormed (node_parts (value_parts constant) x) }
{}

/// Each node, name and description has a location, in the file and within the words that spell the tree.
pub fn locations_lie_within_the_words()
    ensures definition { (file : FileId) (depth from to : ℕ) (words : List WordView) (x : Definition)
        → StandInOrder from to words → (definition file depth).spells x words
        → LiesWithin file from to (definition_parts x) }
    ensures document { (file : FileId) (depth from to : ℕ) (words : List WordView) (x : List Definition)
        → StandInOrder from to words → spells_document file depth x words
        → LiesWithin file from to (document_parts x) }
    ensures selections { (file : FileId) (depth from to : ℕ) (words : List WordView) (x : List Selection)
        → StandInOrder from to words → (selections file depth).spells x words
        → LiesWithin file from to (wanted_parts selection_parts x) }
    ensures type_reference { (file : FileId) (depth from to : ℕ) (words : List WordView) (x : TypeReference)
        → StandInOrder from to words → (type file depth).spells x words
        → LiesWithin file from to (type_parts x) }
    ensures value { (file : FileId) (constant : Bool) (depth from to : ℕ) (words : List WordView)
        (x : NodeView Value) → StandInOrder from to words → (value_node file constant depth).spells x words
        → LiesWithin file from to (node_parts (value_parts constant) x) }
{}

/// The words of a text stand in it, one behind the other, so all locations lie within the text.
pub fn locations_lie_within_the_text()
    ensures words { (allowed : ℕ) (text : List ℕ) → StandInOrder 0 (length text) (words_of allowed text) }
    ensures document { (file : FileId) (depth allowed : ℕ) (text : List ℕ) (x : List Definition)
        → spells_document file depth x (words_of allowed text)
        → LiesWithin file 0 (length text) (document_parts x) }
    ensures selections { (file : FileId) (depth allowed : ℕ) (text : List ℕ) (x : List Selection)
        → (selections file depth).spells x (words_of allowed text)
        → LiesWithin file 0 (length text) (wanted_parts selection_parts x) }
    ensures type_reference { (file : FileId) (depth allowed : ℕ) (text : List ℕ) (x : TypeReference)
        → (type file depth).spells x (words_of allowed text)
        → LiesWithin file 0 (length text) (type_parts x) }
    ensures value { (file : FileId) (constant : Bool) (depth allowed : ℕ) (text : List ℕ) (x : NodeView Value)
        → (value_node file constant depth).spells x (words_of allowed text)
        → LiesWithin file 0 (length text) (node_parts (value_parts constant) x) }
{}

/// Where the number of the file isn't 0, no location is one of built-in definitions.
pub fn no_location_is_built_in()
    ensures document { (file : FileId) (depth : ℕ) (words : List WordView) (x : List Definition) → file.0 ≢ 0
        → spells_document file depth x words → IsNowhereBuiltIn (document_parts x) }
    ensures selections { (file : FileId) (depth : ℕ) (words : List WordView) (x : List Selection) → file.0 ≢ 0
        → (selections file depth).spells x words → IsNowhereBuiltIn (wanted_parts selection_parts x) }
    ensures type_reference { (file : FileId) (depth : ℕ) (words : List WordView) (x : TypeReference)
        → file.0 ≢ 0 → (type file depth).spells x words → IsNowhereBuiltIn (type_parts x) }
    ensures value { (file : FileId) (constant : Bool) (depth : ℕ) (words : List WordView) (x : NodeView Value)
        → file.0 ≢ 0 → (value_node file constant depth).spells x words
        → IsNowhereBuiltIn (node_parts (value_parts constant) x) }
{}
