//! Laws of what is printed: it is read as an equal tree, and printed as it was.
ghost use Rattle.std.specs.Prelude.{◌≡◌, ◌≤◌, ℕ, suc, Bool, List, length, map};
ghost use Rattle.graphql_grammar.specs.WordsOfText.{words_of};
ghost use Rattle.graphql_productions.specs.Documents.{selections, spells_document};
ghost use Rattle.graphql_productions.specs.Types.{type};
ghost use Rattle.graphql_productions.specs.Values.{value_node};
ghost use Rattle.graphql_printing.specs.Documents.{definitions_text};
ghost use Rattle.graphql_printing.specs.Selections.{selections_text};
ghost use Rattle.graphql_printing.specs.Texts.{type_text, value_text};
ghost use Rattle.graphql_round_trip.specs.Nesting.{document_nesting, selections_nesting, type_nesting};
ghost use Rattle.graphql_round_trip.specs.Nesting.{value_nesting};
ghost use Rattle.graphql_round_trip.specs.ReadAgain.{SpellEqual};
ghost use Rattle.graphql_round_trip.specs.Trees.{Definition, FileId, IsWellFormed, NodeView, Selection};
ghost use Rattle.graphql_round_trip.specs.Trees.{TypeReference, Value, bare_definition, bare_node};
ghost use Rattle.graphql_round_trip.specs.Trees.{bare_selection, bare_type, bare_value, document_parts};
ghost use Rattle.graphql_round_trip.specs.Trees.{node_parts, selection_parts, type_parts, value_parts};
ghost use Rattle.graphql_round_trip.specs.Trees.{wanted_parts};

/// The text of a well-formed tree is read as an equal tree: a document, selections, a type, a value.
///
/// Premise: the tree is well-formed, as many signs may be open as it nests, and as many tokens are allowed as
/// its text has bytes. `ParseOptions::new` allows any number of tokens.
pub fn texts_are_read_again()
    ensures document { (file : FileId) (depth allowed : ℕ) (x : List Definition)
        → IsWellFormed (document_parts x) → document_nesting x ≤ depth → length (definitions_text x) ≤ allowed
        → SpellEqual (spells_document file depth) (map bare_definition) x
        (words_of allowed (definitions_text x)) }
    ensures selections { (file : FileId) (depth allowed : ℕ) (x : List Selection)
        → IsWellFormed (wanted_parts selection_parts x) → selections_nesting x ≤ depth
        → length (selections_text 0 x) ≤ allowed
        → SpellEqual (selections file depth).spells (map bare_selection) x
        (words_of allowed (selections_text 0 x)) }
    ensures type_reference { (file : FileId) (depth allowed : ℕ) (x : TypeReference)
        → IsWellFormed (type_parts x) → type_nesting x ≤ depth → length (type_text x) ≤ allowed
        → SpellEqual (type file depth).spells bare_type x (words_of allowed (type_text x)) }
    ensures value { (file : FileId) (constant : Bool) (depth allowed : ℕ) (x : NodeView Value)
        → IsWellFormed (node_parts (value_parts constant) x) → value_nesting x.value ≤ depth
        → length (value_text x.value) ≤ allowed
        → SpellEqual (value_node file constant depth).spells (bare_node bare_value) x
        (words_of allowed (value_text x.value)) }
{}

/// Equal trees have one text.
#[tactic(auto, using(crate::proofs::BareDocumentTexts::one_text_each))]
pub fn equal_trees_have_one_text()
    ensures document { (x y : List Definition) → map bare_definition x ≡ map bare_definition y
        → definitions_text x ≡ definitions_text y }
    ensures selections { (x y : List Selection) → map bare_selection x ≡ map bare_selection y
        → selections_text 0 x ≡ selections_text 0 y }
    ensures type_reference { (x y : TypeReference) → bare_type x ≡ bare_type y → type_text x ≡ type_text y }
    ensures value { (x y : Value) → bare_value x ≡ bare_value y → value_text x ≡ value_text y }
{}

/// What a text was read as is printed as a text that is read as an equal tree, in any file. And whatever
/// document it is read as is printed as the same text: formatting keeps what a text means, and formatting
/// twice is formatting once.
///
/// Premise: as many signs may be open as before, of selections one more, and as many tokens are allowed as
/// the printed text has bytes. Selections are printed in braces.
pub fn formatting_keeps_the_tree()
    ensures document { (file other : FileId) (depth allowed enough : ℕ) (text : List ℕ) (x : List Definition)
        → spells_document file depth x (words_of allowed text) → length (definitions_text x) ≤ enough
        → SpellEqual (spells_document other depth) (map bare_definition) x
        (words_of enough (definitions_text x)) }
    ensures once { (file other : FileId) (depth allowed enough : ℕ) (text : List ℕ) (x y : List Definition)
        → spells_document file depth x (words_of allowed text) → length (definitions_text x) ≤ enough
        → spells_document other depth y (words_of enough (definitions_text x))
        → definitions_text y ≡ definitions_text x }
    ensures selections { (file other : FileId) (depth allowed enough : ℕ) (text : List ℕ) (x : List Selection)
        → (selections file depth).spells x (words_of allowed text) → length (selections_text 0 x) ≤ enough
        → SpellEqual (selections other (suc depth)).spells (map bare_selection) x
        (words_of enough (selections_text 0 x)) }
    ensures type_reference { (file other : FileId) (depth allowed enough : ℕ) (text : List ℕ)
        (x : TypeReference) → (type file depth).spells x (words_of allowed text)
        → length (type_text x) ≤ enough
        → SpellEqual (type other depth).spells bare_type x (words_of enough (type_text x)) }
    ensures value { (file other : FileId) (constant : Bool) (depth allowed enough : ℕ) (text : List ℕ)
        (x : NodeView Value) → (value_node file constant depth).spells x (words_of allowed text)
        → length (value_text x.value) ≤ enough
        → SpellEqual (value_node other constant depth).spells (bare_node bare_value) x
        (words_of enough (value_text x.value)) }
{}
