//! Laws of productions.
ghost use Rattle.std.specs.Prelude.{◌≡◌, ◌≤◌, ℕ, Bool, List, length, map, Ok};
ghost use Rattle.graphql_nodes.specs.NodeView.{NodeView};
ghost use Rattle.graphql_nodes.specs.declared.source.FileId.{FileId};
ghost use Rattle.graphql_ast.specs.declared.definition.Definition.{Definition};
ghost use Rattle.graphql_ast.specs.declared.selection.Selection.{Selection};
ghost use Rattle.graphql_ast.specs.declared.type_reference.Type.{«Type» as TypeReference};
ghost use Rattle.graphql_ast.specs.declared.value.Value.{Value};
ghost use Rattle.graphql_tokens.specs.Tokens.{tokens_of};
ghost use Rattle.graphql_tokens.specs.declared.token.Token.{Token};
ghost use Rattle.graphql_grammar.specs.Refusals.{RulesOut};
ghost use Rattle.graphql_grammar.specs.Words.{WordView};
ghost use Rattle.graphql_grammar.specs.WordsAtTokens.{AreAtTokens, word_at};
ghost use Rattle.graphql_grammar.specs.WordsOfText.{words_of};
ghost use Rattle.graphql_productions.specs.Documents.{definition, document, selections, spells_document};
ghost use Rattle.graphql_productions.specs.Refusing.{GoesOnDeeper, OfEachProduction, RulesOutAll};
ghost use Rattle.graphql_productions.specs.Selections.{selection_set};
ghost use Rattle.graphql_productions.specs.Types.{type};
ghost use Rattle.graphql_productions.specs.Values.{value, value_node};

pub mod trees;

/// Words spell one tree at most: one document, one definition, one selection set, one value.
pub fn words_spell_one_tree()
    ensures document { (file : FileId) (depth : ℕ) (words : List WordView) (a b : List Definition)
        → spells_document file depth a words → spells_document file depth b words → a ≡ b }
    ensures definition { (file : FileId) (depth : ℕ) (words : List WordView) (a b : Definition)
        → (definition file depth).spells a words → (definition file depth).spells b words → a ≡ b }
    ensures selections { (file : FileId) (depth : ℕ) (words : List WordView) (a b : List Selection)
        → (selection_set file depth).spells a words → (selection_set file depth).spells b words → a ≡ b }
    ensures value { (file : FileId) (constant : Bool) (depth : ℕ) (words : List WordView) (a b : Value)
        → (value file constant depth).spells a words → (value file constant depth).spells b words → a ≡ b }
{}

/// What stands behind a refused word doesn't matter. Take words that begin with those before it and with it.
/// They spell no definition, no document, no selections with braces or without, no type and no value. Words
/// that are refused at their end spell none.
pub fn refusals_are_of_all_words_so_far()
    ensures productions { OfEachProduction RulesOutAll }
    ensures document { (file : FileId) (depth : ℕ)
        → RulesOut (document file depth) (spells_document file depth) }
{}

/// Words are refused no later than they have to be. Those before the refused one begin some that spell a
/// definition, a document, selections with braces or without, a type or a value. One sign more may be open in
/// those, since what is refused for its depth alone goes on where more may be open. Of a document the
/// productions alone are meant: they leave open what a `{` behind `type T` begins.
pub fn words_before_a_refusal_go_on()
    ensures productions { OfEachProduction GoesOnDeeper }
    ensures document { (file : FileId) → GoesOnDeeper (List Definition) (document file) }
{}

/// A text that has tokens, no more than are allowed, has the words at those.
pub fn words_are_those_at_tokens()
    ensures { (allowed : ℕ) (text : List ℕ) (tokens : List Token) → tokens_of text ≡ Ok tokens
        → length tokens ≤ allowed → words_of allowed text ≡ map (word_at text) tokens }
{}

/// Trees are spelled by tokens alone. Let the words of a text spell a document, selections with braces or
/// without, a type or a value. Then the text has tokens, no more than are allowed, and its words are the
/// words at those.
pub fn trees_are_spelled_by_tokens()
    ensures document { (file : FileId) (depth allowed : ℕ) (text : List ℕ) (x : List Definition)
        → spells_document file depth x (words_of allowed text)
        → AreAtTokens allowed text (tokens_of text) (words_of allowed text) }
    ensures selections { (file : FileId) (depth allowed : ℕ) (text : List ℕ) (x : List Selection)
        → (selections file depth).spells x (words_of allowed text)
        → AreAtTokens allowed text (tokens_of text) (words_of allowed text) }
    ensures type_reference { (file : FileId) (depth allowed : ℕ) (text : List ℕ) (x : TypeReference)
        → (type file depth).spells x (words_of allowed text)
        → AreAtTokens allowed text (tokens_of text) (words_of allowed text) }
    ensures value { (file : FileId) (constant : Bool) (depth allowed : ℕ) (text : List ℕ) (x : NodeView Value)
        → (value_node file constant depth).spells x (words_of allowed text)
        → AreAtTokens allowed text (tokens_of text) (words_of allowed text) }
{}
