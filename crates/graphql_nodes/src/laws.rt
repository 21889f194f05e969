//! What `==` answers at each type of this crate. It is whether the two are one with locations left out, lists
//! in order, tables and sets without order.
//!
//! Each law is a function that does nothing. A proof cites it by a call, and finds a clause for each type
//! there.
ghost use Rattle.std.specs.Prelude.{map};
ghost use Rattle.graphql_nodes.specs.Comparing.{ComparesBy, bare_name, bare_invalid_name, bare_node};
ghost use Rattle.graphql_nodes.specs.Comparing.{entries_by_key, entries_by_text, members_by_key};
ghost use Rattle.graphql_nodes.specs.Comparing.{members_by_text};

use crate::collections::boxed::Boxed;
use crate::collections::hash_keys::HashKeys;
use crate::collections::items::Items;
use crate::collections::key_set::KeySet;
use crate::collections::shared::Shared;
use crate::collections::static_text::StaticText;
use crate::collections::table::Table;
use crate::collections::text::Text;
use crate::directive_location::DirectiveLocation;
use crate::line_column::LineColumn;
use crate::name::{InvalidNameError, Name};
use crate::node::Node;
use crate::node_str::NodeStr;
use crate::operation_type::OperationType;
use crate::source::{FileId, SourceFile, SourceSpan};
use crate::type_kind::TypeKind;
use std::hash::Hash;

/// Nodes are equal where their values are, lists where their elements are in order, and a box or shared value
/// where what it holds is.
pub fn equality_of_containers<T: PartialEq>()
    ensures node { (f : T → T) → ComparesBy T.eq f → ComparesBy ⟦<Node<T> as PartialEq>⟧.eq (bare_node f) }
    ensures items { (f : T → T) → ComparesBy T.eq f → ComparesBy ⟦<Items<T> as PartialEq>⟧.eq (map f) }
    ensures boxed { (f : T → T) → ComparesBy T.eq f → ComparesBy ⟦<Boxed<T> as PartialEq>⟧.eq f }
    ensures shared { (f : T → T) → ComparesBy T.eq f → ComparesBy ⟦<Shared<T> as PartialEq>⟧.eq f }
{}

/// Tables are equal where what stands under each key is, and where nothing stands under it in one, nothing
/// does in the other. Sets are equal where they have the same keys. The order of entries and of keys is left
/// out.
pub fn equality_of_tables_and_sets<K: Eq + Hash, V: PartialEq>()
    ensures table { (f : V → V) → ComparesBy V.eq f
        → ComparesBy ⟦<Table<K, V> as PartialEq>⟧.eq (entries_by_key K.eq f) }
    ensures table_of_names { (f : V → V) → ComparesBy V.eq f
        → ComparesBy ⟦<Table<Name, V> as PartialEq>⟧.eq (entries_by_text f) }
    ensures key_set { ComparesBy ⟦<KeySet<K> as PartialEq>⟧.eq (members_by_key K.eq) }
    ensures key_set_of_names { ComparesBy ⟦<KeySet<Name> as PartialEq>⟧.eq (members_by_text (λ n. n)) }
{}

/// Names and texts are equal exactly where they are one without their locations.
pub fn equality_of_names()
    ensures name { ComparesBy ⟦<Name as PartialEq>⟧.eq bare_name }
    ensures node_str { ComparesBy ⟦<NodeStr as PartialEq>⟧.eq bare_name }
    ensures invalid_name_error { ComparesBy ⟦<InvalidNameError as PartialEq>⟧.eq bare_invalid_name }
    ensures text { ComparesBy ⟦<Text as PartialEq>⟧.eq (λ t. t) }
    ensures static_text { ComparesBy ⟦<StaticText as PartialEq>⟧.eq (λ t. t) }
{}

/// Locations, lines with their columns, source files, kinds and keys are equal exactly where they are one.
pub fn equality_of_locations_and_kinds()
    ensures file_id { ComparesBy ⟦<FileId as PartialEq>⟧.eq (λ id. id) }
    ensures source_span { ComparesBy ⟦<SourceSpan as PartialEq>⟧.eq (λ span. span) }
    ensures line_column { ComparesBy ⟦<LineColumn as PartialEq>⟧.eq (λ place. place) }
    ensures source_file { ComparesBy ⟦<SourceFile as PartialEq>⟧.eq (λ file. file) }
    ensures operation_type { ComparesBy ⟦<OperationType as PartialEq>⟧.eq (λ kind. kind) }
    ensures type_kind { ComparesBy ⟦<TypeKind as PartialEq>⟧.eq (λ kind. kind) }
    ensures directive_location { ComparesBy ⟦<DirectiveLocation as PartialEq>⟧.eq (λ location. location) }
    ensures hash_keys { ComparesBy ⟦<HashKeys as PartialEq>⟧.eq (λ keys. keys) }
{}
