//! Reading what stands behind the name of a type, by its kind: GraphQL specification of October 2021,
//! sections 3.5 to 3.10.
ghost use Rattle.std.specs.Prelude.{◌≡◌, true};
ghost use Rattle.graphql_productions.specs.Nodes.{name};
ghost use Rattle.graphql_productions.specs.TypeSystem.{fielded, has_part, keyword, names_behind, parts};
ghost use Rattle.graphql_productions.specs.TypeSystem.{scalar_parts};
ghost use Rattle.graphql_productions.proofs.NodeLaws.{name_tame};
ghost use Rattle.graphql_text.specs.Reads.{Reads};

use crate::reading::directives::directives;
use crate::reading::parts::{enum_values, fields, input_values};
use crate::reading::separated::{Single, separated};
use crate::reading::target::{Reading, Target, sign};
use graphql_ast::directive::DirectiveList;
use graphql_ast::parts::Parts;
use graphql_grammar::kind::Kind;
use graphql_grammar::words::Words;
use graphql_nodes::collections::items::Items;
use graphql_nodes::name::Name;
use graphql_nodes::type_kind::TypeKind;
use std::alloc::Global;

/// The word of a kind of types.
pub(crate) fn keyword(kind: TypeKind) -> Kind
    ensures { result ≡ keyword kind }
{
    match kind {
        TypeKind::Scalar => Kind::Scalar,
        TypeKind::Object => Kind::Type,
        TypeKind::Interface => Kind::Interface,
        TypeKind::Union => Kind::Union,
        TypeKind::Enum => Kind::Enum,
        TypeKind::InputObject => Kind::Input,
    }
}

impl Single for Name {
    ghost piece = { name };

    ghost law = { λ file. (name_tame file).law };

    fn read(target: Target, words: &mut Words<'_>) -> Reading<Name> {
        target.name(words)
    }
}

/// Reads names behind a word, if it is there.
#[tactic(auto, unfolding(graphql_productions::specs::TypeSystem::names_behind))]
fn names_behind(
    target: Target,
    words: &mut Words<'_>,
    opening: Kind,
    separator: Kind,
) -> Reading<Items<Name>>
    ensures { Reads (names_behind target.file opening separator) words.old words.new result }
{
    optional_list!(
        target,
        words.next_is(opening),
        {
            sign(words, opening)?;
            separated(target, words, separator)
        }
    )
}

/// Whether there is any part.
pub(crate) fn has_part(parts: &Parts) -> bool
    ensures { result ≡ has_part parts.now }
{
    !(parts.directives.is_empty()
        && parts.names.is_empty()
        && parts.fields.is_empty()
        && parts.values.is_empty()
        && parts.input_fields.is_empty()
        && parts.roots.is_empty())
}

/// Parts with these directives, and nothing else.
pub(crate) fn directed(alloc: Global, directives: DirectiveList) -> Parts
    ensures { result ≡ scalar_parts directives }
{
    let mut parts = Parts::new(alloc);
    parts.directives = directives.into_items();
    parts
}

#[tactic(auto, unfolding(graphql_productions::specs::TypeSystem::fielded))]
fn fielded(target: Target, words: &mut Words<'_>) -> Reading<Parts>
    ensures { Reads (fielded target.file target.depth) words.old words.new result }
{
    let mut parts = Parts::new(target.alloc);
    parts.names = names_behind(target, words, Kind::Implements, Kind::Ampersand)?;
    parts.directives = directives(target.constant(), words)?.into_items();
    parts.fields = fields(target, words)?;
    Ok(parts)
}

/// Reads what stands behind the name of a type of this kind.
#[tactic(auto, unfolding(graphql_productions::specs::TypeSystem::parts))]
pub(crate) fn parts(target: Target, words: &mut Words<'_>, kind: TypeKind) -> Reading<Parts>
    ensures { Reads (parts target.file kind target.depth) words.old words.new result }
{
    match kind {
        TypeKind::Scalar => {
            let directives = directives(target.constant(), words)?;
            Ok(directed(target.alloc, directives))
        }
        TypeKind::Object | TypeKind::Interface => fielded(target, words),
        TypeKind::Union => {
            let directives = directives(target.constant(), words)?;
            let mut parts = directed(target.alloc, directives);
            parts.names = names_behind(target, words, Kind::Equals, Kind::Pipe)?;
            Ok(parts)
        }
        TypeKind::Enum => {
            let directives = directives(target.constant(), words)?;
            let mut parts = directed(target.alloc, directives);
            parts.values = enum_values(target, words)?;
            Ok(parts)
        }
        TypeKind::InputObject => {
            let directives = directives(target.constant(), words)?;
            let mut parts = directed(target.alloc, directives);
            parts.input_fields = input_values(target, words, Kind::LeftBrace, Kind::RightBrace)?;
            Ok(parts)
        }
    }
}
