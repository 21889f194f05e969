//! The built-in definitions, made once for several builds.
ghost use Rattle.std.specs.Prelude.{◌≡◌, [], true, IfOk, if◌then◌else◌};
ghost use Rattle.apollo_compiler.specs.Lists.{building_of};

use crate::compile_options::CompileOptions;
use apollo_schema::schema_builder::SchemaBuilder;
use graphql_nodes::collections::hash_keys::HashKeys;
use graphql_nodes::take_apart;
use std::alloc::{AllocError, Global};
use std::marker::Model;

/// A builder to which nothing was added. Those that begin as its copies share its built-in definitions, and
/// have its keys.
pub(crate) struct Prepared {
    bare: SchemaBuilder,
}

impl Drop for Prepared {
    fn drop(self) {
        take_apart!(self: bare);
    }
}

impl Model for Prepared {
    ghost use Rattle.std.specs.Prelude.{◌≡◌};
    ghost use Rattle.apollo_schema.specs.BuilderStands.{building_from};

    ghost Value = { Unit {0} };

    ghost view = { λ _. tt };

    ghost invariant = { λ p. p.bare ≡ building_from 0 };
}

impl Prepared {
    /// A builder that hashes by these keys, and draws its numbers from a new source. The error is out of
    /// memory.
    ///
    /// No clause: the invariant of the type says what each value stands for, and no clause sees keys.
    pub fn new(alloc: Global, keys: HashKeys) -> Result<Prepared, AllocError> {
        let bare = SchemaBuilder::with_keys(alloc, keys)?;
        Ok(Prepared { bare })
    }

    /// A builder with these options, to which nothing was added, and which draws numbers from 0. The error is
    /// out of memory.
    pub fn begin(&self, options: CompileOptions) -> Result<SchemaBuilder, AllocError>
        ensures { IfOk result (λ builder. builder ≡ building_of options []) }
    {
        let bare = self.bare.clone()?;
        let builder = with_adoption(bare, options.adopt_orphan_extensions);
        Ok(with_ignoring(builder, options.ignore_builtin_redefinitions))
    }
}

/// The builder, with adoption if it had it or `adopt` is set.
fn with_adoption(builder: SchemaBuilder, adopt: bool) -> SchemaBuilder
    ensures { result ≡ record builder { adopts = if adopt then true else builder.adopts } }
{
    if adopt {
        return builder.adopt_orphan_extensions();
    }
    builder
}

/// The builder, which ignores redefinitions of built-in types from now on if it did or `ignore` is set.
fn with_ignoring(builder: SchemaBuilder, ignore: bool) -> SchemaBuilder
    ensures { result ≡ record builder { ignores = if ignore then true else builder.ignores } }
{
    if ignore {
        return builder.ignore_builtin_redefinitions();
    }
    builder
}
