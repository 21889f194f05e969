//! The options of a schema's build.

/// How the documents of a schema are taken.
#[derive(Debug, Clone, Copy, PartialEq, Eq)]
pub struct CompileOptions {
    /// What has extensions and no definition is taken as defined. A type is then empty, at its first
    /// extension. The schema itself has no location, and the default roots unless an extension names a root
    /// (sections 3.3.2 and 3.4.3).
    pub adopt_orphan_extensions: bool,
    /// A further definition of a name whose type is built-in is passed over without a fault (sections 3.3 and
    /// 3.5).
    pub ignore_builtin_redefinitions: bool,
}

impl CompileOptions {
    ghost use Rattle.std.specs.Prelude.{◌≡◌};
    ghost use Rattle.apollo_compiler.specs.Lists.{no_options};

    /// Neither option.
    pub fn none() -> CompileOptions
        ensures { result ≡ no_options }
    {
        CompileOptions {
            adopt_orphan_extensions: false,
            ignore_builtin_redefinitions: false,
        }
    }
}
