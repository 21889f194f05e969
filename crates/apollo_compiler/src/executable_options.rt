//! The options of a typed document's build.

/// How executable documents are taken.
#[derive(Debug, Clone, Copy, PartialEq, Eq)]
pub struct ExecutableOptions {
    /// Each definition of the type system in an executable document is a fault (section 5.1.1). Without it
    /// these are passed over.
    pub type_system_definitions_are_errors: bool,
}

impl ExecutableOptions {
    ghost use Rattle.std.specs.Prelude.{◌≡◌};
    ghost use Rattle.apollo_compiler.specs.Lists.{no_executable_options};

    /// No option: definitions of the type system are passed over.
    pub fn none() -> ExecutableOptions
        ensures { result ≡ no_executable_options }
    {
        ExecutableOptions {
            type_system_definitions_are_errors: false,
        }
    }
}
