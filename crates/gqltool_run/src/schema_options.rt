//! The options of the command `schema`.
ghost use Rattle.std.specs.Prelude.{MatchOption};
ghost use Rattle.bench_notation.specs.Line.{texts_of};
ghost use Rattle.apollo_compiler.specs.declared.compile_options.CompileOptions.{CompileOptions};
ghost use Rattle.gqltool_run.specs.SchemaOptions.{AreOptions};

use apollo_compiler::compile_options::CompileOptions;

/// The options that these words are, in any order, each at most once: `--adopt` is the first of them, and
/// `--ignore-builtin` the second. No other words are options: there is none then. It takes no memory.
pub fn read_options(words: &[&str]) -> Option<CompileOptions>
    ensures { MatchOption result ((options : CompileOptions)
        → ¬ AreOptions (texts_of words.now) options) (AreOptions (texts_of words.now)) }
{
    let (adopt_orphan_extensions, ignore_builtin_redefinitions) = match words {
        [] => (false, false),
        ["--adopt"] => (true, false),
        ["--ignore-builtin"] => (false, true),
        ["--adopt", "--ignore-builtin"] | ["--ignore-builtin", "--adopt"] => (true, true),
        _ => return None,
    };
    Some(CompileOptions {
        adopt_orphan_extensions,
        ignore_builtin_redefinitions,
    })
}
