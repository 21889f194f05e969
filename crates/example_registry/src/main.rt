//! What a registry runs on each upload. It makes one schema of several files of GraphQL text, refused where
//! it has faults, and else written in its canonical form. A service may extend types that no file defines:
//! they are taken as defined.
#![tactic(auto)]

use anyhow::{Context, Result, ensure};
use apollo_compiler::files::{FilesInMemory, SystemFiles};
use apollo_compiler::text::definitions_text;
use apollo_compiler::{CompileOptions, HashKeys, Schema, load_schema};
use std::alloc::Global;
use std::env;

const ADOPTING: CompileOptions = CompileOptions {
    adopt_orphan_extensions: true,
    ignore_builtin_redefinitions: false,
};

fn schema_text(alloc: Global, schema: &Schema) -> Result<String> {
    let written = schema.to_ast(alloc)?;
    Ok(definitions_text(alloc, written.as_slice())?)
}

/// Whether the text of a schema, built again, has no fault, and makes an equal schema with the same text. It
/// is proved that it does.
fn is_canonical(alloc: Global, keys: HashKeys, schema: &Schema, text: &str) -> Result<bool> {
    let stored = [("schema.graphql", text.as_bytes())];
    let files = FilesInMemory(&stored);
    let loaded = load_schema(alloc, keys, ADOPTING, &files, &["schema.graphql"])?;
    let again = loaded.schema.context("the text is refused")?;
    let text_again = schema_text(alloc, &again)?;
    Ok(loaded.faults.is_empty() && again == *schema && text_again.as_str() == text)
}

fn main(rt: HostRuntime) -> Result<()> {
    let (alloc, files) = (rt.alloc(), SystemFiles(&rt));
    // Uploads come from strangers: under keys that nobody can foretell they can't make names that collide.
    let keys = HashKeys::drawn(&rt)?;
    let words = env::args(&rt)?.skip(1).collect::<Vec<String>>(alloc)?;
    let paths = words.iter().map(|word| word.as_str());
    let paths = paths.collect::<Vec<&str>>(alloc)?;
    let loaded = load_schema(alloc, keys, ADOPTING, &files, paths.as_slice())?;
    rt.eprint(loaded.reports(alloc)?)?;
    ensure!(loaded.faults.is_empty(), "the schema has faults");
    let schema = loaded.schema.context("a file is refused")?;
    let text = schema_text(alloc, &schema)?;
    ensure!(
        is_canonical(alloc, keys, &schema, text.as_str())?,
        "the text is not canonical"
    );
    println!(rt; "{text}")?;
    Ok(())
}
