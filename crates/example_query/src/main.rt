//! A query over a schema, both in files that the command line names: what is at fault in them, and which
//! fields each operation reaches.
#![tactic(auto)]

use anyhow::{Context, Result};
use apollo_compiler::files::SystemFiles;
use apollo_compiler::report::push_report;
use apollo_compiler::text::ty;
use apollo_compiler::usage::field_usage;
use apollo_compiler::{CompileOptions, ExecutableOptions, HashKeys, load_document, load_schema};
use leafcheck::leaf_faults;
use std::env;

fn main(rt: HostRuntime) -> Result<()> {
    let (alloc, files) = (rt.alloc(), SystemFiles(&rt));
    let mut paths = env::args(&rt)?.skip(1);
    let path = paths.next().context("no schema")?;
    let keys = HashKeys::drawn(&rt)?;
    let options = CompileOptions::none();
    let loaded = load_schema(alloc, keys, options, &files, &[path.as_str()])?;
    rt.print(loaded.reports(alloc)?)?;
    let schema = loaded.schema.context("the schema is refused")?;

    let path = paths.next().context("no query")?;
    let options = ExecutableOptions::none();
    let loaded = load_document(alloc, &schema, options, &files, &[path.as_str()])?;
    rt.print(loaded.reports(alloc)?)?;
    let query = loaded.document.context("the query is refused")?;
    let mut reports = String::new(alloc);
    for fault in leaf_faults(alloc, &schema, &query)?.iter() {
        push_report(alloc, &mut reports, &loaded.sources, fault.location, fault)?;
    }
    rt.print(reports)?;

    for operation in query.operations.iter() {
        for usage in field_usage(alloc, &query, operation)?.iter() {
            let field = usage.coordinate.lookup_field(&schema)?;
            println!(rt; "{} {usage}: {}", usage.count, ty(&field.ty))?;
        }
    }
    Ok(())
}
