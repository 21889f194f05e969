//! A rule of a caller's own, over the schema of a file that the command line names: no name of a type begins
//! with a small letter. What breaks it is reported in the same form as what is wrong with the schema.
#![tactic(auto)]

ghost use Rattle.std.specs.Prelude.{◌++◌, Some, codes};
ghost use Rattle.apollo_reporting.specs.Abouts.{of_kind};
ghost use Rattle.apollo_reporting.specs.Details.{one_text};

use anyhow::{Context, Result};
use apollo_compiler::files::SystemFiles;
use apollo_compiler::report::{About, Detail, Reported, push_report};
use apollo_compiler::{CompileOptions, HashKeys, Name, Schema, load_schema};
use std::alloc::{AllocError, Global};
use std::{env, fmt};

/// A type whose name begins with a small letter.
struct SmallName<'a> {
    name: &'a Name,
}

impl Drop for SmallName<'_> {
    fn drop(self) {
        let Self { name: _ } = self;
    }
}

impl fmt::Display for SmallName<'_> {
    // The sentence that `fmt` writes.
    ghost output = { λ it. Some
        (codes "type `" ++ (it.name.now.text ++ codes "` begins with a small letter")) };

    fn fmt<W: fmt::Write>(&self, f: &mut fmt::Formatter<W>) -> fmt::Result {
        write!(f, "type `{}` begins with a small letter", self.name)
    }
}

impl Reported for SmallName<'_> {
    // What `about` answers: a kind, with no earlier place and no path.
    ghost said_about = { λ _. of_kind (codes "SmallName") };

    // What `details` answers: the type's name, under `name`.
    ghost said_details = { λ it. Some (one_text (codes "name") it.name.now.text) };

    fn about(&self) -> About<'_> {
        About::new("SmallName")
    }

    fn details(&self, alloc: Global) -> Result<Vec<Detail>, AllocError> {
        let name = Detail::text(alloc, "name", self.name.as_str())?;
        Ok(vec![in alloc; name]?)
    }
}

/// The reports of the types of a schema that break the rule.
fn small_names(alloc: Global, schema: &Schema) -> Result<String, AllocError> {
    let mut reports = String::new(alloc);
    for name in schema.types.keys() {
        if let [b'a'..=b'z', ..] = name.as_str().as_bytes() {
            let fault = SmallName { name };
            push_report(
                alloc,
                &mut reports,
                &schema.sources,
                name.location(),
                &fault,
            )?;
        }
    }
    Ok(reports)
}

fn main(rt: HostRuntime) -> Result<()> {
    let (alloc, files) = (rt.alloc(), SystemFiles(&rt));
    let path = env::args(&rt)?.nth(1).context("no schema")?;
    let keys = HashKeys::drawn(&rt)?;
    let loaded = load_schema(
        alloc,
        keys,
        CompileOptions::none(),
        &files,
        &[path.as_str()],
    )?;
    rt.print(loaded.reports(alloc)?)?;
    let schema = loaded.schema.context("the schema is refused")?;
    rt.print(small_names(alloc, &schema)?)?;
    Ok(())
}
