//! What JSON has of faults, added to its text. The error of each call is out of memory.
ghost use Rattle.std.specs.Prelude.{◌≡◌, ◌++◌, OnOk, map, option_map, string_bytes};
ghost use Rattle.apollo_reporting.specs.Abouts.{about_view};
ghost use Rattle.apollo_reporting.specs.FaultData.{detail_member, fault_data, file_member, key_array};
ghost use Rattle.apollo_reporting.specs.FaultData.{keys_data, path_members, path_of_file, place_members};
ghost use Rattle.apollo_reporting.specs.FaultData.{root_data, span_data, span_members, steps_data, value_data};
ghost use Rattle.apollo_reporting.specs.MemberTexts.{data_text, items_behind, member_text, members_behind};

use crate::about::About;
use crate::detail::{Detail, DetailValue};
use crate::json_values::{
    push_definition, push_key, push_number, push_string, push_string_member, push_text,
};
use crate::places::{end, start};
use crate::sources::Sources;
use apollo_document::selection_path::{ExecutableDefinitionName, SelectionPath};
use graphql_nodes::line_column::LineColumn;
use graphql_nodes::name::Name;
use graphql_nodes::source::SourceSpan;
use graphql_nodes::take_apart;
use std::alloc::{AllocError, Global};

/// The path of the file of a location, where the sources have the file.
pub(crate) fn file_path<S: Sources>(sources: &S, location: Option<SourceSpan>) -> Option<&str>
    ensures { option_map (λ path. path.now) result ≡ path_of_file location (S.files sources.now) }
{
    Some(sources.file(location?.file)?.path.as_str())
}

/// Adds the line and the column of a place, under these names.
fn push_place(
    alloc: Global,
    text: &mut String,
    line: &str,
    column: &str,
    at: Option<LineColumn>,
) -> Result<(), AllocError>
    ensures { OnOk result (string_bytes text.new
        ≡ string_bytes text.old ++ members_behind (place_members line.now column.now at)) }
{
    push_key(alloc, text, ",", line)?;
    push_number(text, at.map(|at| at.line))?;
    push_key(alloc, text, ",", column)?;
    push_number(text, at.map(|at| at.column))
}

/// Adds the definition that a path begins with, as an object.
fn push_root(
    alloc: Global,
    text: &mut String,
    root: &ExecutableDefinitionName,
) -> Result<(), AllocError>
    ensures { OnOk result (string_bytes text.new ≡ string_bytes text.old ++ data_text (root_data root.now)) }
{
    match root {
        ExecutableDefinitionName::AnonymousOperation(kind) => {
            push_definition(alloc, text, kind.name(), None)
        }
        ExecutableDefinitionName::NamedOperation(kind, name) => push_definition(
            alloc,
            text,
            kind.name(),
            Some(name.as_str()),
        ),
        ExecutableDefinitionName::Fragment(name) => {
            push_definition(alloc, text, "fragment", Some(name.as_str()))
        }
    }
}

/// Adds response keys, each behind a comma.
fn push_keys(alloc: Global, text: &mut String, keys: &[Name]) -> Result<(), AllocError>
    ensures { OnOk result (string_bytes text.new
        ≡ string_bytes text.old ++ items_behind (keys_data keys.now)) }
{
    for key in keys {
        text.push_str(",")?;
        push_string(alloc, text, key.as_str())?;
    }
    Ok(())
}

/// Adds response keys as an array.
#[tactic(auto, unfolding(crate::specs::MemberTexts::data_text))]
fn push_key_array(alloc: Global, text: &mut String, keys: &[Name]) -> Result<(), AllocError>
    ensures { OnOk result (string_bytes text.new ≡ string_bytes text.old ++ data_text (key_array keys.now)) }
{
    match keys {
        [] => text.push_str("[]"),
        [first, others @ ..] => {
            text.push_str("[")?;
            push_string(alloc, text, first.as_str())?;
            push_keys(alloc, text, others)?;
            text.push_str("]")?;
            Ok(())
        }
    }
}

/// Adds a path as an object.
fn push_steps(alloc: Global, text: &mut String, path: &SelectionPath) -> Result<(), AllocError>
    ensures { OnOk result (string_bytes text.new ≡ string_bytes text.old ++ data_text (steps_data path.now)) }
{
    push_key(alloc, text, "{", "root")?;
    push_root(alloc, text, &path.root)?;
    push_key(alloc, text, ",", "keys")?;
    push_key_array(alloc, text, path.nested_fields.as_slice())?;
    text.push_str("}")?;
    Ok(())
}

/// What writes JSON of faults that stand in these sources.
pub(crate) struct JsonOfSources<'s, S> {
    pub alloc: Global,
    pub sources: &'s S,
}

impl<S> Drop for JsonOfSources<'_, S> {
    fn drop(self) {
        take_apart!(self: alloc, sources);
    }
}

impl<S: Sources> JsonOfSources<'_, S> {
    /// Adds the file of a location, behind a sign.
    pub fn push_file(
        &self,
        text: &mut String,
        sign: &str,
        location: Option<SourceSpan>,
    ) -> Result<(), AllocError>
        ensures { OnOk result (string_bytes text.new ≡ string_bytes text.old
            ++ member_text sign.now (file_member location (S.files self.now.sources.now))) }
    {
        push_key(self.alloc, text, sign, "file")?;
        push_text(self.alloc, text, file_path(self.sources, location))
    }

    /// Adds where a location starts and ends.
    pub fn push_span(
        &self,
        text: &mut String,
        location: Option<SourceSpan>,
    ) -> Result<(), AllocError>
        ensures { OnOk result (string_bytes text.new ≡ string_bytes text.old
            ++ members_behind (span_members location (S.files self.now.sources.now))) }
    {
        let (alloc, sources) = (self.alloc, self.sources);
        push_place(alloc, text, "line", "column", start(sources, location))?;
        push_place(
            alloc,
            text,
            "end_line",
            "end_column",
            end(sources, location),
        )
    }

    /// Adds a location as an object.
    fn push_object(&self, text: &mut String, span: SourceSpan) -> Result<(), AllocError>
        ensures { OnOk result (string_bytes text.new ≡ string_bytes text.old
            ++ data_text (span_data span (S.files self.now.sources.now))) }
    {
        self.push_file(text, "{", Some(span))?;
        self.push_span(text, Some(span))?;
        text.push_str("}")?;
        Ok(())
    }

    /// Adds a path, or null where there is none.
    #[tactic(auto, unfolding(crate::specs::MemberTexts::data_text))]
    fn push_path(&self, text: &mut String, path: Option<&SelectionPath>) -> Result<(), AllocError>
        ensures { OnOk result (string_bytes text.new ≡ string_bytes text.old
            ++ members_behind (path_members (option_map (λ path. path.now) path.entry))) }
    {
        push_key(self.alloc, text, ",", "path")?;
        match path {
            Some(path) => push_steps(self.alloc, text, path),
            None => text.push_str("null"),
        }
    }

    /// Adds what stands under the name of a detail: null where there is nothing.
    #[tactic(auto, unfolding(crate::specs::MemberTexts::data_text))]
    fn push_value(&self, text: &mut String, value: &DetailValue) -> Result<(), AllocError>
        ensures { OnOk result (string_bytes text.new ≡ string_bytes text.old
            ++ data_text (value_data (S.files self.now.sources.now) value.now)) }
    {
        match value {
            DetailValue::Words(Some(words)) => push_text(self.alloc, text, Some(words.as_str())),
            DetailValue::Words(None) => push_text(self.alloc, text, None),
            DetailValue::Place(Some(span)) => self.push_object(text, *span),
            DetailValue::Place(None) => text.push_str("null"),
        }
    }

    /// Adds details, in order.
    fn push_details(&self, text: &mut String, details: &[Detail]) -> Result<(), AllocError>
        ensures { OnOk result (string_bytes text.new ≡ string_bytes text.old
            ++ members_behind (map (detail_member (S.files self.now.sources.now)) details.now)) }
    {
        for detail in details {
            push_key(self.alloc, text, ",", detail.name.as_str())?;
            self.push_value(text, &detail.value)?;
        }
        Ok(())
    }

    /// Adds a fault as an object of this type.
    pub fn push_fault(
        &self,
        text: &mut String,
        of_type: &str,
        location: Option<SourceSpan>,
        about: &About<'_>,
        said: &str,
        details: &[Detail],
    ) -> Result<(), AllocError>
        ensures { OnOk result (string_bytes text.new ≡ string_bytes text.old
            ++ data_text (fault_data of_type.now (S.files self.now.sources.now) location
            (about_view about.now) said.now details.now)) }
    {
        push_string_member(self.alloc, text, "{", "type", of_type)?;
        push_string_member(self.alloc, text, ",", "kind", about.kind.as_str())?;
        push_string_member(self.alloc, text, ",", "message", said)?;
        self.push_file(text, ",", location)?;
        self.push_span(text, location)?;
        self.push_path(text, about.path)?;
        self.push_details(text, details)?;
        text.push_str("}")?;
        Ok(())
    }
}
