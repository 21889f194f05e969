//! Lines and columns of faults.
ghost use Rattle.std.specs.Prelude.{◌≡◌};
ghost use Rattle.apollo_reporting.specs.Places.{ends, starts};

use crate::sources::Sources;
use graphql_nodes::line_column::LineColumn;
use graphql_nodes::source::SourceSpan;

/// The line and column where a fault starts, where they are known.
pub(crate) fn start<S: Sources>(sources: &S, location: Option<SourceSpan>) -> Option<LineColumn>
    ensures { result ≡ starts location (S.files sources.now) }
{
    let span = location?;
    sources.line_column(span.file, span.start)
}

/// The line and column where a fault ends, where they are known.
pub(crate) fn end<S: Sources>(sources: &S, location: Option<SourceSpan>) -> Option<LineColumn>
    ensures { result ≡ ends location (S.files sources.now) }
{
    let span = location?;
    sources.line_column(span.file, span.end)
}
