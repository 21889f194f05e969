//! What reports say of faults besides their sentences.
ghost use Rattle.std.specs.Prelude.{◌≡◌, Some};
ghost use Rattle.apollo_reporting.specs.Abouts.{about_view, earlier_at, of_kind};

use apollo_document::selection_path::SelectionPath;
use graphql_nodes::collections::static_text::StaticText;
use graphql_nodes::source::SourceSpan;

/// An earlier place that a fault has to do with.
#[derive(Drop)]
pub struct Earlier {
    /// What stands there, as `first defined here`.
    pub message: StaticText,
    pub location: SourceSpan,
}

/// What a report says of a fault besides its sentence.
#[derive(Drop)]
pub struct About<'a> {
    /// The name of what is wrong, as JSON has it: that of the variant.
    pub kind: StaticText,
    /// An earlier place that has to do with it, which the report shows too.
    pub earlier: Option<Earlier>,
    /// Where the selection stands that the fault is about.
    pub path: Option<&'a SelectionPath>,
}

impl<'a> About<'a> {
    /// The name of what is wrong, with no earlier place and no path.
    pub fn new(kind: &'static str) -> About<'a>
        ensures { about_view result ≡ of_kind kind.now }
    {
        About {
            kind: StaticText::new(kind),
            earlier: None,
            path: None,
        }
    }

    /// The same with an earlier place, where it is known, and what stands there.
    pub fn with_earlier(mut self, message: &'static str, location: Option<SourceSpan>) -> About<'a>
        ensures { about_view result
            ≡ record (about_view self.entry) { earlier = earlier_at message.now location } }
    {
        self.earlier = match location {
            Some(location) => Some(Earlier {
                message: StaticText::new(message),
                location,
            }),
            None => None,
        };
        self
    }

    /// The same with a path.
    pub fn with_path(mut self, path: &'a SelectionPath) -> About<'a>
        ensures { about_view result ≡ record (about_view self.entry) { path = Some path.now } }
    {
        self.path = Some(path);
        self
    }
}
