//! Coordinates that point to nothing, as they are reported.
ghost use Rattle.std.specs.Prelude.{Some, codes};
ghost use Rattle.apollo_reporting.specs.Abouts.{of_kind};
ghost use Rattle.apollo_reporting.specs.Details.{one_text};

use apollo_reporting::about::About;
use apollo_reporting::detail::Detail;
use apollo_reporting::reported::Reported;
use graphql_nodes::collections::text::Text;
use graphql_nodes::take_apart;
use std::alloc::{AllocError, Global};
use std::fmt;

/// A coordinate that points to nothing. `Display` is a sentence that says so, and why.
pub(crate) struct Missing {
    /// The text of the coordinate.
    pub coordinate: Text,
    pub sentence: Text,
}

impl Drop for Missing {
    fn drop(self) {
        take_apart!(self: coordinate, sentence);
    }
}

impl fmt::Display for Missing {
    ghost output = { λ missing. Some missing.sentence };

    fn fmt<W: fmt::Write>(&self, f: &mut fmt::Formatter<W>) -> fmt::Result {
        fmt::Display::fmt(&self.sentence, f)
    }
}

/// The text of the coordinate is its one detail.
impl Reported for Missing {
    ghost said_about = { λ _. of_kind (codes "PointsToNothing") };

    ghost said_details = { λ missing. Some (one_text (codes "coordinate") missing.coordinate) };

    fn about(&self) -> About<'_> {
        About::new("PointsToNothing")
    }

    fn details(&self, alloc: Global) -> Result<Vec<Detail>, AllocError> {
        let coordinate = Detail::text(alloc, "coordinate", self.coordinate.as_str())?;
        Ok(vec![in alloc; coordinate]?)
    }
}
