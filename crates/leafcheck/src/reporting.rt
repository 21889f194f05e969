//! Leaf faults, as they are reported.
ghost use Rattle.std.specs.Prelude.{Some};
ghost use Rattle.leafcheck.specs.FaultReports.{leaf_fault_about, leaf_fault_details};

use crate::leaf_fault::{LeafFault, LeafKind};
use apollo_reporting::about::About;
use apollo_reporting::detail::Detail;
use apollo_reporting::reported::Reported;
use std::alloc::{AllocError, Global};

/// The name of the kind, the path, the response key and the type of the set in which the field stands.
impl Reported for LeafFault {
    ghost said_about = { leaf_fault_about };

    ghost said_details = { λ fault. Some (leaf_fault_details fault) };

    fn about(&self) -> About<'_> {
        let about = match self.kind {
            LeafKind::SubselectionOnLeaf => About::new("SubselectionOnLeaf"),
            LeafKind::MissingSubselection => About::new("MissingSubselection"),
        };
        about.with_path(&self.path)
    }

    fn details(&self, alloc: Global) -> Result<Vec<Detail>, AllocError> {
        let key = Detail::text(alloc, "response_key", self.response_key.as_str())?;
        let parent = Detail::text(alloc, "parent_type", self.parent_type.as_str())?;
        Ok(vec![in alloc; key, parent]?)
    }
}
