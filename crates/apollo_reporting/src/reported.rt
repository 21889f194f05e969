//! What can be reported.

use crate::about::About;
use crate::detail::Detail;
use std::alloc::{AllocError, Global};
use std::fmt::Display;

/// A fault that can be reported: `Display` says in a sentence what is wrong. The faults of builds and the
/// errors of readers are such, and a caller's own errors can be.
///
/// **A fault of your own.** Two calls answer what is said besides the sentence. Above them stand ghost
/// members, which are no code: contracts read there what the calls answer. This is a type whose name begins
/// with a small letter, in the program `example_reports`:
///
/// ```rust
/// impl Reported for SmallName<'_> {
///     // What `about` answers: a kind, with no earlier place and no path.
///     ghost said_about = { λ _. of_kind (codes "SmallName") };
///
///     // What `details` answers: the type's name, under `name`.
///     ghost said_details = { λ it. Some (one_text (codes "name") it.name.now.text) };
///
///     fn about(&self) -> About<'_> {
///         About::new("SmallName")
///     }
///
///     fn details(&self, alloc: Global) -> Result<Vec<Detail>, AllocError> {
///         let name = Detail::text(alloc, "name", self.name.as_str())?;
///         Ok(vec![in alloc; name]?)
///     }
/// }
/// ```
///
/// | what is answered | what the ghost member is |
/// |---|---|
/// | `About::new("K")` | `said_about = { λ _. of_kind (codes "K") }` |
/// | that `.with_earlier("m", self.at)` | `said_about = { λ it. of_earlier (codes "K") (codes "m") it.at }` |
/// | that `.with_path(&self.path)` | `said_about = { λ it. of_path (codes "K") it.path }` |
/// | `Vec::new(alloc)` | no `said_details`: this is its default |
/// | two texts | `said_details = { λ it. Some (two_texts (codes "a") it.a (codes "b") it.b) }` |
/// | details that no contract is to speak of | `said_details = { λ _. None }` |
///
/// In a ghost member `it` is the fault, and what its field `name` refers to is `it.name.now`. The words come
/// by `ghost use`: `codes` and `Some` from `Rattle.std.specs.Prelude`, those of the first three rows from
/// `Rattle.apollo_reporting.specs.Abouts`, `one_text` and `two_texts` from
/// `Rattle.apollo_reporting.specs.Details`. For these the crate's line in `crates.txt` names
/// `apollo_reporting`.
pub trait Reported: Display {
    ghost use Rattle.std.specs.Prelude.{◌≡◌, List, [], Option, Some, IfOk, IfSome};
    ghost use Rattle.apollo_reporting.specs.Abouts.{AboutView, about_view};
    ghost use Rattle.apollo_reporting.specs.declared.detail.Detail.{Detail};

    // What a report says of it besides its sentence.
    ghost said_about: { Self → AboutView };

    // The details that JSON has of it, or `None` if the impl does not specify them.
    ghost said_details: { Self → Option (List Detail) } = { λ _. Some [] };

    /// What a report says of it besides its sentence: its name, and where it has them an earlier place and a
    /// path.
    fn about(&self) -> About<'_>
        ensures { about_view result ≡ said_about self.now };

    /// What JSON has of it under names of its own, in this order. Where there is nothing, answer
    /// `Vec::new(alloc)`.
    ///
    /// The error is out of memory.
    fn details(&self, alloc: Global) -> Result<Vec<Detail>, AllocError>
        ensures { IfOk result (λ details. IfSome (said_details self.now) (λ said. details.items ≡ said)) };
}
