//! Below which fields a build dropped selections, found at once: GraphQL specification of October 2021,
//! sections 2.4 to 2.8.
ghost use Rattle.std.specs.Prelude.{◌≡◌, ◌↔◌, IfOk, IsTrue, map, option_map};
ghost use Rattle.std.proofs.Props.{props};
ghost use Rattle.leafcheck.specs.LostPlaces.{AreInOrder, lost_at, lost_places, path_at};
ghost use Rattle.leafcheck.specs.LostSubselections.{HasLost};

use crate::places::Place;
use apollo_document::build_error::{BuildError, Fault};
use apollo_document::selection_path::SelectionPath;
use std::alloc::{AllocError, Global};

/// Where a build dropped selections, by its faults.
///
/// Make it once for many paths: the faults are looked at once then, and each path in the time of a binary
/// search.
#[derive(Drop)]
pub struct LostSelections<'f> {
    places: Vec<Place<'f>>,
    ghost ordered: { AreInOrder places.items } by { Prim.hlevel props },
}

impl<'f> LostSelections<'f> {
    ghost use Rattle.leafcheck.specs.LostSelections.{is_lost};

    /// Where these faults, those of the build of a document, say that selections were dropped. The error is
    /// out of memory.
    pub fn new(alloc: Global, faults: &'f [Fault]) -> Result<LostSelections<'f>, AllocError>
        ensures { IfOk result (λ lost. (path : SelectionPath)
            → IsTrue (is_lost lost path) ↔ HasLost path faults.now) }
    {
        let mut places = lost_places(alloc, faults)?;
        places.sort_unstable_by(|one, other| one.compare(other));
        Ok(LostSelections { places })
    }

    /// Whether a selection was dropped below the field of this path, or in the definition, where the path has
    /// no key. That is a field or an inline fragment, also one further below.
    ///
    /// It goes by paths, so fields of one key beside each other aren't told apart. It takes no memory.
    pub fn below(&self, path: &SelectionPath) -> bool
        ensures { result ≡ is_lost self.now path.now }
    {
        let wanted = Place::of(path);
        let places = self.places.as_slice();
        let at = places.partition_point(|place| place.compare(&wanted).is_lt());
        at < places.len() && places[at].begins_with(&wanted)
    }
}

/// Where these faults say that selections were dropped, in order. The error is out of memory.
fn lost_places<'f>(alloc: Global, faults: &'f [Fault]) -> Result<Vec<Place<'f>>, AllocError>
    ensures { IfOk result (λ places. map path_at places.items ≡ lost_places faults.now) }
{
    let mut places = Vec::new(alloc);
    for fault in faults {
        if let Some(place) = lost_at(&fault.1) {
            places.push(place)?;
        }
    }
    Ok(places)
}

/// Where a selection was dropped, if that is what an error says.
fn lost_at(error: &BuildError) -> Option<Place<'_>>
    ensures { option_map path_at result ≡ lost_at error.now }
{
    match error {
        BuildError::UndefinedTypeInInlineFragmentTypeCondition { path, .. } => Some(Place::of(
            path,
        )),
        BuildError::SubselectionOnScalarType { path, .. }
        | BuildError::SubselectionOnEnumType { path, .. }
        | BuildError::UndefinedField { path, .. } => Place::around(path),
        _ => None,
    }
}
