//! Leaf faults that only repeat what is said of the selections below: GraphQL specification of October 2021,
//! sections 2.4 to 2.8 and 5.3.3.
ghost use Rattle.std.specs.Prelude.{◌↔◌, IfOk, IsTrue};
ghost use Rattle.leafcheck.specs.LostSelections.{is_lost};
ghost use Rattle.peglinden_run.specs.Echoes.{IsEcho, LeavesOut, Repeats};

use apollo_document::build_error::Fault;
use leafcheck::leaf_fault::{LeafFault, LeafKind};
use leafcheck::lost_selections::LostSelections;
use std::alloc::{AllocError, Global};

/// These leaf faults but for echoes, beside the faults of the build of their document. An echo is of a field
/// that lacks subselections, and below which one of these faults is: its subselections were dropped, and that
/// is said already. The error is out of memory.
pub(crate) fn without_echoes(
    alloc: Global,
    leaves: Vec<LeafFault>,
    faults: &[Fault],
) -> Result<Vec<LeafFault>, AllocError>
    ensures { IfOk result (λ kept. LeavesOut (IsEcho faults.now) leaves.items kept.items) }
{
    let lost = LostSelections::new(alloc, faults)?;
    let mut kept = Vec::new(alloc);
    for leaf in leaves {
        if !is_echo(&leaf, &lost) {
            kept.push(leaf)?;
        }
    }
    Ok(kept)
}

/// Whether a leaf fault is an echo, where these selections were lost.
fn is_echo(leaf: &LeafFault, lost: &LostSelections<'_>) -> bool
    ensures { IsTrue result
        ↔ Repeats (λ path. IsTrue (is_lost lost.now path)) leaf.now.path leaf.now.kind }
{
    match leaf.kind {
        LeafKind::MissingSubselection => lost.below(&leaf.path),
        LeafKind::SubselectionOnLeaf => false,
    }
}
