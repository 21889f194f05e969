//! Lines and columns found by indexes of texts.

use graphql_nodes::line_column::LineColumn;
use graphql_nodes::line_index::LineIndex;
use std::alloc::Global;

/// A text of 16 lines of 45 bytes each, that of the line end among them, with characters of two bytes.
static TEXT: &str = "\
# ééééééééééééééééééééé
# ééééééééééééééééééééé
# ééééééééééééééééééééé
# ééééééééééééééééééééé
# ééééééééééééééééééééé
# ééééééééééééééééééééé
# ééééééééééééééééééééé
# ééééééééééééééééééééé
# ééééééééééééééééééééé
# ééééééééééééééééééééé
# ééééééééééééééééééééé
# ééééééééééééééééééééé
# ééééééééééééééééééééé
# ééééééééééééééééééééé
# ééééééééééééééééééééé
# ééééééééééééééééééééé
";

/// Offsets of it, with their lines and columns: the first and the last, around the offset of 256 bytes, and
/// where lines begin and end.
const PLACES: &[(usize, usize, usize)] = &[
    (0, 1, 1),
    (44, 1, 24),
    (45, 2, 1),
    (255, 6, 17),
    (256, 6, 18),
    (257, 6, 18),
    (512, 12, 11),
    (719, 16, 24),
    (720, 17, 1),
];

/// Whether the offsets are found where they are, and none is beyond the end. Where memory runs out they
/// aren't.
fn are_found(alloc: Global) -> bool {
    let Ok(index) = LineIndex::new(alloc, TEXT) else {
        return false;
    };
    for (offset, line, column) in PLACES {
        let (line, column) = (*line, *column);
        if index.get_line_column(*offset) != Some(LineColumn { line, column }) {
            return false;
        }
    }
    index.get_line_column(721).is_none()
}

#[test]
fn offsets_are_found_by_an_index(rt: HostRuntime) {
    assert!(rt; are_found(rt.alloc()));
}
