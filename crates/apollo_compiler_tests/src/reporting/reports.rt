//! Reports of each fault: of texts that are refused, of schemas, of documents and of leaf fields.

use crate::reporting::rows::{Row, Sort, first_wrong};
use crate::reporting::{documents, leaves, schemas, texts};

#[test]
fn faults_are_reported(rt: HostRuntime) {
    let sorts: [(Sort, &[Row]); 5] = [
        (Sort::Texts, &texts::ROWS),
        (Sort::Schemas, &schemas::ROWS),
        (Sort::Documents, &documents::ROWS),
        (Sort::Leaves, &leaves::MISSING),
        (Sort::HandMade, &leaves::ON_LEAF),
    ];
    for (sort, rows) in sorts {
        assert!(rt; first_wrong(rt.alloc(), sort, rows) == None, "{sort:?}");
    }
}
