//! Rows of documents, and what is said of them.

use crate::schemas::building::{Settings, told};
use crate::schemas::{extensions, faults, roots};
use bench_notation::documents::read;
use std::process::Abort;

/// How documents are built, the text that says them, and what is said of them.
pub type Row = (&'static Settings, &'static str, &'static str);

/// Expects what each row says.
fn expect_each(rt: &(impl Abort + AllocGlobal), rows: &[Row]) {
    for (settings, input, account) in rows {
        let documents = read(rt.alloc(), input).expect(rt, "documents");
        let text = told(rt.alloc(), settings, documents.as_slice()).expect(rt, "memory");
        assert_eq!(rt; text.as_str(), *account, "of {input:?}");
    }
}

#[test]
fn what_is_said_of_documents_is_as_rows_have_it(rt: HostRuntime) {
    expect_each(&rt, &extensions::ROWS);
    expect_each(&rt, &faults::ROWS);
    expect_each(&rt, &roots::ROWS);
}
