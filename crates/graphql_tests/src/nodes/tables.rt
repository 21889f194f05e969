//! Tables of texts.

use std::process::Abort;

/// Expects that it holds at this text.
pub fn expect_at(rt: &impl Abort, text: &str, holds: bool) {
    assert!(rt; holds, "at {text}");
}
