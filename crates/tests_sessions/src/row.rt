// A row of a table of cases.
use std::process::Abort;

/// Ends the test and names the row, unless what it says holds.
pub(crate) fn check_row(rt: &impl Abort, row: &str, holds: bool) {
    assert!(rt; holds, "{row}");
}
