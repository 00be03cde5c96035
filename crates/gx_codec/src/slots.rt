// One value of a body: which field it is of, and by which code it stands.

use gx_values::Code;

/// One data field of a record, as a body has it.
#[derive(Clone, Copy, Debug)]
pub struct Slot {
    /// its number among the data fields of the record
    pub number: usize,
    /// its code, if it has one
    pub code: Option<Code>,
}
