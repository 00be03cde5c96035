// Why a device isn't opened as a journal.
use thiserror::Error;

/// Why a device isn't opened as a journal.
#[derive(Clone, Copy, Debug, PartialEq, Eq, Error)]
pub enum Unopened {
    /// A call of the device failed.
    #[error("the device failed")]
    Fault,
    /// There was no memory for the journal.
    #[error("out of memory")]
    NoMemory,
    /// There is no database on the device.
    #[error("no database")]
    NoDatabase,
}
