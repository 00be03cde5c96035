// Why a device isn't opened or made.
use gx_device::AttachStop;
use gx_journal::Unopened as NoJournal;
use thiserror::Error;

/// Why a device isn't opened or made.
#[derive(Clone, Copy, Debug, PartialEq, Eq, Error)]
pub enum Unopened {
    /// There is no device of that name.
    #[error("there is no such device")]
    Missing,
    /// There is a device of that name already.
    #[error("there is such a device already")]
    Exists,
    /// There is no room for the leaves, or there are more blocks than a device may have.
    #[error("the device has another size")]
    Size,
    /// There is no database on the device.
    #[error("no database")]
    NoDatabase,
    /// The texts that are kept there are others. This is the first place of the text area that differs,
    /// counted from 0.
    #[error("another schema or equation")]
    OtherTexts(u16),
    /// A call of the machine failed.
    #[error("the machine failed")]
    Fault,
    /// There was no memory.
    #[error("out of memory")]
    NoMemory,
}

impl From<AttachStop> for Unopened {
    ghost use Rattle.gx_store.specs.Causes.{not_attached};
    ghost use Rattle.std.specs.Prelude.{◌≡◌};

    ghost from_gives = { λ stop e. e ≡ not_attached stop };

    fn from(stop: AttachStop) -> Self {
        match stop {
            AttachStop::Missing => Unopened::Missing,
            AttachStop::Exists => Unopened::Exists,
            AttachStop::Fault => Unopened::Fault,
            AttachStop::NoMemory => Unopened::NoMemory,
        }
    }
}

impl From<NoJournal> for Unopened {
    ghost use Rattle.gx_store.specs.Causes.{no_journal};
    ghost use Rattle.std.specs.Prelude.{◌≡◌};

    ghost from_gives = { λ why e. e ≡ no_journal why };

    fn from(why: NoJournal) -> Self {
        match why {
            NoJournal::Fault => Unopened::Fault,
            NoJournal::NoMemory => Unopened::NoMemory,
            NoJournal::NoDatabase => Unopened::NoDatabase,
        }
    }
}
