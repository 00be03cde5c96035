// The block in which damage is told.
ghost use Rattle.gx_operations.specs.Damage.{IsDamageBelow, IsDamageOf};

use gx_play::{DeviceWhy, Ending};

/// The same ending, where damage is told in a block that a device of so many blocks has. In the
/// place of another it is told in block 0.
pub(crate) fn damage_on<'a>(ending: Ending<'a>, blocks: u32) -> Ending<'a>
    ensures below { IsDamageBelow blocks result }
    ensures same { IsDamageOf ending.entry result }
{
    match ending {
        Ending::Device(DeviceWhy::Damaged(block)) if block >= blocks => {
            Ending::Device(DeviceWhy::Damaged(0))
        }
        other => other,
    }
}
