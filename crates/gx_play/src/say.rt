// Saying a whole piece.
ghost use Rattle.gx_engine.specs.Steps.{leaves_of, IsSame};
ghost use Rattle.std.specs.Prelude.{IsTrue};
ghost use Rattle.gx_play.specs.Say.{SaysAll, SameDevices, SaysThrough};

use gx_device::{Device, Failed};
use gx_engine::Engine;
use gx_ports::Leaves;

/// Says the whole piece on a device: where only a part is taken, the rest is offered next. After
/// `Failed` a front of the piece was said.
pub fn say_all<D: Device>(device: &mut D, piece: &[u8]) -> Result<(), Failed>
    ensures says { SaysAll D.tells (D.content device.old) (D.content device.new)
        (D.faults device.old) (D.faults device.new) piece.now result }
    ensures devices { SameDevices (D.content device.old) (D.content device.new) }
    ensures moments { IsTrue D.tells →
        SaysThrough piece.now (D.content device.old) (D.content device.new) }
{
    let mut rest = piece;
    while !rest.is_empty() {
        let count = device.say(rest)?;
        if count == 0 {
            return Err(Failed);
        }
        rest = &rest[count..];
    }
    Ok(())
}

/// Says the whole piece through an engine, as on a device.
pub fn answer_all<B: Leaves + Drop>(engine: &mut Engine<B>, piece: &[u8]) -> Result<(), Failed>
    ensures says { SaysAll B.tells (B.content (leaves_of engine.old))
        (B.content (leaves_of engine.new)) (B.faults (leaves_of engine.old))
        (B.faults (leaves_of engine.new)) piece.now result }
    ensures same { IsSame B.View engine.old engine.new }
{
    let mut rest = piece;
    while !rest.is_empty() {
        let count = engine.say(rest)?;
        if count == 0 {
            return Err(Failed);
        }
        rest = &rest[count..];
    }
    Ok(())
}
