// One command on an engine that has given nothing up.
ghost use Rattle.std.specs.Prelude.{◌≡◌, ℕ, None, Err, false, OnOk, OnErr};
ghost use Rattle.gx_device.specs.Content.{Content};
ghost use Rattle.gx_ports.specs.Stops.{is_fault, HasStopCause};
ghost use Rattle.gx_ports.specs.Calls.{Keeps};
ghost use Rattle.gx_model.specs.Play.{Playing};
ghost use Rattle.gx_engine.specs.Steps.{IsReady, IsAt, IsDue, IsSound, IsShortFor, CarriesOut, KeepsEngine, stop_of, leaves_of};
ghost use Rattle.gx_engine.specs.Crashes.{LeavesStates};

use gx_commands::Command;
use gx_engine::{Engine, StepStop};
use gx_ports::{Leaves, Stop};
use gx_values::Octets;
use std::alloc::Global;

/// Carries out a command and appends its answer.
pub(crate) fn step<B: Leaves + Drop>(
    alloc: Global,
    command: Command,
    engine: &mut Engine<B>,
    out: &mut Octets,
) -> Result<(), Stop>
    requires ready { IsReady B.View engine.old }
    requires due { IsDue engine.old command }
    requires going { stop_of engine.old ≡ None }
    ensures carried { (p : Playing) → IsAt B.View p engine.old →
        OnOk result (CarriesOut B.View p command engine.old engine.new out.old out.new) }
    ensures full { (p : Playing) → IsAt B.View p engine.old → result ≡ Err Stop.Full →
        IsShortFor B.View engine.old p command }
    ensures images { (p : Playing) → IsAt B.View p engine.old → (start : Content) →
        B.calm (leaves_of engine.old) start →
        LeavesStates B.View p command engine.old engine.new (is_fault result) }
    ensures unsaid { OnErr result (out.new ≡ out.old) }
    ensures rest { KeepsEngine B.View engine.old engine.new command result }
    ensures kept { is_fault result ≡ false →
        OnErr result (Keeps B.View (leaves_of engine.old) (leaves_of engine.new)) }
    ensures goes_on { IsReady B.View engine.new × OnOk result (stop_of engine.new ≡ None) }
    ensures cause { HasStopCause (B.faults (leaves_of engine.old))
        (B.faults (leaves_of engine.new)) (IsSound B.View engine.old) result
        × ((n : ℕ) → result ≡ Err (Stop.Damaged n) → B.whole (leaves_of engine.old) → n ≡ 0) }
{
    match engine.step(alloc, command, out) {
        Ok(()) => Ok(()),
        Err(StepStop::Now(stop) | StepStop::Stopped(stop)) => Err(stop),
    }
}
