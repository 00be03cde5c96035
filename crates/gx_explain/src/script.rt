// A script that is heard and explained.
ghost use Rattle.std.specs.Prelude.{◌≡◌, ◌≤◌, [], Ok, false, length, IsTrue, IfErr};
ghost use Rattle.gx_schema.specs.WellFormed.{IsWellFormed};
ghost use Rattle.gx_commands.specs.Lines.{script_lines};
ghost use Rattle.gx_types.specs.Nodes.{AreNodes};
ghost use Rattle.gx_play.specs.Endings.{CountsOutside};
ghost use Rattle.gx_play.specs.Plays.{is_play_fault};
ghost use Rattle.gx_play.specs.Say.{SameDevices};
ghost use Rattle.gx_explain.specs.Explained.{IsScriptExplained};
ghost use Rattle.gx_explain.specs.Explaining.{fields_in, HasEndCause, SaysPlans};

use crate::explanation::{explain_last, explain_piece};
use gx_device::Machine;
use gx_play::{Ending, PIECE_LEN, PlayEnd, Status, end};
use gx_ports::Stop;
use gx_reader::LineReader;
use gx_schema::Schema;
use gx_types::Built;
use std::alloc::Global;

/// Hears the script of a schema in pieces, whose files are stored in these nodes, and says the plan
/// of each `find` and the direction of each path, and why it ends early. What a line says is said
/// before more is heard. No line is carried out, no block is written, and no device is attached.
pub fn explain_script<M: Machine>(
    alloc: Global,
    schema: &Schema,
    built: &Built,
    machine: &mut M,
) -> Status
    requires well_formed { IsWellFormed schema.now }
    requires nodes { AreNodes schema.now built.now.files (length built.now.specs) }
    ensures said { IsTrue M.tells →
        IsScriptExplained schema.now (fields_in schema.now built.now.files)
        (M.content machine.old) (M.content machine.new) result }
    ensures heard { IsTrue M.tells → result ≡ Status.Done → (M.content machine.new).script ≡ [] }
    ensures devices { SameDevices (M.content machine.old) (M.content machine.new) }
    ensures aside { (M.content machine.new).aside ≡ (M.content machine.old).aside }
    ensures failures { CountsOutside (M.faults machine.old) (M.faults machine.new) result }
{
    match explain_heard(alloc, schema, built, machine) {
        Ok(()) => Status::Done,
        Err(why) => end(alloc, Ending::from(why), machine),
    }
}

// Hears the script in pieces and explains its lines.
fn explain_heard<M: Machine>(
    alloc: Global,
    schema: &Schema,
    built: &Built,
    machine: &mut M,
) -> Result<(), PlayEnd>
    requires well_formed { IsWellFormed schema.now }
    requires nodes { AreNodes schema.now built.now.files (length built.now.specs) }
    ensures said { IsTrue M.tells →
        SaysPlans schema.now (fields_in schema.now built.now.files)
        (script_lines (M.content machine.old).script) (M.content machine.old)
        (M.content machine.new) result }
    ensures heard { IsTrue M.tells → result ≡ Ok tt → (M.content machine.new).script ≡ [] }
    ensures devices { SameDevices (M.content machine.old) (M.content machine.new) }
    ensures aside { (M.content machine.new).aside ≡ (M.content machine.old).aside }
    ensures cause { IfErr result (HasEndCause (M.faults machine.old) (M.faults machine.new)) }
    ensures counted { is_play_fault result ≡ false → M.faults machine.new ≡ M.faults machine.old }
    ensures later { M.faults machine.old ≤ M.faults machine.new }
{
    let mut reader = LineReader::new();
    let mut piece = [0u8; PIECE_LEN];
    let mut inside = false;
    loop {
        let Ok(count) = machine.hear(&mut piece) else {
            return Err(PlayEnd::Stop(Stop::Fault));
        };
        if count == 0 {
            return explain_last(alloc, schema, built, inside, &mut reader, machine);
        }
        let heard = &piece[..count];
        inside = explain_piece(alloc, schema, built, heard, inside, &mut reader, machine)?;
    }
}
