// Playing the workload's script silently.
ghost use Rattle.std.specs.Prelude.{◌≡◌, ◌≤◌, None, length, OnOk, IfErr, IsErrOf};
ghost use Rattle.gx_device.specs.Content.{Content, Silent};
ghost use Rattle.gx_schema.specs.WellFormed.{IsWellFormed};
ghost use Rattle.gx_commands.specs.Lines.{script_lines};
ghost use Rattle.gx_model.specs.States.{State};
ghost use Rattle.gx_model.specs.Play.{Playing, start_at};
ghost use Rattle.gx_play.specs.Plays.{AreFor, IsReady, IsAt, schema_of, built_of, stop_of, leaves_of};
ghost use Rattle.gx_work.specs.Schema.{work_schema};
ghost use Rattle.gx_play.specs.Endings.{IsPlayEnding, CountsFault, is_fault};
ghost use Rattle.gx_play.specs.Images.{LeavesPlay};
ghost use Rattle.gx_play.specs.Plays.{IsHolding, KeepsState, KeepsPlayed, CountsFailed, HasPlayCause, is_play_fault};
ghost use Rattle.gx_working.specs.Answering.{IsAnsweredBy};
ghost use Rattle.gx_working.specs.Crashes.{LeavesWork, LeavesLines};
ghost use Rattle.gx_working.specs.Worked.{IsWorkedAs};

use crate::summary::summary_line;
use gx_play::{Answers, Ending, Engine, PlayEnd, play_script};
use gx_ports::{Leaves, Stop};
use gx_schema::Schema;
use gx_types::Built;
use gx_values::Octets;
use gx_work::changes;
use std::alloc::Global;

const FIND_BY_PAY: &[u8] = b"find emp where pay = 1500\n";

const FIND_BY_LINK: &[u8] = b"find emp of works 3\n";

/// Plays the workload's script over leaves, says nothing and hears nothing, and gives the line of
/// its summary. The leaves are handed back, under the same limit. On leaves that hold a state:
/// after `Ok` all of the script was played from that state, to its end, and the last kept state is
/// in the kept leaves; after `NoMemory` and `Full` the first lines, and their last kept state.
/// `Full` comes only where the pages may be too few for the command of the next line, which may
/// want room. No other ending is answered but `Fault`, after which the count of faults rose. A crash
/// leaves the last state that first lines kept, and after any ending but `Fault` the one that is kept.
pub fn play_work<'a, B: Leaves + Drop>(
    alloc: Global,
    schema: Schema,
    built: Built,
    records: u32,
    leaves: B,
) -> (Result<Octets, Ending<'a>>, B)
    requires built { AreFor schema built (length (B.working leaves)) }
    requires schema { schema ≡ work_schema }
    requires few { records ≤ 10000 }
    ensures worked { (s : State) → IsHolding B.View schema built s leaves →
        IsWorkedAs built (B.limit leaves) s (KeepsState B.View work_schema built result.1) records
        result.0 }
    ensures crash { (s : State) → IsHolding B.View schema built s leaves → (start : Content) →
        B.calm leaves start →
        LeavesWork B.View built s records (is_fault result.0) leaves result.1 }
    ensures ending { IfErr result.0 IsPlayEnding }
    ensures limit { B.limit result.1 ≡ B.limit leaves }
    ensures head { B.head result.1 ≡ B.head leaves }
    ensures silent { Silent (B.content leaves) (B.content result.1) }
    ensures failures { CountsFault (B.faults leaves) (B.faults result.1) result.0 }
{
    let mut engine = Engine::start(schema, built, leaves);
    let line = work(alloc, records, &mut engine);
    (line, engine.into_leaves())
}

// The same on an engine that stands for the start of a play.
fn work<'a, B: Leaves + Drop>(
    alloc: Global,
    records: u32,
    engine: &mut Engine<B>,
) -> Result<Octets, Ending<'a>>
    requires ready { IsReady B.View engine.old }
    requires schema { schema_of engine.old ≡ work_schema }
    requires going { stop_of engine.old ≡ None }
    requires few { records ≤ 10000 }
    ensures worked { (s : State) → IsAt B.View (start_at s) engine.old →
        IsWorkedAs (built_of engine.old) (B.limit (leaves_of engine.old)) s
        (KeepsState B.View work_schema (built_of engine.old) (leaves_of engine.new)) records
        result }
    ensures crash { (s : State) → IsAt B.View (start_at s) engine.old → (start : Content) →
        B.calm (leaves_of engine.old) start →
        LeavesLines B.View (built_of engine.old) s records (is_fault result)
        (leaves_of engine.old) (leaves_of engine.new) }
    ensures ending { IfErr result IsPlayEnding }
    ensures keeps { KeepsPlayed B.View Answers.Kept engine.old engine.new }
    ensures counts { CountsFailed (B.faults (leaves_of engine.old))
        (B.faults (leaves_of engine.new)) (is_fault result) }
{
    let script = changes(alloc, records)?;
    answers(alloc, script.as_slice(), engine)?;
    let by_pay = answers(alloc, FIND_BY_PAY, engine)?;
    let by_link = answers(alloc, FIND_BY_LINK, engine)?;
    let commits = records.div_ceil(20) + 2;
    Ok(summary_line(
        alloc,
        records,
        by_pay.as_slice(),
        by_link.as_slice(),
        commits,
    )?)
}

// Plays a script, and gives its answers.
fn answers<B: Leaves + Drop>(
    alloc: Global,
    script: &[u8],
    engine: &mut Engine<B>,
) -> Result<Octets, PlayEnd>
    requires ready { IsReady B.View engine.old }
    requires well_formed { IsWellFormed (schema_of engine.old) }
    requires going { stop_of engine.old ≡ None }
    ensures played { (p : Playing) → IsAt B.View p engine.old →
        IsAnsweredBy B.View p (script_lines script.now) engine.old engine.new result }
    ensures cause { (p : Playing) → IsAt B.View p engine.old → (stop : Stop) →
        IsErrOf result (PlayEnd.Stop stop) →
        HasPlayCause (B.limit (leaves_of engine.old)) (B.faults (leaves_of engine.old))
        (B.faults (leaves_of engine.new)) stop }
    ensures crash { (p : Playing) → IsAt B.View p engine.old → (start : Content) →
        B.calm (leaves_of engine.old) start →
        LeavesPlay B.View (schema_of engine.old) (built_of engine.old) Answers.Kept p
        (script_lines script.now).lines (is_play_fault result) (leaves_of engine.old)
        (leaves_of engine.new) }
    ensures keeps { KeepsPlayed B.View Answers.Kept engine.old engine.new }
    ensures going { OnOk result (stop_of engine.new ≡ None) }
    ensures counts { CountsFailed (B.faults (leaves_of engine.old))
        (B.faults (leaves_of engine.new)) (is_play_fault result) }
{
    let mut out = Octets(Vec::new(alloc));
    play_script(alloc, script, Answers::Kept, engine, &mut out)?;
    Ok(out)
}
