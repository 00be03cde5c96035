// A request from its words to its end.
ghost use Rattle.std.specs.Prelude.{IsTrue};
ghost use Rattle.gx_play.specs.Endings.{CountsOutside};
ghost use Rattle.gx_requests.specs.Words.{texts_of};
ghost use Rattle.gx_top.specs.Promised.{IsPromised};

use crate::check::check;
use crate::explain::explain;
use crate::inspect::inspect;
use crate::make::make;
use crate::run_script::run_script;
use crate::share_script::share_script;
use crate::try_script::try_script;
use crate::work::work;
use gx_device::Machine;
use gx_operations::refuse;
use gx_play::{Ending, Status};
use gx_requests::{Request, read_words};
use std::alloc::Global;

/// Carries out what the words ask for, says its answers on the machine, and hands the machine back.
/// The words are `check SCHEMA EQUATION`, `try SCHEMA EQUATION`, `explain SCHEMA EQUATION`,
/// `make SCHEMA EQUATION DEVICE BLOCKS`, `run SCHEMA EQUATION DEVICE`,
/// `share SCHEMA EQUATION DEVICE`, `inspect SCHEMA EQUATION DEVICE` or
/// `work EQUATION DEVICE BLOCKS RECORDS`. `share` is as `run`, with the turns of up to eight
/// sessions in the place of the lines of a script. On a machine that tells its content:
///
/// - `Done`: of `check`, exactly the line of the accepted equation's leaves was said; of `make`,
///   exactly the line of the device that was made. Of `try`, and of `run` on a device that holds a
///   state, exactly the answers of the play of the whole script were said, and the script was heard
///   to its end. `try` plays it on an empty database, `run` on that state. Of `explain`, exactly
///   the plans of the script's `find` lines and the directions of its paths were said, and the
///   script was heard to its end; a transaction may be open there. Of `inspect`, exactly the lines
///   of the leaves, files and links of the state were said that the device held, and then `sound`.
///   Of `work`, exactly the summary of the workload was said, which was played to its end on a
///   device that is new.
/// - `Script`: a line ends the play, or the plans and directions. Exactly the answers, or these, up
///   to it were said, of `run` on a device that holds a state, and then the line that says where
///   and why.
/// - `Refused`: the request is refused for the first reason in the order of the words, the texts,
///   the schema, the equation, its types, and the length of the texts. The line of that reason was
///   said, and nothing else.
/// - `Full`: the pages may be too few for the command of a line, which changes records or links,
///   isn't refused and is no `delete`, or is a `reorganize`; of `share`, at a turn that is answered,
///   for one of the commands of its session's transaction, carried out in order on the last kept
///   state, with that of the turn. Exactly the answers of the lines before it were said, of `run`
///   and of `share` on a device that holds a state, and then `stopped: full`; of `work` that line
///   alone.
/// - `Device`: the device isn't what was asked for. Its line was said, and nothing else; that of
///   damage, which names a block that the device has, was said last, behind what was said before.
///   Damage comes only of a device that is there, with its size, a database and the same texts, and
///   that holds no state. `inspect` finds it exactly there.
/// - `Memory`: there was no memory. Exactly the answers of the script's first lines, or their plans
///   and directions, were said, perhaps of none, of `run` on a device that holds a state, and then
///   `stopped: memory`.
/// - `Outside`: a call of the machine failed. All answers of one of the others were said and a
///   front of its line, or first answers, but perhaps an end of the last one.
///
/// On a device that holds no state `run` and `share` say of a line that it is bad only where it is,
/// and end with `Done` only where none is.
///
/// `Refused` comes only where there is a reason, and every other status but `Memory` and `Outside`
/// only where the texts are accepted. Which status is due, what is left of the device whatever the
/// status is, and what a crash at any moment leaves, each case of a request says by its `Promise`.
/// The texts of the machine stay, and all devices but the one that the words name. A device that
/// was attached before is synced before a request on a device is carried out, so that `top` can be
/// called again on the machine that it hands back. `check`, `try`, `explain` and words that are
/// refused leave all devices as they were, and of them what a crash may spoil.
pub fn top<M: Machine + Drop>(alloc: Global, words: &[String], machine: M) -> (Status, M)
    // What is promised of the request, in each case of what there was before.
    ensures promised { IsTrue M.tells → IsPromised (texts_of words.now) (M.content machine)
        (M.content result.1) result.0 }
    // No failure is passed over, on any machine.
    ensures failures { CountsOutside (M.faults machine) (M.faults result.1) result.0 }
{
    match read_words(words) {
        Some(Request::Check { schema, equation }) => check(alloc, schema, equation, machine),
        Some(Request::Try { schema, equation }) => try_script(alloc, schema, equation, machine),
        Some(Request::Explain { schema, equation }) => explain(alloc, schema, equation, machine),
        Some(
            Request::Make {
                schema,
                equation,
                device,
                blocks,
            },
        ) => make(alloc, schema, equation, device, blocks, machine),
        Some(
            Request::Run {
                schema,
                equation,
                device,
            },
        ) => run_script(alloc, schema, equation, device, machine),
        Some(
            Request::Share {
                schema,
                equation,
                device,
            },
        ) => share_script(alloc, schema, equation, device, machine),
        Some(
            Request::Inspect {
                schema,
                equation,
                device,
            },
        ) => inspect(alloc, schema, equation, device, machine),
        Some(
            Request::Work {
                equation,
                device,
                blocks,
                records,
            },
        ) => work(alloc, equation, device, blocks, records, machine),
        None => refuse(alloc, Ending::Words, machine),
    }
}
