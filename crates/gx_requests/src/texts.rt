// Fetching the texts that the words name.
ghost use Rattle.std.specs.Prelude.{◌≤◌, length, IsTrue, IfOk, IfErr};
ghost use Rattle.gx_requests.specs.Requests.{IsText, IsUnfetched, text_limit};
ghost use Rattle.gx_requests.specs.Fetched.{Fetches};

use gx_device::{FetchStop, Machine};
use gx_layout::MAX_TEXTS_LEN;
use gx_play::Ending;
use std::alloc::Global;

/// The most bytes that a text may have, and that the two canonical texts may have together.
pub const TEXT_LIMIT: u32 = MAX_TEXTS_LEN as u32;

/// The text of that name, of at most `TEXT_LIMIT` bytes. `Missing` comes only where there is none,
/// `TooLong` only where it is longer, `Fault` only where a call of the machine failed.
pub fn fetch_text<'a, M: Machine>(
    alloc: Global,
    name: &'a str,
    machine: &mut M,
) -> Result<Vec<u8>, Ending<'a>>
    ensures text { IsTrue M.tells →
        IfOk result (λ text. IsText (M.content machine.old).aside.texts name.now text.items) }
    ensures short { IfOk result (λ text. length text.items ≤ text_limit) }
    ensures unfetched { IfErr result
        (IsUnfetched M.tells (M.content machine.old).aside.texts (M.faults machine.old)
        (M.faults machine.new) name.now) }
    ensures fetches { Fetches M.content M.faults machine.old machine.new result }
{
    match machine.fetch(alloc, name, TEXT_LIMIT) {
        Ok(text) => Ok(text),
        Err(FetchStop::Missing) => Err(Ending::Missing(name)),
        Err(FetchStop::TooLong) => Err(Ending::TooLong(name)),
        Err(FetchStop::Fault) => Err(Ending::Fault),
        Err(FetchStop::NoMemory) => Err(Ending::NoMemory),
    }
}
