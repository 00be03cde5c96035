// How a request ends that isn't played to its end, and what is said of it.
ghost use Rattle.std.specs.Prelude.{◌≡◌, ◌≢◌, ◌++◌, ◌≤◌, ◌⊎◌, ℕ, [], take, IsTrue, IfOk, IsOk, codes};
ghost use Rattle.std.specs.Fmt.{decimal};
ghost use Rattle.gx_device.specs.Faults.{Rose};
ghost use Rattle.gx_play.specs.Summaries.{accepted_line};
ghost use Rattle.gx_play.specs.Endings.{ending_line, status_of, device_line, made_line, IsStatusFor, SaysEnding, EndsThrough};
ghost use Rattle.gx_play.specs.Say.{OnlySays, SameDevices, SaysThrough};

use crate::play::PlayEnd;
use crate::say::say_all;
use crate::status::Status;
use crate::summary::Summary;
use gx_commands::LineWhy;
use gx_device::{Failed, Machine};
use gx_ports::Stop;
use gx_schema::Why;
use gx_typing::TypeWhy;
use gx_values::NoMemory;
use std::alloc::{AllocError, Global};

/// Why the device that a request names isn't what was asked for.
#[derive(Clone, Copy, Debug)]
pub enum DeviceWhy {
    /// There is none of that name.
    Missing,
    /// There is one of that name already.
    Exists,
    /// It has too few blocks for the leaves, or more than a device may have.
    Size,
    /// It holds no database.
    NoDatabase,
    /// It holds other texts. This is the first place of the text area that differs, counted from 0.
    OtherEquation(u16),
    /// What it holds isn't whole, as this block shows.
    Damaged(u32),
}

/// How a request ends that isn't played to its end.
#[derive(Clone, Copy, Debug)]
pub enum Ending<'a> {
    /// The words are no request.
    Words,
    /// There is no text of this name.
    Missing(&'a str),
    /// The text of this name is longer than a text may be.
    TooLong(&'a str),
    /// The schema goes wrong in this line, counted from 1.
    Schema(u32, Why),
    /// The equation goes wrong in this line, counted from 1.
    Equation(u32, Why),
    /// The equation isn't typed under the schema: the line of its first place that fails, counted
    /// from 1.
    Type(u32, TypeWhy),
    /// The canonical texts of the schema and the equation are too long together.
    TextsTooLong,
    /// The texts are accepted, and that is all that was asked.
    Accepted(Summary),
    /// The line of this number, counted from 1, ends the script.
    Line(u32, LineWhy),
    /// The pages may be too few for a command of the script.
    Full,
    /// The device isn't what was asked for.
    Device(DeviceWhy),
    /// A device of so many blocks was made, and it has so many pages.
    Made(u32, u32),
    /// A call of the machine failed.
    Fault,
    /// There was no memory.
    NoMemory,
}

impl From<AllocError> for Ending<'_> {
    ghost use Rattle.gx_play.specs.declared.ending.Ending.TheVariants as ending;

    ghost from_gives = { λ _ e. e ≡ ending.NoMemory };

    fn from(_: AllocError) -> Self {
        Ending::NoMemory
    }
}

impl From<NoMemory> for Ending<'_> {
    ghost use Rattle.gx_play.specs.declared.ending.Ending.TheVariants as ending;

    ghost from_gives = { λ _ e. e ≡ ending.NoMemory };

    fn from(_: NoMemory) -> Self {
        Ending::NoMemory
    }
}

impl From<PlayEnd> for Ending<'_> {
    ghost use Rattle.gx_play.specs.Endings.{ending_of};

    ghost from_gives = { λ end e. e ≡ ending_of end };

    fn from(end: PlayEnd) -> Self {
        match end {
            PlayEnd::Line(number, why) => Ending::Line(number, why),
            PlayEnd::Stop(Stop::NoMemory) => Ending::NoMemory,
            PlayEnd::Stop(Stop::Full) => Ending::Full,
            PlayEnd::Stop(Stop::Damaged(block)) => Ending::Device(DeviceWhy::Damaged(block)),
            PlayEnd::Stop(Stop::Fault) => Ending::Fault,
        }
    }
}

/// Says the line of an ending, and answers its status. After a failed call nothing is said. Where
/// there is no memory for the line, `stopped: memory` is said in its place, and where the line
/// can't be said, the status is `Outside`.
pub fn end<M: Machine>(alloc: Global, ending: Ending<'_>, machine: &mut M) -> Status
    ensures due { IsStatusFor ending.entry result }
    ensures words { IsTrue M.tells →
        SaysEnding ending.entry (M.content machine.old) (M.content machine.new) result }
    ensures outside { result ≡ Status.Outside →
        (ending.entry ≡ Ending.Fault) ⊎ Rose (M.faults machine.old) (M.faults machine.new) }
    ensures rest { OnlySays (M.content machine.old) (M.content machine.new) }
    ensures devices { SameDevices (M.content machine.old) (M.content machine.new) }
    ensures moments { IsTrue M.tells →
        EndsThrough ending.entry (M.content machine.old) (M.content machine.new) }
    ensures counted { result ≢ Status.Outside → M.faults machine.new ≡ M.faults machine.old }
    ensures later { M.faults machine.old ≤ M.faults machine.new }
{
    match line(alloc, ending) {
        Ok(line) => say_line(machine, &line, status(ending)),
        Err(NoMemory) => say_line(machine, b"stopped: memory\n", Status::Memory),
    }
}

// Says a line whole, and answers the status that goes with it, or `Outside` where it can't be said.
fn say_line<M: Machine>(machine: &mut M, line: &[u8], status: Status) -> Status
    ensures status { result ≢ Status.Outside → result ≡ status }
    ensures said { IsTrue M.tells → result ≢ Status.Outside →
        (M.content machine.new).now.said ≡ (M.content machine.old).now.said ++ line.now }
    ensures moments { IsTrue M.tells →
        SaysThrough line.now (M.content machine.old) (M.content machine.new) }
    ensures outside { result ≡ Status.Outside →
        (status ≡ Status.Outside) ⊎ Rose (M.faults machine.old) (M.faults machine.new) }
    ensures same { status ≡ Status.Outside → result ≡ Status.Outside }
    ensures rest { OnlySays (M.content machine.old) (M.content machine.new)
        × SameDevices (M.content machine.old) (M.content machine.new) }
    ensures counted { result ≢ Status.Outside → M.faults machine.new ≡ M.faults machine.old }
    ensures later { M.faults machine.old ≤ M.faults machine.new }
{
    match say_all(machine, line) {
        Ok(()) => status,
        Err(Failed) => Status::Outside,
    }
}

fn status(ending: Ending<'_>) -> Status
    ensures { result ≡ status_of ending.entry }
{
    match ending {
        Ending::Words
        | Ending::Missing(_)
        | Ending::TooLong(_)
        | Ending::Schema(..)
        | Ending::Equation(..)
        | Ending::Type(..)
        | Ending::TextsTooLong => Status::Refused,
        Ending::Accepted(_) | Ending::Made(..) => Status::Done,
        Ending::Line(..) => Status::Script,
        Ending::Full => Status::Full,
        Ending::Device(_) => Status::Device,
        Ending::Fault => Status::Outside,
        Ending::NoMemory => Status::Memory,
    }
}

// The line of an ending, with its LF.
fn line(alloc: Global, ending: Ending<'_>) -> Result<Vec<u8>, NoMemory>
    ensures line { IfOk result (λ line. line.items ≡ ending_line ending.entry) }
    ensures fault { ending.entry ≡ Ending.Fault → IsOk result }
{
    match ending {
        Ending::Words => Ok(b"refused: words\n".to_vec(alloc)?),
        Ending::Missing(name) => named_line(alloc, b"refused: missing ", name),
        Ending::TooLong(name) => named_line(alloc, b"refused: too long ", name),
        Ending::Schema(line, why) => numbered_line(
            alloc,
            b"refused: schema line ",
            line,
            why.word(),
        ),
        Ending::Equation(line, why) => numbered_line(
            alloc,
            b"refused: equation line ",
            line,
            why.word(),
        ),
        Ending::Type(line, why) => numbered_line(alloc, b"refused: type line ", line, why.words()),
        Ending::TextsTooLong => Ok(b"refused: texts too long\n".to_vec(alloc)?),
        Ending::Accepted(summary) => summary_line(alloc, summary),
        Ending::Line(number, why) => numbered_line(alloc, b"stopped at line ", number, why.word()),
        Ending::Full => Ok(b"stopped: full\n".to_vec(alloc)?),
        Ending::Device(why) => device_line(alloc, why),
        Ending::Made(blocks, pages) => made_line(alloc, blocks, pages),
        Ending::Fault => Ok(Vec::new(alloc)),
        Ending::NoMemory => Ok(b"stopped: memory\n".to_vec(alloc)?),
    }
}

fn device_line(alloc: Global, why: DeviceWhy) -> Result<Vec<u8>, NoMemory>
    ensures { IfOk result (λ line. line.items ≡ device_line why) }
{
    match why {
        DeviceWhy::Missing => Ok(b"device: missing\n".to_vec(alloc)?),
        DeviceWhy::Exists => Ok(b"device: exists\n".to_vec(alloc)?),
        DeviceWhy::Size => Ok(b"device: size\n".to_vec(alloc)?),
        DeviceWhy::NoDatabase => Ok(b"device: no database\n".to_vec(alloc)?),
        DeviceWhy::OtherEquation(place) => {
            counted_line(alloc, b"device: other equation at ", u32::from(place))
        }
        DeviceWhy::Damaged(block) => counted_line(alloc, b"device: damaged ", block),
    }
}

fn counted_line(alloc: Global, front: &[u8], number: u32) -> Result<Vec<u8>, NoMemory>
    ensures { IfOk result (λ line. line.items ≡ front.now ++ decimal number ++ codes "\n") }
{
    let mut line = front.to_vec(alloc)?;
    push_number(alloc, &mut line, number)?;
    line.extend_from_slice(b"\n")?;
    Ok(line)
}

fn made_line(alloc: Global, blocks: u32, pages: u32) -> Result<Vec<u8>, NoMemory>
    ensures { IfOk result (λ line. line.items ≡ made_line blocks pages) }
{
    let mut line = b"made: ".to_vec(alloc)?;
    push_number(alloc, &mut line, blocks)?;
    line.extend_from_slice(b" blocks, ")?;
    push_number(alloc, &mut line, pages)?;
    line.extend_from_slice(b" pages\n")?;
    Ok(line)
}

fn named_line(alloc: Global, front: &[u8], name: &str) -> Result<Vec<u8>, NoMemory>
    ensures { IfOk result (λ line. line.items ≡ front.now ++ name.now ++ codes "\n") }
{
    let mut line = front.to_vec(alloc)?;
    line.extend_from_slice(name.as_bytes())?;
    line.extend_from_slice(b"\n")?;
    Ok(line)
}

fn numbered_line(alloc: Global, front: &[u8], number: u32, why: &str) -> Result<Vec<u8>, NoMemory>
    ensures { IfOk result (λ line. line.items ≡ front.now ++ decimal number ++ codes ": " ++ why.now
        ++ codes "\n") }
{
    let digits = number.to_string(alloc)?;
    let mut line = front.to_vec(alloc)?;
    line.extend_from_slice(digits.as_bytes())?;
    line.extend_from_slice(b": ")?;
    line.extend_from_slice(why.as_bytes())?;
    line.extend_from_slice(b"\n")?;
    Ok(line)
}

fn summary_line(alloc: Global, summary: Summary) -> Result<Vec<u8>, NoMemory>
    ensures { IfOk result (λ line. line.items ≡ accepted_line summary) }
{
    let mut line = b"accepted: ".to_vec(alloc)?;
    push_number(alloc, &mut line, summary.leaves)?;
    line.extend_from_slice(b" leaves, ")?;
    push_number(alloc, &mut line, summary.root_pages)?;
    line.extend_from_slice(b" root pages, smallest device ")?;
    push_number(alloc, &mut line, summary.smallest_device)?;
    line.extend_from_slice(b" blocks\n")?;
    Ok(line)
}

fn push_number(alloc: Global, line: &mut Vec<u8>, number: u32) -> Result<(), NoMemory>
    ensures { IfOk result (λ _. line.new.items ≡ line.old.items ++ decimal number) }
{
    let digits = number.to_string(alloc)?;
    line.extend_from_slice(digits.as_bytes())?;
    Ok(())
}
