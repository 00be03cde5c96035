// The script of the workload.
ghost use Rattle.std.specs.Prelude.{◌≡◌, ◌++◌, ◌≤◌, ◌*◌, ◌<◌, IfOk};
ghost use Rattle.gx_work.specs.Workload.{lines_text, departments, group, raises, changes, work_script, employees};

use crate::task::{Task, push_line};
use gx_values::{NoMemory, Octets};
use std::alloc::Global;

/// The most records that the workload has.
pub const MOST_RECORDS: u32 = 10_000;

// How many employees a transaction inserts.
const GROUP: u32 = 20;

/// The script of the workload for so many records. `NoMemory`: there was none for it.
pub fn script(alloc: Global, records: u32) -> Result<Octets, NoMemory>
    requires { records ≤ MOST_RECORDS }
    ensures { IfOk result (λ script. script ≡ work_script records) }
{
    let mut out = Vec::new(alloc);
    push_changes(&mut out, records)?;
    push_line(&mut out, Task::FindByPay)?;
    push_line(&mut out, Task::FindByLink)?;
    Ok(Octets(out))
}

/// All of the script but its last two lines, which change nothing. `NoMemory`: there was none for
/// it.
pub fn changes(alloc: Global, records: u32) -> Result<Octets, NoMemory>
    requires { records ≤ MOST_RECORDS }
    ensures { IfOk result (λ script. script ≡ lines_text (changes records)) }
{
    let mut out = Vec::new(alloc);
    push_changes(&mut out, records)?;
    Ok(Octets(out))
}

fn push_changes(out: &mut Vec<u8>, records: u32) -> Result<(), NoMemory>
    requires { records ≤ MOST_RECORDS }
    ensures { IfOk result (λ _. out.new.items ≡ out.old.items ++ lines_text (changes records)) }
{
    push_departments(out)?;
    push_employees(out, records)?;
    push_raises(out, records)?;
    Ok(())
}

fn push_departments(out: &mut Vec<u8>) -> Result<(), NoMemory>
    ensures { IfOk result (λ _. out.new.items ≡ out.old.items ++ lines_text departments) }
{
    push_line(out, Task::Begin)?;
    for number in 0..10 {
        push_line(out, Task::Department(number))?;
    }
    push_line(out, Task::Commit)?;
    Ok(())
}

fn push_employees(out: &mut Vec<u8>, records: u32) -> Result<(), NoMemory>
    requires { records ≤ MOST_RECORDS }
    ensures { IfOk result (λ _. out.new.items ≡ out.old.items ++ lines_text (employees records)) }
{
    for number in 0..records.div_ceil(GROUP) {
        push_group(out, records, number)?;
    }
    Ok(())
}

// The employees of one group, counted from 0.
fn push_group(out: &mut Vec<u8>, records: u32, number: u32) -> Result<(), NoMemory>
    requires some { 20 * number < records }
    requires few { records ≤ MOST_RECORDS }
    ensures { IfOk result (λ _.
        out.new.items ≡ out.old.items ++ lines_text (group records number)) }
{
    let before = GROUP * number;
    let count = GROUP.min(records - before);
    push_line(out, Task::Begin)?;
    for place in 0..count {
        push_line(out, Task::Employee(before + 1 + place))?;
        push_line(out, Task::Connection(before + 1 + place))?;
    }
    push_line(out, Task::Commit)?;
    Ok(())
}

// Each third employee gets another pay.
fn push_raises(out: &mut Vec<u8>, records: u32) -> Result<(), NoMemory>
    requires { records ≤ MOST_RECORDS }
    ensures { IfOk result (λ _. out.new.items ≡ out.old.items ++ lines_text (raises records)) }
{
    push_line(out, Task::Begin)?;
    for place in 0..records / 3 {
        push_line(out, Task::Raise(3 * (place + 1)))?;
    }
    push_line(out, Task::Commit)?;
    Ok(())
}
