// The lines of the workload's script.
ghost use Rattle.std.specs.Prelude.{◌≡◌, ◌++◌, IfOk};
ghost use Rattle.std.specs.Fmt.{decimal};
ghost use Rattle.gx_work.specs.Tasks.{pay_of, department_of, room_text, line_text};

use gx_values::NoMemory;
use itoa::Buffer;

/// What a line of the script asks for. Departments and employees are given by their numbers.
#[derive(Clone, Copy, Debug)]
pub enum Task {
    /// A transaction begins.
    Begin,
    /// It is committed.
    Commit,
    /// A department is inserted.
    Department(u32),
    /// An employee is inserted.
    Employee(u32),
    /// An employee is connected with a department.
    Connection(u32),
    /// An employee gets another pay.
    Raise(u32),
    /// The employees of that pay are found.
    FindByPay,
    /// The employees of one department are found.
    FindByLink,
}

/// Appends the line of a task, with its LF. After `NoMemory` a front of it may stand there.
pub fn push_line(out: &mut Vec<u8>, task: Task) -> Result<(), NoMemory>
    ensures { IfOk result (λ _. out.new.items ≡ out.old.items ++ line_text task) }
{
    match task {
        Task::Begin => out.extend_from_slice(b"begin\n")?,
        Task::Commit => out.extend_from_slice(b"commit\n")?,
        Task::Department(number) => push_department(out, number)?,
        Task::Employee(number) => push_employee(out, number)?,
        Task::Connection(number) => push_connection(out, number)?,
        Task::Raise(number) => push_raise(out, number)?,
        Task::FindByPay => out.extend_from_slice(b"find emp where pay = 1500\n")?,
        Task::FindByLink => out.extend_from_slice(b"find emp of works 3\n")?,
    }
    Ok(())
}

fn push_department(out: &mut Vec<u8>, number: u32) -> Result<(), NoMemory>
    ensures { IfOk result (λ _.
        out.new.items ≡ out.old.items ++ line_text (Task.Department number)) }
{
    out.extend_from_slice(b"insert dept ")?;
    push_number(out, number)?;
    out.extend_from_slice(b" \"dept ")?;
    push_number(out, number)?;
    out.extend_from_slice(b"\"\n")?;
    Ok(())
}

fn push_employee(out: &mut Vec<u8>, number: u32) -> Result<(), NoMemory>
    ensures { IfOk result (λ _.
        out.new.items ≡ out.old.items ++ line_text (Task.Employee number)) }
{
    out.extend_from_slice(b"insert emp ")?;
    push_number(out, number)?;
    out.extend_from_slice(b" \"emp ")?;
    push_number(out, number)?;
    out.extend_from_slice(b"\" ")?;
    push_number(out, pay(number))?;
    out.extend_from_slice(room(number))?;
    Ok(())
}

fn push_connection(out: &mut Vec<u8>, number: u32) -> Result<(), NoMemory>
    ensures { IfOk result (λ _.
        out.new.items ≡ out.old.items ++ line_text (Task.Connection number)) }
{
    out.extend_from_slice(b"connect works ")?;
    push_number(out, owner(number))?;
    out.push(b' ')?;
    push_number(out, number)?;
    out.extend_from_slice(b"\n")?;
    Ok(())
}

fn push_raise(out: &mut Vec<u8>, number: u32) -> Result<(), NoMemory>
    ensures { IfOk result (λ _. out.new.items ≡ out.old.items ++ line_text (Task.Raise number)) }
{
    out.extend_from_slice(b"update emp ")?;
    push_number(out, number)?;
    out.extend_from_slice(b" pay 1500\n")?;
    Ok(())
}

// The department that an employee works for.
fn owner(number: u32) -> u32
    ensures { result ≡ department_of number }
{
    number % 10
}

// The pay that an employee begins with.
fn pay(number: u32) -> u32
    ensures { result ≡ pay_of number }
{
    1000 + (37 * u64::from(number) % 100) as u32
}

// The end of an employee's line: the room and an LF.
fn room(number: u32) -> &'static [u8]
    ensures { result.now ≡ room_text number }
{
    if number % 2 == 0 {
        b" \"\"\n"
    } else {
        b" \"r7\"\n"
    }
}

fn push_number(out: &mut Vec<u8>, number: u32) -> Result<(), NoMemory>
    ensures { IfOk result (λ _. out.new.items ≡ out.old.items ++ decimal number) }
{
    let mut buffer = Buffer::new();
    out.extend_from_slice(buffer.format(number).as_bytes())?;
    Ok(())
}
