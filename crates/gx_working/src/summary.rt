// The line that tells what came of the workload.
ghost use Rattle.std.specs.Prelude.{◌≡◌, ◌++◌, ◌<◌, ℕ, List, IfOk};
ghost use Rattle.std.specs.Fmt.{decimal};
ghost use Rattle.gx_tokens.specs.Lexemes.{is_digit};
ghost use Rattle.gx_work.specs.Summary.{work_line};
ghost use Rattle.gx_working.specs.Counts.{TellsCount, IsBehind};

use gx_values::{NoMemory, Octets};
use itoa::Buffer;
use std::alloc::Global;

/// The line of so many records and commits, and of the answers of the two finds. `NoMemory`: there
/// was none for it.
pub fn summary_line(
    alloc: Global,
    records: u32,
    by_pay: &[u8],
    by_link: &[u8],
    commits: u32,
) -> Result<Octets, NoMemory>
    ensures { (a c : ℕ) → TellsCount by_pay.now a → TellsCount by_link.now c →
        IfOk result (λ line. line ≡ work_line records a c commits) }
{
    let mut line = b"work: ".to_vec(alloc)?;
    push_number(&mut line, records)?;
    line.extend_from_slice(b" records, ")?;
    line.extend_from_slice(found(by_pay))?;
    line.extend_from_slice(b" by pay, ")?;
    line.extend_from_slice(found(by_link))?;
    line.extend_from_slice(b" by link, ")?;
    push_number(&mut line, commits)?;
    line.extend_from_slice(b" commits\n")?;
    Ok(Octets(line))
}

// The number that the answer of a find tells, in digits.
fn found(answer: &[u8]) -> &[u8]
    ensures { (n : ℕ) → TellsCount answer.now n → result.now ≡ decimal n }
{
    let digits = last_digits(answer);
    if digits.is_empty() { b"0" } else { digits }
}

// The digits before the last byte.
fn last_digits(answer: &[u8]) -> &[u8]
    ensures { (digits : List ℕ) → IsBehind answer.now digits → result.now ≡ digits }
{
    let end = answer.len().saturating_sub(1);
    let mut start = end;
    while start > 0 {
        if !is_digit(answer[start - 1]) {
            return &answer[start..end];
        }
        start -= 1;
    }
    &answer[..end]
}

fn is_digit(byte: u8) -> bool
    ensures { result ≡ is_digit byte }
{
    matches!(byte, b'0'..=b'9')
}

fn push_number(out: &mut Vec<u8>, number: u32) -> Result<(), NoMemory>
    ensures { IfOk result (λ _. out.new.items ≡ out.old.items ++ decimal number) }
{
    let mut buffer = Buffer::new();
    out.extend_from_slice(buffer.format(number).as_bytes())?;
    Ok(())
}
