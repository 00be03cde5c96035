//! The program: a request over files, standard input and standard output.
#![tactic(auto)]

ghost use Rattle.std.specs.Prelude.{◌≡◌};
ghost use Rattle.genesis.specs.Codes.{code};

mod drive;
mod drives;
mod files;
mod machine;

use gx_play::Status;
use gx_top::top;
use machine::HostMachine;
use std::alloc::{AllocError, Global};
use std::env::{self, Env};
use std::io::ErrorKind;
use std::process::ExitCode;

#[cfg(test)]
mod tests;

fn main(rt: HostRuntime) -> ExitCode {
    let alloc = rt.alloc();
    match words(&rt, alloc) {
        Ok(words) => {
            let (status, _machine) = top(alloc, &words, HostMachine::new(alloc, rt));
            ExitCode::from(code_of(status))
        }
        Err(AllocError) => ExitCode::from(code_of(Status::Memory)),
    }
}

// The program's arguments without its own name. Where one isn't UTF-8 there is no word, since
// neither is a request.
fn words(rt: &(impl Env + AllocGlobal), alloc: Global) -> Result<Vec<String>, AllocError> {
    match env::args(rt) {
        Ok(arguments) => {
            let mut words = Vec::new(alloc);
            for word in arguments.skip(1) {
                words.push(word)?;
            }
            Ok(words)
        }
        Err(error) if error.kind() == ErrorKind::OutOfMemory => Err(AllocError),
        Err(_) => Ok(Vec::new(alloc)),
    }
}

fn code_of(status: Status) -> u8
    ensures { result ≡ code status }
{
    match status {
        Status::Done => 0,
        Status::Refused => 1,
        Status::Script => 2,
        Status::Outside => 3,
        Status::Full => 4,
        Status::Memory => 5,
        Status::Device => 6,
    }
}
