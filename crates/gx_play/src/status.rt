// How a run of the program ends.

/// How a run of the program ends.
#[derive(Clone, Copy, Debug, PartialEq, Eq)]
pub enum Status {
    /// The request was carried out, and every answer was said.
    Done,
    /// The words or a text are refused. The last line said is `refused: WHY`.
    Refused,
    /// A line ended the script early. The last line said is `stopped at line N: WHY`.
    Script,
    /// A call of the machine failed. No line says so.
    Outside,
    /// The pages may be too few for a command. The last line said is `stopped: full`.
    Full,
    /// The device isn't what was asked for. The last line said is `device: WHY`.
    Device,
    /// There was no memory. The last line said is `stopped: memory`.
    Memory,
}
