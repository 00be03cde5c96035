// The schema of the workload.
ghost use Rattle.std.specs.Prelude.{◌≡◌, IfOk};
ghost use Rattle.gx_schema.specs.Grammar.{IsSchemaText};
ghost use Rattle.gx_schema.specs.Printing.{schema_text};
ghost use Rattle.gx_schema.specs.Rules.{IsSchema};
ghost use Rattle.gx_schema.specs.WellFormed.{IsWellFormed};
ghost use Rattle.gx_work.specs.Schema.{schema_lines, work_schema};

use gx_schema::{Schema, read_schema};
use gx_values::NoMemory;
use std::alloc::Global;

/// The schema's canonical text: departments, employees, and which department an employee works for.
pub const SCHEMA: &[u8] = b"file dept (dno int, dname text 12)\n\
    file emp (eno int, name text 24, pay int, room text 8)\n\
    link works (dept, emp)\n";

/// The schema of the workload. `NoMemory`: there was none for it.
pub fn schema(alloc: Global) -> Result<Schema, NoMemory>
    ensures schema { IfOk result (λ schema. schema ≡ work_schema) }
    ensures valid { IsSchema work_schema }
    ensures well_formed { IsWellFormed work_schema }

    // Its text means it, and is its canonical one.
    ensures means { IsSchemaText schema_lines work_schema }
    ensures canonical { schema_lines ≡ schema_text work_schema }
{
    match read_schema(alloc, SCHEMA) {
        Ok(schema) => Ok(schema),
        Err(_) => Err(NoMemory),
    }
}
