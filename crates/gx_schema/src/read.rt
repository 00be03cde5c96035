// Reading a schema.
ghost use Rattle.std.specs.Prelude.{◌≡◌, ◌<◌, length, IfOk, IfErr, Ok};
ghost use Rattle.gx_tokens.specs.Reading.{IsUnlessNoMemory};
ghost use Rattle.gx_schema.specs.Faults.{IsBad};
ghost use Rattle.gx_schema.specs.Grammar.{IsSchemaText};
ghost use Rattle.gx_schema.specs.Reading.{schema_of};
ghost use Rattle.gx_schema.specs.Rules.{IsSchema};
ghost use Rattle.gx_schema.specs.WellFormed.{IsWellFormed};
ghost use Rattle.gx_schema.specs.declared.schema.Schema.{Schema};

use crate::item::read_items;
use crate::schema::Schema;
use gx_tokens::{Unread, unread};
use std::alloc::Global;

fn read(alloc: Global, bytes: &[u8]) -> Result<Schema, Unread>
    requires { length bytes.now < 4294967295 }
    ensures { IsUnlessNoMemory result (schema_of bytes.now) }
{
    match read_items(alloc, bytes) {
        Ok(schema) => Ok(schema),
        Err(error) => Err(unread(bytes, error)),
    }
}

/// The schema that a text means. `Bad` has the line of the text's first fault, counted from 1, and
/// the reason: exactly where the text means no schema. `NoMemory`: there was no memory for the
/// schema.
pub fn read_schema(alloc: Global, bytes: &[u8]) -> Result<Schema, Unread>
    requires { length bytes.now < 4294967295 }

    // The text means the schema that is read, and no other.
    ensures found { IfOk result (λ schema. IsSchemaText bytes.now schema) }
    ensures one { (s t : Schema) → IsSchemaText bytes.now s → IsSchemaText bytes.now t → s ≡ t }

    // It keeps every rule of names, sizes and counts, and so is what the readers of scripts and the
    // engine need.
    ensures valid { IfOk result (λ schema. IsSchema schema) }
    ensures well_formed { IfOk result IsWellFormed }

    // A text that means a schema is read, where there is memory for it.
    ensures only { (schema : Schema) → IsSchemaText bytes.now schema →
        IsUnlessNoMemory result (Ok schema) }

    // No text of the grammar goes on with the token of a fault behind those before it, which some
    // text begins with.
    ensures fault { IfErr result (λ error. IsBad bytes.now error) }

    // Which fault is the first, and its line.
    ensures exact { IsUnlessNoMemory result (schema_of bytes.now) }
{
    read(alloc, bytes)
}
