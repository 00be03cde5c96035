// The lengths before the values of a body: one for each layer that has the values as one of bytes.
ghost use Rattle.std.specs.Prelude.{◌≡◌, IsSomeAnd};
ghost use Rattle.gx_values.specs.declared.records.Rec.{Rec as Record};
ghost use Rattle.gx_actual.specs.Bodies.{body_of};
ghost use Rattle.gx_codec.specs.Stored.{wrapped};

/// The bytes of the values in a body, behind so many lengths of two bytes each. `None`: the body is
/// too short for them.
pub fn behind_lengths(body: &[u8], lengths: u32) -> Option<&[u8]>
    ensures { (r : Record) → body.now ≡ body_of (wrapped lengths r).fields →
        IsSomeAnd result (λ values. values.now ≡ body_of r.fields) }
{
    let (_, values) = body.split_at_checked(2 * lengths as usize)?;
    Some(values)
}
