// Big-endian numbers.
ghost use Rattle.std.specs.Prelude.{◌≡◌, ◌^◌, ◌<◌, ◌++◌, length, MatchOption};
ghost use Rattle.std.specs.Int.{w16, w32, to_be_bytes};

const U16_LEN: usize = 2;

const U32_LEN: usize = 4;

/// The number that the bytes begin with, in two bytes and big endian, and the bytes behind it. None
/// where there are fewer than two bytes.
pub fn split_u16(bytes: &[u8]) -> Option<(u16, &[u8])>
    ensures { MatchOption result (length bytes.now < 2)
        (λ found. (found.0 < 2 ^ 16) × (bytes.now ≡ to_be_bytes w16 found.0 ++ found.1.now)) }
{
    let (number, rest) = bytes.split_at_checked(U16_LEN)?;
    Some((u16::from_be_bytes([number[0], number[1]]), rest))
}

/// The number that the bytes begin with, in four bytes and big endian, and the bytes behind it.
/// None where there are fewer than four bytes.
pub fn split_u32(bytes: &[u8]) -> Option<(u32, &[u8])>
    ensures { MatchOption result (length bytes.now < 4)
        (λ found. (found.0 < 2 ^ 32) × (bytes.now ≡ to_be_bytes w32 found.0 ++ found.1.now)) }
{
    let (number, rest) = bytes.split_at_checked(U32_LEN)?;
    Some((
        u32::from_be_bytes([number[0], number[1], number[2], number[3]]),
        rest,
    ))
}
