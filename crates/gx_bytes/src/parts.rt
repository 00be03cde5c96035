// A part of bytes written over.
ghost use Rattle.std.specs.Prelude.{◌≡◌, ◌≤◌, ◌+◌, length};
ghost use Rattle.gx_bytes.specs.Parts.{overwritten};

/// Writes `part` over the bytes from place `at` on.
pub fn overwrite(bytes: &mut [u8], at: usize, part: &[u8])
    requires { at + length part.now ≤ length bytes.old }
    ensures { bytes.new ≡ overwritten bytes.old at part.now }
{
    bytes[at..at + part.len()].copy_from_slice(part);
}
