// Bytes written into a buffer: little-endian fields, and the head of a record.
#![tactic(auto)]

ghost use Rattle.std.specs.Prelude.{◌≡◌, ◌+◌, ◌≤◌, ◌++◌, length};
ghost use Rattle.std.proofs.lemmas.List.Edits.{sets};
ghost use Rattle.format.specs.Fields.{bytes_of};

// The lowest N bytes of v from index at.
fn put_lowest<const N: usize>(buffer: &mut [u8], at: usize, v: usize)
    requires { (N ≤ 8) × (at + N ≤ length buffer.old) }
    ensures { buffer.new ≡ sets buffer.old at (bytes_of N v) }
{
    buffer[at..at + N].copy_from_slice(&v.to_le_bytes()[..N]);
}

// The lowest 2 and the lowest 4 bytes of v from index at.
pub fn put_u16(buffer: &mut [u8], at: usize, v: usize)
    requires { at + 2 ≤ length buffer.old }
    ensures { buffer.new ≡ sets buffer.old at (bytes_of 2 v) }
{
    put_lowest::<2>(buffer, at, v);
}

pub fn put_u32(buffer: &mut [u8], at: usize, v: usize)
    requires { at + 4 ≤ length buffer.old }
    ensures { buffer.new ≡ sets buffer.old at (bytes_of 4 v) }
{
    put_lowest::<4>(buffer, at, v);
}

// The body length and the kind of a record; its body follows them.
pub fn put_head(buffer: &mut [u8], at: usize, size: usize, kind: usize)
    requires { at + 6 ≤ length buffer.old }
    ensures { buffer.new ≡ sets buffer.old at (bytes_of 4 size ++ bytes_of 2 kind) }
{
    put_u32(buffer, at, size);
    put_u16(buffer, at + 4, kind);
}
