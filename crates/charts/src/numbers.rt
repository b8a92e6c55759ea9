// Numbers put into bytes, little-endian.
ghost use Rattle.std.specs.Prelude.{◌≡◌, ◌+◌, ◌≤◌, length};
ghost use Rattle.std.proofs.lemmas.List.Edits.{sets};
ghost use Rattle.book.specs.Numbers.{le};

// A number put into two bytes.
pub(crate) fn write16(b: &mut [u8], at: usize, x: u16)
    requires { at + 2 ≤ length b.old }
    ensures { b.new ≡ sets b.old at (le 2 x) }
{
    b[at..at + 2].copy_from_slice(&x.to_le_bytes());
}

// A number put into four bytes.
pub(crate) fn write32(b: &mut [u8], at: usize, x: u32)
    requires { at + 4 ≤ length b.old }
    ensures { b.new ≡ sets b.old at (le 4 x) }
{
    b[at..at + 4].copy_from_slice(&x.to_le_bytes());
}
