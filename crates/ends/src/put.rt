// Bytes and numbers put into a lent buffer, from a place on. Each answers the place after what it put.
ghost use Rattle.std.specs.Prelude.{◌+◌, ◌≤◌, ◌++◌, [], ◌∷◌, length};
ghost use Rattle.text.specs.Text.{decimal};
ghost use Rattle.text.specs.Inner.{Put};

use text::{HIGHEST, label};

// Bytes, as many as there are.
pub(crate) fn put_bytes(text: &mut [u8], at: usize, bytes: &[u8]) -> usize
    requires { at + length bytes.now ≤ length text.old }
    ensures { Put (length bytes.now) text.old at bytes.now result text.new }
{
    let next = at + bytes.len();
    text[at..next].copy_from_slice(bytes);
    next
}

// A number and the byte that ends its field: the number's label without its space, then the byte.
pub(crate) fn put_field(text: &mut [u8], at: usize, n: u16, byte: u8) -> usize
    requires { at + 6 ≤ length text.old }
    ensures { Put 6 text.old at (decimal n ++ byte ∷ []) result text.new }
{
    let word = label(n);
    let digits = (word / HIGHEST % 8) as usize - 1;
    let next = put_bytes(text, at, &word.to_le_bytes()[..digits]);
    text[next] = byte;
    next + 1
}
