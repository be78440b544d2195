// Words taken from a ring into a window, and from a window to the pipe.
ghost use Rattle.std.specs.Prelude.{◌≡◌, ◌+◌, ◌*◌, ◌≤◌, length};
ghost use Rattle.memory.specs.Transfer.{transferred};

// Byte by byte: `copy_from_slice` of a length that is not constant would have an archive for C ask for `memmove`.
pub(crate) fn transfer(source: &[u8], start: usize, target: &mut [u8], at: usize, n: usize)
    requires { (start + n ≤ length source.now) × (at + n ≤ length target.old) }
    ensures { target.new ≡ transferred source.now start at n target.old }
{
    for (i, byte) in source[start..start + n].iter().enumerate() {
        target[at + i] = *byte;
    }
}

// `words` words of the source, from `start` on, to `address`.
pub fn write_words(window: &mut [u8], address: usize, source: &[u8], start: usize, words: usize)
    requires { (address + 4 * words ≤ length window.old) × (start + 4 * words ≤ length source.now) }
    ensures { window.new ≡ transferred source.now start address (4 * words) window.old }
{
    transfer(source, start, window, address, 4 * words);
}

// `words` words from `address` to the pipe's front.
pub fn read_words(window: &[u8], address: usize, words: usize, pipe: &mut [u8])
    requires { (address + 4 * words ≤ length window.now) × (4 * words ≤ length pipe.old) }
    ensures { pipe.new ≡ transferred window.now address 0 (4 * words) pipe.old }
{
    transfer(window, address, pipe, 0, 4 * words);
}
