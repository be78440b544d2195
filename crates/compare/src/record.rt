// The records of a file: each is a word N and then N bytes, its body.
ghost use Rattle.std.specs.Prelude.{IfSome};
ghost use Rattle.reading.specs.Front.{IsPrefixLen};

use memory::peek::peek_word;
use reading::read_full;
use std::io::Read;

// The bytes that a count stands for, of which so many were read; none if it is cut short.
fn body_size(count: &[u8], got: usize) -> Option<usize> {
    if got < 4 {
        return None;
    }
    Some(peek_word(count, 0) as usize)
}

// One byte, which is no call's, if there is room for it.
fn no_record(body: &[u8]) -> Option<usize>
    ensures { IfSome result (λ n. IsPrefixLen n body.now) }
{
    if body.is_empty() { None } else { Some(1) }
}

// Reads the next body to the front of `body` and gives its length; none at the end of the file. What is no record (a count
// or a body cut short, a body that is empty or too long for the room) is handed on as one byte, which is no call's.
pub fn next<R: Read>(file: &mut R, body: &mut [u8]) -> Option<usize>
    ensures { IfSome result (λ n. IsPrefixLen n body.new) }
{
    let mut count = [0u8; 4];
    let got = read_full(file, &mut count);
    if got == 0 {
        return None;
    }
    let n = body_size(&count, got).unwrap_or(0);
    if (n == 0) | (body.len() < n) {
        return no_record(body);
    }
    let read = read_full(file, &mut body[..n]);
    if read < n {
        return no_record(body);
    }
    Some(n)
}
