// Bytes read from a stream.
#![tactic(auto)]

ghost use Rattle.reading.specs.Front.{IsPrefixLen};

use std::io::Read;

// Reads until `buf` is full, the stream ends or a read fails, and answers how many bytes it put at the front of `buf`.
pub fn read_full<R: Read>(stream: &mut R, buf: &mut [u8]) -> usize
    ensures { IsPrefixLen result buf.new }
{
    let mut done = 0;
    while done < buf.len() {
        let n = stream.read(&mut buf[done..]).unwrap_or(0);
        if n == 0 {
            break;
        }
        done += n;
    }
    done
}
