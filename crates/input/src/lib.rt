// Input read into a buffer that the caller owns.
#![tactic(auto)]

ghost use Rattle.std.specs.Prelude.{◌≤◌, ◌<◌, length, take, IfOk};
ghost use Rattle.std.specs.Io.KnownBytes.{Consumes, IsAtEnd};

use std::io;
use std::io::Read;

// Reads until the buffer is full or the input ends, in as many pieces as the input comes in, and returns how many bytes it put at the
// buffer's start.
pub fn read_full<R: Read>(reader: &mut R, buf: &mut [u8]) -> io::Result<usize>
    ensures within { IfOk result (λ n. n ≤ length buf.new) }
    ensures bytes { IfOk result (λ n. Consumes (R.remaining reader.old) (R.remaining reader.new) (take n buf.new)) }
    ensures end { IfOk result (λ n. n < length buf.new → IsAtEnd (R.remaining reader.new)) }
{
    let mut done: usize = 0;
    while done < buf.len() {
        let read = reader.read(&mut buf[done..])?;
        if read == 0 {
            break;
        }
        done += read;
    }
    Ok(done)
}

#[cfg(test)]
mod tests {
    use super::*;
    use std::test::Fail;

    #[test]
    fn pieces_are_joined(rt: HostRuntime) -> Result<(), Fail> {
        let first: &[u8] = b"abc";
        let second: &[u8] = b"de";
        let mut pieces = first.chain(second);
        let mut buf = [0u8; 8];
        let read = read_full(&mut pieces, &mut buf)?;
        assert_eq!(rt; read, 5);
        assert_eq!(rt; &buf, b"abcde\0\0\0");
        Ok(())
    }

    #[test]
    fn longer_input_is_left(rt: HostRuntime) -> Result<(), Fail> {
        let mut input: &[u8] = b"abcdef";
        let mut buf = [0u8; 4];
        let read = read_full(&mut input, &mut buf)?;
        assert_eq!(rt; read, 4);
        assert_eq!(rt; &buf, b"abcd");
        assert_eq!(rt; input, b"ef".as_slice());
        Ok(())
    }
}
