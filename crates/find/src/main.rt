// The program `find` (document 01, "Serial lookup and program"): a store and a tree from standard input, the hits to standard output.
#![tactic(auto)]

use std::io;

fn main(rt: HostRuntime) -> io::Result<()> {
    // one byte more than is allowed, so that a longer input is seen
    let mut input = [0u8; 65537];
    let read = input::read_full(&mut rt.stdin(), &mut input)?;
    let mut text = [0u8; program::TEXT];
    let end = program::answer(&input[..read], &mut text);
    rt.write_all(&text[..end])
}
