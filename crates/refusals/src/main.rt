// What the program `find` answers to inputs made here: each refusal that a file can meet, and two of document 01's cases.
#![tactic(auto)]

ghost use Rattle.std.specs.Prelude.{◌<◌};

use std::io;

// Document 01's store S, the tree "Not Element 7", and the word index where the tree starts.
fn case_2() -> [u64; 80] {
    let mut words = [0u64; 80];
    words[0] = 1; // model 1
    words[1] = 1;
    words[12] = 2; // chain A
    words[13] = 0x4100_0000_0000_0000;
    words[24] = 3; // residue 7
    words[25] = 7;
    words[36] = 4; // conformer ALA
    words[37] = 0x414c_4100_0000_0000;
    words[48] = 5; // atom N, element 7
    words[50] = 0x4e00_0000_0000_0000;
    words[56] = 7;
    words[60] = 5; // atom XX
    words[62] = 0x5858_0000_0000_0000;
    words[72] = 72; // the trailer
    words[73] = 15; // Element 7
    words[74] = 7;
    words[76] = 26; // Not
    words[79] = 73;
    words
}

// Case 2 with another word in one place, as the bytes of each word.
fn changed(at: usize, word: u64) -> [[u8; 8]; 80]
    requires { at < 80 }
{
    let mut words = case_2();
    words[at] = word;
    words.map(u64::to_le_bytes)
}

// A label, and what the program writes for an input.
fn print(rt: &impl Print, label: &str, input: &[u8]) -> io::Result<()> {
    let mut text = [0u8; program::TEXT];
    let end = program::answer(input, &mut text);
    rt.print(label)?;
    rt.write_all(&text[..end])
}

fn print_words(rt: &impl Print, label: &str, words: &[[u8; 8]]) -> io::Result<()> {
    print(rt, label, words.as_flattened())
}

// Inputs that are zeros: their length alone tells.
fn print_zeros(rt: &impl Print) -> io::Result<()> {
    let zeros = [0u8; 65544];
    print(rt, "no bytes: ", &zeros[..0])?;
    print(rt, "nine bytes: ", &zeros[..9])?;
    print(rt, "65,536 zeros: ", &zeros[..65536])?;
    print(rt, "65,544 zeros: ", &zeros)
}

// The last word, at index 79, says where the tree starts.
fn print_starts(rt: &impl Print) -> io::Result<()> {
    print_words(rt, "start above its own index: ", &changed(79, 80))?;
    // the store and a start right after it, which is its own index
    print_words(rt, "start at its own index: ", &changed(73, 73)[0..74])?;
    print_words(rt, "start 0: ", &changed(79, 0))
}

fn print_contents(rt: &impl Print) -> io::Result<()> {
    print_words(rt, "a residue under a model: ", &changed(12, 3))?;
    print_words(rt, "node code 29: ", &changed(76, 29))?;
    print_words(rt, "And with one operand: ", &changed(76, 23))
}

fn print_cases(rt: &impl Print) -> io::Result<()> {
    print_words(rt, "case 1:\n", &changed(76, 73)[0..77])?;
    print_words(rt, "case 2:\n", &changed(79, 73))
}

fn main(rt: HostRuntime) -> io::Result<()> {
    print_zeros(&rt)?;
    print_starts(&rt)?;
    print_contents(&rt)?;
    print_cases(&rt)
}
