// What the program `find` does between its input and its text (document 01, "Serial lookup and program").
#![tactic(auto)]

ghost use Rattle.std.specs.Prelude.{◌≡◌, ◌&&◌, ◌++◌, ◌+◌, ◌*◌, ◌%◌, ◌≤◌, ◌<◌, length, leb, eqb, Err};
ghost use Rattle.machine.specs.Find.{hits_of};
ghost use Rattle.machine.specs.Program.{words_in, split, printed, program_run};
ghost use Rattle.moves.specs.Over.{over};
ghost use Rattle.decimals.specs.Put.{put_at};
ghost use Rattle.program.specs.Text.{Counts, line, lines, last_line, answer_text};

use machine::Refusal;

// The longest text: 682 hits, each of five numbers that have at most 20 digits, and the line of their count.
pub const TEXT: usize = 71637;

// ---- what is read

// The first n words of the input: "little-endian words".
pub fn read_words(input: &[u8], n: usize, words: &mut [u64])
    requires { (n * 8 ≤ length input.now) × (n ≤ length words.old) }
    ensures { words.new ≡ over 0 (words_in n input.now) words.old }
{
    let (chunks, _) = input.as_chunks::<8>();
    for (i, bytes) in chunks[..n].iter().enumerate() {
        words[i] = u64::from_le_bytes(*bytes);
    }
}

// "11: not a multiple of 8 bytes, empty, over 65,536 bytes"
fn readable(bytes: usize) -> bool
    ensures { result ≡ (eqb (bytes % 8) 0 && leb 1 bytes && leb bytes 65536) }
{
    bytes % 8 == 0 && (1..=65536).contains(&bytes)
}

// ---- what is written

// "each hit as five decimals"
fn put_hit(text: &mut [u8], at: usize, hit: &[u64; 5]) -> usize
    requires { at + 105 ≤ length text.old }
    ensures { (result, text.new) ≡ put_at (line hit.now) at text.old }
{
    let chain = decimals::put_number(text, at, hit[0], b' ');
    let residue = decimals::put_number(text, chain, hit[1], b' ');
    let conformer = decimals::put_number(text, residue, hit[2], b' ');
    let atom = decimals::put_number(text, conformer, hit[3], b' ');
    decimals::put_number(text, atom, hit[4], b'\n')
}

// The first n hits.
fn put_hits(text: &mut [u8], hits: &[u64], n: usize) -> usize
    requires { (n * 5 ≤ length hits.now) × (n * 105 ≤ length text.old) }
    ensures { (result, text.new) ≡ put_at (lines n hits.now) 0 text.old }
{
    let (hits, _) = hits.as_chunks::<5>();
    let mut at: usize = 0;
    for hit in &hits[..n] {
        at = put_hit(text, at, hit);
    }
    at
}

// "It prints each hit as five decimals, then the count"
fn put_found(text: &mut [u8], hits: &[u64], n: usize) -> usize
    requires { (n * 5 ≤ length hits.now) × (n * 105 + 27 ≤ length text.old) }
    ensures { (result, text.new) ≡ put_at (lines n hits.now ++ last_line n) 0 text.old }
{
    let end = put_hits(text, hits, n);
    let at = decimals::put_bytes(text, end, b"found ");
    decimals::put_number(text, at, n as u64, b'\n')
}

// "A refusal prints `refused` and its number."
fn put_refused(text: &mut [u8], r: Refusal) -> usize
    requires { 29 ≤ length text.old }
    ensures { (result, text.new) ≡ put_at (printed (Err r)) 0 text.old }
{
    let at = decimals::put_bytes(text, 0, b"refused ");
    decimals::put_number(text, at, r.into(), b'\n')
}

// ---- the whole

// The answer of find. A store of 8,191 words has 682 records, so that there is room for each hit.
fn put_answer(store: &[u64], tree: &[u64], text: &mut [u8]) -> usize
    requires { (length store.now ≤ 8191) × (71637 ≤ length text.old) }
    ensures { (result, text.new) ≡ put_at (printed (hits_of store.now tree.now)) 0 text.old }
{
    let mut hits = [0u64; 3410];
    let found = walk::find(store, &[], tree, &mut hits);
    match found {
        Ok(n) => put_found(text, &hits, n as usize),
        Err(r) => put_refused(text, r),
    }
}

// "store, tree, and a last word holding the word index where the tree starts"
fn answer_words(words: &[u64], text: &mut [u8]) -> usize
    requires { (1 ≤ length words.now) × (length words.now ≤ 8192) × (71637 ≤ length text.old) }
    ensures { (result, text.new) ≡ put_at (answer_text (split words.now)) 0 text.old }
{
    let last = words.len() - 1;
    let start = words[last] as usize;
    if last < start {
        return put_refused(text, Refusal::BadFile);
    }
    put_answer(&words[..start], &words[start..last], text)
}

// What the program writes, given what it reads: the text's first bytes, and how many they are. The others stay.
pub fn answer(input: &[u8], text: &mut [u8; TEXT]) -> usize
    ensures run { (result, text.new) ≡ put_at (program_run input.now) 0 text.old }
    ensures within { Counts result text.new }
{
    if readable(input.len()) {
        let mut words = [0u64; 8192];
        let n = input.len() / 8;
        read_words(input, n, &mut words);
        answer_words(&words[..n], text)
    } else {
        put_refused(text, Refusal::BadFile)
    }
}
