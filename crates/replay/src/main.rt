// Recorded lists of edits, run again: standard input holds cases made by `oracle/record`, and the summary says how many ended as recorded.
#![tactic(auto)]

ghost use Rattle.std.specs.Prelude.{◌≡◌, ◌≤◌, length, replicate, IfSome};
ghost use Rattle.replay.specs.Replay.{as_recorded_lem, Sized};

use std::{fmt, io};

// ---- a case

// Whether a list, applied to a store just opened, gives the answers and leaves the words that were recorded.
fn ends_as(store: &mut [u64], out: &mut [u64], list: &[u64], answers: &[u64], left: &[u64]) -> bool
    requires { (store.old ≡ replicate (length left.now) 0) × (out.old ≡ replicate (length answers.now) 0) }
    ensures { result ≡ as_recorded_lem list.now answers.now left.now }
{
    let _ = edits::apply(store, list, out);
    let answered = &*out == answers;
    let stored = &*store == left;
    answered && stored
}

// Words that are 0 are a store just opened.
fn as_recorded(list: &[u64], answers: &[u64], left: &[u64]) -> bool
    requires { (length answers.now ≤ 120) × (length left.now ≤ 601) }
    ensures { result ≡ as_recorded_lem list.now answers.now left.now }
{
    let mut store = [0u64; 601];
    let mut out = [0u64; 120];
    let length = left.len();
    let count = answers.len();
    ends_as(&mut store[..length], &mut out[..count], list, answers, left)
}

// How many answers begin with 0; an answer is three words.
fn accepted_in(answers: &[u64]) -> usize
    ensures { result ≤ length answers.now }
{
    answers.iter().step_by(3).filter(|word| **word == 0).count()
}

// A case's calls, those accepted, and whether it ended as recorded.
#[derive(Clone, Copy)]
struct Case {
    calls: usize,
    accepted: usize,
    as_recorded: bool,
}

// The case that the words begin with, and the words behind it. A case is how many words the list, the answers and the store have, and
// these words.
fn replay_case(words: &[u64]) -> Option<(Case, &[u64])>
    ensures { IfSome result (λ p. Sized words.now p.0 p.1.now) }
{
    let [list, answers, left, words @ ..] = words else {
        return None;
    };
    if 40960 < *list || 120 < *answers || 601 < *left {
        return None;
    }
    let (list, words) = words.split_at_checked(*list as usize)?;
    let (answers, words) = words.split_at_checked(*answers as usize)?;
    let (left, words) = words.split_at_checked(*left as usize)?;
    let case = Case {
        calls: answers.len() / 3,
        accepted: accepted_in(answers),
        as_recorded: as_recorded(list, answers, left),
    };
    Some((case, words))
}

// ---- all cases

#[derive(Clone, Copy, Default)]
struct Summary {
    cases: usize,
    calls: usize,
    accepted: usize,
    as_recorded: usize,
    left: usize,
}

impl fmt::Display for Summary {
    fn fmt<W: fmt::Write>(&self, f: &mut fmt::Formatter<W>) -> fmt::Result {
        writeln!(f, "cases {}", self.cases)?;
        writeln!(f, "calls {}", self.calls)?;
        writeln!(f, "accepted {}", self.accepted)?;
        writeln!(f, "as recorded {}", self.as_recorded)?;
        write!(f, "words left {}", self.left)
    }
}

// To the last word, or to one that begins no case.
fn replay(words: &[u64]) -> Summary
    requires { length words.now ≤ 51200 }
{
    let mut summary = Summary::default();
    let mut rest = words;
    while let Some((case, behind)) = replay_case(rest) {
        summary.cases += 1;
        summary.calls += case.calls;
        summary.accepted += case.accepted;
        summary.as_recorded += usize::from(case.as_recorded);
        rest = behind;
    }
    summary.left = rest.len();
    summary
}

// Standard input as words.
fn replay_input(input: &[u8]) -> Summary
    requires { length input.now ≤ 409600 }
{
    let mut words = [0u64; 51200];
    let n = input.len() / 8;
    program::read_words(input, n, &mut words);
    replay(&words[..n])
}

fn main(rt: HostRuntime) -> io::Result<()> {
    let mut input = [0u8; 409600];
    let read = input::read_full(&mut rt.stdin(), &mut input)?;
    rt.println(replay_input(&input[..read]))
}
