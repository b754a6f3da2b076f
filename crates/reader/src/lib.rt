// PDB lines in (change request §9): one pass over the text decides whether it is one of the writer's, a second one whether its records fit, and
// only then the store is opened and filled.
#![tactic(auto)]

ghost use Rattle.std.specs.Prelude.{◌≡◌, length};
ghost use Rattle.machine.specs.Answer.{opened_numbers};
ghost use Rattle.machine.specs.Read.{read_run};
ghost use Rattle.lines.specs.Taken.{opens, taken_line, taken_text};

use machine::{Record, Refusal};

// ---- which texts are the writer's

// M begins a model where none is open. E ends it; between them stand atoms.
fn taken_line(line: &[u8], begun: bool) -> bool
    requires { length line.now ≡ 81 }
    ensures { result ≡ taken_line begun line.now }
{
    if line[0] == 77 {
        if begun {
            return false;
        }
        return scanner::taken_model(line);
    }
    if begun {
        if line[0] == 69 {
            return scanner::taken_end(line);
        }
        return scanner::taken_atom(line);
    }
    false
}

// Whether a model is open after a line.
fn open_after(line: &[u8], begun: bool) -> bool
    requires { length line.now ≡ 81 }
    ensures { result ≡ opens begun line.now }
{
    if line[0] == 77 {
        return true;
    }
    if line[0] == 69 {
        return false;
    }
    begun
}

// Whether the writer could make a text.
pub fn taken_text(text: &[u8]) -> bool
    ensures { result ≡ taken_text text.now }
{
    if 0 < text.len() % 81 {
        return false;
    }
    let count = text.len() / 81;
    let mut begun = false;
    let mut n: usize = 0;
    while n < count {
        let at = n * 81;
        let line = &text[at..at + 81];
        if taken_line(line, begun) {
            begun = open_after(line, begun);
            n += 1;
        } else {
            return false;
        }
    }
    !begun
}

// ---- the call

// Refused in order: 1 by the store's length, 17 by the text, 8 by the records that it needs. Old words of the store aren't read.
pub fn read(text: &[u8], store: &mut [u64]) -> Result<(), Refusal>
    ensures { (opened_numbers result, store.new) ≡ read_run text.now store.old }
{
    let length = store.len();
    if length < 1 {
        return Err(Refusal::BadLength);
    }
    if 1200001 < length {
        return Err(Refusal::BadLength);
    }
    if taken_text(text) {
        if room::fits(text, (length - 1) / Record::WIDTH) {
            filling::fill(text, store);
            return Ok(());
        }
        return Err(Refusal::NoCapacity);
    }
    Err(Refusal::BadText)
}
