// Decimal numbers and other bytes put into a lent text, each from an index on, and answered with the index where it ends.
#![tactic(auto)]

ghost use Rattle.std.specs.Prelude.{◌≡◌, [], ◌∷◌, ◌++◌, ◌+◌, ◌≤◌, length};
ghost use Rattle.machine.specs.Program.{digits, decimal};
ghost use Rattle.decimals.specs.Put.{put_at};

// One byte.
fn put_byte(text: &mut [u8], at: usize, b: u8) -> usize
    requires { at + 1 ≤ length text.old }
    ensures { (result, text.new) ≡ put_at (b ∷ []) at text.old }
{
    text[at] = b;
    at + 1
}

// All bytes of b.
pub fn put_bytes(text: &mut [u8], at: usize, b: &[u8]) -> usize
    requires { at + length b.now ≤ length text.old }
    ensures { (result, text.new) ≡ put_at b.now at text.old }
{
    moves::write_over(text, at, b);
    at + b.len()
}

// A number's decimal digits, at most `places` of them.
fn put_digits(text: &mut [u8], at: usize, n: u64, places: usize) -> usize
    requires { at + places ≤ length text.old }
    ensures { (result, text.new) ≡ put_at (digits places n) at text.old }
{
    if places == 0 {
        return at;
    }
    if n < 10 {
        return put_byte(text, at, 48 + n as u8);
    }
    let next = put_digits(text, at, n / 10, places - 1);
    put_byte(text, next, 48 + (n % 10) as u8)
}

// A number, and the byte after it.
pub fn put_number(text: &mut [u8], at: usize, n: u64, after: u8) -> usize
    requires { at + 21 ≤ length text.old }
    ensures { (result, text.new) ≡ put_at (decimal n ++ (after ∷ [])) at text.old }
{
    let next = put_digits(text, at, n, 20);
    put_byte(text, next, after)
}
