// Puts text into a buffer: a byte, bytes, a number in decimal. Each function takes the place to start at and answers the place
// behind what it put.
#![tactic(auto)]

ghost use Rattle.std.specs.Prelude.{[], ◌∷◌, ◌+◌, ◌≤◌, ◌<◌, length};
ghost use Rattle.decimal.specs.Digits.{digits};
ghost use Rattle.decimal.specs.Put.{Put};

// Puts a byte at a place, and answers the place after it.
pub fn put_byte(out: &mut [u8], at: usize, b: u8) -> usize
    requires { at < length out.old }
    ensures { Put out.old at (b ∷ []) out.new result }
{
    out[at] = b;
    at + 1
}

// Puts a text at a place, and answers the place after it.
pub fn put_text(out: &mut [u8], at: usize, text: &[u8]) -> usize
    requires { at + length text.now ≤ length out.old }
    ensures { Put out.old at text.now out.new result }
{
    let end = at + text.len();
    out[at..end].copy_from_slice(text);
    end
}

// Puts a number in decimal at a place, and answers the place after it.
fn put_digits(out: &mut [u8], at: usize, n: u32) -> usize
    requires { at + length (digits n n) ≤ length out.old }
    ensures { Put out.old at (digits n n) out.new result }
{
    if n < 10 {
        return put_byte(out, at, 48 + (n % 10) as u8);
    }
    let next = put_digits(out, at, n / 10);
    put_byte(out, next, 48 + (n % 10) as u8)
}

// Puts a space and a number.
pub fn put_number(out: &mut [u8], at: usize, n: u32) -> usize
    requires { at + 11 ≤ length out.old }
    ensures put { Put out.old at (32 ∷ digits n n) out.new result }
    ensures upper_bound { result ≤ at + 11 }
{
    let next = put_byte(out, at, b' ');
    put_digits(out, next, n)
}
