// Operations on signed 32-bit numbers that clamp: each is the library's own, named after what document 01 says. The definitions are in
// specs/.
#![tactic(auto)]

ghost use Rattle.std.specs.Prelude.{◌≡◌};
ghost use Rattle.clamped.specs.Clamp.{clamp, plus, minus, times, negated};

// The nearest number that 32 bits hold.
pub fn clamped(x: i64) -> i32
    ensures { result ≡ clamp x }
{
    x.clamp(-2147483648, 2147483647) as i32
}

pub fn add(a: i32, b: i32) -> i32
    ensures { result ≡ plus a b }
{
    a.saturating_add(b)
}

pub fn sub(a: i32, b: i32) -> i32
    ensures { result ≡ minus a b }
{
    a.saturating_sub(b)
}

pub fn mul(a: i32, b: i32) -> i32
    ensures { result ≡ times a b }
{
    a.saturating_mul(b)
}

pub fn neg(a: i32) -> i32
    ensures { result ≡ negated a }
{
    a.saturating_neg()
}
