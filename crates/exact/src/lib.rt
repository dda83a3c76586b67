// Products that pass 64 bits, compared exactly. Nothing is rounded.
#![tactic(auto)]

ghost use Rattle.std.specs.Prelude.{◌≡◌, ◌*◌, ltb};

// 128 bits hold it.
fn product(a: u64, b: u64) -> u128
    ensures { result ≡ a * b }
{
    u128::from(a) * u128::from(b)
}

// Is a times b below c times d? By the true products.
pub fn less(a: u64, b: u64, c: u64, d: u64) -> bool
    ensures { result ≡ ltb (a * b) (c * d) }
{
    product(a, b) < product(c, d)
}
