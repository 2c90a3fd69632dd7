// Exact sums, differences and products, and quotients rounded up and down. 128 bits hold each of them.
ghost use Rattle.std.specs.Prelude.{◌≡◌, ◌≢◌, max, unsigned_abs, ℤ, pos, ◌+ℤ◌, ◌-ℤ◌, ◌*ℤ◌, ◌≤ℤ◌, ◌<ℤ◌, int_div, int_rem};
ghost use Rattle.pst_operands.specs.Exact.{IsSmall};

use pst_expr::Span;

/// The exact sum.
pub fn plus(a: i64, b: i64) -> i128
    ensures { result ≡ a +ℤ b }
{
    i128::from(a) + i128::from(b)
}

/// The exact difference.
pub fn minus(a: i64, b: i64) -> i128
    ensures { result ≡ a -ℤ b }
{
    i128::from(a) - i128::from(b)
}

/// How far a number is when it goes back and then on.
pub fn moved(number: i64, back: i64, on: i64) -> i128
    ensures { result ≡ (number -ℤ back) +ℤ on }
{
    i128::from(number) - i128::from(back) + i128::from(on)
}

/// That and one number more.
pub fn moved_on(number: i64, back: i64, on: i64, more: i64) -> i128
    ensures { result ≡ ((number -ℤ back) +ℤ on) +ℤ more }
{
    i128::from(number) - i128::from(back) + i128::from(on) + i128::from(more)
}

/// That less one number.
pub fn moved_back(number: i64, back: i64, on: i64, less: i64) -> i128
    ensures { result ≡ ((number -ℤ back) +ℤ on) -ℤ less }
{
    i128::from(number) - i128::from(back) + i128::from(on) - i128::from(less)
}

/// The greatest distance from 0 in a span.
pub fn farthest(span: Span) -> i128
    ensures { result ≡ pos (max (unsigned_abs span.low) (unsigned_abs span.high)) }
{
    i128::from(span.low.unsigned_abs().max(span.high.unsigned_abs()))
}

/// The exact product.
pub fn times(a: i64, b: i64) -> i128
    ensures { result ≡ a *ℤ b }
{
    i128::from(a) * i128::from(b)
}

// The exact quotient, rounded towards 0.
fn over(a: i64, b: i64) -> i128
    requires { b ≢ pos 0 }
    ensures exact { result ≡ int_div a b }
    ensures small { IsSmall result }
{
    if b == -1 {
        -i128::from(a)
    } else {
        i128::from(a / b)
    }
}

/// What the quotient rounded towards 0 leaves.
pub fn rest(a: i64, b: i64) -> i64
    requires { b ≢ pos 0 }
    ensures { result ≡ int_rem a b }
{
    match b {
        -1 => 0,
        _ => a % b,
    }
}

/// The greatest number whose product with a positive one is at most `a`.
pub fn most_up_to(a: i64, positive: i64) -> i128
    requires { pos 0 <ℤ positive }
    ensures { (x : ℤ) → (x *ℤ positive) ≤ℤ a → x ≤ℤ result }
{
    let quotient = over(a, positive);
    let left = rest(a, positive);
    if left < 0 { quotient - 1 } else { quotient }
}

/// The least number whose product with a positive one is at least `a`.
pub fn least_from(a: i64, positive: i64) -> i128
    requires { pos 0 <ℤ positive }
    ensures { (x : ℤ) → a ≤ℤ (x *ℤ positive) → result ≤ℤ x }
{
    let quotient = over(a, positive);
    let left = rest(a, positive);
    if left > 0 { quotient + 1 } else { quotient }
}

/// The greatest number whose product with a negative one is at least `a`.
pub fn most_from(a: i64, negative: i64) -> i128
    requires { negative <ℤ pos 0 }
    ensures { (x : ℤ) → a ≤ℤ (x *ℤ negative) → x ≤ℤ result }
{
    let quotient = over(a, negative);
    let left = rest(a, negative);
    if left > 0 { quotient - 1 } else { quotient }
}

/// The least number whose product with a negative one is at most `a`.
pub fn least_up_to(a: i64, negative: i64) -> i128
    requires { negative <ℤ pos 0 }
    ensures { (x : ℤ) → (x *ℤ negative) ≤ℤ a → result ≤ℤ x }
{
    let quotient = over(a, negative);
    let left = rest(a, negative);
    if left < 0 { quotient + 1 } else { quotient }
}
