// Sums, products and quotients.
ghost use Rattle.std.specs.Prelude.{◌≡◌};
ghost use Rattle.pst_num.specs.Arithmetic.{sum_of, difference_of, product_of, quotient_of, remainder_of, negation_of};

/// `a + b`.
pub fn add(a: i64, b: i64) -> Option<i64>
    ensures { result ≡ sum_of a b }
{
    a.checked_add(b)
}

/// `a - b`.
pub fn sub(a: i64, b: i64) -> Option<i64>
    ensures { result ≡ difference_of a b }
{
    a.checked_sub(b)
}

/// `a * b`.
pub fn mul(a: i64, b: i64) -> Option<i64>
    ensures { result ≡ product_of a b }
{
    a.checked_mul(b)
}

/// `a / b`, rounded towards 0; `None` also where `b` is 0.
pub fn div(a: i64, b: i64) -> Option<i64>
    ensures { result ≡ quotient_of a b }
{
    a.checked_div(b)
}

/// What `a / b` leaves, with the sign of `a`; `None` where `b` is 0.
pub fn rem(a: i64, b: i64) -> Option<i64>
    ensures { result ≡ remainder_of a b }
{
    match b {
        0 => None,
        -1 => Some(0),
        _ => Some(a % b),
    }
}

/// `-a`.
pub fn neg(a: i64) -> Option<i64>
    ensures { result ≡ negation_of a }
{
    a.checked_neg()
}
