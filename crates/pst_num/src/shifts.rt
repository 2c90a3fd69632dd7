// Shifts by a count from 0 to 63.
ghost use Rattle.std.specs.Prelude.{◌≡◌};
ghost use Rattle.pst_num.specs.Shifts.{shifted_left, shifted_right};

/// `a` times 2^`b`; `None` also where `b` is outside 0 to 63.
pub fn shl(a: i64, b: i64) -> Option<i64>
    ensures { result ≡ shifted_left a b }
{
    if b < 0 || b > 63 {
        return None;
    }
    if a < i64::MIN >> b || i64::MAX >> b < a {
        return None;
    }
    Some(a << b)
}

/// `a` divided by 2^`b` and rounded down; `None` where `b` is outside 0 to 63.
pub fn shr(a: i64, b: i64) -> Option<i64>
    ensures { result ≡ shifted_right a b }
{
    if b < 0 || b > 63 { None } else { Some(a >> b) }
}
