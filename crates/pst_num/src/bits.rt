// Operations on the 64 bits of values in two's complement.
ghost use Rattle.std.specs.Prelude.{◌≡◌};
ghost use Rattle.pst_num.specs.Bits.{bits_and, bits_or, bits_xor, bits_not};

/// `a & b` on 64 bits; never `None`.
pub fn and(a: i64, b: i64) -> Option<i64>
    ensures { result ≡ bits_and a b }
{
    Some(a & b)
}

/// `a | b` on 64 bits; never `None`.
pub fn or(a: i64, b: i64) -> Option<i64>
    ensures { result ≡ bits_or a b }
{
    Some(a | b)
}

/// `a ^ b` on 64 bits; never `None`.
pub fn xor(a: i64, b: i64) -> Option<i64>
    ensures { result ≡ bits_xor a b }
{
    Some(a ^ b)
}

/// `~a` on 64 bits; never `None`.
pub fn not(a: i64) -> Option<i64>
    ensures { result ≡ bits_not a }
{
    Some(!a)
}
