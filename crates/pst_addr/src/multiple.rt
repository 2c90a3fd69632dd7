//! Multiples.
ghost use Rattle.std.specs.Prelude.{◌≤◌, ◌^◌, ℕ, MatchOption};
ghost use Rattle.pst_addr.specs.Places.{IsLeast};
ghost use Rattle.pst_addr.specs.Ranges.{IsMultipleFrom};

/// The least multiple of the alignment from the address on; none where it takes more than 64 bits.
pub(crate) fn next_multiple(address: u64, align: u64) -> Option<u64>
    requires { 1 ≤ align }
    ensures { MatchOption result ((other : ℕ) → IsMultipleFrom address align other → 2 ^ 64 ≤ other) (IsLeast (IsMultipleFrom address align)) }
{
    let rest = address % align;
    if rest == 0 {
        return Some(address);
    }
    address.checked_add(align - rest)
}
