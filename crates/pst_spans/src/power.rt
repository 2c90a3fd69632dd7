//! Powers of two.
ghost use Rattle.std.specs.Prelude.{◌≡◌, ◌^◌, pos, IfOk};
ghost use Rattle.pst_type_rules.specs.Domains.{span};

use pst_base::NoMemory;
use pst_expr::Span;

/// Two to a power. A power that no value has is answered by `NoMemory`.
#[tactic(auto, using(std::proofs::lemmas::Nat::one_shl))]
pub fn power_of_two(exponent: u64) -> Result<i128, NoMemory>
    ensures { IfOk result (λ p. p ≡ pos (2 ^ exponent)) }
{
    if exponent > 64 {
        return Err(NoMemory);
    }
    let power = 1u128 << exponent;
    match i128::try_from(power) {
        Ok(power) => Ok(power),
        Err(_) => Err(NoMemory),
    }
}

/// The span between two numbers. Where one is no value the answer is `NoMemory`.
pub fn span_between(low: i128, high: i128) -> Result<Span, NoMemory>
    ensures { IfOk result (λ s. s ≡ span low high) }
{
    let Ok(low) = i64::try_from(low) else {
        return Err(NoMemory);
    };
    let Ok(high) = i64::try_from(high) else {
        return Err(NoMemory);
    };
    Ok(Span { low, high })
}
