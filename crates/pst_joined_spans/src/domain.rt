//! The domains of joined spans.
ghost use Rattle.std.specs.Prelude.{◌≡◌, IfOk};
ghost use Rattle.pst_expr.specs.Spans.{IsDomain};
ghost use Rattle.pst_joined_spans.specs.Joined.{AreJoined};

use pst_base::NoMemory;
use pst_expr::{Domain, Span};

/// The domain of joined spans. Where there is no span, or their numbers may be as many as 2^64, the
/// answer is `NoMemory`: no type has such values.
#[tactic(auto, using(crate::proofs::Sizes::is_domain_by))]
pub fn domain_of(spans: Vec<Span>) -> Result<Domain, NoMemory>
    requires { AreJoined spans.items }
    ensures same { IfOk result (λ domain. domain ≡ spans.items) }
    ensures domain { IfOk result (λ domain. IsDomain domain) }
{
    if spans.is_empty() {
        return Err(NoMemory);
    }
    let low = spans[0].low;
    let high = spans[spans.len() - 1].high;
    if high.abs_diff(low) >= u64::MAX {
        return Err(NoMemory);
    }
    Ok(Domain::new(spans))
}
