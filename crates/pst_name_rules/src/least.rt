//! The earlier of two breaches.
ghost use Rattle.std.specs.Prelude.{◌≡◌};
ghost use Rattle.pst_name_rules.specs.Earlier;

use pst_ast::Finding;

// Whether a finding is at an earlier place than another, or at the same one by no greater rule.
fn is_no_later(a: &Finding, b: &Finding) -> bool
    ensures { result ≡ Earlier.is_no_later a.now b.now }
{
    let (p, q) = (a.place, b.place);
    if p.file != q.file {
        return p.file < q.file;
    }
    if p.line != q.line {
        return p.line < q.line;
    }
    if p.column != q.column {
        return p.column < q.column;
    }
    a.rule <= b.rule
}

/// The earlier of two findings, where there are any: that at the earlier place, or at one place
/// that of the lesser rule.
pub fn earlier(a: Option<Finding>, b: Option<Finding>) -> Option<Finding>
    ensures { result ≡ Earlier.earlier a b }
{
    match (a, b) {
        (Some(first), Some(second)) => { if is_no_later(&first, &second) { a } else { b } }
        (None, _) => b,
        (_, None) => a,
    }
}
