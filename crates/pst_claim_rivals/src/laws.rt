//! Laws of claims that can't claim one instance.
ghost use Rattle.pst_claim_rivals.specs.Rivals.{RivalsDiffer, ClaimsAreTheirs, ClaimsAreListedOnce};

/// Rivals claim different instances in each scenario that a plan doesn't refuse.
pub fn rivals_differ()
    ensures { RivalsDiffer }
{}

/// Each claim that is listed is one of its action: it has the action type's lock, and the pool that serves it.
pub fn claims_are_theirs()
    ensures { ClaimsAreTheirs }
{}

/// No claim is listed twice.
pub fn claims_are_listed_once()
    ensures { ClaimsAreListedOnce }
{}
