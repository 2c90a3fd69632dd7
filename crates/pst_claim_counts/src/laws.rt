//! The law of claims that need more instances than there are.
ghost use Rattle.pst_claim_counts.specs.Counts.{TooManyClaimsRefuseLists};

use pst_built::{longer_lists_keep_what_is_known, orders_stay};
use pst_claim_rivals::rivals_differ;
use pst_read_legal::legal_is_unrefused;

/// Where more claims on a pool, of which each two are rivals, are read than the pool has instances, no longer list
/// reads a legal scenario.
pub fn too_many_claims_refuse_lists()
    ensures { TooManyClaimsRefuseLists }
{
    rivals_differ();
    orders_stay();
    legal_is_unrefused();
    longer_lists_keep_what_is_known();
}
