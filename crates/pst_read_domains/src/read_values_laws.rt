//! The law of values.
ghost use Rattle.pst_read_domains.specs.ReadValuesLaws.{CompoundValuesAreInDomains};

use pst_expr::domains_list_values;

/// Whatever a list of choices has read of a sound model, whole or so far, each value of a compound
/// action is of its field's domain.
pub fn compound_values_are_in_domains()
    ensures { CompoundValuesAreInDomains }
{
    domains_list_values();
}
