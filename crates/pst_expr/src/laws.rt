// Laws of values and of domains. These functions do nothing: their contracts are the laws.
ghost use Rattle.pst_expr.specs.Laws.{ValuesAreInRange, DomainsListValues, AreWorked};

/// Every value of an expression is a number from -2^63 to 2^63 - 1.
pub fn values_are_in_range()
    ensures { ValuesAreInRange }
{
    pst_num::bits_act_apart();
}

/// The numbers of a domain by index are in ascending order, each once, and exactly those in its spans.
pub fn domains_list_values()
    ensures { DomainsListValues }
{}

/// A few expressions with their values.
pub fn worked_values()
    ensures { AreWorked }
{}
