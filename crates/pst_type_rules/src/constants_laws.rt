//! Laws of the definitions: each function here does nothing, and its contract is a law.
ghost use Rattle.pst_type_rules.specs.ConstantsLaws.{ItemsHaveOneValue, ExpressionsHaveOneValue, TypesHaveOneDomain, DomainsAreShortest};
ghost use Rattle.pst_type_rules.specs.ConstantsTried.{ConstantsAreTried};

/// An enum item has at most one value.
pub fn items_have_one_value()
    ensures { ItemsHaveOneValue }
{}

/// An expression has at most one value.
pub fn expressions_have_one_value()
    ensures { ExpressionsHaveOneValue }
{}

/// Values of enum items and of expressions, in a small source.
pub fn constants_are_tried()
    ensures { ConstantsAreTried }
{}

/// A type has at most one domain.
pub fn types_have_one_domain()
    ensures { TypesHaveOneDomain }
{}

/// No spans with the same numbers are fewer than those of a type's domain.
pub fn domains_are_shortest()
    ensures { DomainsAreShortest }
{}
