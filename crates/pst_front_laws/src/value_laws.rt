//! Laws of the definitions: each function here does nothing but call other laws, and its contract
//! is a law.
ghost use Rattle.pst_front_laws.specs.ElaboratedLaws.{ElaboratedAreValued};
ghost use Rattle.pst_front_laws.specs.ValueLaws.{ConstantsAreValued, ItemValuesAreFound, ItemValuesAreSettled, RangesAreFound, SpansAreFound};
ghost use Rattle.pst_front_laws.specs.ValueTried.{ValuesAreTried};

/// Sources that are elaborated keep the rules of types, and their model is made by the values of
/// their constants, so the laws below hold of them.
pub fn elaborated_are_valued()
    ensures { ElaboratedAreValued }
{}

/// Where the sources keep the rules of types, the value that is found for a constant part is the
/// one that it has by the rules.
pub fn constants_are_valued()
    ensures { ConstantsAreValued }
{}

/// The same of the span of a plain type that stands in the sources.
pub fn spans_are_found()
    ensures { SpansAreFound }
{}

/// The same of the span of a range of constants.
pub fn ranges_are_found()
    ensures { RangesAreFound }
{}

/// The same of the value of an enum item, where each name is declared at a place of its own.
pub fn item_values_are_found()
    ensures { ItemValuesAreFound }
{
    pst_type_rules::expressions_have_one_value();
}

/// By the values that items have, an item gets just the value that it has.
pub fn item_values_are_settled()
    ensures { ItemValuesAreSettled }
{}

/// Values of enum items, and the span of a type, in a small source.
pub fn values_are_tried()
    ensures { ValuesAreTried }
{
    pst_type_rules::constants_are_tried();
}
