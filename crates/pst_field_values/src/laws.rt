//! The law of excluded values.
ghost use Rattle.pst_field_values.specs.Laws.{ExcludedFieldsHoldNothing};

/// Where a value is excluded by the values of the fields that are read, the constraints of no later scenario hold in
/// which the next field has it.
pub fn excluded_fields_hold_nothing()
    ensures { ExcludedFieldsHoldNothing }
{}
