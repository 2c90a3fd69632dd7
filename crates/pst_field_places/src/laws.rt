//! Laws of the fields of compound actions.
ghost use Rattle.pst_field_places.specs.Laws.{FieldsArePlaces, FieldsHaveValues};

/// Where a field's value is next, the list has read the scenario so far, and has as many options as the
/// field's domain has values.
pub fn fields_are_places()
    ensures { FieldsArePlaces }
{}

/// Whatever a longer list reads, the node has there the values known, and then the one that the next choice
/// names: the seed begins at one of the field's values, and the choice counts on from it.
pub fn fields_have_values()
    ensures { FieldsHaveValues }
{}
