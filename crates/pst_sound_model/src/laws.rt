//! Laws of the definitions: each function here does nothing but call other laws, and its contract
//! is a law.
ghost use Rattle.pst_sound_model.specs.Laws.{ModelsAreSound, ModelsOfTextsAreSound};

/// The model of sources that keep the rules and limits is sound, where the tokens of the sources
/// stand at rising places.
pub fn models_are_sound()
    ensures { ModelsAreSound }
{
    pst_tree::instances_are_one();
    pst_elab_rules::models_are_in_order();
    crate::fields_are_few();
    crate::fields_are_sound();
    crate::needs_are_few();
    crate::needs_are_sound();
    crate::objects_are_sound();
    crate::pools_are_sound();
    crate::functions_are_sound();
    crate::needs_are_served_whole();
    crate::action_constraints_are_sound();
    crate::handles_are_sound();
    crate::steps_are_sound();
    crate::ties_are_sound();
    crate::serves_are_sound();
    crate::bodies_are_sound();
    crate::names_have_own_places();
    crate::names_stand_apart();
}

/// The model of sources that texts spell is sound, where the sources keep the rules and limits.
pub fn models_of_texts_are_sound()
    ensures { ModelsOfTextsAreSound }
{
    models_are_sound();
    crate::tokens_of_units_rise();
}
