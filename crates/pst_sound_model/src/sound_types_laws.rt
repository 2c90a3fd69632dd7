//! Laws of the definitions: each function here does nothing, and its contract is a law.
ghost use Rattle.pst_sound_model.specs.SoundTypesLaws.{FieldsAreFew, FieldsAreSound, FunctionsAreSound, NeedsAreFew, NeedsAreServedWhole, NeedsAreSound, ObjectsAreSound, PoolsAreSound};

/// In the model of sources that keep the rules, references are of flow objects and claims of
/// resources.
pub fn needs_are_sound()
    ensures { NeedsAreSound }
{}

/// An action has no more references and claims than it may have, and none where it has an activity.
pub fn needs_are_few()
    ensures { NeedsAreFew }
{}

/// Each pool stands in an instance, is of an object type, and has a size within its limits.
pub fn pools_are_sound()
    ensures { PoolsAreSound }
{}

/// In the model of sources that are elaborated, pools serve each reference and claim of each atomic
/// action that isn't abstract, in each instance of its component.
pub fn needs_are_served_whole()
    ensures { NeedsAreServedWhole }
{
    pst_tree::instances_are_one();
    pst_bind::needs_are_served();
}

/// Each field has a domain, and each element of an array a number within its limits.
pub fn fields_are_sound()
    ensures { FieldsAreSound }
{}

/// No type has more fields than one may have, each element of an array counted.
pub fn fields_are_few()
    ensures { FieldsAreFew }
{}

/// No function has more parameters than one may have.
pub fn functions_are_sound()
    ensures { FunctionsAreSound }
{}

/// Each object type of the model of sources that keep the rules is sound.
pub fn objects_are_sound()
    ensures { ObjectsAreSound }
{
    fields_are_few();
    fields_are_sound();
    crate::object_constraints_are_sound();
}
