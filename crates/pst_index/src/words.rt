//! Words that are names in the objects of some kinds.
ghost use Rattle.std.specs.Prelude.{◌≡◌};
ghost use Rattle.pst_ast.specs.Lookups;
ghost use Rattle.pst_ast.specs.Sorts;

use pst_ast::{Declaration, ObjectWord, Referent, Sort};
use pst_base::{NameId, Names};

/// Whether a name has a text.
pub fn is_text(names: &Names, text: &str, name: NameId) -> bool
    ensures { result ≡ Lookups.is_text names.now text.now name }
{
    name.0 < names.len() && names.text(name) == text
}

/// Whether a sort is that of a state type.
pub fn is_state(sort: Sort) -> bool
    ensures { result ≡ Sorts.is_state sort }
{
    matches!(
        sort,
        Sort::Object {
            word: ObjectWord::State
        }
    )
}

/// Whether a sort is that of a resource type.
pub fn is_resource(sort: Sort) -> bool
    ensures { result ≡ Sorts.is_resource sort }
{
    matches!(
        sort,
        Sort::Object {
            word: ObjectWord::Resource
        }
    )
}

/// What `initial`, `prev` or `instance_id` is in an object.
pub fn word_in(names: &Names, object: &Declaration, name: NameId) -> Option<Referent>
    ensures { result ≡ Lookups.word_in names.now object.now name }
{
    if is_state(object.sort) && is_text(names, "initial", name) {
        return Some(Referent::Initial(*object));
    }
    if is_state(object.sort) && is_text(names, "prev", name) {
        return Some(Referent::Previous(*object));
    }
    if is_resource(object.sort) && is_text(names, "instance_id", name) {
        return Some(Referent::Number(*object));
    }
    None
}
