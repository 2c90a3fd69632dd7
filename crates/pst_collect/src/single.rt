//! Single declarations, added to a list.
ghost use Rattle.std.specs.Prelude.{◌≡◌, ◌++◌, ◌∷◌, [], OnOk, Some};
ghost use Rattle.pst_ast.specs.Declarations;

use pst_ast::{Declaration, LabelNode, Name, Scope, Sort};
use pst_base::{NoMemory, Place};

// Adds a name in the scope of the type that is named at a place.
pub fn push_member(
    found: &mut Vec<Declaration>,
    owner: Place,
    sort: Sort,
    name: Name,
) -> Result<(), NoMemory>
    ensures { OnOk result (found.new.items ≡ found.old.items ++ Declarations.member owner sort name ∷ []) }
{
    found.push(Declaration {
        name,
        scope: Scope::Part(owner),
        inside: Some(owner),
        sort,
    })?;
    Ok(())
}

// Adds an index, which has a scope of its own.
pub fn push_index(found: &mut Vec<Declaration>, owner: Place, name: Name) -> Result<(), NoMemory>
    ensures { OnOk result (found.new.items ≡ found.old.items ++ Declarations.index owner name ∷ []) }
{
    found.push(Declaration {
        name,
        scope: Scope::Part(name.place),
        inside: Some(owner),
        sort: Sort::Index,
    })?;
    Ok(())
}

// Adds the index of a `repeat`, where it has one.
pub fn push_optional_index(
    found: &mut Vec<Declaration>,
    owner: Place,
    index: &Option<LabelNode>,
) -> Result<(), NoMemory>
    ensures { OnOk result (found.new.items ≡ found.old.items ++ Declarations.index_of owner index.now) }
{
    match index {
        None => Ok(()),
        Some(label) => push_index(found, owner, label.name),
    }
}

// Adds a local of a body, in the scope that begins at a place.
pub fn push_local(
    found: &mut Vec<Declaration>,
    owner: Place,
    scope: Place,
    name: Name,
) -> Result<(), NoMemory>
    ensures { OnOk result (found.new.items ≡ found.old.items ++ Declarations.local owner scope name ∷ []) }
{
    found.push(Declaration {
        name,
        scope: Scope::Part(scope),
        inside: Some(owner),
        sort: Sort::Local,
    })?;
    Ok(())
}

// The scope of a component's types, or of the types at file level.
pub fn level_of(component: Option<Place>) -> Scope
    ensures { result ≡ Declarations.level_of component }
{
    match component {
        None => Scope::Files,
        Some(place) => Scope::Part(place),
    }
}

// Adds a type or a function, at file level or in a component.
pub fn push_type(
    found: &mut Vec<Declaration>,
    component: Option<Place>,
    sort: Sort,
    name: Name,
) -> Result<(), NoMemory>
    ensures { OnOk result (found.new.items ≡ found.old.items ++ Declarations.type_declared component sort name ∷ []) }
{
    found.push(Declaration {
        name,
        scope: level_of(component),
        inside: component,
        sort,
    })?;
    Ok(())
}
