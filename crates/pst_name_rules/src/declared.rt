//! What declarations break.
ghost use Rattle.std.specs.Prelude.{◌≡◌};
ghost use Rattle.std.specs.List.{list_any};
ghost use Rattle.pst_ast.specs.NameRules;
ghost use Rattle.pst_name_rules.specs.Own.{own_finding, is_reserved};

use pst_ast::{Declaration, Finding, Scope, Sort};
use pst_base::{NameId, Names};
use pst_index::{Index, is_text};

// Whether the first declaration of its name in its scope is another.
fn is_declared_before(index: &Index, declaration: &Declaration) -> bool
    ensures { result ≡ NameRules.is_declared_before index.now declaration.now }
{
    match index.look_up(declaration.scope, declaration.name.id) {
        Some(first) => first.name.place != declaration.name.place,
        None => false,
    }
}

// What names the scope in which it is declared.
fn owner_of(index: &Index, declaration: &Declaration) -> Option<Declaration>
    ensures { result ≡ NameRules.owner_of index.now declaration.now }
{
    let inside = declaration.inside?;
    let type_ = index.declared_at(inside)?;
    if declaration.scope == Scope::Part(type_.name.place) {
        Some(type_)
    } else {
        None
    }
}

// Whether the base of its action has a member of that name.
fn is_in_base(index: &Index, declaration: &Declaration) -> bool
    ensures { result ≡ NameRules.is_in_base index.now declaration.now }
{
    let Some(owner) = owner_of(index, declaration) else {
        return false;
    };
    match index.base_of(&owner) {
        Some(base) => index.member_of(&base, declaration.name.id).is_some(),
        None => false,
    }
}

// Whether a name is a word of objects.
fn is_word(names: &Names, name: NameId) -> bool
    ensures { result ≡ NameRules.is_word names.now name }
{
    is_text(names, "prev", name)
        || is_text(names, "initial", name)
        || is_text(names, "instance_id", name)
}

// Whether it is a word of objects, declared in one.
fn is_reserved(index: &Index, names: &Names, declaration: &Declaration) -> bool
    ensures { result ≡ is_reserved index.now names.now declaration.now }
{
    match owner_of(index, declaration) {
        Some(owner) => {
            matches!(owner.sort, Sort::Object { .. }) && is_word(names, declaration.name.id)
        }
        None => false,
    }
}

/// Rule 1 or 7 at a declaration.
pub fn own_finding(index: &Index, names: &Names, declaration: &Declaration) -> Option<Finding>
    ensures { result ≡ own_finding index.now names.now declaration.now }
{
    let place = declaration.name.place;
    if is_declared_before(index, declaration) {
        return Some(Finding { place, rule: 1 });
    }
    if is_in_base(index, declaration) || is_reserved(index, names, declaration) {
        return Some(Finding { place, rule: 7 });
    }
    None
}

// Whether it is the component `pss_top` of file level.
fn is_root(names: &Names, declaration: &Declaration) -> bool
    ensures { result ≡ NameRules.is_root_component names.now declaration.now }
{
    declaration.sort == Sort::Component
        && declaration.scope == Scope::Files
        && is_text(names, "pss_top", declaration.name.id)
}

/// Whether there is a component `pss_top`.
pub fn has_root(index: &Index, names: &Names) -> bool
    ensures { result ≡ list_any (NameRules.is_root_component names.now) index.now }
{
    for declaration in index.as_slice() {
        if is_root(names, declaration) {
            return true;
        }
    }
    false
}
