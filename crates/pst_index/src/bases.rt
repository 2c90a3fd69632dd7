//! Actions and their bases.
ghost use Rattle.std.specs.Prelude.{◌≡◌};
ghost use Rattle.pst_ast.specs.Lookups;

use crate::Index;
use pst_ast::{Declaration, Scope, Sort, TypeName};
use pst_base::{NameId, Place};

// The name of an action's base.
fn base_in(sort: Sort) -> Option<TypeName>
    ensures { result ≡ Lookups.base_in sort }
{
    match sort {
        Sort::Action { base } => base,
        _ => None,
    }
}

// It, where it is an action of the same component as another.
fn action_beside(action: &Declaration, base: Declaration) -> Option<Declaration>
    ensures { result ≡ Lookups.action_beside action.now base }
{
    match base.sort {
        Sort::Action { .. } if base.scope == action.scope => Some(base),
        _ => None,
    }
}

// The component in whose text a declaration stands, or which it is.
fn component_of(owner: &Declaration) -> Option<Place>
    ensures { result ≡ Lookups.component_of owner.now }
{
    match owner.sort {
        Sort::Component => Some(owner.name.place),
        _ => owner.inside,
    }
}

impl Index {
    /// The component in whose text a declaration stands.
    pub fn home(&self, declaration: &Declaration) -> Option<Place>
        ensures { result ≡ Lookups.home self.now declaration.now }
    {
        let inside = declaration.inside?;
        let owner = self.declared_at(inside)?;
        component_of(&owner)
    }

    /// The base of an action; none where its name stands for no action of the same component.
    #[tactic(auto, unfolding(pst_ast::specs::Lookups::base_of))]
    pub fn base_of(&self, action: &Declaration) -> Option<Declaration>
        ensures { result ≡ Lookups.base_of self.now action.now }
    {
        let name = base_in(action.sort)?;
        let base = self.type_named(action.inside, &name)?;
        action_beside(action, base)
    }

    /// A member of an action, with its bases'.
    pub fn member_of(&self, action: &Declaration, name: NameId) -> Option<Declaration>
        ensures { result ≡ Lookups.member_of self.now action.now name }
    {
        match self.tables.of(self.declarations.as_slice(), action) {
            Some(table) => self
                .tables
                .member(self.declarations.as_slice(), &table, name),
            None => self.member_by_steps(action, name),
        }
    }

    // It, looked up in the action and in each of its bases.
    #[tactic(auto, unfolding(pst_ast::specs::Lookups::member_of))]
    fn member_by_steps(&self, action: &Declaration, name: NameId) -> Option<Declaration>
        ensures { result ≡ Lookups.member_of self.now action.now name }
    {
        let mut at = Some(*action);
        let mut left = self.as_slice().len();
        while let Some(here) = at {
            if left == 0 {
                return None;
            }
            if let Some(member) = self.look_up(Scope::Part(here.name.place), name) {
                return Some(member);
            }
            at = self.base_of(&here);
            left -= 1;
        }
        None
    }
}
