//! Types of members, and enum items.
ghost use Rattle.std.specs.Prelude.{◌≡◌};
ghost use Rattle.pst_ast.specs.Lookups;

use crate::Index;
use pst_ast::{Declaration, Scope, Sort, TypeName};
use pst_base::{NameId, Place};

// The name of the type of a reference, claim, pool, handle or instance.
fn type_in(sort: Sort) -> Option<TypeName>
    ensures { result ≡ Lookups.type_in sort }
{
    match sort {
        Sort::Reference { of, .. }
        | Sort::Claim { of }
        | Sort::Pool { of }
        | Sort::Handle { of }
        | Sort::Instance { of } => Some(of),
        _ => None,
    }
}

// Whether a type is of the sort that such a member asks for.
fn is_type_for(member: Sort, sort: Sort) -> bool
    ensures { result ≡ Lookups.is_type_for member sort }
{
    match member {
        Sort::Reference { .. } | Sort::Claim { .. } | Sort::Pool { .. } => {
            matches!(sort, Sort::Object { .. })
        }
        Sort::Handle { .. } => matches!(sort, Sort::Action { .. }),
        Sort::Instance { .. } => matches!(sort, Sort::Component),
        _ => false,
    }
}

impl Index {
    /// The type of a reference, claim, pool, handle or instance, whose name is looked up where the
    /// member is declared; none where it stands for another sort of thing.
    #[tactic(auto, unfolding(pst_ast::specs::Lookups::type_of))]
    pub fn type_of(&self, member: &Declaration) -> Option<Declaration>
        ensures { result ≡ Lookups.type_of self.now member.now }
    {
        let name = type_in(member.sort)?;
        let found = self.type_named(self.home(member), &name)?;
        if is_type_for(member.sort, found.sort) {
            Some(found)
        } else {
            None
        }
    }

    /// The item that a name by itself stands for: of the component where it is used, or else of
    /// file level.
    pub fn item_here(&self, component: Option<Place>, name: NameId) -> Option<Declaration>
        ensures { result ≡ Lookups.item_here self.now component name }
    {
        if let Some(component) = component {
            if let Some(item) = self.item_at(Scope::Part(component), name) {
                return Some(item);
            }
        }
        self.item_at(Scope::Files, name)
    }
}
