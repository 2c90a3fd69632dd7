//! What type names stand for.
ghost use Rattle.std.specs.Prelude.{◌≡◌};
ghost use Rattle.pst_ast.specs.Lookups;

use crate::Index;
use pst_ast::{Declaration, Name, Scope, Sort, TypeName};
use pst_base::{NameId, Place};

impl Index {
    /// What a type name by itself stands for: in the component where it is used, or else at file
    /// level.
    pub fn type_here(&self, component: Option<Place>, name: NameId) -> Option<Declaration>
        ensures { result ≡ Lookups.type_here self.now component name }
    {
        if let Some(component) = component {
            if let Some(declaration) = self.look_up(Scope::Part(component), name) {
                return Some(declaration);
            }
        }
        self.look_up(Scope::Files, name)
    }

    /// The component that a name stands for.
    pub fn component_named(&self, component: Option<Place>, name: Name) -> Option<Declaration>
        ensures { result ≡ Lookups.component_named self.now component name }
    {
        match self.type_here(component, name.id) {
            Some(found) if found.sort == Sort::Component => Some(found),
            _ => None,
        }
    }

    /// What `T` stands for, or `C::T` in the component that `C` stands for.
    pub fn type_by(
        &self,
        component: Option<Place>,
        first: Name,
        second: Option<Name>,
    ) -> Option<Declaration>
        ensures { result ≡ Lookups.type_by self.now component first second }
    {
        match second {
            None => self.type_here(component, first.id),
            Some(second) => {
                let outer = self.component_named(component, first)?;
                self.look_up(Scope::Part(outer.name.place), second.id)
            }
        }
    }

    /// What a type name stands for where it is used.
    pub fn type_named(&self, component: Option<Place>, name: &TypeName) -> Option<Declaration>
        ensures { result ≡ Lookups.type_named self.now component name.now }
    {
        let second = match name.second {
            Some(second) => Some(second.name),
            None => None,
        };
        self.type_by(component, name.first, second)
    }
}
