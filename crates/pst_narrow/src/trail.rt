// The way back to former bounds.
ghost use Rattle.std.specs.Prelude.{◌≡◌, ◌<◌, ◌≤◌, [], ◌∷◌, ◌++◌, length, take, drop, All, if◌then◌else◌, is_ok, slice_set};
ghost use Rattle.pst_domain.specs.Bounds.{bound_of};
ghost use Rattle.pst_narrow.specs.Trail.{put_back, AreBelow};

use pst_base::NoMemory;
use pst_domain::Bounds;
use pst_expr::Span;
use std::alloc::Global;
use std::marker::Model;

/// A variable and the bounds that it had before they were changed.
#[derive(Clone, Copy, Debug, PartialEq, Eq)]
pub struct Former {
    /// The variable's number.
    pub variable: u32,
    /// Its bounds before the change, `None` where it certainly had no value.
    pub bound: Option<Span>,
}

/// The changes of bounds, oldest first, so that they can be taken back.
#[derive(Debug, Drop)]
pub struct Trail {
    formers: Vec<Former>,
}

impl Model for Trail {
    ghost use Rattle.std.specs.Prelude.{List};
    ghost use Rattle.pst_narrow.specs.declared.trail.Former.{Former};

    ghost Value = { List Former };

    ghost view = { λ t. t.formers.items };
}

impl Trail {
    /// The trail without changes. It takes no memory.
    pub fn new(alloc: Global) -> Trail
        ensures { result ≡ [] }
    {
        Trail {
            formers: Vec::new(alloc),
        }
    }

    /// Where the trail takes its memory.
    pub fn alloc(&self) -> Global {
        *self.formers.allocator()
    }

    /// How many changes there are: where [`Trail::undo`] comes back to.
    pub fn mark(&self) -> usize
        ensures { result ≡ length self.now }
    {
        self.formers.len()
    }

    /// The changes, oldest first.
    pub fn formers(&self) -> &[Former]
        ensures { result.now ≡ self.now }
    {
        self.formers.as_slice()
    }

    /// Takes the changes from `mark` on back, the last one first. It takes no memory.
    pub fn undo(&mut self, mark: usize, bounds: &mut Bounds)
        requires mark { mark ≤ length self.old }
        requires variables { AreBelow (length bounds.old) (drop mark self.old) }
        ensures bounds { bounds.new ≡ put_back (drop mark self.old) bounds.old }
        ensures trail { self.new ≡ take mark self.old }
    {
        while self.formers.len() > mark {
            if let Some(former) = self.formers.pop() {
                bounds.set(former.variable, former.bound);
            }
        }
    }

    /// Gives a variable other bounds, and keeps its former ones. At `NoMemory` nothing changes.
    pub fn set(
        &mut self,
        variable: u32,
        bound: Option<Span>,
        bounds: &mut Bounds,
    ) -> Result<(), NoMemory>
        requires { variable < length bounds.old }
        ensures bounds { bounds.new ≡ (if is_ok result then slice_set bounds.old variable bound else bounds.old) }
        ensures trail { self.new ≡ (if is_ok result then self.old ++ record { variable = variable; bound = bound_of bounds.old variable } ∷ [] else self.old) }
    {
        let former = Former {
            variable,
            bound: bounds.get(variable),
        };
        self.formers.push(former)?;
        bounds.set(variable, bound);
        Ok(())
    }
}
