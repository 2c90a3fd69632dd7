//! Judging paths of names.
ghost use Rattle.std.specs.Prelude.{◌≡◌, ◌++◌, ◌∷◌, [], OnOk, map};
ghost use Rattle.pst_ast.specs.NameRules.{found};
ghost use Rattle.pst_ast.specs.Paths.{read_path as the_path};
ghost use Rattle.pst_ast.specs.Scopes.{meant_each, path_meant};
ghost use Rattle.pst_index.specs.Fitting.{fits_of};
ghost use Rattle.pst_name_rules.specs.Earlier;

use crate::judge::Judge;
use pst_ast::{Checked, Environment, Finding, PathPart, PathReferent};
use pst_base::NoMemory;
use pst_index::{PathFor, read_path};

impl<'a> Judge<'a> {
    // Keeps what each name of a path stands for.
    fn mean_path(
        &mut self,
        first: PathPart,
        rest: &[PathPart],
        path: &PathReferent,
    ) -> Result<(), NoMemory>
        ensures { OnOk result (self.new ≡ record self.old { meant = self.old.meant ++ meant_each (map (λ p. p.name) (first ∷ rest.now)) (path.now.before ++ path.now.last ∷ []) }) }
    {
        let mut name = first.name;
        let mut left = rest;
        for referent in path.before.as_slice() {
            self.mean(name, Some(*referent))?;
            let Some((next, more)) = left.split_first() else {
                return Ok(());
            };
            name = next.name;
            left = more;
        }
        self.mean(name, Some(path.last))
    }

    /// Judges a path, and keeps what its names stand for.
    pub fn judge_path(
        &mut self,
        at: &Environment,
        what: PathFor,
        first: PathPart,
        rest: &[PathPart],
    ) -> Result<(), NoMemory>
        ensures { OnOk result (self.new ≡ record self.old { least = Earlier.earlier self.old.least (found (the_path self.old.ds self.old.names at.now (fits_of what) first rest.now)); meant = self.old.meant ++ path_meant first rest.now (the_path self.old.ds self.old.names at.now (fits_of what) first rest.now) }) }
    {
        match read_path(self.alloc, self.index, self.names, at, what, first, rest)? {
            Checked::Breaks { place, rule } => {
                self.note(Some(Finding { place, rule }));
                Ok(())
            }
            Checked::Is(path) => self.mean_path(first, rest, &path),
        }
    }
}
