//! Judging the branches that are joined.
ghost use Rattle.std.specs.Prelude.{◌≡◌, nat_eq, IfOk, OnOk, map};
ghost use Rattle.std.specs.List.{fold};
ghost use Rattle.std.specs.HashSet.{contains};
ghost use Rattle.pst_ast.specs.ActivityView.{view_statement};
ghost use Rattle.pst_ast.specs.SharedView.{view_names};
ghost use Rattle.pst_ast.specs.Declarations.{names_of};
ghost use Rattle.pst_ast.specs.NameRules.{unless as the_unless};
ghost use Rattle.pst_ast.specs.Uses.{Joins, label_of as the_label, labels_in};
ghost use Rattle.pst_name_rules.specs.Earlier;
ghost use Rattle.pst_names.specs.Judged.{judged};
ghost use Rattle.pst_names.specs.Labels.{AreLabels};
ghost use Rattle.pst_walk_parts.specs.Shown.{view_statements};

use crate::judge::Judge;
use pst_ast::{CoreNode, Name, NamesNode, NextName, StatementNode};
use pst_base::{NameId, NoMemory};
use pst_name_rules::unless;
use std::alloc::Global;
use std::collections::HashSet;

// The label of a branch.
fn label_of(statement: &StatementNode) -> Option<NameId>
    ensures { result ≡ the_label (view_statement statement.now) }
{
    match statement {
        StatementNode::Labeled { label, core } => match core {
            CoreNode::Bind(_) => None,
            _ => Some(label.name.id),
        },
        _ => None,
    }
}

// The labels of the branches of a block.
fn labels_of(alloc: Global, statements: &[StatementNode]) -> Result<HashSet<u32>, NoMemory>
    ensures { IfOk result (λ labels. AreLabels labels (labels_in (view_statements statements.now))) }
{
    let mut labels = HashSet::new(alloc);
    for statement in statements {
        if let Some(label) = label_of(statement) {
            labels.insert(label.0)?;
        }
    }
    Ok(labels)
}

impl<'a> Judge<'a> {
    // Judges a branch that is joined.
    fn judge_label(&mut self, labels: &HashSet<u32>, name: Name)
        ensures { self.new ≡ record self.old { least = Earlier.earlier self.old.least (the_unless (contains nat_eq labels.now name.id.0) name.place 3) } }
    {
        let finding = unless(labels.contains(&name.id.0), name.place, 3);
        self.note(finding);
    }

    // Judges branches that are joined, behind the first.
    fn judge_next(
        &mut self,
        statements: &[StatementNode],
        labels: &HashSet<u32>,
        names: &[NextName],
    )
        requires labels { AreLabels labels.now (labels_in (view_statements statements.now)) }
        ensures { self.new ≡ fold judged self.old (map (Joins (labels_in (view_statements statements.now))) (map (λ next. next.name) names.now)) }
    {
        for next in names {
            self.judge_label(labels, next.name);
        }
    }

    /// Judges the branches that are joined of a block with these statements.
    pub fn judge_joined(
        &mut self,
        statements: &[StatementNode],
        names: &NamesNode,
    ) -> Result<(), NoMemory>
        ensures { OnOk result (self.new ≡ fold judged self.old (map (Joins (labels_in (view_statements statements.now))) (names_of (view_names names.now)))) }
    {
        let labels = labels_of(self.alloc, statements)?;
        self.judge_label(&labels, names.first);
        self.judge_next(statements, &labels, names.rest.as_slice());
        Ok(())
    }
}
