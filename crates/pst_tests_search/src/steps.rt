//! Steps of activities that are written as words, the inner ones first.
//!
//! `do A` traverses an action type, with the inline constraints before it, and `handle A` traverses it by the
//! next handle. `sequence N`, `parallel N` and `schedule N` take the last steps, `branch W` the last one as a
//! branch of that weight, `select N` the last branches, and `repeat N` the last step; `turns` takes the last
//! step and the expression before it as the count.
use crate::expressions::Expressions;
use crate::words::Words;
use pst_base::NoMemory;
use pst_model::{Branch, Constraint, Step};
use std::alloc::Global;
use std::mem;

/// The steps that no other has taken yet.
#[derive(Drop)]
pub struct Steps {
    pub alloc: Global,
    pub inline: Vec<Constraint>,
    pub handles: Vec<u32>,
    pub waiting: Vec<Step>,
    pub branches: Vec<Branch>,
}

impl Steps {
    /// No step.
    pub fn new(alloc: Global) -> Steps {
        Steps {
            alloc,
            inline: Vec::new(alloc),
            handles: Vec::new(alloc),
            waiting: Vec::new(alloc),
            branches: Vec::new(alloc),
        }
    }

    // The last step.
    fn last(&mut self) -> Step {
        match self.waiting.pop() {
            Some(step) => step,
            None => Step::Sequence(Vec::new(self.alloc)),
        }
    }

    // The last steps in order.
    fn last_ones(&mut self, count: u32) -> Result<Vec<Step>, NoMemory> {
        let mut steps = Vec::new(self.alloc);
        for _ in 0..count {
            steps.push(self.last())?;
        }
        steps.reverse();
        Ok(steps)
    }

    fn traverse(&mut self, action: u32, handle: Option<u32>) -> Result<(), NoMemory> {
        let inline = mem::replace(&mut self.inline, Vec::new(self.alloc));
        self.waiting.push(Step::Traverse {
            action,
            handle,
            inline,
        })?;
        Ok(())
    }

    fn traverse_handle(&mut self, action: u32) -> Result<(), NoMemory> {
        let handle = u32::try_from(self.handles.len()).unwrap_or(0);
        self.handles.push(action)?;
        self.traverse(action, Some(handle))
    }

    fn add_branch(&mut self, weight: u32) -> Result<(), NoMemory> {
        let step = self.last();
        self.branches.push(Branch {
            guard: None,
            weight,
            step,
        })?;
        Ok(())
    }

    // The last branches in order.
    fn last_branches(&mut self, count: u32) -> Result<Vec<Branch>, NoMemory> {
        let mut branches = Vec::new(self.alloc);
        for _ in 0..count {
            if let Some(branch) = self.branches.pop() {
                branches.push(branch)?;
            }
        }
        branches.reverse();
        Ok(branches)
    }

    fn select(&mut self, count: u32) -> Result<(), NoMemory> {
        let branches = self.last_branches(count)?;
        self.waiting.push(Step::Select(branches))?;
        Ok(())
    }

    /// The last step, in so many turns.
    pub fn repeat(&mut self, count: Constraint) -> Result<(), NoMemory> {
        let body = Box::new(self.alloc, self.last())?;
        self.waiting.push(Step::Repeat { count, body })?;
        Ok(())
    }

    fn block(&mut self, word: &str, count: u32) -> Result<(), NoMemory> {
        let steps = self.last_ones(count)?;
        let block = match word {
            "parallel" => Step::Parallel(steps),
            "schedule" => Step::Schedule(steps),
            _ => Step::Sequence(steps),
        };
        self.waiting.push(block)?;
        Ok(())
    }

    /// Takes a step.
    pub fn take(
        &mut self,
        word: &str,
        words: &mut Words<'_>,
        expressions: &Expressions,
    ) -> Result<(), NoMemory> {
        match word {
            "do" => self.traverse(words.index(), None),
            "handle" => self.traverse_handle(words.index()),
            "branch" => self.add_branch(words.index()),
            "select" => self.select(words.index()),
            "repeat" => self.repeat(expressions.number(words.number())),
            _ => self.block(word, words.index()),
        }
    }

    /// The steps so far.
    pub fn whole(&mut self) -> Vec<Step> {
        mem::replace(&mut self.waiting, Vec::new(self.alloc))
    }
}
