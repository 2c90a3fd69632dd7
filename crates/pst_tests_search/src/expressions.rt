//! Expressions that are written as words, operands first.
//!
//! An operand is `n N`, a number; `own F`, a field of the action or object; `object R F`, a field of
//! the object of a reference; `first R`; `id C`, the number of a claimed instance; `claimed C F`, a
//! field of it; `prev F`, `initial` or `number` in an object; `outer F`, in an inline constraint, a field
//! of the action round it; `through H F`, a field of what a handle traverses. An operator stands behind its
//! operands. `element F N` takes the index before it, and stands for that element of N fields from F on.
use crate::words::Words;
use pst_base::NoMemory;
use pst_expr::{BinaryOp, Expr, UnaryOp};
use pst_model::{Constraint, Slot};
use std::alloc::Global;
use std::mem;

/// The expressions that no operator has taken yet, and what their variables stand for.
#[derive(Drop)]
pub struct Expressions {
    pub alloc: Global,
    pub waiting: Vec<Expr>,
    pub slots: Vec<Slot>,
}

fn unary_operator(word: &str) -> Option<UnaryOp> {
    match word {
        "neg" => Some(UnaryOp::Neg),
        "not" => Some(UnaryOp::Not),
        "flip" => Some(UnaryOp::BitNot),
        _ => None,
    }
}

fn number_operator(word: &str) -> Option<BinaryOp> {
    match word {
        "mul" => Some(BinaryOp::Mul),
        "div" => Some(BinaryOp::Div),
        "rem" => Some(BinaryOp::Rem),
        "add" => Some(BinaryOp::Add),
        "sub" => Some(BinaryOp::Sub),
        "shl" => Some(BinaryOp::Shl),
        "shr" => Some(BinaryOp::Shr),
        "and" => Some(BinaryOp::BitAnd),
        "xor" => Some(BinaryOp::BitXor),
        "or" => Some(BinaryOp::BitOr),
        _ => None,
    }
}

fn binary_operator(word: &str) -> Option<BinaryOp> {
    match word {
        "lt" => Some(BinaryOp::Less),
        "le" => Some(BinaryOp::LessOrEqual),
        "gt" => Some(BinaryOp::Greater),
        "ge" => Some(BinaryOp::GreaterOrEqual),
        "eq" => Some(BinaryOp::Equal),
        "ne" => Some(BinaryOp::NotEqual),
        "both" => Some(BinaryOp::And),
        "either" => Some(BinaryOp::Or),
        "implies" => Some(BinaryOp::Implies),
        _ => number_operator(word),
    }
}

fn slot(word: &str, words: &mut Words<'_>) -> Slot {
    match word {
        "own" => Slot::Own {
            field: words.index(),
        },
        "object" => Slot::Object {
            reference: words.index(),
            field: words.index(),
        },
        "first" => Slot::First {
            reference: words.index(),
        },
        "id" => Slot::ClaimId {
            claim: words.index(),
        },
        "claimed" => Slot::ClaimField {
            claim: words.index(),
            field: words.index(),
        },
        "prev" => Slot::Prev {
            field: words.index(),
        },
        "initial" => Slot::IsFirst,
        _ => Slot::Id,
    }
}

// A field of the action itself, of the action round it, or of what a handle traverses.
fn far_slot(alloc: Global, word: &str, words: &mut Words<'_>) -> Result<Slot, NoMemory> {
    match word {
        "outer" => {
            let field = words.index();
            let slot = Box::new(alloc, Slot::Own { field })?;
            Ok(Slot::Outer { slot })
        }
        "through" => {
            let handle = words.index();
            let field = words.index();
            let slot = Box::new(alloc, Slot::Own { field })?;
            Ok(Slot::Through { handle, slot })
        }
        _ => Ok(slot(word, words)),
    }
}

impl Expressions {
    /// No expression.
    pub fn new(alloc: Global) -> Expressions {
        Expressions {
            alloc,
            waiting: Vec::new(alloc),
            slots: Vec::new(alloc),
        }
    }

    // The last expression.
    fn last(&mut self) -> Expr {
        match self.waiting.pop() {
            Some(expr) => expr,
            None => Expr::Constant(0),
        }
    }

    fn join_one(&mut self, op: UnaryOp) -> Result<(), NoMemory> {
        let operand = Box::new(self.alloc, self.last())?;
        self.waiting.push(Expr::Unary(op, operand))?;
        Ok(())
    }

    fn join_two(&mut self, op: BinaryOp) -> Result<(), NoMemory> {
        let right = Box::new(self.alloc, self.last())?;
        let left = Box::new(self.alloc, self.last())?;
        self.waiting.push(Expr::Binary(op, left, right))?;
        Ok(())
    }

    fn operand(&mut self, word: &str, words: &mut Words<'_>) -> Result<(), NoMemory> {
        if word == "n" {
            self.waiting.push(Expr::Constant(words.number()))?;
            return Ok(());
        }
        let number = u32::try_from(self.slots.len()).unwrap_or(0);
        self.slots.push(far_slot(self.alloc, word, words)?)?;
        self.waiting.push(Expr::Variable(number))?;
        Ok(())
    }

    // The element of so many fields from one on, at the index before it.
    fn element(&mut self, first: u32, count: u32) -> Result<(), NoMemory> {
        let number = u32::try_from(self.slots.len()).unwrap_or(0);
        for place in 0..count {
            let field = first.saturating_add(place);
            self.slots.push(Slot::Own { field })?;
        }
        let index = Box::new(self.alloc, self.last())?;
        self.waiting.push(Expr::Element(number, count, index))?;
        Ok(())
    }

    /// Takes an operand or an operator.
    pub fn take(&mut self, word: &str, words: &mut Words<'_>) -> Result<(), NoMemory> {
        if let Some(op) = unary_operator(word) {
            return self.join_one(op);
        }
        if word == "element" {
            let first = words.index();
            return self.element(first, words.index());
        }
        match binary_operator(word) {
            Some(op) => self.join_two(op),
            None => self.operand(word, words),
        }
    }

    /// The expression that the words so far are.
    pub fn whole(&mut self) -> Constraint {
        let expr = self.last();
        let slots = mem::replace(&mut self.slots, Vec::new(self.alloc));
        Constraint { expr, slots }
    }

    /// A number.
    pub fn number(&self, number: i64) -> Constraint {
        Constraint {
            expr: Expr::Constant(number),
            slots: Vec::new(self.alloc),
        }
    }
}
