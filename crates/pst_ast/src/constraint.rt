//! Constraints.
use crate::{DotName, ExprNode, Name, NextExpr};
use pst_base::Place;

/// `set = citem | "{" { citem } "}"`
#[derive(Drop)]
#[cycle(constraint)]
pub enum ConstraintNode {
    /// One constraint.
    One(Box<ConstraintItem>),
    /// Constraints in braces.
    Block {
        /// `{`
        left_brace: Place,
        /// The constraints.
        items: Vec<ConstraintItem>,
        /// `}`
        right_brace: Place,
    },
}

/// `citem`: one constraint.
#[derive(Drop)]
#[cycle(constraint)]
pub enum ConstraintItem {
    /// `";"`
    Empty(Place),
    /// `expr ";"`
    Expr {
        /// The expression that holds.
        expr: ExprNode,
        /// `;`
        semicolon: Place,
    },
    /// `expr "->" set`
    Implies {
        /// The expression on the left.
        condition: ExprNode,
        /// `->`
        arrow: Place,
        /// What holds where it does.
        set: Box<ConstraintNode>,
    },
    /// `"if" "(" expr ")" set`
    If {
        /// `if`
        if_: Place,
        /// `(`
        left_parenthesis: Place,
        /// The condition.
        condition: ExprNode,
        /// `)`
        right_parenthesis: Place,
        /// What holds where it does.
        then: Box<ConstraintNode>,
    },
    /// `"if" "(" expr ")" set "else" set`
    IfElse {
        /// `if`
        if_: Place,
        /// `(`
        left_parenthesis: Place,
        /// The condition.
        condition: ExprNode,
        /// `)`
        right_parenthesis: Place,
        /// What holds where it does.
        then: Box<ConstraintNode>,
        /// `else`
        else_: Place,
        /// What holds where it doesn't.
        otherwise: Box<ConstraintNode>,
    },
    /// `"unique" "{" expr { "," expr } "}" ";"`
    Unique {
        /// `unique`
        unique: Place,
        /// `{`
        left_brace: Place,
        /// The first item.
        first: ExprNode,
        /// The items behind it.
        rest: Vec<NextExpr>,
        /// `}`
        right_brace: Place,
        /// `;`
        semicolon: Place,
    },
    /// `"foreach" "(" NAME { "." NAME } "[" NAME "]" ")" set`
    Foreach {
        /// `foreach`
        foreach: Place,
        /// `(`
        left_parenthesis: Place,
        /// The first name of the array's path.
        first: Name,
        /// The names behind it.
        rest: Vec<DotName>,
        /// `[`
        left_bracket: Place,
        /// The index's name.
        index: Name,
        /// `]`
        right_bracket: Place,
        /// `)`
        right_parenthesis: Place,
        /// What holds at each index.
        set: Box<ConstraintNode>,
    },
}

/// `constraint = "constraint" ( NAME "{" { citem } "}" | set )`
#[derive(Drop)]
pub struct ConstraintDeclaration {
    /// `constraint`
    pub constraint: Place,
    /// What stands behind the word.
    pub content: ConstraintContent,
}

/// What stands behind the word `constraint`.
#[derive(Drop)]
pub enum ConstraintContent {
    /// `NAME "{" { citem } "}"`
    Named {
        /// The name.
        name: Name,
        /// `{`
        left_brace: Place,
        /// The constraints.
        items: Vec<ConstraintItem>,
        /// `}`
        right_brace: Place,
    },
    /// `set`
    Set(ConstraintNode),
}
