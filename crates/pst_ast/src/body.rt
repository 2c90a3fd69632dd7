//! Bodies.
use crate::{ExprNode, LabelNode, Name, NextExpr, PlainNode};
use pst_base::Place;

/// `body = "exec" "body" "{" { bstmt } "}"`
#[derive(Drop)]
pub struct BodyNode {
    /// `exec`
    pub exec: Place,
    /// `body`
    pub body: Place,
    /// `{`
    pub left_brace: Place,
    /// The statements.
    pub statements: Vec<BodyStatement>,
    /// `}`
    pub right_brace: Place,
}

/// `bstmt`: a statement of a body.
#[derive(Drop)]
pub enum BodyStatement {
    /// `";"`
    Empty(Place),
    /// `plain NAME [ "=" source ] ";"`
    Local {
        /// The local's type.
        plain: Box<PlainNode>,
        /// The local's name.
        name: Name,
        /// Its first value.
        value: Option<Box<ValueNode>>,
        /// `;`
        semicolon: Place,
    },
    /// `NAME "=" source ";"`
    Assign {
        /// The local's name.
        name: Name,
        /// `=`
        equal: Place,
        /// The value.
        source: Box<SourceNode>,
        /// `;`
        semicolon: Place,
    },
    /// `call ";"`
    Call {
        /// The call.
        call: Box<CallNode>,
        /// `;`
        semicolon: Place,
    },
    /// `"{" { bstmt } "}"`
    Block {
        /// `{`
        left_brace: Place,
        /// The statements.
        statements: Vec<BodyStatement>,
        /// `}`
        right_brace: Place,
    },
    /// `"if" "(" expr ")" bstmt`
    If {
        /// `if`
        if_: Place,
        /// `(`
        left_parenthesis: Place,
        /// The condition.
        condition: Box<ExprNode>,
        /// `)`
        right_parenthesis: Place,
        /// The part where it holds.
        then: Box<BodyStatement>,
    },
    /// `"if" "(" expr ")" bstmt "else" bstmt`
    IfElse {
        /// `if`
        if_: Place,
        /// `(`
        left_parenthesis: Place,
        /// The condition.
        condition: Box<ExprNode>,
        /// `)`
        right_parenthesis: Place,
        /// The part where it holds.
        then: Box<BodyStatement>,
        /// `else`
        else_: Place,
        /// The part where it doesn't.
        otherwise: Box<BodyStatement>,
    },
    /// `"repeat" "(" [ NAME ":" ] expr ")" bstmt`
    Repeat {
        /// `repeat`
        repeat: Place,
        /// `(`
        left_parenthesis: Place,
        /// The index's name.
        index: Option<LabelNode>,
        /// The count.
        count: Box<ExprNode>,
        /// `)`
        right_parenthesis: Place,
        /// What is repeated.
        statement: Box<BodyStatement>,
    },
}

/// `"=" source`
#[derive(Drop)]
pub struct ValueNode {
    /// `=`
    pub equal: Place,
    /// The value.
    pub source: SourceNode,
}

/// `source = call | expr`
#[derive(Drop)]
pub enum SourceNode {
    /// A call.
    Call(CallNode),
    /// An expression.
    Expr(ExprNode),
}

/// `call = NAME "(" [ expr { "," expr } ] ")"`
#[derive(Drop)]
pub struct CallNode {
    /// The function's name.
    pub name: Name,
    /// `(`
    pub left_parenthesis: Place,
    /// The arguments.
    pub arguments: Option<ArgumentsNode>,
    /// `)`
    pub right_parenthesis: Place,
}

/// `expr { "," expr }`
#[derive(Drop)]
pub struct ArgumentsNode {
    /// The first argument.
    pub first: ExprNode,
    /// The arguments behind it.
    pub rest: Vec<NextExpr>,
}
