//! Parts that several rules share: lists, labels and types.
use crate::{ExprNode, Name, RangesNode};
use pst_base::Place;

/// `"," expr`
#[derive(Drop)]
pub struct NextExpr {
    /// `,`
    pub comma: Place,
    /// The expression.
    pub expr: ExprNode,
}

/// `"," NAME`
#[derive(Clone, Copy, Debug, PartialEq, Eq)]
pub struct NextName {
    /// `,`
    pub comma: Place,
    /// The name.
    pub name: Name,
}

/// `"." NAME`
#[derive(Clone, Copy, Debug, PartialEq, Eq)]
pub struct DotName {
    /// `.`
    pub dot: Place,
    /// The name.
    pub name: Name,
}

/// `NAME { "," NAME }`
#[derive(Drop)]
pub struct NamesNode {
    /// The first name.
    pub first: Name,
    /// The names behind it.
    pub rest: Vec<NextName>,
}

/// `NAME ":"`
#[derive(Clone, Copy, Debug, PartialEq, Eq)]
pub struct LabelNode {
    /// The name.
    pub name: Name,
    /// `:`
    pub colon: Place,
}

/// `tname = NAME [ "::" NAME ]`
#[derive(Clone, Copy, Debug, PartialEq, Eq)]
pub struct TypeName {
    /// The component's name, or else the type's.
    pub first: Name,
    /// The type's name, where a component's stands before it.
    pub second: Option<ScopedName>,
}

/// `"::" NAME`
#[derive(Clone, Copy, Debug, PartialEq, Eq)]
pub struct ScopedName {
    /// `::`
    pub colons: Place,
    /// The name.
    pub name: Name,
}

/// `plain = ("int"|"bit") [width] | "bool"`
#[derive(Drop)]
pub enum PlainNode {
    /// Numbers with a sign.
    Int {
        /// `int`
        int: Place,
        /// The width.
        width: Option<WidthNode>,
    },
    /// Numbers without a sign.
    Bit {
        /// `bit`
        bit: Place,
        /// The width.
        width: Option<WidthNode>,
    },
    /// `bool`
    Bool(Place),
}

/// `width = "[" expr [ ":" expr ] "]"`
#[derive(Drop)]
pub struct WidthNode {
    /// `[`
    pub left_bracket: Place,
    /// The width, or the number of the highest bit.
    pub expr: ExprNode,
    /// The number of the lowest bit.
    pub low: Option<LowNode>,
    /// `]`
    pub right_bracket: Place,
}

/// `":" expr`
#[derive(Drop)]
pub struct LowNode {
    /// `:`
    pub colon: Place,
    /// The expression.
    pub expr: ExprNode,
}

/// `type = plain ["in" "[" ranges "]"] | tname ["in" "[" ranges "]"]`
#[derive(Drop)]
pub enum TypeNode {
    /// A plain type.
    Plain {
        /// The plain type.
        plain: PlainNode,
        /// The values that it keeps.
        domain: Option<DomainNode>,
    },
    /// A type with a name.
    Named {
        /// The type's name.
        name: TypeName,
        /// The values that it keeps.
        domain: Option<DomainNode>,
    },
}

/// `"in" "[" ranges "]"`
#[derive(Drop)]
pub struct DomainNode {
    /// `in`
    pub in_: Place,
    /// `[`
    pub left_bracket: Place,
    /// The ranges.
    pub ranges: RangesNode,
    /// `]`
    pub right_bracket: Place,
}
