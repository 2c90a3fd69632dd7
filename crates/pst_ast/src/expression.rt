//! Expressions.
use crate::{Name, Number, Operator, PrefixOperator};
use pst_base::Place;

/// `expr`: operators between parts, by level.
#[derive(Drop)]
#[cycle(expression)]
pub enum ExprNode {
    /// A part without an operator between parts.
    Unary(UnaryNode),
    /// An operator between two parts.
    Binary {
        /// The part on the left.
        left: Box<ExprNode>,
        /// The operator.
        operator: Operator,
        /// The operator's place.
        place: Place,
        /// The part on the right.
        right: Box<ExprNode>,
    },
    /// `expr "in" "[" ranges "]"`
    In {
        /// The part on the left.
        left: Box<ExprNode>,
        /// `in`
        in_: Place,
        /// `[`
        left_bracket: Place,
        /// The ranges.
        ranges: RangesNode,
        /// `]`
        right_bracket: Place,
    },
}

/// `unary = ("-" | "!" | "~") unary | primary`
#[derive(Drop)]
#[cycle(expression)]
pub enum UnaryNode {
    /// An operator before its part.
    Prefix {
        /// The operator.
        operator: PrefixOperator,
        /// The operator's place.
        place: Place,
        /// The part behind it.
        operand: Box<UnaryNode>,
    },
    /// A part without an operator.
    Primary(PrimaryNode),
}

/// `primary = NUMBER | "true" | "false" | path | "(" expr ")"`
#[derive(Drop)]
#[cycle(expression)]
pub enum PrimaryNode {
    /// A number.
    Number(Number),
    /// `true`
    True(Place),
    /// `false`
    False(Place),
    /// A path.
    Path(PathNode),
    /// An expression in brackets.
    Group {
        /// `(`
        left_parenthesis: Place,
        /// The expression.
        expr: Box<ExprNode>,
        /// `)`
        right_parenthesis: Place,
    },
}

/// `path = NAME [ index ] { "." NAME [ index ] } | NAME "::" NAME [ "::" NAME ]`
#[derive(Drop)]
#[cycle(expression)]
pub enum PathNode {
    /// Names with dots between them.
    Dotted {
        /// The first name.
        first: PartNode,
        /// The names behind it.
        rest: Vec<NextPart>,
    },
    /// An item of an enum.
    Item {
        /// The enum's name.
        first: Name,
        /// `::`
        colons: Place,
        /// The item's name.
        second: Name,
    },
    /// An item of an enum of a component.
    LongItem {
        /// The component's name.
        first: Name,
        /// `::`
        colons: Place,
        /// The enum's name.
        second: Name,
        /// `::`
        more_colons: Place,
        /// The item's name.
        third: Name,
    },
}

/// `NAME [ index ]`
#[derive(Drop)]
#[cycle(expression)]
pub struct PartNode {
    /// The name.
    pub name: Name,
    /// The index.
    pub index: Option<IndexNode>,
}

/// `"." NAME [ index ]`
#[derive(Drop)]
#[cycle(expression)]
pub struct NextPart {
    /// `.`
    pub dot: Place,
    /// The name with its index.
    pub part: PartNode,
}

/// `index = "[" expr "]"`
#[derive(Drop)]
#[cycle(expression)]
pub struct IndexNode {
    /// `[`
    pub left_bracket: Place,
    /// The expression.
    pub expr: Box<ExprNode>,
    /// `]`
    pub right_bracket: Place,
}

/// `ranges = range { "," range }`
#[derive(Drop)]
#[cycle(expression)]
pub struct RangesNode {
    /// The first range.
    pub first: Box<RangeNode>,
    /// The ranges behind it.
    pub rest: Vec<NextRange>,
}

/// `"," range`
#[derive(Drop)]
#[cycle(expression)]
pub struct NextRange {
    /// `,`
    pub comma: Place,
    /// The range.
    pub range: RangeNode,
}

/// `range = expr [ ".." expr ]`
#[derive(Drop)]
#[cycle(expression)]
pub enum RangeNode {
    /// One value.
    Single(ExprNode),
    /// All values from one to another.
    Between {
        /// The least value.
        low: ExprNode,
        /// `..`
        dots: Place,
        /// The greatest value.
        high: ExprNode,
    },
}
