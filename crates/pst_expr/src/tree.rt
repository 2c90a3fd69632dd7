// Trees of expressions.
ghost use Rattle.std.specs.Prelude.{◌≡◌, IfOk};

/// An operator before its operand.
#[derive(Clone, Copy, Debug, PartialEq, Eq)]
pub enum UnaryOp {
    /// `-`
    Neg,
    /// `!`
    Not,
    /// `~`
    BitNot,
}

/// An operator between two operands.
#[derive(Clone, Copy, Debug, PartialEq, Eq)]
pub enum BinaryOp {
    /// `*`
    Mul,
    /// `/`
    Div,
    /// `%`
    Rem,
    /// `+`
    Add,
    /// `-`
    Sub,
    /// `<<`
    Shl,
    /// `>>`
    Shr,
    /// `<`
    Less,
    /// `<=`
    LessOrEqual,
    /// `>`
    Greater,
    /// `>=`
    GreaterOrEqual,
    /// `==`
    Equal,
    /// `!=`
    NotEqual,
    /// `&`
    BitAnd,
    /// `^`
    BitXor,
    /// `|`
    BitOr,
    /// `&&`
    And,
    /// `||`
    Or,
    /// `->`
    Implies,
}

/// An expression over the variables of an environment.
pub enum Expr {
    /// A number.
    Constant(i64),
    /// The variable of this number.
    Variable(u32),
    /// An operator and its operand.
    Unary(UnaryOp, Box<Expr>),
    /// An operator and its left and right operand.
    Binary(BinaryOp, Box<Expr>, Box<Expr>),
    /// An element of an array: the variable of the first element, the number of elements, and the index.
    Element(u32, u32, Box<Expr>),
}

// A loop along the left parts, so that a long chain doesn't run out of stack.
impl Drop for Expr {
    fn drop(mut self) {
        loop {
            match self {
                Expr::Constant(_) => return,
                Expr::Variable(_) => return,
                Expr::Unary(_, operand) => self = Box::into_inner(operand),
                Expr::Binary(_, left, _) => self = Box::into_inner(left),
                Expr::Element(_, _, index) => self = Box::into_inner(index),
            }
        }
    }
}
