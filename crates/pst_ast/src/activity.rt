//! Activities.
use crate::{ConstraintNode, ExprNode, LabelNode, Name, NamesNode, RangesNode, TypeName};
use pst_base::Place;

/// `activity = "activity" "{" { stmt } "}"`
#[derive(Drop)]
pub struct ActivityNode {
    /// `activity`
    pub activity: Place,
    /// `{`
    pub left_brace: Place,
    /// The statements.
    pub statements: Vec<StatementNode>,
    /// `}`
    pub right_brace: Place,
}

/// `stmt = ";" | [ NAME ":" ] core`
#[derive(Drop)]
#[cycle(activity)]
pub enum StatementNode {
    /// `";"`
    Empty(Place),
    /// `NAME ":" core`
    Labeled {
        /// The label.
        label: LabelNode,
        /// The statement.
        core: CoreNode,
    },
    /// `core`
    Plain(CoreNode),
}

/// `core`: a statement without its label.
#[derive(Drop)]
#[cycle(activity)]
pub enum CoreNode {
    /// `"do" tname with`
    Do {
        /// `do`
        do_: Place,
        /// The action's type.
        name: TypeName,
        /// The constraints.
        with: WithNode,
    },
    /// `NAME with`
    Handle {
        /// The handle's name.
        name: Name,
        /// The constraints.
        with: WithNode,
    },
    /// `["sequence"] "{" { stmt } "}"`
    Sequence {
        /// `sequence`, where it stands.
        sequence: Option<Place>,
        /// `{`
        left_brace: Place,
        /// The statements.
        statements: Vec<StatementNode>,
        /// `}`
        right_brace: Place,
    },
    /// `("parallel"|"schedule") [ join ] "{" { stmt } "}"`
    Together {
        /// Which of the two words.
        word: TogetherWord,
        /// The word's place.
        place: Place,
        /// The join form.
        join: Option<JoinNode>,
        /// `{`
        left_brace: Place,
        /// The statements.
        statements: Vec<StatementNode>,
        /// `}`
        right_brace: Place,
    },
    /// `"select" "{" branch { branch } "}"`
    Select {
        /// `select`
        select: Place,
        /// `{`
        left_brace: Place,
        /// The first branch.
        first: Box<BranchNode>,
        /// The branches behind it.
        rest: Vec<BranchNode>,
        /// `}`
        right_brace: Place,
    },
    /// `"repeat" "(" [ NAME ":" ] expr ")" stmt`
    Repeat {
        /// `repeat`
        repeat: Place,
        /// `(`
        left_parenthesis: Place,
        /// The index's name.
        index: Option<LabelNode>,
        /// The count.
        count: ExprNode,
        /// `)`
        right_parenthesis: Place,
        /// What is repeated.
        statement: Box<StatementNode>,
    },
    /// `"if" "(" expr ")" stmt`
    If {
        /// `if`
        if_: Place,
        /// `(`
        left_parenthesis: Place,
        /// The condition.
        condition: ExprNode,
        /// `)`
        right_parenthesis: Place,
        /// The part where it holds.
        then: Box<StatementNode>,
    },
    /// `"if" "(" expr ")" stmt "else" stmt`
    IfElse {
        /// `if`
        if_: Place,
        /// `(`
        left_parenthesis: Place,
        /// The condition.
        condition: ExprNode,
        /// `)`
        right_parenthesis: Place,
        /// The part where it holds.
        then: Box<StatementNode>,
        /// `else`
        else_: Place,
        /// The part where it doesn't.
        otherwise: Box<StatementNode>,
    },
    /// `"match" "(" expr ")" "{" arm { arm } "}"`
    Match {
        /// `match`
        match_: Place,
        /// `(`
        left_parenthesis: Place,
        /// The expression whose value is matched.
        expr: ExprNode,
        /// `)`
        right_parenthesis: Place,
        /// `{`
        left_brace: Place,
        /// The first arm.
        first: Box<ArmNode>,
        /// The arms behind it.
        rest: Vec<ArmNode>,
        /// `}`
        right_brace: Place,
    },
    /// `"bind" end ( end | "{" end { "," end } "}" ) ";"`
    Bind(BindNode),
}

/// `branch = [ ( "(" expr ")" [ "[" expr "]" ] | "[" expr "]" ) ":" ] stmt`
#[derive(Drop)]
#[cycle(activity)]
pub struct BranchNode {
    /// The guard and the weight.
    pub guard: Option<GuardNode>,
    /// The statement.
    pub statement: StatementNode,
}

/// `arm = ( "[" ranges "]" | "default" ) ":" stmt`
#[derive(Drop)]
#[cycle(activity)]
pub struct ArmNode {
    /// The values.
    pub label: ArmLabel,
    /// `:`
    pub colon: Place,
    /// The statement.
    pub statement: StatementNode,
}

/// The word of a block whose statements run side by side or in any order.
#[derive(Clone, Copy, Debug, PartialEq, Eq)]
pub enum TogetherWord {
    /// `parallel`
    Parallel,
    /// `schedule`
    Schedule,
}

/// What stands before the statement of a branch.
#[derive(Drop)]
pub enum GuardNode {
    /// `"(" expr ")" [ "[" expr "]" ] ":"`
    Condition {
        /// `(`
        left_parenthesis: Place,
        /// The guard.
        condition: ExprNode,
        /// `)`
        right_parenthesis: Place,
        /// The weight.
        weight: Option<WeightNode>,
        /// `:`
        colon: Place,
    },
    /// `"[" expr "]" ":"`
    Weight {
        /// The weight.
        weight: WeightNode,
        /// `:`
        colon: Place,
    },
}

/// `"[" expr "]"`
#[derive(Drop)]
pub struct WeightNode {
    /// `[`
    pub left_bracket: Place,
    /// The weight.
    pub expr: ExprNode,
    /// `]`
    pub right_bracket: Place,
}

/// What stands before the colon of an arm.
#[derive(Drop)]
pub enum ArmLabel {
    /// `"[" ranges "]"`
    Ranges {
        /// `[`
        left_bracket: Place,
        /// The ranges.
        ranges: RangesNode,
        /// `]`
        right_bracket: Place,
    },
    /// `default`
    Default(Place),
}

/// `join = "join_branch" "(" NAME { "," NAME } ")" | "join_none" | "join_select" "(" expr ")"`
#[derive(Drop)]
pub enum JoinNode {
    /// `"join_branch" "(" NAME { "," NAME } ")"`
    Branch {
        /// `join_branch`
        join_branch: Place,
        /// `(`
        left_parenthesis: Place,
        /// The labels.
        names: NamesNode,
        /// `)`
        right_parenthesis: Place,
    },
    /// `join_none`
    Nothing(Place),
    /// `"join_select" "(" expr ")"`
    Select {
        /// `join_select`
        join_select: Place,
        /// `(`
        left_parenthesis: Place,
        /// The number of branches.
        count: ExprNode,
        /// `)`
        right_parenthesis: Place,
    },
}

/// `with = ";" | "with" set`
#[derive(Drop)]
pub enum WithNode {
    /// `";"`
    Nothing(Place),
    /// `"with" set`
    Set {
        /// `with`
        with: Place,
        /// The constraints.
        set: ConstraintNode,
    },
}

/// `"bind" end ( end | "{" end { "," end } "}" ) ";"`
#[derive(Drop)]
pub struct BindNode {
    /// `bind`
    pub bind: Place,
    /// The first end.
    pub first: EndNode,
    /// The ends that it is bound to.
    pub others: OtherEnds,
    /// `;`
    pub semicolon: Place,
}

/// `end | "{" end { "," end } "}"`
#[derive(Drop)]
pub enum OtherEnds {
    /// One end.
    One(EndNode),
    /// Ends in braces.
    Several {
        /// `{`
        left_brace: Place,
        /// The first of them.
        first: EndNode,
        /// Those behind it.
        rest: Vec<NextEnd>,
        /// `}`
        right_brace: Place,
    },
}

/// `end = NAME "." NAME`
#[derive(Clone, Copy, Debug, PartialEq, Eq)]
pub struct EndNode {
    /// The handle's name.
    pub handle: Name,
    /// `.`
    pub dot: Place,
    /// The reference's name.
    pub name: Name,
}

/// `"," end`
#[derive(Clone, Copy, Debug, PartialEq, Eq)]
pub struct NextEnd {
    /// `,`
    pub comma: Place,
    /// The end.
    pub end: EndNode,
}
