//! Laws of the grammar: each function here does nothing, and its contract is a law.
ghost use Rattle.pst_ast.specs.Examples.{NestingIsLimited, OperatorsAreLimited, OperatorsGroup, ElseBelongsToNearest, UnitsEndWithEnd};
ghost use Rattle.pst_ast.specs.Laws.{OneTreeOfExpressions, AnswersAgree, ProductionsAreOpen, ClosingsClose, OpenFrontsAreViable, PartsAreRead, PartsAreBegun, ViableFrontsBegin};

/// Each alternative of a rule stands open as a whole: whatever proper trees its parts get, they
/// make a proper tree of the rule.
#[tactic(auto, using(crate::proofs::ProductionsOpen::productions_open))]
pub fn productions_are_open()
    ensures { ProductionsAreOpen }
{}

/// A front, and the closings of the parts that stand open behind it, are spelled by a proper tree.
#[tactic(auto, using(crate::proofs::Fronts::closings_close))]
pub fn closings_close()
    ensures { ClosingsClose }
{}

/// A front behind which parts of a rule stand open begins a tree of the rule.
#[tactic(auto, using(crate::proofs::Fronts::open_is_viable))]
pub fn open_fronts_are_viable()
    ensures { OpenFrontsAreViable }
{}

/// Where the first open part is read, the others stay open.
#[tactic(auto, using(crate::proofs::Fronts::part_is_read))]
pub fn parts_are_read()
    ensures { PartsAreRead }
{}

/// Where the first open part is begun, its own open parts stand before the others.
#[tactic(auto, using(crate::proofs::Fronts::part_is_begun))]
pub fn parts_are_begun()
    ensures { PartsAreBegun }
{}

/// What begins tokens that begin a tree begins that tree.
#[tactic(auto, using(crate::proofs::Fronts::viable_begins))]
pub fn viable_fronts_begin()
    ensures { ViableFrontsBegin }
{}

/// The 65th derivation in one another is the first that breaks the limit on nesting.
#[tactic(auto, using(crate::proofs::ExamplesHold::nesting_is_limited))]
pub fn nesting_is_limited()
    ensures { NestingIsLimited }
{}

/// The 257th operator of an outermost expression is the first that breaks the limit on operators.
#[tactic(auto, using(crate::proofs::ExamplesHold::operators_are_limited))]
pub fn operators_are_limited()
    ensures { OperatorsAreLimited }
{}

/// Trees whose operators group otherwise than by level and to the left are not proper.
#[tactic(auto, using(crate::proofs::ExamplesHold::operators_group))]
pub fn operators_group()
    ensures { OperatorsGroup }
{}

/// Trees whose `else` belongs to another `if` than the nearest are not proper.
#[tactic(auto, using(crate::proofs::ExamplesHold::else_belongs))]
pub fn else_belongs_to_nearest()
    ensures { ElseBelongsToNearest }
{}

/// A whole tree whose last token is not `End` is not proper.
#[tactic(auto, using(crate::proofs::ExamplesHold::units_end))]
pub fn units_end_with_end()
    ensures { UnitsEndWithEnd }
{}

/// At most one proper tree of each rule of expressions spells a list of tokens.
#[tactic(auto, using(crate::proofs::ExpressionAgain::one_tree_of_expressions))]
pub fn one_tree_of_expressions()
    ensures { OneTreeOfExpressions }
{}

/// Of the answers that a parser may give, a tree, an unexpected token or a token that is too deep,
/// only one fits, at one index and with one list of tokens.
#[tactic(auto, using(crate::proofs::Agree::answers_agree))]
pub fn answers_agree()
    ensures { AnswersAgree }
{}
