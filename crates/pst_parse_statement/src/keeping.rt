//! What parsers of statements keep while they read on. Each function takes what was read before and
//! the result of what was read behind it, and gives both. Where that result is a fault, what was read
//! before is let go here, so that no parser has a statement to let go.
ghost use Rattle.pst_ast.specs.declared.fault.SyntaxFault.TheVariants.{NoMemory};
ghost use Rattle.std.specs.Prelude.{◌≡◌, ◌⊎◌, ◌++◌, ◌∷◌, [], IfOk, IfErr, Ok, Err};

use pst_ast::{
    ArmLabel, ArmNode, BranchNode, ExprNode, GuardNode, JoinNode, StatementNode, SyntaxFault,
};
use pst_base::Place;
use pst_parse_member::keeping::both;
use pst_parse_part::times::Times;
use pst_reading::{boxed, push};
use std::alloc::Global;

// A value, and what was read behind it, on the heap, with the place behind that.
fn boxed_behind<A: Drop, T: Drop>(
    alloc: Global,
    value: A,
    next: Result<(T, usize), SyntaxFault>,
) -> Result<(A, (Box<T>, usize)), SyntaxFault>
    ensures ok { IfOk result (λ pair. (pair.0 ≡ value) × (next ≡ Ok (pair.1.0.value, pair.1.1))) }
    ensures err { IfErr result (λ fault. (fault ≡ NoMemory) ⊎ (next ≡ Err fault)) }
{
    let (kept, (read, after)) = both(value, next)?;
    let heap = boxed(alloc, read);
    let (front, held) = both(kept, heap)?;
    Ok((front, (held, after)))
}

// A list with what was read behind it as one item more, and the place behind that.
fn one_more<T: Drop>(
    items: Vec<T>,
    next: Result<(T, usize), SyntaxFault>,
) -> Result<(Vec<T>, usize), SyntaxFault>
    ensures ok { IfOk result (λ grown. (item : T) × (next ≡ Ok (item, grown.1)) × (grown.0.items ≡ items.items ++ item ∷ [])) }
    ensures err { IfErr result (λ fault. (fault ≡ NoMemory) ⊎ (next ≡ Err fault)) }
{
    let (mut grown, (read, after)) = both(items, next)?;
    push(&mut grown, read)?;
    Ok((grown, after))
}

/// Statements and one more, and the place behind it.
pub fn more_statements(
    statements: Vec<StatementNode>,
    next: Result<(StatementNode, usize), SyntaxFault>,
) -> Result<(Vec<StatementNode>, usize), SyntaxFault>
    ensures ok { IfOk result (λ grown. (item : StatementNode) × (next ≡ Ok (item, grown.1)) × (grown.0.items ≡ statements.items ++ item ∷ [])) }
    ensures err { IfErr result (λ fault. (fault ≡ NoMemory) ⊎ (next ≡ Err fault)) }
{
    one_more(statements, next)
}

/// Branches and one more, and the place behind it.
pub fn more_branches(
    branches: Vec<BranchNode>,
    next: Result<(BranchNode, usize), SyntaxFault>,
) -> Result<(Vec<BranchNode>, usize), SyntaxFault>
    ensures ok { IfOk result (λ grown. (item : BranchNode) × (next ≡ Ok (item, grown.1)) × (grown.0.items ≡ branches.items ++ item ∷ [])) }
    ensures err { IfErr result (λ fault. (fault ≡ NoMemory) ⊎ (next ≡ Err fault)) }
{
    one_more(branches, next)
}

/// Arms and one more, and the place behind it.
pub fn more_arms(
    arms: Vec<ArmNode>,
    next: Result<(ArmNode, usize), SyntaxFault>,
) -> Result<(Vec<ArmNode>, usize), SyntaxFault>
    ensures ok { IfOk result (λ grown. (item : ArmNode) × (next ≡ Ok (item, grown.1)) × (grown.0.items ≡ arms.items ++ item ∷ [])) }
    ensures err { IfErr result (λ fault. (fault ≡ NoMemory) ⊎ (next ≡ Err fault)) }
{
    one_more(arms, next)
}

/// Statements, and the brace behind them.
pub fn closed(
    statements: Vec<StatementNode>,
    brace: Result<Place, SyntaxFault>,
) -> Result<(Vec<StatementNode>, Place), SyntaxFault>
    ensures ok { IfOk result (λ pair. (pair.0 ≡ statements) × (brace ≡ Ok pair.1)) }
    ensures err { IfErr result (λ fault. brace ≡ Err fault) }
{
    both(statements, brace)
}

/// How branches join, the statements behind that, and the place behind them.
pub fn joined(
    join: Option<JoinNode>,
    block: Result<(Vec<StatementNode>, usize), SyntaxFault>,
) -> Result<(Option<JoinNode>, (Vec<StatementNode>, usize)), SyntaxFault>
    ensures ok { IfOk result (λ pair. (pair.0 ≡ join) × (block ≡ Ok pair.1)) }
    ensures err { IfErr result (λ fault. block ≡ Err fault) }
{
    both(join, block)
}

/// How branches join, the statements, and the brace behind them.
pub fn joined_closed(
    block: (Option<JoinNode>, Vec<StatementNode>),
    brace: Result<Place, SyntaxFault>,
) -> Result<((Option<JoinNode>, Vec<StatementNode>), Place), SyntaxFault>
    ensures ok { IfOk result (λ pair. (pair.0 ≡ block) × (brace ≡ Ok pair.1)) }
    ensures err { IfErr result (λ fault. brace ≡ Err fault) }
{
    both(block, brace)
}

/// What stands before the statement of a branch, the statement, and the place behind it.
pub fn guarded(
    guard: Option<GuardNode>,
    chosen: Result<(StatementNode, usize), SyntaxFault>,
) -> Result<(Option<GuardNode>, (StatementNode, usize)), SyntaxFault>
    ensures ok { IfOk result (λ pair. (pair.0 ≡ guard) × (chosen ≡ Ok pair.1)) }
    ensures err { IfErr result (λ fault. chosen ≡ Err fault) }
{
    both(guard, chosen)
}

/// A branch on the heap, and the place behind it.
pub fn first_branch(
    alloc: Global,
    branch: Result<(BranchNode, usize), SyntaxFault>,
) -> Result<(Box<BranchNode>, usize), SyntaxFault>
    ensures ok { IfOk result (λ pair. branch ≡ Ok (pair.0.value, pair.1)) }
    ensures err { IfErr result (λ fault. (fault ≡ NoMemory) ⊎ (branch ≡ Err fault)) }
{
    let (read, after) = branch?;
    let held = boxed(alloc, read)?;
    Ok((held, after))
}

/// The first branch, the others, and the place behind them.
pub fn other_branches(
    first: Box<BranchNode>,
    others: Result<(Vec<BranchNode>, usize), SyntaxFault>,
) -> Result<(Box<BranchNode>, (Vec<BranchNode>, usize)), SyntaxFault>
    ensures ok { IfOk result (λ pair. (pair.0 ≡ first) × (others ≡ Ok pair.1)) }
    ensures err { IfErr result (λ fault. others ≡ Err fault) }
{
    both(first, others)
}

/// All branches, and the brace behind them.
pub fn branches_closed(
    branches: (Box<BranchNode>, Vec<BranchNode>),
    brace: Result<Place, SyntaxFault>,
) -> Result<((Box<BranchNode>, Vec<BranchNode>), Place), SyntaxFault>
    ensures ok { IfOk result (λ pair. (pair.0 ≡ branches) × (brace ≡ Ok pair.1)) }
    ensures err { IfErr result (λ fault. brace ≡ Err fault) }
{
    both(branches, brace)
}

/// How often a statement is repeated, the statement, and the place behind it.
pub fn repeated(
    alloc: Global,
    times: Times,
    statement: Result<(StatementNode, usize), SyntaxFault>,
) -> Result<(Times, (Box<StatementNode>, usize)), SyntaxFault>
    ensures ok { IfOk result (λ pair. (pair.0 ≡ times) × (statement ≡ Ok (pair.1.0.value, pair.1.1))) }
    ensures err { IfErr result (λ fault. (fault ≡ NoMemory) ⊎ (statement ≡ Err fault)) }
{
    boxed_behind(alloc, times, statement)
}

/// A condition, its statement, and the place behind it.
pub fn conditional(
    alloc: Global,
    condition: ExprNode,
    statement: Result<(StatementNode, usize), SyntaxFault>,
) -> Result<(ExprNode, (Box<StatementNode>, usize)), SyntaxFault>
    ensures ok { IfOk result (λ pair. (pair.0 ≡ condition) × (statement ≡ Ok (pair.1.0.value, pair.1.1))) }
    ensures err { IfErr result (λ fault. (fault ≡ NoMemory) ⊎ (statement ≡ Err fault)) }
{
    boxed_behind(alloc, condition, statement)
}

/// A condition with its statement, and the word `else` behind them.
pub fn else_behind(
    front: (ExprNode, Box<StatementNode>),
    word: Result<Place, SyntaxFault>,
) -> Result<((ExprNode, Box<StatementNode>), Place), SyntaxFault>
    ensures ok { IfOk result (λ pair. (pair.0 ≡ front) × (word ≡ Ok pair.1)) }
    ensures err { IfErr result (λ fault. word ≡ Err fault) }
{
    both(front, word)
}

/// A condition with its statement, the statement behind `else`, and the place behind it.
pub fn alternative(
    alloc: Global,
    front: (ExprNode, Box<StatementNode>),
    statement: Result<(StatementNode, usize), SyntaxFault>,
) -> Result<((ExprNode, Box<StatementNode>), (Box<StatementNode>, usize)), SyntaxFault>
    ensures ok { IfOk result (λ pair. (pair.0 ≡ front) × (statement ≡ Ok (pair.1.0.value, pair.1.1))) }
    ensures err { IfErr result (λ fault. (fault ≡ NoMemory) ⊎ (statement ≡ Err fault)) }
{
    boxed_behind(alloc, front, statement)
}

/// What stands before the colon of an arm, its statement, and the place behind it.
pub fn labeled(
    label: ArmLabel,
    chosen: Result<(StatementNode, usize), SyntaxFault>,
) -> Result<(ArmLabel, (StatementNode, usize)), SyntaxFault>
    ensures ok { IfOk result (λ pair. (pair.0 ≡ label) × (chosen ≡ Ok pair.1)) }
    ensures err { IfErr result (λ fault. chosen ≡ Err fault) }
{
    both(label, chosen)
}

/// The value that is matched, the first arm, and the place behind it.
pub fn first_arm(
    alloc: Global,
    value: ExprNode,
    arm: Result<(ArmNode, usize), SyntaxFault>,
) -> Result<(ExprNode, (Box<ArmNode>, usize)), SyntaxFault>
    ensures ok { IfOk result (λ pair. (pair.0 ≡ value) × (arm ≡ Ok (pair.1.0.value, pair.1.1))) }
    ensures err { IfErr result (λ fault. (fault ≡ NoMemory) ⊎ (arm ≡ Err fault)) }
{
    boxed_behind(alloc, value, arm)
}

/// The value that is matched with the first arm, the other arms, and the place behind them.
pub fn other_arms(
    front: (ExprNode, Box<ArmNode>),
    others: Result<(Vec<ArmNode>, usize), SyntaxFault>,
) -> Result<((ExprNode, Box<ArmNode>), (Vec<ArmNode>, usize)), SyntaxFault>
    ensures ok { IfOk result (λ pair. (pair.0 ≡ front) × (others ≡ Ok pair.1)) }
    ensures err { IfErr result (λ fault. others ≡ Err fault) }
{
    both(front, others)
}

/// The value that is matched with all arms, and the brace behind them.
pub fn arms_closed(
    arms: ((ExprNode, Box<ArmNode>), Vec<ArmNode>),
    brace: Result<Place, SyntaxFault>,
) -> Result<(((ExprNode, Box<ArmNode>), Vec<ArmNode>), Place), SyntaxFault>
    ensures ok { IfOk result (λ pair. (pair.0 ≡ arms) × (brace ≡ Ok pair.1)) }
    ensures err { IfErr result (λ fault. brace ≡ Err fault) }
{
    both(arms, brace)
}
