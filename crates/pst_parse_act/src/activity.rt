//! Statements of activities. A parser stands at a place, and `depth` derivations that count are open
//! at the tokens of its part; it answers the part and the place behind it. Behind a part that ends
//! with an `if` without `else` no `else` stands.
ghost use Rattle.std.specs.Prelude.{◌≤◌, ◌-◌, length};
ghost use Rattle.pst_ast.specs.ActivityView.{view_statement, view_core, view_branch, view_arm};
ghost use Rattle.pst_ast.specs.ActivityProper.{statement_ends_open, core_ends_open};
ghost use Rattle.pst_reading.specs.Reads.{Reads, ReadsOpen};
ghost use Rattle.pst_parse_statement.specs.ActivityFamilies.{sequence_family, together_family, branch_family, branches_family, select_family, repeated_family, if_family, arm_family, arms_family, match_family, core_family, named_family, plain_family, statement_family, statements_family, view_statements, view_branches, view_arms};

use pst_ast::{ArmNode, BranchNode, CoreNode, LabelNode, StatementNode, SyntaxFault, TogetherWord};
use pst_parse_expr::shared::outermost;
use pst_parse_member::keeping::both;
use pst_parse_part::times::{Times, read_times};
use pst_parse_statement::keeping::{
    alternative, arms_closed, branches_closed, closed, conditional, else_behind, first_arm,
    first_branch, guarded, joined, joined_closed, labeled, more_arms, more_branches,
    more_statements, other_arms, other_branches, repeated,
};
use pst_parse_statement::words::{empty, maybe_sequence_word, word_kind};
use pst_parse_step::labels::{arm_label, maybe_guard};
use pst_parse_step::parts::maybe_join;
use pst_parse_step::traversal::{bound_core, do_core, handle_core, with_part};
use pst_reading::{expect, expect_name, is, is_name};
use pst_token::{Kind, Token};
use std::alloc::Global;

// Statements one after another.
#[cycle(activity)]
fn sequence_core(
    alloc: Global,
    tokens: &[Token],
    at: usize,
    depth: u32,
) -> Result<(CoreNode, usize), SyntaxFault>
    requires inside { at ≤ length tokens.now }
    requires nesting { depth ≤ 65 }
    ensures { ReadsOpen view_core core_ends_open (sequence_family depth) tokens.now at at result }
{
    let (sequence, behind) = maybe_sequence_word(tokens, at, depth)?;
    let left_brace = expect(tokens, behind, Kind::LeftBrace, depth, 0)?;
    let (listed, after) = statements(alloc, tokens, behind + 1, depth)?;
    let closing = expect(tokens, after, Kind::RightBrace, depth, 0);
    let (statements, right_brace) = closed(listed, closing)?;
    let core = CoreNode::Sequence {
        sequence,
        left_brace,
        statements,
        right_brace,
    };
    Ok((core, after + 1))
}

// Statements side by side, or in any order.
#[cycle(activity)]
fn together_core(
    alloc: Global,
    tokens: &[Token],
    at: usize,
    depth: u32,
    word: TogetherWord,
) -> Result<(CoreNode, usize), SyntaxFault>
    requires inside { at ≤ length tokens.now }
    requires nesting { depth ≤ 65 }
    ensures { ReadsOpen view_core core_ends_open (together_family word depth) tokens.now at at result }
{
    let kind = word_kind(word);
    let place = expect(tokens, at, kind, depth, 0)?;
    let (form, behind) = maybe_join(alloc, tokens, at + 1, depth)?;
    let opening = expect(tokens, behind, Kind::LeftBrace, depth, 0);
    let (front, left_brace) = both(form, opening)?;
    let block = statements(alloc, tokens, behind + 1, depth);
    let (kept, (listed, after)) = joined(front, block)?;
    let closing = expect(tokens, after, Kind::RightBrace, depth, 0);
    let ((join, statements), right_brace) = joined_closed((kept, listed), closing)?;
    let core = CoreNode::Together {
        word,
        place,
        join,
        left_brace,
        statements,
        right_brace,
    };
    Ok((core, after + 1))
}

// A branch of `select`.
#[cycle(activity)]
fn branch(
    alloc: Global,
    tokens: &[Token],
    at: usize,
    depth: u32,
) -> Result<(BranchNode, usize), SyntaxFault>
    requires inside { at ≤ length tokens.now }
    requires nesting { depth ≤ 64 }
    requires behind { 1 ≤ at }
    ensures { Reads view_branch (branch_family depth) tokens.now (at - 1) at 1 result }
{
    let (asked, behind) = maybe_guard(alloc, tokens, at, depth)?;
    let chosen = statement(alloc, tokens, behind, depth + 1);
    let (guard, (statement, after)) = guarded(asked, chosen)?;
    Ok((BranchNode { guard, statement }, after))
}

// Branches up to a brace that closes.
#[cycle(activity)]
fn branches(
    alloc: Global,
    tokens: &[Token],
    at: usize,
    depth: u32,
) -> Result<(Vec<BranchNode>, usize), SyntaxFault>
    requires inside { at ≤ length tokens.now }
    requires nesting { depth ≤ 64 }
    requires behind { 1 ≤ at }
    ensures { Reads view_branches (branches_family depth) tokens.now (at - 1) at 0 result }
{
    let mut all = Vec::new(alloc);
    let mut place = at;
    'all: while !is(tokens, place, Kind::RightBrace) {
        let next = branch(alloc, tokens, place, depth);
        let (grown, after) = more_branches(all, next)?;
        all = grown;
        place = after;
    }
    Ok((all, place))
}

// One of several branches.
#[cycle(activity)]
fn select_core(
    alloc: Global,
    tokens: &[Token],
    at: usize,
    depth: u32,
) -> Result<(CoreNode, usize), SyntaxFault>
    requires inside { at ≤ length tokens.now }
    requires nesting { depth ≤ 65 }
    ensures { ReadsOpen view_core core_ends_open (select_family depth) tokens.now at at result }
{
    let select = expect(tokens, at, Kind::Select, depth, 0)?;
    let left_brace = expect(tokens, at + 1, Kind::LeftBrace, depth, 0)?;
    let one = branch(alloc, tokens, at + 2, depth);
    let (head, behind) = first_branch(alloc, one)?;
    let others = branches(alloc, tokens, behind, depth);
    let (kept, (listed, after)) = other_branches(head, others)?;
    let closing = expect(tokens, after, Kind::RightBrace, depth, 0);
    let ((first, rest), right_brace) = branches_closed((kept, listed), closing)?;
    let core = CoreNode::Select {
        select,
        left_brace,
        first,
        rest,
        right_brace,
    };
    Ok((core, after + 1))
}

// A statement that is repeated.
#[cycle(activity)]
fn repeat_core(
    alloc: Global,
    tokens: &[Token],
    at: usize,
    depth: u32,
) -> Result<(CoreNode, usize), SyntaxFault>
    requires inside { at ≤ length tokens.now }
    requires nesting { depth ≤ 65 }
    ensures { ReadsOpen view_core core_ends_open (repeated_family depth) tokens.now at at result }
{
    let repeat = expect(tokens, at, Kind::Repeat, depth, 0)?;
    let (counted, behind) = read_times(alloc, tokens, at + 1, depth)?;
    let turn = statement(alloc, tokens, behind, depth + 1);
    let (times, (statement, after)) = repeated(alloc, counted, turn)?;
    let Times {
        left_parenthesis,
        index,
        count,
        right_parenthesis,
    } = times;
    let core = CoreNode::Repeat {
        repeat,
        left_parenthesis,
        index,
        count,
        right_parenthesis,
        statement,
    };
    Ok((core, after))
}

// A condition with its statement, and another behind `else`.
#[cycle(activity)]
fn if_core(
    alloc: Global,
    tokens: &[Token],
    at: usize,
    depth: u32,
) -> Result<(CoreNode, usize), SyntaxFault>
    requires inside { at ≤ length tokens.now }
    requires nesting { depth ≤ 65 }
    ensures { ReadsOpen view_core core_ends_open (if_family depth) tokens.now at at result }
{
    let if_ = expect(tokens, at, Kind::If, depth, 0)?;
    let left_parenthesis = expect(tokens, at + 1, Kind::LeftParenthesis, depth, 0)?;
    let (asked, behind) = outermost(alloc, tokens, at + 2, depth)?;
    let closing = expect(tokens, behind, Kind::RightParenthesis, depth, 0);
    let (tested, right_parenthesis) = both(asked, closing)?;
    let first = statement(alloc, tokens, behind + 1, depth + 1);
    let (held, (done, after)) = conditional(alloc, tested, first)?;
    if !is(tokens, after, Kind::Else) {
        let only = CoreNode::If {
            if_,
            left_parenthesis,
            condition: held,
            right_parenthesis,
            then: done,
        };
        return Ok((only, after));
    }
    let word = expect(tokens, after, Kind::Else, depth, 0);
    let (front, else_) = else_behind((held, done), word)?;
    let second = statement(alloc, tokens, after + 1, depth + 1);
    let ((condition, then), (otherwise, end)) = alternative(alloc, front, second)?;
    let whole = CoreNode::IfElse {
        if_,
        left_parenthesis,
        condition,
        right_parenthesis,
        then,
        else_,
        otherwise,
    };
    Ok((whole, end))
}

// An arm of `match`.
#[cycle(activity)]
fn arm(
    alloc: Global,
    tokens: &[Token],
    at: usize,
    depth: u32,
) -> Result<(ArmNode, usize), SyntaxFault>
    requires inside { at ≤ length tokens.now }
    requires nesting { depth ≤ 64 }
    ensures { Reads view_arm (arm_family depth) tokens.now at at 1 result }
{
    let (read, behind) = arm_label(alloc, tokens, at, depth)?;
    let mark = expect(tokens, behind, Kind::Colon, depth, 0);
    let (kept, colon) = both(read, mark)?;
    let chosen = statement(alloc, tokens, behind + 1, depth + 1);
    let (label, (statement, after)) = labeled(kept, chosen)?;
    let arm = ArmNode {
        label,
        colon,
        statement,
    };
    Ok((arm, after))
}

// Arms up to a brace that closes.
#[cycle(activity)]
fn arms(
    alloc: Global,
    tokens: &[Token],
    at: usize,
    depth: u32,
) -> Result<(Vec<ArmNode>, usize), SyntaxFault>
    requires inside { at ≤ length tokens.now }
    requires nesting { depth ≤ 64 }
    requires behind { 1 ≤ at }
    ensures { Reads view_arms (arms_family depth) tokens.now (at - 1) at 0 result }
{
    let mut all = Vec::new(alloc);
    let mut place = at;
    'all: while !is(tokens, place, Kind::RightBrace) {
        let next = arm(alloc, tokens, place, depth);
        let (grown, after) = more_arms(all, next)?;
        all = grown;
        place = after;
    }
    Ok((all, place))
}

// The arm that a value is in.
#[cycle(activity)]
fn match_core(
    alloc: Global,
    tokens: &[Token],
    at: usize,
    depth: u32,
) -> Result<(CoreNode, usize), SyntaxFault>
    requires inside { at ≤ length tokens.now }
    requires nesting { depth ≤ 65 }
    ensures { ReadsOpen view_core core_ends_open (match_family depth) tokens.now at at result }
{
    let match_ = expect(tokens, at, Kind::Match, depth, 0)?;
    let left_parenthesis = expect(tokens, at + 1, Kind::LeftParenthesis, depth, 0)?;
    let (asked, behind) = outermost(alloc, tokens, at + 2, depth)?;
    let closing = expect(tokens, behind, Kind::RightParenthesis, depth, 0);
    let (tested, right_parenthesis) = both(asked, closing)?;
    let opening = expect(tokens, behind + 1, Kind::LeftBrace, depth, 0);
    let (matched, left_brace) = both(tested, opening)?;
    let one = arm(alloc, tokens, behind + 2, depth);
    let (held, (arm, after)) = first_arm(alloc, matched, one)?;
    let others = arms(alloc, tokens, after, depth);
    let (front, (listed, end)) = other_arms((held, arm), others)?;
    let last = expect(tokens, end, Kind::RightBrace, depth, 0);
    let (((expr, first), rest), right_brace) = arms_closed((front, listed), last)?;
    let core = CoreNode::Match {
        match_,
        left_parenthesis,
        expr,
        right_parenthesis,
        left_brace,
        first,
        rest,
        right_brace,
    };
    Ok((core, end + 1))
}

// A statement without its label.
#[cycle(activity)]
fn unlabeled(
    alloc: Global,
    tokens: &[Token],
    at: usize,
    depth: u32,
) -> Result<(CoreNode, usize), SyntaxFault>
    requires inside { at ≤ length tokens.now }
    requires nesting { depth ≤ 65 }
    ensures { ReadsOpen view_core core_ends_open (core_family depth) tokens.now at at result }
{
    if is(tokens, at, Kind::Do) {
        return do_core(alloc, tokens, at, depth);
    }
    if is(tokens, at, Kind::LeftBrace) {
        return sequence_core(alloc, tokens, at, depth);
    }
    if is(tokens, at, Kind::Sequence) {
        return sequence_core(alloc, tokens, at, depth);
    }
    if is(tokens, at, Kind::Parallel) {
        return together_core(alloc, tokens, at, depth, TogetherWord::Parallel);
    }
    if is(tokens, at, Kind::Schedule) {
        return together_core(alloc, tokens, at, depth, TogetherWord::Schedule);
    }
    if is(tokens, at, Kind::Select) {
        return select_core(alloc, tokens, at, depth);
    }
    if is(tokens, at, Kind::Repeat) {
        return repeat_core(alloc, tokens, at, depth);
    }
    if is(tokens, at, Kind::If) {
        return if_core(alloc, tokens, at, depth);
    }
    if is(tokens, at, Kind::Match) {
        return match_core(alloc, tokens, at, depth);
    }
    if is(tokens, at, Kind::Bind) {
        return bound_core(alloc, tokens, at, depth);
    }
    handle_core(alloc, tokens, at, depth)
}

// A statement that begins with a name: a label where a colon comes next, and else a handle.
#[cycle(activity)]
fn named(
    alloc: Global,
    tokens: &[Token],
    at: usize,
    depth: u32,
) -> Result<(StatementNode, usize), SyntaxFault>
    requires inside { at ≤ length tokens.now }
    requires nesting { depth ≤ 65 }
    ensures { ReadsOpen view_statement statement_ends_open (named_family depth) tokens.now at at result }
{
    let name = expect_name(tokens, at, depth, 0)?;
    if !is(tokens, at + 1, Kind::Colon) {
        let (with, behind) = with_part(alloc, tokens, at + 1, depth)?;
        return Ok((
            StatementNode::Plain(CoreNode::Handle { name, with }),
            behind,
        ));
    }
    let colon = expect(tokens, at + 1, Kind::Colon, depth, 0)?;
    let (core, after) = unlabeled(alloc, tokens, at + 2, depth)?;
    let label = LabelNode { name, colon };
    Ok((StatementNode::Labeled { label, core }, after))
}

// A statement that begins otherwise.
#[cycle(activity)]
fn plain(
    alloc: Global,
    tokens: &[Token],
    at: usize,
    depth: u32,
) -> Result<(StatementNode, usize), SyntaxFault>
    requires inside { at ≤ length tokens.now }
    requires nesting { depth ≤ 65 }
    ensures { ReadsOpen view_statement statement_ends_open (plain_family depth) tokens.now at at result }
{
    let (core, after) = unlabeled(alloc, tokens, at, depth)?;
    Ok((StatementNode::Plain(core), after))
}

// One statement.
#[cycle(activity)]
fn statement(
    alloc: Global,
    tokens: &[Token],
    at: usize,
    depth: u32,
) -> Result<(StatementNode, usize), SyntaxFault>
    requires inside { at ≤ length tokens.now }
    requires nesting { depth ≤ 65 }
    ensures { ReadsOpen view_statement statement_ends_open (statement_family depth) tokens.now at at result }
{
    if is(tokens, at, Kind::Semicolon) {
        return empty(tokens, at, depth);
    }
    if is_name(tokens, at) {
        return named(alloc, tokens, at, depth);
    }
    plain(alloc, tokens, at, depth)
}

// Statements up to a brace that closes.
#[cycle(activity)]
pub fn statements(
    alloc: Global,
    tokens: &[Token],
    at: usize,
    depth: u32,
) -> Result<(Vec<StatementNode>, usize), SyntaxFault>
    requires inside { at ≤ length tokens.now }
    requires nesting { depth ≤ 64 }
    requires behind { 1 ≤ at }
    ensures { Reads view_statements (statements_family depth) tokens.now (at - 1) at 0 result }
{
    let mut all = Vec::new(alloc);
    let mut place = at;
    'all: while !is(tokens, place, Kind::RightBrace) {
        let next = statement(alloc, tokens, place, depth + 1);
        let (grown, after) = more_statements(all, next)?;
        all = grown;
        place = after;
    }
    Ok((all, place))
}
