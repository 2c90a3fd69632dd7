//! The tokens of activities.
ghost use Rattle.std.specs.Prelude.{◌≡◌, ◌++◌, OnOk, map};
ghost use Rattle.std.specs.List.{flat_map};
ghost use Rattle.std.specs.Option.{option_map};
ghost use Rattle.pst_ast.specs.Marks.{spell_option};
ghost use Rattle.pst_ast.specs.ActivityView.{view_activity, view_arm, view_arm_label, view_bind, view_branch, view_core, view_guard, view_join, view_other_ends, view_statement, view_weight, view_with};
ghost use Rattle.pst_ast.specs.ActivitySpelling.{spell_activity, spell_arm, spell_arm_label, spell_bind, spell_branch, spell_core, spell_end, spell_guard, spell_join, spell_next_end, spell_other_ends, spell_statement, spell_weight, spell_with};

use pst_ast::{
    ActivityNode, ArmLabel, ArmNode, BindNode, BranchNode, CoreNode, EndNode, GuardNode, JoinNode,
    NextEnd, OtherEnds, StatementNode, WeightNode, WithNode,
};
use pst_base::NoMemory;
use pst_spell_parts::marks::{kind_of_together_word, push_mark, push_name, push_optional_mark};
use pst_spell_parts::spell_constraint::add_constraint;
use pst_spell_parts::spell_expression::{add_expr, add_ranges};
use pst_spell_parts::spell_shared::{
    add_label, add_names, add_repeat, add_type_name, add_word_and_expr,
};
use pst_token::{Kind, Token};

/// Adds the tokens of an activity: `"activity" "{" { stmt } "}"`.
pub fn add_activity(tokens: &mut Vec<Token>, activity: &ActivityNode) -> Result<(), NoMemory>
    ensures { OnOk result (tokens.new.items ≡ tokens.old.items ++ spell_activity (view_activity activity.now)) }
{
    push_mark(tokens, Kind::Activity, activity.activity)?;
    push_mark(tokens, Kind::LeftBrace, activity.left_brace)?;
    add_statements(tokens, activity.statements.as_slice())?;
    push_mark(tokens, Kind::RightBrace, activity.right_brace)
}

// stmt = ";" | [ NAME ":" ] core
#[cycle(activity_spelling)]
fn add_statement(tokens: &mut Vec<Token>, statement: &StatementNode) -> Result<(), NoMemory>
    ensures { OnOk result (tokens.new.items ≡ tokens.old.items ++ spell_statement (view_statement statement.now)) }
{
    match statement {
        StatementNode::Empty(place) => push_mark(tokens, Kind::Semicolon, *place),
        StatementNode::Labeled { label, core } => {
            add_label(tokens, label)?;
            add_core(tokens, core)
        }
        StatementNode::Plain(core) => add_core(tokens, core),
    }
}

// Adds the tokens of each in order.
#[cycle(activity_spelling)]
fn add_statements(tokens: &mut Vec<Token>, statements: &[StatementNode]) -> Result<(), NoMemory>
    ensures { OnOk result (tokens.new.items ≡ tokens.old.items ++ flat_map spell_statement (map view_statement statements.now)) }
{
    for statement in statements {
        add_statement(tokens, statement)?;
    }
    Ok(())
}

// core
#[cycle(activity_spelling)]
fn add_core(tokens: &mut Vec<Token>, core: &CoreNode) -> Result<(), NoMemory>
    ensures { OnOk result (tokens.new.items ≡ tokens.old.items ++ spell_core (view_core core.now)) }
{
    match core {
        CoreNode::Do { do_, name, with } => {
            push_mark(tokens, Kind::Do, *do_)?;
            add_type_name(tokens, name)?;
            add_with(tokens, with)
        }
        CoreNode::Handle { name, with } => {
            push_name(tokens, *name)?;
            add_with(tokens, with)
        }
        CoreNode::Sequence {
            sequence,
            left_brace,
            statements,
            right_brace,
        } => {
            push_optional_mark(tokens, Kind::Sequence, *sequence)?;
            push_mark(tokens, Kind::LeftBrace, *left_brace)?;
            add_statements(tokens, statements.as_slice())?;
            push_mark(tokens, Kind::RightBrace, *right_brace)
        }
        CoreNode::Together {
            word,
            place,
            join,
            left_brace,
            statements,
            right_brace,
        } => {
            push_mark(tokens, kind_of_together_word(*word), *place)?;
            add_optional_join(tokens, join)?;
            push_mark(tokens, Kind::LeftBrace, *left_brace)?;
            add_statements(tokens, statements.as_slice())?;
            push_mark(tokens, Kind::RightBrace, *right_brace)
        }
        CoreNode::Select {
            select,
            left_brace,
            first,
            rest,
            right_brace,
        } => {
            push_mark(tokens, Kind::Select, *select)?;
            push_mark(tokens, Kind::LeftBrace, *left_brace)?;
            add_branch(tokens, first)?;
            add_branches(tokens, rest.as_slice())?;
            push_mark(tokens, Kind::RightBrace, *right_brace)
        }
        CoreNode::Repeat {
            repeat,
            left_parenthesis,
            index,
            count,
            right_parenthesis,
            statement,
        } => {
            add_repeat(
                tokens,
                *repeat,
                *left_parenthesis,
                index,
                count,
                *right_parenthesis,
            )?;
            add_statement(tokens, statement)
        }
        CoreNode::If {
            if_,
            left_parenthesis,
            condition,
            right_parenthesis,
            then,
        } => {
            add_word_and_expr(
                tokens,
                Kind::If,
                *if_,
                *left_parenthesis,
                condition,
                *right_parenthesis,
            )?;
            add_statement(tokens, then)
        }
        CoreNode::IfElse {
            if_,
            left_parenthesis,
            condition,
            right_parenthesis,
            then,
            else_,
            otherwise,
        } => {
            add_word_and_expr(
                tokens,
                Kind::If,
                *if_,
                *left_parenthesis,
                condition,
                *right_parenthesis,
            )?;
            add_statement(tokens, then)?;
            push_mark(tokens, Kind::Else, *else_)?;
            add_statement(tokens, otherwise)
        }
        CoreNode::Match {
            match_,
            left_parenthesis,
            expr,
            right_parenthesis,
            left_brace,
            first,
            rest,
            right_brace,
        } => {
            add_word_and_expr(
                tokens,
                Kind::Match,
                *match_,
                *left_parenthesis,
                expr,
                *right_parenthesis,
            )?;
            push_mark(tokens, Kind::LeftBrace, *left_brace)?;
            add_arm(tokens, first)?;
            add_arms(tokens, rest.as_slice())?;
            push_mark(tokens, Kind::RightBrace, *right_brace)
        }
        CoreNode::Bind(bind) => add_bind(tokens, bind),
    }
}

// branch = [ ( "(" expr ")" [ "[" expr "]" ] | "[" expr "]" ) ":" ] stmt
#[cycle(activity_spelling)]
fn add_branch(tokens: &mut Vec<Token>, branch: &BranchNode) -> Result<(), NoMemory>
    ensures { OnOk result (tokens.new.items ≡ tokens.old.items ++ spell_branch (view_branch branch.now)) }
{
    add_optional_guard(tokens, &branch.guard)?;
    add_statement(tokens, &branch.statement)
}

// Adds the tokens of each in order.
#[cycle(activity_spelling)]
fn add_branches(tokens: &mut Vec<Token>, branches: &[BranchNode]) -> Result<(), NoMemory>
    ensures { OnOk result (tokens.new.items ≡ tokens.old.items ++ flat_map spell_branch (map view_branch branches.now)) }
{
    for branch in branches {
        add_branch(tokens, branch)?;
    }
    Ok(())
}

// arm = ( "[" ranges "]" | "default" ) ":" stmt
#[cycle(activity_spelling)]
fn add_arm(tokens: &mut Vec<Token>, arm: &ArmNode) -> Result<(), NoMemory>
    ensures { OnOk result (tokens.new.items ≡ tokens.old.items ++ spell_arm (view_arm arm.now)) }
{
    add_arm_label(tokens, &arm.label)?;
    push_mark(tokens, Kind::Colon, arm.colon)?;
    add_statement(tokens, &arm.statement)
}

// Adds the tokens of each in order.
#[cycle(activity_spelling)]
fn add_arms(tokens: &mut Vec<Token>, arms: &[ArmNode]) -> Result<(), NoMemory>
    ensures { OnOk result (tokens.new.items ≡ tokens.old.items ++ flat_map spell_arm (map view_arm arms.now)) }
{
    for arm in arms {
        add_arm(tokens, arm)?;
    }
    Ok(())
}

// What stands before the statement of a branch.
fn add_guard(tokens: &mut Vec<Token>, guard: &GuardNode) -> Result<(), NoMemory>
    ensures { OnOk result (tokens.new.items ≡ tokens.old.items ++ spell_guard (view_guard guard.now)) }
{
    match guard {
        GuardNode::Condition {
            left_parenthesis,
            condition,
            right_parenthesis,
            weight,
            colon,
        } => {
            push_mark(tokens, Kind::LeftParenthesis, *left_parenthesis)?;
            add_expr(tokens, condition)?;
            push_mark(tokens, Kind::RightParenthesis, *right_parenthesis)?;
            add_optional_weight(tokens, weight)?;
            push_mark(tokens, Kind::Colon, *colon)
        }
        GuardNode::Weight { weight, colon } => {
            add_weight(tokens, weight)?;
            push_mark(tokens, Kind::Colon, *colon)
        }
    }
}

// Adds the tokens of a part that may be left out.
fn add_optional_guard(tokens: &mut Vec<Token>, part: &Option<GuardNode>) -> Result<(), NoMemory>
    ensures { OnOk result (tokens.new.items ≡ tokens.old.items ++ spell_option spell_guard (option_map view_guard part.now)) }
{
    match part {
        None => Ok(()),
        Some(part) => add_guard(tokens, part),
    }
}

// "[" expr "]"
fn add_weight(tokens: &mut Vec<Token>, weight: &WeightNode) -> Result<(), NoMemory>
    ensures { OnOk result (tokens.new.items ≡ tokens.old.items ++ spell_weight (view_weight weight.now)) }
{
    push_mark(tokens, Kind::LeftBracket, weight.left_bracket)?;
    add_expr(tokens, &weight.expr)?;
    push_mark(tokens, Kind::RightBracket, weight.right_bracket)
}

// Adds the tokens of a part that may be left out.
fn add_optional_weight(tokens: &mut Vec<Token>, part: &Option<WeightNode>) -> Result<(), NoMemory>
    ensures { OnOk result (tokens.new.items ≡ tokens.old.items ++ spell_option spell_weight (option_map view_weight part.now)) }
{
    match part {
        None => Ok(()),
        Some(part) => add_weight(tokens, part),
    }
}

// What stands before the colon of an arm.
fn add_arm_label(tokens: &mut Vec<Token>, label: &ArmLabel) -> Result<(), NoMemory>
    ensures { OnOk result (tokens.new.items ≡ tokens.old.items ++ spell_arm_label (view_arm_label label.now)) }
{
    match label {
        ArmLabel::Ranges {
            left_bracket,
            ranges,
            right_bracket,
        } => {
            push_mark(tokens, Kind::LeftBracket, *left_bracket)?;
            add_ranges(tokens, ranges)?;
            push_mark(tokens, Kind::RightBracket, *right_bracket)
        }
        ArmLabel::Default(place) => push_mark(tokens, Kind::Default, *place),
    }
}

// join = "join_branch" "(" NAME { "," NAME } ")" | "join_none" | "join_select" "(" expr ")"
fn add_join(tokens: &mut Vec<Token>, join: &JoinNode) -> Result<(), NoMemory>
    ensures { OnOk result (tokens.new.items ≡ tokens.old.items ++ spell_join (view_join join.now)) }
{
    match join {
        JoinNode::Branch {
            join_branch,
            left_parenthesis,
            names,
            right_parenthesis,
        } => {
            push_mark(tokens, Kind::JoinBranch, *join_branch)?;
            push_mark(tokens, Kind::LeftParenthesis, *left_parenthesis)?;
            add_names(tokens, names)?;
            push_mark(tokens, Kind::RightParenthesis, *right_parenthesis)
        }
        JoinNode::Nothing(place) => push_mark(tokens, Kind::JoinNone, *place),
        JoinNode::Select {
            join_select,
            left_parenthesis,
            count,
            right_parenthesis,
        } => {
            add_word_and_expr(
                tokens,
                Kind::JoinSelect,
                *join_select,
                *left_parenthesis,
                count,
                *right_parenthesis,
            )
        }
    }
}

// Adds the tokens of a part that may be left out.
fn add_optional_join(tokens: &mut Vec<Token>, part: &Option<JoinNode>) -> Result<(), NoMemory>
    ensures { OnOk result (tokens.new.items ≡ tokens.old.items ++ spell_option spell_join (option_map view_join part.now)) }
{
    match part {
        None => Ok(()),
        Some(part) => add_join(tokens, part),
    }
}

// with = ";" | "with" set
fn add_with(tokens: &mut Vec<Token>, with: &WithNode) -> Result<(), NoMemory>
    ensures { OnOk result (tokens.new.items ≡ tokens.old.items ++ spell_with (view_with with.now)) }
{
    match with {
        WithNode::Nothing(place) => push_mark(tokens, Kind::Semicolon, *place),
        WithNode::Set { with, set } => {
            push_mark(tokens, Kind::With, *with)?;
            add_constraint(tokens, set)
        }
    }
}

// "bind" end ( end | "{" end { "," end } "}" ) ";"
fn add_bind(tokens: &mut Vec<Token>, bind: &BindNode) -> Result<(), NoMemory>
    ensures { OnOk result (tokens.new.items ≡ tokens.old.items ++ spell_bind (view_bind bind.now)) }
{
    push_mark(tokens, Kind::Bind, bind.bind)?;
    add_end(tokens, &bind.first)?;
    add_other_ends(tokens, &bind.others)?;
    push_mark(tokens, Kind::Semicolon, bind.semicolon)
}

// end | "{" end { "," end } "}"
fn add_other_ends(tokens: &mut Vec<Token>, others: &OtherEnds) -> Result<(), NoMemory>
    ensures { OnOk result (tokens.new.items ≡ tokens.old.items ++ spell_other_ends (view_other_ends others.now)) }
{
    match others {
        OtherEnds::One(end) => add_end(tokens, end),
        OtherEnds::Several {
            left_brace,
            first,
            rest,
            right_brace,
        } => {
            push_mark(tokens, Kind::LeftBrace, *left_brace)?;
            add_end(tokens, first)?;
            add_next_ends(tokens, rest.as_slice())?;
            push_mark(tokens, Kind::RightBrace, *right_brace)
        }
    }
}

// end = NAME "." NAME
fn add_end(tokens: &mut Vec<Token>, end_node: &EndNode) -> Result<(), NoMemory>
    ensures { OnOk result (tokens.new.items ≡ tokens.old.items ++ spell_end end_node.now) }
{
    push_name(tokens, end_node.handle)?;
    push_mark(tokens, Kind::Dot, end_node.dot)?;
    push_name(tokens, end_node.name)
}

// "," end
fn add_next_end(tokens: &mut Vec<Token>, next: &NextEnd) -> Result<(), NoMemory>
    ensures { OnOk result (tokens.new.items ≡ tokens.old.items ++ spell_next_end next.now) }
{
    push_mark(tokens, Kind::Comma, next.comma)?;
    add_end(tokens, &next.end)
}

// Adds the tokens of each in order.
fn add_next_ends(tokens: &mut Vec<Token>, ends: &[NextEnd]) -> Result<(), NoMemory>
    ensures { OnOk result (tokens.new.items ≡ tokens.old.items ++ flat_map spell_next_end ends.now) }
{
    for next in ends {
        add_next_end(tokens, next)?;
    }
    Ok(())
}
