//! Which kind a spelling has.
ghost use Rattle.std.specs.Prelude.{◌≡◌, ◌≢◌, ◌≤◌, [], ◌∷◌, IfSome};
ghost use Rattle.std.specs.List.{find};
ghost use Rattle.std.specs.Str.{bytes_eq};
ghost use Rattle.pst_token.specs.declared.kind.Kind.{Kind};
ghost use Rattle.pst_token.specs.Spelling.{spelling_of};
ghost use Rattle.pst_token.specs.Lookup.{kind_of, kinds_of_length};

use crate::{Kind, spelling};

/// Returns the reserved word or the mark with this spelling.
#[tactic(auto, using(crate::proofs::Found::reads_back))]
pub fn kind_of(text: &[u8]) -> Option<Kind>
    ensures value { result ≡ kind_of text.now }
    ensures spelled { IfSome result (λ kind. (spelling_of kind ≡ text.now) × (spelling_of kind ≢ [])) }
    ensures back { (kind : Kind) → spelling_of kind ≢ [] → spelling_of kind ≡ text.now → result ≡ Some kind }
{
    look_up(text)
}

fn look_up(text: &[u8]) -> Option<Kind>
    ensures { result ≡ kind_of text.now }
{
    match text {
        [] => None,
        [only] => kind_of_one(*only),
        [first, second] => kind_of_two(*first, *second),
        _ => first_spelled(text, kinds_of_length(text.len())),
    }
}

// The mark of one byte.
fn kind_of_one(byte: u8) -> Option<Kind>
    ensures { result ≡ kind_of (byte ∷ []) }
{
    match byte {
        b';' => Some(Kind::Semicolon),
        b'(' => Some(Kind::LeftParenthesis),
        b')' => Some(Kind::RightParenthesis),
        b'{' => Some(Kind::LeftBrace),
        b'}' => Some(Kind::RightBrace),
        b'.' => Some(Kind::Dot),
        b',' => Some(Kind::Comma),
        b'=' => Some(Kind::Equal),
        b':' => Some(Kind::Colon),
        b'[' => Some(Kind::LeftBracket),
        b']' => Some(Kind::RightBracket),
        b'*' => Some(Kind::Star),
        b'+' => Some(Kind::Plus),
        b'-' => Some(Kind::Minus),
        b'<' => Some(Kind::Less),
        b'>' => Some(Kind::Greater),
        b'/' => Some(Kind::Slash),
        b'%' => Some(Kind::Percent),
        b'&' => Some(Kind::And),
        b'|' => Some(Kind::Or),
        b'!' => Some(Kind::Not),
        b'^' => Some(Kind::Caret),
        b'~' => Some(Kind::Tilde),
        _ => None,
    }
}

// The mark or the reserved word of two bytes.
fn kind_of_two(first: u8, second: u8) -> Option<Kind>
    ensures { result ≡ kind_of (first ∷ second ∷ []) }
{
    match (first, second) {
        (b'.', b'.') => Some(Kind::DotDot),
        (b':', b':') => Some(Kind::ColonColon),
        (b'=', b'=') => Some(Kind::EqualEqual),
        (b'!', b'=') => Some(Kind::NotEqual),
        (b'<', b'=') => Some(Kind::LessEqual),
        (b'>', b'=') => Some(Kind::GreaterEqual),
        (b'<', b'<') => Some(Kind::LessLess),
        (b'>', b'>') => Some(Kind::GreaterGreater),
        (b'&', b'&') => Some(Kind::AndAnd),
        (b'|', b'|') => Some(Kind::OrOr),
        (b'-', b'>') => Some(Kind::Arrow),
        (b'd', b'o') => Some(Kind::Do),
        (b'i', b'f') => Some(Kind::If),
        (b'i', b'n') => Some(Kind::In),
        _ => None,
    }
}

// The first of the kinds that has this spelling.
fn first_spelled(text: &[u8], kinds: &[Kind]) -> Option<Kind>
    ensures { result ≡ find (λ kind. bytes_eq (spelling_of kind) text.now) kinds.now }
{
    kinds
        .iter()
        .copied()
        .find(|kind| spelling(*kind).as_bytes() == text)
}

// The reserved words whose spelling has this length, of three bytes and more.
fn kinds_of_length(length: usize) -> &'static [Kind]
    requires { 3 ≤ length }
    ensures { result.now ≡ kinds_of_length length }
{
    match length {
        3 => &[Kind::Bit, Kind::Int],
        4 => &[
            Kind::Bind,
            Kind::Body,
            Kind::Bool,
            Kind::Else,
            Kind::Enum,
            Kind::Exec,
            Kind::Lock,
            Kind::Pool,
            Kind::Rand,
            Kind::True,
            Kind::Void,
            Kind::With,
        ],
        5 => &[
            Kind::False,
            Kind::Input,
            Kind::Match,
            Kind::Share,
            Kind::State,
        ],
        6 => &[
            Kind::Action,
            Kind::Buffer,
            Kind::Import,
            Kind::Output,
            Kind::Repeat,
            Kind::Select,
            Kind::Stream,
            Kind::Target,
            Kind::Unique,
        ],
        7 => &[Kind::Default, Kind::Foreach],
        8 => &[
            Kind::Abstract,
            Kind::Activity,
            Kind::Function,
            Kind::Parallel,
            Kind::Resource,
            Kind::Schedule,
            Kind::Sequence,
        ],
        9 => &[Kind::Component, Kind::JoinNone],
        10 => &[Kind::Constraint, Kind::JoinFirst],
        11 => &[Kind::JoinBranch, Kind::JoinSelect],
        _ => &[],
    }
}
