//! The kinds of tokens and their spellings.
ghost use Rattle.std.specs.Prelude.{◌≡◌};
ghost use Rattle.pst_token.specs.Spelling.{spelling_of};

/// The kind of a token: one for each reserved word, one for each mark, and three more.
#[derive(Clone, Copy, Debug, PartialEq, Eq)]
pub enum Kind {
    /// A name that is no reserved word.
    Name,
    /// A decimal or hexadecimal number.
    Number,
    /// What stands behind the last token of a text.
    End,
    /// `abstract`
    Abstract,
    /// `action`
    Action,
    /// `activity`
    Activity,
    /// `bind`
    Bind,
    /// `bit`
    Bit,
    /// `body`
    Body,
    /// `bool`
    Bool,
    /// `buffer`
    Buffer,
    /// `component`
    Component,
    /// `constraint`
    Constraint,
    /// `default`
    Default,
    /// `do`
    Do,
    /// `else`
    Else,
    /// `enum`
    Enum,
    /// `exec`
    Exec,
    /// `false`
    False,
    /// `foreach`
    Foreach,
    /// `function`
    Function,
    /// `if`
    If,
    /// `import`
    Import,
    /// `in`
    In,
    /// `input`
    Input,
    /// `int`
    Int,
    /// `join_branch`
    JoinBranch,
    /// `join_first`
    JoinFirst,
    /// `join_none`
    JoinNone,
    /// `join_select`
    JoinSelect,
    /// `lock`
    Lock,
    /// `match`
    Match,
    /// `output`
    Output,
    /// `parallel`
    Parallel,
    /// `pool`
    Pool,
    /// `rand`
    Rand,
    /// `repeat`
    Repeat,
    /// `resource`
    Resource,
    /// `schedule`
    Schedule,
    /// `select`
    Select,
    /// `sequence`
    Sequence,
    /// `share`
    Share,
    /// `state`
    State,
    /// `stream`
    Stream,
    /// `target`
    Target,
    /// `true`
    True,
    /// `unique`
    Unique,
    /// `void`
    Void,
    /// `with`
    With,
    /// `{`
    LeftBrace,
    /// `}`
    RightBrace,
    /// `(`
    LeftParenthesis,
    /// `)`
    RightParenthesis,
    /// `[`
    LeftBracket,
    /// `]`
    RightBracket,
    /// `;`
    Semicolon,
    /// `,`
    Comma,
    /// `.`
    Dot,
    /// `..`
    DotDot,
    /// `:`
    Colon,
    /// `::`
    ColonColon,
    /// `=`
    Equal,
    /// `==`
    EqualEqual,
    /// `!=`
    NotEqual,
    /// `<`
    Less,
    /// `<=`
    LessEqual,
    /// `>`
    Greater,
    /// `>=`
    GreaterEqual,
    /// `<<`
    LessLess,
    /// `>>`
    GreaterGreater,
    /// `+`
    Plus,
    /// `-`
    Minus,
    /// `*`
    Star,
    /// `/`
    Slash,
    /// `%`
    Percent,
    /// `&`
    And,
    /// `&&`
    AndAnd,
    /// `|`
    Or,
    /// `||`
    OrOr,
    /// `^`
    Caret,
    /// `!`
    Not,
    /// `~`
    Tilde,
    /// `->`
    Arrow,
}

/// Returns the spelling of a reserved word or a mark, and an empty text for the other kinds.
pub fn spelling(kind: Kind) -> &'static str
    ensures { result.now ≡ spelling_of kind }
{
    match kind {
        Kind::Name | Kind::Number | Kind::End => "",
        Kind::Abstract => "abstract",
        Kind::Action => "action",
        Kind::Activity => "activity",
        Kind::Bind => "bind",
        Kind::Bit => "bit",
        Kind::Body => "body",
        Kind::Bool => "bool",
        Kind::Buffer => "buffer",
        Kind::Component => "component",
        Kind::Constraint => "constraint",
        Kind::Default => "default",
        Kind::Do => "do",
        Kind::Else => "else",
        Kind::Enum => "enum",
        Kind::Exec => "exec",
        Kind::False => "false",
        Kind::Foreach => "foreach",
        Kind::Function => "function",
        Kind::If => "if",
        Kind::Import => "import",
        Kind::In => "in",
        Kind::Input => "input",
        Kind::Int => "int",
        Kind::JoinBranch => "join_branch",
        Kind::JoinFirst => "join_first",
        Kind::JoinNone => "join_none",
        Kind::JoinSelect => "join_select",
        Kind::Lock => "lock",
        Kind::Match => "match",
        Kind::Output => "output",
        Kind::Parallel => "parallel",
        Kind::Pool => "pool",
        Kind::Rand => "rand",
        Kind::Repeat => "repeat",
        Kind::Resource => "resource",
        Kind::Schedule => "schedule",
        Kind::Select => "select",
        Kind::Sequence => "sequence",
        Kind::Share => "share",
        Kind::State => "state",
        Kind::Stream => "stream",
        Kind::Target => "target",
        Kind::True => "true",
        Kind::Unique => "unique",
        Kind::Void => "void",
        Kind::With => "with",
        Kind::LeftBrace => "{",
        Kind::RightBrace => "}",
        Kind::LeftParenthesis => "(",
        Kind::RightParenthesis => ")",
        Kind::LeftBracket => "[",
        Kind::RightBracket => "]",
        Kind::Semicolon => ";",
        Kind::Comma => ",",
        Kind::Dot => ".",
        Kind::DotDot => "..",
        Kind::Colon => ":",
        Kind::ColonColon => "::",
        Kind::Equal => "=",
        Kind::EqualEqual => "==",
        Kind::NotEqual => "!=",
        Kind::Less => "<",
        Kind::LessEqual => "<=",
        Kind::Greater => ">",
        Kind::GreaterEqual => ">=",
        Kind::LessLess => "<<",
        Kind::GreaterGreater => ">>",
        Kind::Plus => "+",
        Kind::Minus => "-",
        Kind::Star => "*",
        Kind::Slash => "/",
        Kind::Percent => "%",
        Kind::And => "&",
        Kind::AndAnd => "&&",
        Kind::Or => "|",
        Kind::OrOr => "||",
        Kind::Caret => "^",
        Kind::Not => "!",
        Kind::Tilde => "~",
        Kind::Arrow => "->",
    }
}
