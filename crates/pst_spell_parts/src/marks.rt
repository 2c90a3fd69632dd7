//! Single tokens, added to a list.
ghost use Rattle.std.specs.Prelude.{◌≡◌, ◌++◌, ◌∷◌, [], OnOk};
ghost use Rattle.pst_ast.specs.Marks.{mark, name_token, number_token, operator_kind, prefix_operator_kind, together_word_kind, object_word_kind, reference_word_kind, claim_word_kind, spell_option};

use pst_ast::{
    ClaimWord, Name, Number, ObjectWord, Operator, PrefixOperator, ReferenceWord, TogetherWord,
};
use pst_base::{NameId, NoMemory, Place};
use pst_token::{Kind, Token};

// Adds a mark or a reserved word.
pub fn push_mark(tokens: &mut Vec<Token>, kind: Kind, place: Place) -> Result<(), NoMemory>
    ensures { OnOk result (tokens.new.items ≡ tokens.old.items ++ mark kind place ∷ []) }
{
    tokens.push(Token {
        kind,
        name: NameId(0),
        number: 0,
        place,
    })?;
    Ok(())
}

// Adds a mark or a reserved word where it stands.
pub fn push_optional_mark(
    tokens: &mut Vec<Token>,
    kind: Kind,
    place: Option<Place>,
) -> Result<(), NoMemory>
    ensures { OnOk result (tokens.new.items ≡ tokens.old.items ++ spell_option (λ p. mark kind p ∷ []) place) }
{
    match place {
        None => Ok(()),
        Some(place) => push_mark(tokens, kind, place),
    }
}

// Adds a name.
pub fn push_name(tokens: &mut Vec<Token>, name: Name) -> Result<(), NoMemory>
    ensures { OnOk result (tokens.new.items ≡ tokens.old.items ++ name_token name ∷ []) }
{
    tokens.push(Token {
        kind: Kind::Name,
        name: name.id,
        number: 0,
        place: name.place,
    })?;
    Ok(())
}

// Adds a number.
pub fn push_number(tokens: &mut Vec<Token>, number: Number) -> Result<(), NoMemory>
    ensures { OnOk result (tokens.new.items ≡ tokens.old.items ++ number_token number ∷ []) }
{
    tokens.push(Token {
        kind: Kind::Number,
        name: NameId(0),
        number: number.value,
        place: number.place,
    })?;
    Ok(())
}

// The mark of an operator.
pub fn kind_of_operator(operator: Operator) -> Kind
    ensures { result ≡ operator_kind operator }
{
    match operator {
        Operator::Multiply => Kind::Star,
        Operator::Divide => Kind::Slash,
        Operator::Remainder => Kind::Percent,
        Operator::Add => Kind::Plus,
        Operator::Subtract => Kind::Minus,
        Operator::ShiftLeft => Kind::LessLess,
        Operator::ShiftRight => Kind::GreaterGreater,
        Operator::Less => Kind::Less,
        Operator::LessEqual => Kind::LessEqual,
        Operator::Greater => Kind::Greater,
        Operator::GreaterEqual => Kind::GreaterEqual,
        Operator::Equal => Kind::EqualEqual,
        Operator::NotEqual => Kind::NotEqual,
        Operator::BitAnd => Kind::And,
        Operator::BitXor => Kind::Caret,
        Operator::BitOr => Kind::Or,
        Operator::And => Kind::AndAnd,
        Operator::Or => Kind::OrOr,
    }
}

// The mark of an operator before its part.
pub fn kind_of_prefix_operator(operator: PrefixOperator) -> Kind
    ensures { result ≡ prefix_operator_kind operator }
{
    match operator {
        PrefixOperator::Negate => Kind::Minus,
        PrefixOperator::Not => Kind::Not,
        PrefixOperator::Complement => Kind::Tilde,
    }
}

// The word of a block whose statements run side by side or in any order.
pub fn kind_of_together_word(word: TogetherWord) -> Kind
    ensures { result ≡ together_word_kind word }
{
    match word {
        TogetherWord::Parallel => Kind::Parallel,
        TogetherWord::Schedule => Kind::Schedule,
    }
}

// The word that begins an object.
pub fn kind_of_object_word(word: ObjectWord) -> Kind
    ensures { result ≡ object_word_kind word }
{
    match word {
        ObjectWord::Buffer => Kind::Buffer,
        ObjectWord::Stream => Kind::Stream,
        ObjectWord::State => Kind::State,
        ObjectWord::Resource => Kind::Resource,
    }
}

// The word that begins a reference.
pub fn kind_of_reference_word(word: ReferenceWord) -> Kind
    ensures { result ≡ reference_word_kind word }
{
    match word {
        ReferenceWord::Input => Kind::Input,
        ReferenceWord::Output => Kind::Output,
    }
}

// The word that begins a claim.
pub fn kind_of_claim_word(word: ClaimWord) -> Kind
    ensures { result ≡ claim_word_kind word }
{
    match word {
        ClaimWord::Lock => Kind::Lock,
        ClaimWord::Share => Kind::Share,
    }
}
