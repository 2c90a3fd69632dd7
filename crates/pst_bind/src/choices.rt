//! What the candidates of a reference or claim come to.
ghost use Rattle.std.specs.Prelude.{◌≡◌};
ghost use Rattle.pst_bind.specs.Choices;

/// What the pools that may serve a reference or claim come to.
#[derive(Clone, Copy, PartialEq, Eq)]
pub enum Choice {
    /// There is none.
    Nothing,
    /// There are two or more.
    Several,
    /// There is one, be it given once or more often.
    One(u32),
}

/// What a row of candidates comes to.
pub fn choice_of(row: &[u32]) -> Choice
    ensures { result ≡ Choices.choice_of row.now }
{
    let Some((first, more)) = row.split_first() else {
        return Choice::Nothing;
    };
    for other in more {
        if other != first {
            return Choice::Several;
        }
    }
    Choice::One(*first)
}
