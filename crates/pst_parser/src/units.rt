//! Units.
ghost use Rattle.pst_ast.specs.Answers.{AnswersUnit};
ghost use Rattle.pst_token.specs.Laws.{EndsOnce};
ghost use Rattle.pst_parser.specs.Units.{AnswersItems};

use pst_ast::{Item, SyntaxFault, Unit};
use pst_base::NameId;
use pst_parse_decl::components::item;
use pst_reading::{expect, is, push};
use pst_token::{Kind, Token};
use std::alloc::Global;

// The parts of a unit, up to its end, and the place behind them.
fn items(alloc: Global, tokens: &[Token]) -> Result<(Vec<Item>, usize), SyntaxFault>
    ensures { AnswersItems tokens.now result }
{
    let mut items = Vec::new(alloc);
    let mut place = 0;
    'items: while !is(tokens, place, Kind::End) {
        let (item, after) = item(alloc, tokens, place)?;
        push(&mut items, item)?;
        place = after;
    }
    Ok((items, place))
}

/// The unit that the tokens spell; the last of them is `End`, and no other. An unexpected token, or
/// one that breaks a limit, is answered by its place: `At` where no unit begins with the tokens up
/// to it and with it, `Deep` where it is the first that breaks a limit, and of the two the earlier
/// one, `At` at the same place; `NoMemory` where memory runs out.
pub fn parse_unit(alloc: Global, tokens: &[Token]) -> Result<Unit, SyntaxFault>
    requires ended { EndsOnce tokens.now }
    ensures { AnswersUnit tokens.now result }
{
    let (items, after) = items(alloc, tokens)?;
    let place = expect(tokens, after, Kind::End, 0, 0)?;
    let finish = Token {
        kind: Kind::End,
        name: NameId(0),
        number: 0,
        place,
    };
    Ok(Unit { items, finish })
}
