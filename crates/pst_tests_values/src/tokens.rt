ghost use Rattle.std.specs.Prelude.{◌≡◌, IfOk};
ghost use Rattle.pst_reading.specs.Ended.{IsEnded};

use pst_ast::SyntaxFault;
use pst_base::{NameId, NoMemory, Place};
use pst_parse_expr::parse_expr;
use pst_token::{Kind, Token};
use std::alloc::Global;

fn token(kind: Kind, name: u32, number: i64) -> Token
    ensures { result.kind ≡ kind }
{
    Token {
        kind,
        name: NameId(name),
        number,
        place: Place {
            file: 0,
            line: 1,
            column: 1,
        },
    }
}

// These tokens and `End`.
#[tactic(auto, using(crate::proofs::Endings::ended_push))]
fn and_end(alloc: Global, tokens: &[Token]) -> Result<Vec<Token>, NoMemory>
    ensures { IfOk result (λ tokens. IsEnded tokens.items) }
{
    let mut all = Vec::from_slice(alloc, tokens)?;
    all.push(token(Kind::End, 0, 0))?;
    Ok(all)
}

// The place behind the expression that the tokens begin with.
#[tactic(auto, using(crate::proofs::Endings::ended_inside))]
fn outcome(alloc: Global, tokens: &[Token]) -> Result<usize, SyntaxFault> {
    let tokens = and_end(alloc, tokens)?;
    let (_expr, after) = parse_expr(alloc, tokens.as_slice(), 0, 0)?;
    Ok(after)
}

// No text has such tokens: a name with a number in it, and a sign with a name.
#[test]
fn tokens_with_more_in_them(rt: HostRuntime) {
    let name = token(Kind::Name, 0, 0);
    let odd_name = outcome(rt.alloc(), &[token(Kind::Name, 0, 1)]);
    assert_eq!(rt; odd_name, Err(SyntaxFault::At { at: 0 }));
    let odd_plus = outcome(rt.alloc(), &[name, token(Kind::Plus, 7, 0), name]);
    assert_eq!(rt; odd_plus, Ok(1));
}
