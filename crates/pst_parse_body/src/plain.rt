//! What a plain type begins with.
ghost use Rattle.std.specs.Prelude.{◌≡◌, drop};
ghost use Rattle.pst_reading.specs.Parser.{next};
ghost use Rattle.pst_parse_body.specs.Types;

use pst_reading::is;
use pst_token::{Kind, Token};

// Whether a plain type begins at a place.
pub fn begins_plain(tokens: &[Token], at: usize) -> bool
    ensures { result ≡ Types.begins_plain (next (drop at tokens.now)) }
{
    is(tokens, at, Kind::Int) || is(tokens, at, Kind::Bit) || is(tokens, at, Kind::Bool)
}
