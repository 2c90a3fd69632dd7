//! Places along a text.
ghost use Rattle.std.specs.Prelude.{◌≡◌, ◌+◌, ◌^◌, ◌<◌, ℕ, List, ◌++◌, length};
ghost use Rattle.pst_token.specs.Tokens.{place_after};
ghost use Rattle.pst_token.specs.Order.{after_byte};

use pst_base::Place;

// The place behind these bytes, where they begin at `place`.
pub(crate) fn place_behind(place: Place, bytes: &[u8]) -> Place
    requires line { place.line + length bytes.now < 2 ^ 32 }
    requires column { place.column + length bytes.now < 2 ^ 32 }
    ensures { (file : ℕ) (before : List ℕ) → place ≡ place_after file before → result ≡ place_after file (before ++ bytes.now) }
{
    let mut place = place;
    for byte in bytes {
        place = after_byte(place, *byte);
    }
    place
}

// The place behind one byte.
fn after_byte(place: Place, byte: u8) -> Place
    requires line { place.line + 1 < 2 ^ 32 }
    requires column { place.column + 1 < 2 ^ 32 }
    ensures { result ≡ after_byte place byte }
{
    let file = place.file;
    if byte == b'\n' {
        let line = place.line + 1;
        Place {
            file,
            line,
            column: 1,
        }
    } else {
        let column = place.column + 1;
        Place {
            file,
            line: place.line,
            column,
        }
    }
}
