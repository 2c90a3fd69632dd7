//! The root of a line.
ghost use Rattle.std.specs.Prelude.{◌≡◌, map, string_bytes, MatchBool};
ghost use Rattle.pst_token.specs.Lexemes.{IsName};
ghost use Rattle.pst_line_parts.specs.Lines.{AreBehind};
ghost use Rattle.pst_outcome.specs.Tasks.{IsRoot};

use pst_words::{Command, Line};
use std::str;

/// The names of a root action.
#[derive(Clone, Copy)]
pub struct RootNames<'a> {
    /// The name of its component.
    pub component: &'a str,
    /// Its own.
    pub action: &'a str,
}

/// Whether the command is `gen`.
pub fn is_gen(command: Command) -> bool
    ensures { MatchBool result (command ≡ Command.Gen) (command ≡ Command.Gen → ⊥) }
{
    command == Command::Gen
}

// A name as text: it is of ASCII bytes.
fn text_of_name(name: &[u8]) -> &str
    requires { IsName name.now }
    ensures { result.now ≡ name.now }
{
    match str::from_utf8(name) {
        Ok(text) => text,
        Err(_) => unreachable!(),
    }
}

// The root that a line names.
fn root_named<'a>(line: &Line<'a>) -> RootNames<'a>
    requires behind { AreBehind line.now.command (map string_bytes line.now.arguments.now) }
    requires other { line.now.command ≡ Command.Gen → ⊥ }
    ensures { IsRoot line.now.command (map string_bytes line.now.arguments.now) result.component.now result.action.now }
{
    match line.root() {
        Some(root) => {
            let component = text_of_name(root.component);
            let action = text_of_name(root.action);
            RootNames { component, action }
        }
        None => unreachable!(),
    }
}

/// The root of a line: a generated model has its own.
pub fn root_of<'a>(line: &Line<'a>) -> RootNames<'a>
    requires { AreBehind line.now.command (map string_bytes line.now.arguments.now) }
    ensures { IsRoot line.now.command (map string_bytes line.now.arguments.now) result.component.now result.action.now }
{
    if is_gen(line.command) {
        return RootNames {
            component: "pss_top",
            action: "entry",
        };
    }
    root_named(line)
}
