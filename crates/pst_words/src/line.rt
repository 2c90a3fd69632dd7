//! Lines.
ghost use Rattle.std.specs.Prelude.{◌≡◌, ◌<◌, ◌^◌, ◌++◌, ℕ, List, map, string_bytes, codes, decimal, Some, None, MatchOption};
ghost use Rattle.pst_token.specs.Lexemes.{IsName};
ghost use Rattle.pst_words.specs.Table.{IsRoot};
ghost use Rattle.pst_words.specs.Lines.{given};

use crate::argument::{find_value, number_given};
use crate::command::Command;
use crate::key::Key;
use crate::value::root_in;

/// The words of a line: a command, and the keys and files behind it.
#[derive(Clone, Copy)]
pub struct Line<'a> {
    /// The command.
    pub command: Command,
    /// The words behind it. Those that name files are the ones for which `is_file_name` is true.
    pub arguments: &'a [String],
}

/// The root action of a line.
#[derive(Clone, Copy)]
pub struct Root<'a> {
    /// The name of its component.
    pub component: &'a [u8],
    /// Its name.
    pub action: &'a [u8],
}

impl<'a> Line<'a> {
    /// The number that is given for the key, or else another one.
    pub fn number(&self, key: Key, otherwise: u64) -> u64
        ensures is_given { (n : ℕ) → n < 2 ^ 64 → given key (map string_bytes self.now.arguments.now) ≡ Some (decimal n) → result ≡ n }
        ensures is_not { given key (map string_bytes self.now.arguments.now) ≡ None → result ≡ otherwise }
    {
        match number_given(key, self.arguments) {
            Some(n) => n,
            None => otherwise,
        }
    }

    /// The trace file that is given.
    pub fn trace(&self) -> Option<&'a [u8]>
        ensures { MatchOption result (given Key.Trace (map string_bytes self.now.arguments.now) ≡ None) (λ text. given Key.Trace (map string_bytes self.now.arguments.now) ≡ Some text.now) }
    {
        find_value(Key::Trace, self.arguments)
    }

    /// The root action that is given.
    pub fn root(&self) -> Option<Root<'a>>
        ensures { MatchOption result ((text : List ℕ) → given Key.Root (map string_bytes self.now.arguments.now) ≡ Some text → IsRoot text → ⊥)
            (λ r. (given Key.Root (map string_bytes self.now.arguments.now) ≡ Some (r.component.now ++ (codes "::" ++ r.action.now))) × IsName r.component.now × IsName r.action.now) }
    {
        let Some(text) = find_value(Key::Root, self.arguments) else {
            return None;
        };
        let Some((component, action)) = root_in(text) else {
            return None;
        };
        Some(Root { component, action })
    }
}
