//! Opening all groups that can start.
ghost use Rattle.std.specs.Prelude.{◌≡◌, false, IsTrue};
ghost use Rattle.pst_book.specs.Books.{with_trace, IsShut};
ghost use Rattle.pst_desk.specs.Turning.{OpensGroups};

use pst_book::Book;

/// Opens groups until none can start, and counts them.
fn open_groups(book: &mut Book<'_>) -> u32
    ensures same { book.new ≡ with_trace book.old book.new.trace }
    ensures opens { OpensGroups book.old.scenario book.old.lanes book.old.trace result book.new.trace }
    ensures shut { IsShut book.new }
{
    book.show_limits();
    let mut opened = 0;
    'groups: while let Some(_) = book.open() {
        opened += 1;
    }
    opened
}

/// Opens groups until none can start, unless the run is stopped, and counts them.
pub(crate) fn open_all(book: &mut Book<'_>, stopped: bool) -> u32
    ensures same { book.new ≡ with_trace book.old book.new.trace }
    ensures opens { OpensGroups book.old.scenario book.old.lanes book.old.trace result book.new.trace }
    ensures stopped { IsTrue stopped → (result ≡ 0) × (book.new.trace ≡ book.old.trace) }
    ensures shut { stopped ≡ false → IsShut book.new }
{
    if stopped {
        return 0;
    }
    open_groups(book)
}
