use pst_book::Book;
use pst_scen::Scenario;
use std::test::Fail;

fn may_cross<T: Send + Sync>() {}

fn may_move<T: Send>() {}

// A scenario, and with it each of its parts.
#[test]
fn scenarios_cross_threads() -> Result<(), Fail> {
    may_cross::<Scenario>();
    Ok(())
}

#[test]
fn books_move_between_threads() -> Result<(), Fail> {
    may_move::<Book<'static>>();
    Ok(())
}
