use pst_base::Items;
use pst_scen::{Plan, Rows};
use std::test::Fail;

fn is_shared<T: Send + Sync>(_value: &T) {}

// Three actions, of which the last two start together behind the first.
#[test]
fn reads_a_plan(rt: HostRuntime) -> Result<(), Fail> {
    let groups = vec![in rt.alloc(); 0, 1, 1]?;
    let must = Rows {
        size: 3,
        words: Items::from_vec(vec![in rt.alloc(); 6, 0, 0]?),
    };
    let conflict = Rows {
        size: 3,
        words: Items::from_vec(vec![in rt.alloc(); 4, 0, 1]?),
    };
    let plan = Plan::of_rows(groups, must, conflict);
    is_shared(&plan);
    assert_eq!(rt; plan.len(), 3);
    assert_eq!(rt; plan.group(2), 1);
    assert_eq!(rt; plan.width(), 2);
    assert!(rt; plan.must(0, 2));
    assert!(rt; !plan.must(2, 0));
    assert!(rt; plan.conflict(2, 0));
    assert!(rt; !plan.conflict(1, 0));
    Ok(())
}

// A row of 65 bits stands in two words.
#[test]
fn reads_a_wide_square(rt: HostRuntime) -> Result<(), Fail> {
    let mut words = Vec::from_elem(rt.alloc(), 0, 130)?;
    words[3] = 1;
    let rows = Rows {
        size: 65,
        words: Items::from_vec(words),
    };
    assert!(rt; rows.has(1, 64));
    assert!(rt; !rows.has(1, 0));
    assert!(rt; !rows.has(0, 64));
    Ok(())
}
