use pst_expr::{Domain, Span};
use std::test::Fail;

const MIN: i64 = -9_223_372_036_854_775_808;

const MAX: i64 = 9_223_372_036_854_775_807;

// The numbers -2, -1, 5, 9 and 10.
#[test]
fn domains(rt: HostRuntime) -> Result<(), Fail> {
    let spans = vec![in rt.alloc();
        Span { low: -2, high: -1 },
        Span { low: 5, high: 5 },
        Span { low: 9, high: 10 },
    ]?;
    let domain = Domain::new(spans);
    assert_eq!(rt; domain.size(), 5);
    for (index, want) in [(0, -2), (1, -1), (2, 5), (3, 9), (4, 10)] {
        assert_eq!(rt; domain.at(index), want, "at {index}");
    }
    assert_eq!(rt; domain.spans().len(), 3);
    assert_eq!(rt; domain.into_spans().len(), 3);
    let wide = Domain::new(vec![in rt.alloc();
        Span {
            low: MIN,
            high: MAX - 1
        },
    ]?);
    assert_eq!(rt; wide.size(), u64::MAX);
    assert_eq!(rt; wide.at(u64::MAX - 1), MAX - 1);
    Ok(())
}
