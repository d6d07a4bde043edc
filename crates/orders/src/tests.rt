use crate::order::*;
use crate::read_order;
use refusals::refusal::*;

#[test]
fn texts_are_read_or_refused(rt: HostRuntime) {
    let good: [(&str, Order); 6] = [
        ("R", Order::LayQueue),
        ("C", Order::LayStack),
        ("N 1", Order::Start { crew: 1 }),
        ("N 16", Order::Start { crew: 16 }),
        ("N 0", Order::Start { crew: 0 }),
        ("N 4294967295", Order::Start { crew: 4294967295 }),
    ];
    for (text, order) in good {
        assert_eq!(rt; read_order(text.as_bytes()), Ok(order), "{}", text);
    }
    let bad: [&str; 12] = [
        "",
        "r",
        "R ",
        "R 1",
        "N",
        "N ",
        "N 01",
        "N  1",
        "N 1 ",
        "N 4294967296",
        "N 1 2",
        "X",
    ];
    for text in bad {
        assert_eq!(rt;
            read_order(text.as_bytes()),
            Err(Refusal::Wording),
            "{}",
            text
        );
    }
}
