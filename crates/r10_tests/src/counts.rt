// Printed counts and times.

use r10_count::{Civil, Count, Parts};
use std::test::Fail;

#[test]
fn counts_and_times_are_printed(rt: HostRuntime) -> Result<(), Fail> {
    let parts = Parts {
        year: 33,
        month: 4,
        day: 3,
        hour: 15,
        minute: 0,
        second: 7,
        centi: 5,
    };
    let count = Count::of(281_474_976_710_655).expect(&rt, "a count");
    let time = Civil::of(parts).expect(&rt, "a time");
    let text = format!(in rt.alloc(); "{count} {time}")?;
    assert_eq!(rt; text.as_str(), "281474976710655 0033-04-03 15:00:07.05");
    Ok(())
}
