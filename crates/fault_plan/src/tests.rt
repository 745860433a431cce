use crate::Plan;
use std::test::Fail;

#[test]
fn the_calls_whose_numbers_are_listed_fail(rt: HostRuntime) -> Result<(), Fail> {
    // Neither the order nor a number that stands there twice matters, and there is no call 0.
    let mut plan = Plan::new(rt.alloc(), &[4, 1, 0, 4])?;
    for fails in [true, false, false, true, false] {
        assert_eq!(rt; plan.fails_next(), fails);
    }
    assert_eq!(rt; plan.made(), 5);
    Ok(())
}

#[test]
fn a_number_may_be_added_before_its_call(rt: HostRuntime) -> Result<(), Fail> {
    let mut plan = Plan::new(rt.alloc(), &[])?;
    // The last number first, and each twice; the first two calls fail, and no other.
    for number in [100_000, 2, 1, 2, 100_000] {
        plan.add(number)?;
    }
    for fails in [true, true, false] {
        assert_eq!(rt; plan.fails_next(), fails);
    }
    // The number of a call that was made does nothing.
    plan.add(3)?;
    assert_eq!(rt; plan.fails_next(), false);
    Ok(())
}
