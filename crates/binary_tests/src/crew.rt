//! A crew sorts a list that is long enough for several threads (`unit_workers`).
use std::test::Fail;
use unit_workers::Crew;

#[test]
fn a_crew_sorts_twenty_thousand_numbers(rt: HostRuntime) -> Result<(), Fail> {
    let alloc = rt.alloc();
    let mut numbers = Vec::new(alloc);
    for k in 0..20_000u32 {
        numbers.push(20_000 - k)?;
    }
    Crew::new(&rt, alloc, 4).sort(numbers.as_mut_slice())?;
    assert_eq!(rt; numbers.first().copied(), Some(1));
    assert_eq!(rt; numbers.last().copied(), Some(20_000));
    Ok(())
}
