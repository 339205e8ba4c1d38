//! A gatherer of two pieces, and the texts of errors.
use std::process::Abort;
use std::test::Fail;
use vrp_solver::{Finished, GatherError, Gatherer, SolveError};

#[test]
fn each_once(rt: HostRuntime) {
    let mut gatherer = Gatherer::new(rt.alloc(), 2).expect(&rt, "memory");
    // the number added, the answer, and the lowest missing number afterwards
    let table = [
        (1, Ok(()), Some(0)),
        (1, Err(GatherError::Double(1)), Some(0)),
        (2, Err(GatherError::Stranger(2)), Some(0)),
        (0, Ok(()), None),
        (0, Err(GatherError::Double(0)), None),
    ];
    for (number, outcome, missing) in table {
        let finished = Finished {
            number,
            floor: 0,
            last_offer: None,
        };
        assert_eq!(rt; gatherer.add(finished), outcome, "{number}");
        assert_eq!(rt; gatherer.missing(), missing, "{number}");
    }
}

#[test]
fn texts(rt: HostRuntime) -> Result<(), Fail> {
    let double = GatherError::Double(1).to_string(rt.alloc())?;
    assert_eq!(rt; double.as_str(), "piece 1 is finished twice");
    let stranger = GatherError::Stranger(2).to_string(rt.alloc())?;
    assert_eq!(rt; stranger.as_str(), "there is no piece 2");
    let refused = SolveError::OutOfMemory.to_string(rt.alloc())?;
    assert_eq!(rt; refused.as_str(), "out of memory");
    Ok(())
}
