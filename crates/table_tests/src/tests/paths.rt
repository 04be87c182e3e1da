//! Paths, as lists of numbers.

use ranked_policy::Path;
use std::process::Abort;
use std::test::Fail;

fn are_their_numbers(rt: &impl Abort, long: &Path, on: &Path, same: &Path, other: &Path) {
    assert!(rt; long.len() == 9);
    assert!(rt; !long.is_empty());
    assert!(rt; on.as_slice() == [2, 3, 1].as_slice());
    assert!(rt; on == same);
    assert!(rt; on != other);
}

#[test]
fn a_path_is_its_numbers(rt: HostRuntime) -> Result<(), Fail> {
    assert!(rt; Path::new(rt.alloc()).is_empty());
    let long = Path::from_slice(rt.alloc(), &[1, 2, 3, 4, 5, 6, 7, 8, 9])?;
    let on = Path::from_router(rt.alloc(), 2, &[3, 1])?;
    let same = Path::from_slice(rt.alloc(), &[2, 3, 1])?;
    let other = Path::from_slice(rt.alloc(), &[2, 1])?;
    are_their_numbers(&rt, &long, &on, &same, &other);
    Ok(())
}
