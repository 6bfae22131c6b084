use crate::formulas::{dimension, index};
use crate::spaces::space_at;
use std::alloc::Global;
use std::test::Fail;

const LEVELS: [u32; 8] = [1, 2, 3, 4, 5, 11, 389, 420];

// The number of symbols and the dimension.
fn count_and_dimension(alloc: Global, n: u32, p: u32) -> Result<(u32, u64), Fail> {
    let space = space_at(alloc, n, p)?;
    Ok((space.level().count(), u64::from(space.dim())))
}

#[test]
fn dimensions_in_characteristic_two(rt: HostRuntime) -> Result<(), Fail> {
    for n in LEVELS {
        assert_eq!(rt;
            count_and_dimension(rt.alloc(), n, 2)?,
            (index(n), dimension(n, 2)),
            "at {n}"
        );
    }
    Ok(())
}

#[test]
fn dimensions_in_characteristic_three(rt: HostRuntime) -> Result<(), Fail> {
    for n in LEVELS {
        assert_eq!(rt;
            count_and_dimension(rt.alloc(), n, 3)?,
            (index(n), dimension(n, 3)),
            "at {n}"
        );
    }
    Ok(())
}

#[test]
fn dimensions_in_the_greatest_characteristic(rt: HostRuntime) -> Result<(), Fail> {
    for n in LEVELS {
        assert_eq!(rt;
            count_and_dimension(rt.alloc(), n, 65521)?,
            (index(n), dimension(n, 65521)),
            "at {n}"
        );
    }
    Ok(())
}
