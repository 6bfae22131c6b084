use heilbronn_sets::{MatrixSet, SetFault, merel_set};
use p1_normal::Matrix;
use std::alloc::Global;
use std::test::Fail;

// What workers share may be sent and shared.
fn needs<T: Send + Sync>(_: &T) {}

// How many matrices of a list have b = 0.
fn starts(list: &[Matrix]) -> usize {
    list.iter().filter(|m| m.b == 0).count()
}

/// The sum of the divisors of n, by trial.
pub fn divisor_sum(n: usize) -> usize {
    let mut sum = 0usize;
    for d in 0..n {
        if n % (d + 1) == 0 {
            sum = sum.saturating_add(d + 1);
        }
    }
    sum
}

// Whether Merel's set of n is this list.
fn is_merel_set(alloc: Global, n: u32, list: &[(i32, i32, i32, i32)]) -> Result<bool, Fail> {
    let set = merel_set(alloc, n)?;
    needs(&set);
    let same = |(m, k): (&Matrix, &(i32, i32, i32, i32))| (m.a, m.b, m.c, m.d) == *k;
    Ok(set.list().len() == list.len() && set.list().iter().zip(list.iter()).all(same))
}

// Small sets, written out.
#[test]
fn small_merel_sets(rt: HostRuntime) -> Result<(), Fail> {
    let lists: [&[(i32, i32, i32, i32)]; 3] = [
        &[(1, 0, 0, 1)],
        &[(1, 0, 0, 2), (1, 0, 1, 2), (2, 0, 0, 1), (2, 1, 0, 1)],
        &[
            (1, 0, 0, 3),
            (1, 0, 1, 3),
            (1, 0, 2, 3),
            (2, 1, 1, 2),
            (3, 0, 0, 1),
            (3, 1, 0, 1),
            (3, 2, 0, 1),
        ],
    ];
    for (i, list) in lists.iter().enumerate() {
        assert!(rt; is_merel_set(rt.alloc(), i as u32 + 1, list)?, "at {i}");
    }
    Ok(())
}

// The determinant of Merel's set of n, its length, and how many of its matrices begin a chain.
fn counts(alloc: Global, n: u32) -> Result<(u32, usize, usize), Fail> {
    let set = merel_set(alloc, n)?;
    Ok((set.det(), set.list().len(), starts(set.list())))
}

// As many matrices begin a chain as the divisors of n add up to.
#[test]
fn beginnings_of_chains(rt: HostRuntime) -> Result<(), Fail> {
    assert_eq!(rt; counts(rt.alloc(), 4)?, (4, 13, 7));
    for n in 1..21u32 {
        let (det, _, count) = counts(rt.alloc(), n)?;
        assert_eq!(rt; (det, count), (n, divisor_sum(n as usize)), "of {n}");
    }
    Ok(())
}

#[test]
fn sets_out_of_range(rt: HostRuntime) -> Result<(), Fail> {
    for n in [0, 401] {
        assert_eq!(rt;
            merel_set(rt.alloc(), n).err(),
            Some(SetFault::Limit { n }),
            "of {n}"
        );
    }
    Ok(())
}

// The fault of a list of a matrix of determinant 2 and another, or of the other alone.
fn fault_of(
    alloc: Global,
    det: u32,
    with_first: bool,
    entries: (i32, i32, i32, i32),
) -> Result<Option<SetFault>, Fail> {
    let mut list = Vec::new(alloc);
    if with_first {
        list.push(Matrix::new(1, 0, 1, 2))?;
    }
    let (a, b, c, d) = entries;
    list.push(Matrix::new(a, b, c, d))?;
    Ok(MatrixSet::of(det, list).err())
}

// The first fault of a list, its determinant before its matrices and an entry before a determinant.
#[test]
fn sets_of_lists(rt: HostRuntime) -> Result<(), Fail> {
    let cases: [(u32, (i32, i32, i32, i32), Option<SetFault>); 6] = [
        (2, (1, 0, 0, 2), None),
        (2, (1, 0, 0, 1), Some(SetFault::Determinant { place: 1 })),
        (2, (-1001, 0, 0, 2), Some(SetFault::Entry { place: 1 })),
        (2, (1000, 0, 0, 2), Some(SetFault::Determinant { place: 1 })),
        (0, (1, 0, 0, 2), Some(SetFault::Limit { n: 0 })),
        (401, (1, 0, 0, 401), Some(SetFault::Limit { n: 401 })),
    ];
    for (det, entries, fault) in cases {
        assert_eq!(rt;
            fault_of(rt.alloc(), det, true, entries)?,
            fault,
            "of {entries:?} and {det}"
        );
    }
    assert_eq!(rt;
        fault_of(rt.alloc(), 2, false, (1001, 0, 0, 2))?,
        Some(SetFault::Entry { place: 0 })
    );
    Ok(())
}

// A list that is not Merel's.
#[test]
fn set_of_one_matrix(rt: HostRuntime) -> Result<(), Fail> {
    let mut list = Vec::new(rt.alloc());
    list.push(Matrix::new(3, 1, 1, 1))?;
    let set = MatrixSet::of(2, list)?;
    assert_eq!(rt; (set.det(), set.list().len()), (2, 1));
    assert!(rt; set.list().iter().all(|m| *m == Matrix::new(3, 1, 1, 1)));
    Ok(())
}
