use crate::merel_sets::divisor_sum;
use heilbronn_chains::{chains, merel_by_chains, next, starts};
use heilbronn_sets::{SetFault, merel_set};
use p1_normal::Matrix;
use std::test::Fail;

// The matrix after a matrix, and the end of a chain.
#[test]
fn steps(rt: HostRuntime) -> Result<(), Fail> {
    assert_eq!(rt;
        next(&Matrix::new(1, 0, 3, 4)),
        Some(Matrix::new(2, 1, 2, 3))
    );
    assert_eq!(rt;
        next(&Matrix::new(2, 1, 2, 3)),
        Some(Matrix::new(3, 2, 1, 2))
    );
    assert_eq!(rt;
        next(&Matrix::new(3, 2, 1, 2)),
        Some(Matrix::new(4, 3, 0, 1))
    );
    assert_eq!(rt; next(&Matrix::new(4, 3, 0, 1)), None);
    assert_eq!(rt;
        next(&Matrix::new(1, 0, 1, 3)),
        Some(Matrix::new(3, 1, 0, 1))
    );
    Ok(())
}

// The chains of determinant 3, written out.
#[test]
fn chains_of_three(rt: HostRuntime) -> Result<(), Fail> {
    let expected: [&[(i32, i32, i32, i32)]; 4] = [
        &[(1, 0, 0, 3)],
        &[(1, 0, 1, 3), (3, 1, 0, 1)],
        &[(1, 0, 2, 3), (2, 1, 1, 2), (3, 2, 0, 1)],
        &[(3, 0, 0, 1)],
    ];
    let found = chains(rt.alloc(), 3)?;
    assert_eq!(rt; found.len(), expected.len());
    for (chain, list) in found.iter().zip(expected.iter()) {
        assert_eq!(rt; chain.as_slice().len(), list.len(), "the chain {list:?}");
        for (m, (a, b, c, d)) in chain.as_slice().iter().zip(list.iter()) {
            assert_eq!(rt;
                (m.a, m.b, m.c, m.d),
                (*a, *b, *c, *d),
                "in the chain {list:?}"
            );
        }
    }
    Ok(())
}

// The chains walk through Merel's set, and there are as many as the divisors add up to.
#[test]
fn sets_by_chains(rt: HostRuntime) -> Result<(), Fail> {
    for n in 1..13u32 {
        let set = merel_by_chains(rt.alloc(), n)?;
        let plain = merel_set(rt.alloc(), n)?;
        assert_eq!(rt;
            (set.det(), set.list().len()),
            (n, plain.list().len()),
            "of {n}"
        );
        for (m, k) in set.list().iter().zip(plain.list().iter()) {
            assert_eq!(rt; *m, *k, "of {n}");
        }
        assert_eq!(rt;
            starts(rt.alloc(), n)?.len(),
            divisor_sum(n as usize),
            "of {n}"
        );
        assert_eq!(rt;
            chains(rt.alloc(), n)?.len(),
            divisor_sum(n as usize),
            "of {n}"
        );
    }
    Ok(())
}

// 0 and 401 are refused, and 400 is not: the divisors of 400 add up to 961.
#[test]
fn limits(rt: HostRuntime) -> Result<(), Fail> {
    for n in [0, 401] {
        assert_eq!(rt;
            starts(rt.alloc(), n).err(),
            Some(SetFault::Limit { n }),
            "of {n}"
        );
        assert_eq!(rt;
            merel_by_chains(rt.alloc(), n).err(),
            Some(SetFault::Limit { n }),
            "of {n}"
        );
        assert!(rt;
            matches!(chains(rt.alloc(), n), Err(SetFault::Limit { n: 0 | 401 })),
            "of {n}"
        );
    }
    assert_eq!(rt; starts(rt.alloc(), 400)?.len(), 961);
    assert_eq!(rt; chains(rt.alloc(), 400)?.len(), 961);
    assert_eq!(rt; merel_by_chains(rt.alloc(), 400)?.det(), 400);
    Ok(())
}
