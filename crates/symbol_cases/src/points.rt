use p1_normal::{Level, LevelFault, Matrix, NotASymbol, Point, gcd, small_levels};
use std::alloc::Global;
use std::test::Fail;

// What workers share may be sent and shared.
fn needs<T: Send + Sync>(_: &T) {}

// What S, T, U and star make of symbol k.
fn moves(level: &Level, k: u32) -> Option<(u32, u32, u32, u32)> {
    if k < level.count() {
        Some((
            level.s_of(k),
            level.t_of(k),
            level.u_of(k),
            level.star_of(k),
        ))
    } else {
        None
    }
}

// Symbol k times a matrix of determinant 2.
fn doubled(level: &Level, k: u32) -> Option<u32> {
    let n = level.modulus();
    if k < level.count() && gcd(2 % n, n) == 1 {
        Some(level.act(
            k,
            &Matrix {
                a: 2,
                b: 1,
                c: 0,
                d: 1,
            },
        ))
    } else {
        None
    }
}

// The law is a call of its own.
#[test]
fn laws(_rt: HostRuntime) {
    small_levels();
}

// The level and the number of its symbols.
fn counted(alloc: Global, n: u32) -> Result<(u32, u32), Fail> {
    let level = Level::open(alloc, n)?;
    needs(&level);
    Ok((level.modulus(), level.count()))
}

// The levels and the numbers of their symbols by the product formula.
#[test]
fn levels(rt: HostRuntime) -> Result<(), Fail> {
    for (n, count) in [
        (1, 1),
        (4, 6),
        (11, 12),
        (12, 24),
        (64, 96),
        (420, 1152),
        (499, 500),
        (500, 900),
        (501, 672),
        (990, 2592),
        (997, 998),
        (1000, 1800),
    ] {
        assert_eq!(rt; counted(rt.alloc(), n)?, (n, count));
    }
    Ok(())
}

#[test]
fn levels_out_of_range(rt: HostRuntime) -> Result<(), Fail> {
    for n in [0, 1001] {
        assert_eq!(rt;
            Level::open(rt.alloc(), n).err(),
            Some(LevelFault::Limit { n }),
            "level {n}"
        );
    }
    Ok(())
}

#[test]
fn all_symbols_of_420(rt: HostRuntime) -> Result<(), Fail> {
    let level = Level::open(rt.alloc(), 420)?;
    let mut last = Point { u: 0, v: 0 };
    for k in 0..level.count() {
        let p = level.symbol(k);
        assert!(rt; (last.u, last.v) < (p.u, p.v), "{k} is not after the last");
        assert_eq!(rt;
            level.index(i64::from(p.u), i64::from(p.v)),
            Ok(k),
            "of {k}"
        );
        assert_eq!(rt;
            level.normal(-i64::from(p.u), -i64::from(p.v)),
            Ok(p),
            "of {k}"
        );
        last = p;
    }
    Ok(())
}

#[test]
fn points_of_11(rt: HostRuntime) -> Result<(), Fail> {
    let level = Level::open(rt.alloc(), 11)?;
    for (u, v, p) in [(22, 7, (0, 1)), (3, 1, (1, 4)), (-1, 2, (1, 9))] {
        assert_eq!(rt;
            level.normal(u, v),
            Ok(Point { u: p.0, v: p.1 }),
            "of {u} and {v}"
        );
    }
    assert_eq!(rt; level.normal(0, 0), Err(NotASymbol { g: 11 }));
    assert_eq!(rt; level.index(1, 3), Ok(4));
    Ok(())
}

#[test]
fn points_of_4(rt: HostRuntime) -> Result<(), Fail> {
    let four = Level::open(rt.alloc(), 4)?;
    assert_eq!(rt; four.normal(2, 3), Ok(Point { u: 2, v: 1 }));
    assert_eq!(rt; four.normal(2, i64::MIN), Err(NotASymbol { g: 2 }));
    Ok(())
}

#[test]
fn moves_of_11(rt: HostRuntime) -> Result<(), Fail> {
    let level = Level::open(rt.alloc(), 11)?;
    for (k, image) in [
        (0, (1, 11, 0, 0)),
        (1, (0, 0, 2, 1)),
        (4, (8, 7, 5, 9)),
        (11, (2, 1, 1, 2)),
    ] {
        assert_eq!(rt; moves(&level, k), Some(image), "of {k}");
    }
    assert_eq!(rt; doubled(&level, 3), Some(8));
    Ok(())
}
