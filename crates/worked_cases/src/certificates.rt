use crate::ranges::are_below;
use crate::spaces::space_at;
use field_table::{Combo, Field, OutOfMemory, Residues};
use quotient_coords::{Certificate, Space};
use std::alloc::Global;
use std::test::Fail;

// The certificate with the number of its trace at a place raised by 1.
fn raised(
    alloc: Global,
    field: Field,
    certificate: &Certificate,
    place: u32,
) -> Result<Certificate, OutOfMemory> {
    let mut trace = Vec::new(alloc);
    for term in certificate.trace.terms() {
        trace.push((term.0, i64::from(term.1)))?;
    }
    trace.push((place, 1))?;
    Ok(Certificate {
        combo: Combo::of(Vec::from_slice(alloc, certificate.combo.terms())?),
        coords: Residues::of(Vec::from_slice(alloc, certificate.coords.as_slice())?),
        trace: Combo::from_terms(alloc, field, &trace)?,
    })
}

// Whether some certificate with one number of the trace raised by 1 passes the check.
fn some_raised_passes(
    alloc: Global,
    space: &Space,
    certificate: &Certificate,
) -> Result<bool, OutOfMemory> {
    for term in certificate.trace.terms() {
        let other = raised(alloc, space.field(), certificate, term.0)?;
        if space.check(&other) {
            return Ok(true);
        }
    }
    Ok(false)
}

// Whether the certificate of the terms passes the check, has a trace, and passes no more when it is
// raised.
fn only_the_certificate_passes(
    alloc: Global,
    space: &Space,
    terms: &[(u32, i64)],
) -> Result<bool, OutOfMemory> {
    let field = space.field();
    let combo = Combo::from_terms(alloc, field, terms)?;
    if !are_below(combo.terms(), space.level().count(), field.characteristic()) {
        return Ok(false);
    }
    let certificate = space.certify(alloc, &combo)?;
    Ok(
        space.check(&certificate)
            && !certificate.trace.terms().is_empty()
            && !some_raised_passes(alloc, space, &certificate)?,
    )
}

// The last symbol of a prime level n has the number n; it is (1:-1), which is congruent to 0 and so
// never free. Kept relations are independent, so a trace can't be changed at any one of them.
#[test]
fn certificates_pass_and_raised_ones_fail(rt: HostRuntime) -> Result<(), Fail> {
    for (n, p) in [(11, 101), (11, 65521), (389, 101), (389, 65521)] {
        let space = space_at(rt.alloc(), n, p)?;
        for terms in [
            [(n, 1), (0, 0), (0, 0)],
            [(1, 1), (6, -2), (n, 7)],
            [(5, 100), (9, 3), (n, -1)],
        ] {
            assert!(rt;
                only_the_certificate_passes(rt.alloc(), &space, &terms)?,
                "at {n} {p}"
            );
        }
    }
    Ok(())
}
