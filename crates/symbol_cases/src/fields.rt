use field_table::*;

// The workers of a host share these.
fn is_shared<T: Send + Sync>(_value: &T) {}

// A failed push gives its value up.
fn pushed(list: &mut Vec<u32>) -> Result<(), OutOfMemory> {
    list.push(1)?;
    Ok(())
}

#[test]
fn fields_give_residues(rt: HostRuntime) {
    assert_eq!(rt; Field::open(6), Err(FieldFault::NotListed { p: 6 }));
    let field = Field::open(101).unwrap();
    is_shared(&field);
    assert_eq!(rt; field.characteristic(), 101);
    assert_eq!(rt; field.residue(-203), 100);
    assert_eq!(rt; field.add(100, 3), 2);
    assert_eq!(rt; field.sub(1, 3), 99);
    assert_eq!(rt; field.mul(100, 100), 1);
    assert_eq!(rt; field.neg(0), 0);
    assert_eq!(rt; field.inverse(3), Some(34));
    assert_eq!(rt; field.inverse(0), None);
}

#[test]
fn loops_over_lists(rt: HostRuntime) {
    let small = Field::open(3).unwrap();
    let mut sum = [1, 2, 0];
    axpy(small, &mut sum, 2, &[1, 1, 1]);
    assert!(rt; sum == [0, 1, 2]);
    let great = Field::open(65521).unwrap();
    let mut sum = [0, 65520, 1];
    axpy(great, &mut sum, 65520, &[65520, 1, 1]);
    assert!(rt; sum == [1, 65519, 0]);
    axpy_sparse(great, &mut sum, 2, &[(0, 5), (2, 65520)]);
    assert!(rt; sum == [11, 65519, 65519]);
    scale(great, &mut sum, 65520);
    assert!(rt; sum == [65510, 2, 2]);
    assert_eq!(rt; dot(great, &[65520, 65520, 2], &[65520, 65520, 3]), 8);
    assert_eq!(rt; dot(small, &[], &[]), 0);
}

// The same loops at the greatest prime below 2^24, where a product of two residues passes 32 bits.
#[test]
fn loops_at_the_greatest_characteristic(rt: HostRuntime) {
    let great = Field::open(16777213).unwrap();
    assert_eq!(rt; great.mul(16777212, 16777212), 1);
    let mut sum = [0, 16777212, 1];
    axpy(great, &mut sum, 16777212, &[16777212, 1, 1]);
    assert!(rt; sum == [1, 16777211, 0]);
    scale(great, &mut sum, 16777212);
    assert!(rt; sum == [16777212, 2, 0]);
    assert_eq!(rt;
        dot(great, &[16777212, 16777212, 2], &[16777212, 16777212, 3]),
        8
    );
}

#[test]
fn combinations_of_terms(rt: HostRuntime) -> Result<(), OutOfMemory> {
    let field = Field::open(101).unwrap();
    let combo = Combo::from_terms(rt.alloc(), field, &[(4, 1), (3, -1), (4, 100)])?;
    is_shared(&combo);
    assert!(rt; combo.terms() == [(3, 100)].as_slice());
    let listed = Combo::from_dense(rt.alloc(), &[0, 7, 0, 9])?;
    assert!(rt; listed.into_terms().as_slice() == [(1, 7), (3, 9)].as_slice());
    Ok(())
}

// What a list of residues is made from, and gives back.
#[test]
fn lists_of_residues(rt: HostRuntime) -> Result<(), OutOfMemory> {
    let mut list = vec![in rt.alloc(); 5, 6]?;
    pushed(&mut list)?;
    let residues = Residues::of(list);
    is_shared(&residues);
    assert!(rt; residues.as_slice() == [5, 6, 1].as_slice());
    assert_eq!(rt; residues.into_vec().len(), 3);
    Ok(())
}

// The laws are calls of their own.
#[test]
fn laws(_rt: HostRuntime) {
    characteristics_are_primes();
    nonzero_residues_have_inverses();
}

// Places 4 and 2 below 6, in this order.
#[test]
fn table_of_places(rt: HostRuntime) -> Result<(), OutOfMemory> {
    let mut table = PlaceTable::none(rt.alloc(), 6)?;
    is_shared(&table);
    table.push(4)?;
    table.push(2)?;
    assert_eq!(rt; table.count(), 2);
    assert_eq!(rt; table.place(1), 2);
    assert_eq!(rt; table.number_of(4), Some(0));
    assert_eq!(rt; table.number_of(3), None);
    assert_eq!(rt; table.number_of(6), None);
    Ok(())
}

// Modulo 7, 3 at 1 and 2 at 4 with 5 times 1 at 0, 1 at 4 and 4 at 5 added: 2 + 5 is 0 at 4, and 5 times 4 is 6.
#[test]
fn sums_of_terms(rt: HostRuntime) -> Result<(), OutOfMemory> {
    let field = Field::open(7).unwrap();
    let sum = plus_multiple(
        rt.alloc(),
        field,
        &[(1, 3), (4, 2)],
        5,
        &[(0, 1), (4, 1), (5, 4)],
    )?;
    assert!(rt; sum.terms() == [(0, 5), (1, 3), (5, 6)].as_slice());
    assert_eq!(rt; (sum.at(1), sum.at(4)), (3, 0));
    assert!(rt; sum.is_within(6, 7));
    assert!(rt; !sum.is_within(5, 7));
    assert!(rt; !sum.is_within(6, 6));
    let product = product(rt.alloc(), field, 5, &[(1, 3), (4, 2)])?;
    assert!(rt; product.terms() == [(1, 1), (4, 3)].as_slice());
    Ok(())
}
