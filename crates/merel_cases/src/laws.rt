use commuting_operators::{
    matrices_are_polynomials, merel_sets_are_never_refused, operators_commute,
};
use merel_theorem::{
    hecke_polynomials_have_prime_divisors, matrices_join_ways, merel_sums_are_polynomials,
    merel_sums_commute, merel_sums_multiply, merel_sums_recur, merel_sums_respect_relations,
    prime_powers_are_the_factorisation, small_hecke_polynomials, star_commutes_with_merel_sums,
};

// The laws are calls of their own.
#[test]
fn laws_of_sums(_rt: HostRuntime) {
    matrices_join_ways();
    merel_sums_respect_relations();
    merel_sums_commute();
    star_commutes_with_merel_sums();
}

#[test]
fn laws_of_products(_rt: HostRuntime) {
    merel_sums_multiply();
    merel_sums_recur();
}

#[test]
fn laws_of_operators(_rt: HostRuntime) {
    merel_sets_are_never_refused();
    operators_commute();
}

#[test]
fn laws_of_polynomials(_rt: HostRuntime) {
    merel_sums_are_polynomials();
    hecke_polynomials_have_prime_divisors();
    matrices_are_polynomials();
}

#[test]
fn laws_of_factorisations(_rt: HostRuntime) {
    prime_powers_are_the_factorisation();
    small_hecke_polynomials();
}
