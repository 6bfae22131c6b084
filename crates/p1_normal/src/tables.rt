ghost use Rattle.std.specs.Prelude.{◌≡◌, ◌≢◌, ◌<◌, ◌≤◌, ℕ, ◌*◌, ◌+◌, ◌%◌, IfOk, IfErr, IsOk, OnOk, ◌↔◌, length};
ghost use Rattle.p1_normal.specs.Units.{gcd as gcd_of, IsUnit, units, fixing};
ghost use Rattle.p1_normal.specs.Points.{symbols, common_divisor, normal_form, number, IsBelow, IsNumber};
ghost use Rattle.p1_normal.specs.Tables.{
  IsHead,
  IsTurn,
  AreTurns,
  IsNumbering,
  Marks,
  IsFound,
};
ghost use Rattle.p1_normal.specs.Sieving.{Sieved};

use crate::divisor::gcd;
use crate::level::MAX_LEVEL;
use crate::point::{NotASymbol, Point};
use std::alloc::{AllocError, Global};

// The least multiple of a number by a unit, and that unit.
#[derive(Clone, Copy, Debug)]
pub struct Turn {
    pub head: u32,
    pub factor: u32,
}

// The units below n.
pub fn units_below(alloc: Global, n: u32) -> Result<Vec<u32>, AllocError>
    requires { 0 < n }
    ensures { IfOk result (λ list. list.items ≡ units n) }
{
    let mut list = Vec::new(alloc);
    for s in 0..n {
        if gcd(s, n) == 1 {
            list.push(s)?;
        }
    }
    Ok(list)
}

// A factor that takes u to the greatest common divisor of u and n, modulo n, by Euclid's steps: s u
// is x, and t u is y.
fn multiplier(n: u32, u: u32) -> u32
    requires level { (0 < n) × (n ≤ MAX_LEVEL) }
    requires below { u < n }
    ensures product { (result * u) % n ≡ gcd_of u n % n }
    ensures small { result ≤ n }
{
    let (mut x, mut y) = (n, u);
    let (mut s, mut t) = (0, 1);
    while y > 0 {
        let next = (s + x / y * (n - t)) % n;
        s = t;
        t = next;
        let rest = x % y;
        x = y;
        y = rest;
    }
    s
}

// What is left of n without the divisors that it shares with s.
fn coprime_part(n: u32, s: u32) -> u32
    requires { 0 < n }
    ensures coprime { gcd_of result s ≡ 1 }
    ensures units { (d : ℕ) → IsUnit d result → IsUnit d s → IsUnit d n }
    ensures small { result ≤ n }
{
    let mut rest = n;
    let mut shared = gcd(rest, s);
    while shared > 1 {
        rest /= shared;
        shared = gcd(rest, s);
    }
    rest
}

// The unit that turns u into the least of its multiples by units: the greatest common divisor of u
// and n, modulo n. Multiples of n / divisor may be added to a factor, and one of them makes it a unit.
fn turn_of(n: u32, u: u32) -> Turn
    requires level { (0 < n) × (n ≤ MAX_LEVEL) }
    requires below { u < n }
    ensures { IsTurn n u result }
{
    let divisor = gcd(u, n);
    let s = multiplier(n, u);
    Turn {
        head: divisor % n,
        factor: (s + coprime_part(n, s) * (n / divisor)) % n,
    }
}

// The turn of each number below n.
pub fn turns_below(alloc: Global, n: u32) -> Result<Vec<Turn>, AllocError>
    requires level { (0 < n) × (n ≤ MAX_LEVEL) }
    ensures { IfOk result (λ turns. AreTurns n turns.items) }
{
    let mut turns = Vec::new(alloc);
    for u in 0..n {
        turns.push(turn_of(n, u))?;
    }
    Ok(turns)
}

// The units that keep u.
fn units_fixing(alloc: Global, n: u32, multipliers: &[u32], u: u32) -> Result<Vec<u32>, AllocError>
    requires level { (0 < n) × (n ≤ MAX_LEVEL) }
    requires below { u < n }
    requires units { multipliers.now ≡ units n }
    ensures { IfOk result (λ list. list.items ≡ fixing n u) }
{
    let mut list = Vec::new(alloc);
    for s in multipliers {
        if *s * u % n == u {
            list.push(*s)?;
        }
    }
    Ok(list)
}

// Writes the number at each name of p in its row.
fn mark(numbers: &mut [u32], n: u32, kept: &[u32], p: Point, number: u32)
    requires level { (0 < n) × (n ≤ MAX_LEVEL) }
    requires room { p.u * n + n ≤ length numbers.old }
    requires kept { kept.now ≡ fixing n p.u }
    requires below { IsBelow n p }
    requires head { IsHead n p.u }
    ensures { Marks n p number numbers.old numbers.new }
{
    for s in kept {
        let v = *s * p.v % n;
        numbers[(p.u * n + v) as usize] = number;
    }
}

// Lists and numbers the symbols that begin with u.
fn number_row(
    n: u32,
    kept: &[u32],
    u: u32,
    points: &mut Vec<Point>,
    numbers: &mut [u32],
) -> Result<(), AllocError>
    requires level { (0 < n) × (n ≤ MAX_LEVEL) }
    requires below { u < n }
    requires head { IsHead n u }
    requires kept { kept.now ≡ fixing n u }
    requires before { Sieved n (u * n) points.old.items numbers.old }
    ensures sieved { OnOk result (Sieved n (u * n + n) points.new.items numbers.new) }
    ensures size { length numbers.new ≡ length numbers.old }
{
    let divisor = gcd(u, n);
    for v in 0..n {
        let p = Point { u, v };
        if numbers[(u * n + v) as usize] == 0 && gcd(v, divisor) == 1 {
            points.push(p)?;
            mark(numbers, n, kept, p, points.len() as u32);
        }
    }
    Ok(())
}

// One more than the greatest head.
fn heads_end(n: u32, turns: &[Turn]) -> u32
    requires turns { AreTurns n turns.now }
    ensures heads { (u : ℕ) → u < n → IsHead n u → u < result }
    ensures within { result ≤ n }
{
    let mut end = 0;
    for u in 0..n {
        if turns[u as usize].head == u {
            end = u + 1;
        }
    }
    end
}

// The symbols in order, and the table of their numbers.
pub fn numbered(
    alloc: Global,
    n: u32,
    multipliers: &[u32],
    turns: &[Turn],
) -> Result<(Vec<Point>, Vec<u32>), AllocError>
    requires level { (0 < n) × (n ≤ MAX_LEVEL) }
    requires units { multipliers.now ≡ units n }
    requires turns { AreTurns n turns.now }
    ensures { IfOk result (λ found. (found.0.items ≡ symbols n) × IsNumbering n found.1.items) }
{
    let mut points = Vec::new(alloc);
    let mut numbers = vec![in alloc; 0; (heads_end(n, turns) * n) as usize]?;
    for u in 0..n {
        if turns[u as usize].head == u {
            let kept = units_fixing(alloc, n, multipliers, u)?;
            number_row(n, &kept, u, &mut points, &mut numbers)?;
        }
    }
    Ok((points, numbers))
}

// What the tables say of p: 0 where it names no point, and otherwise the number after its symbol's.
fn look_up(n: u32, turns: &[Turn], numbers: &[u32], p: Point) -> u32
    requires level { (0 < n) × (n ≤ MAX_LEVEL) }
    requires turns { AreTurns n turns.now }
    requires numbering { IsNumbering n numbers.now }
    requires below { IsBelow n p }
    ensures none { result ≡ 0 → common_divisor n p ≢ 1 }
    ensures some { (k : ℕ) → result ≡ k + 1 → IsFound n p k }
{
    let turn = turns[p.u as usize];
    numbers[(turn.head * n + turn.factor * p.v % n) as usize]
}

// The number of the symbol that names the point of p.
pub fn find(n: u32, turns: &[Turn], numbers: &[u32], p: Point) -> Result<u32, NotASymbol>
    requires level { (0 < n) × (n ≤ MAX_LEVEL) }
    requires turns { AreTurns n turns.now }
    requires numbering { IsNumbering n numbers.now }
    requires below { IsBelow n p }
    ensures number { IfOk result (λ k. k ≡ number n (normal_form n p)) }
    ensures below { IfOk result (λ k. k < length (symbols n)) }
    ensures some { IsOk result ↔ (common_divisor n p ≡ 1) }
    ensures none { IfErr result (λ e. e.g ≡ common_divisor n p) }
{
    let found = look_up(n, turns, numbers, p);
    if found == 0 {
        Err(NotASymbol {
            g: gcd(gcd(p.u, p.v), n),
        })
    } else {
        Ok(found - 1)
    }
}

// The same where p is known to name a point.
pub fn number_of(n: u32, turns: &[Turn], numbers: &[u32], p: Point) -> u32
    requires level { (0 < n) × (n ≤ MAX_LEVEL) }
    requires turns { AreTurns n turns.now }
    requires numbering { IsNumbering n numbers.now }
    requires below { IsBelow n p }
    requires names { common_divisor n p ≡ 1 }
    ensures number { result ≡ number n (normal_form n p) }
    ensures below { result < length (symbols n) }
{
    look_up(n, turns, numbers, p) - 1
}
