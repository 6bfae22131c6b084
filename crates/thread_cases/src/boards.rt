ghost use Rattle.std.specs.Prelude.{◌≡◌, ◌+◌, ◌<◌, ◌^◌, [], ◌∷◌, ◌++◌, false, length, if◌then◌else◌};
ghost use Rattle.std.specs.List.{AllZip, range_with_len};
ghost use Rattle.turn_board.specs.Passes.{Continues, IsIdle, IsOf, pass_count, view};

use std::alloc::{AllocError, Global};
use std::sync::Wait;
use std::test::Fail;
use std::thread;
use turn_board::{Board, BoardFault, Kept, Pass};

/// What one thread does at one turn: who it is, and how often it was there before.
#[derive(Clone, Copy, Debug, PartialEq, Eq)]
struct Stamp {
    maker: u32,
    number: u32,
}

#[derive(Drop)]
struct Stamps {
    list: Vec<Stamp>,
}

impl Kept for Stamps {
    type Entry = Stamp;

    ghost entries = { λ _ s. s.list.items };

    ghost maker = { λ stamp. stamp.maker };

    ghost label = { λ _. [] };

    fn length(&self) -> u64 {
        self.list.len() as u64
    }
}

impl Stamps {
    // One more, if there is memory.
    fn add(&mut self, stamp: Stamp) -> bool
        ensures { self.new.list.items
            ≡ (if result then self.old.list.items ++ stamp ∷ [] else self.old.list.items) }
    {
        self.list.push(stamp).is_ok()
    }
}

// One turn, which makes one entry.
fn stamp_once<R: Wait>(rt: &R, board: &Board<Stamps>, pass: &mut Pass<Stamps>, number: u32) -> bool
    requires board { IsOf board.now pass.old }
    requires idle { (view pass.old).has_turn ≡ false }
    ensures later { Continues pass.old pass.new }
    ensures idle { (view pass.new).has_turn ≡ false }
{
    let maker = pass.number() + 1;
    let mut held = board.take(rt, pass);
    let added = held.state().add(Stamp { maker, number });
    board.give(pass, held);
    added
}

// So many turns, one after the other.
fn stamp_often<R: Wait>(rt: &R, board: &Board<Stamps>, pass: &mut Pass<Stamps>, times: u32) -> bool
    requires board { IsOf board.now pass.old }
    requires idle { (view pass.old).has_turn ≡ false }
    ensures later { Continues pass.old pass.new }
    ensures idle { (view pass.new).has_turn ≡ false }
{
    let mut all_added = true;
    for number in 0..times {
        let added = stamp_once(rt, board, pass, number);
        all_added = all_added && added;
    }
    all_added
}

// The state of a board with two passes.
fn close_two(
    alloc: Global,
    board: Board<Stamps>,
    first: Pass<Stamps>,
    second: Pass<Stamps>,
) -> Result<Stamps, AllocError>
    requires count { pass_count board ≡ 2 }
    requires board { IsOf board first × IsOf board second }
    requires numbers { ((view first).number ≡ 0) × ((view second).number ≡ 1) }
    requires idle { ((view first).has_turn ≡ false) × ((view second).has_turn ≡ false) }
{
    let mut passes = Vec::with_capacity(alloc, 2)?;
    passes.push_reserved(first);
    passes.push_reserved(second);
    Ok(board.close(passes))
}

// One turn of the pass at a place.
fn stamp_at<R: Wait>(
    rt: &R,
    board: &Board<Stamps>,
    passes: &mut [Pass<Stamps>],
    place: usize,
    number: u32,
) -> bool
    requires place { place < length passes.old }
    requires idle { AllZip (IsIdle board.now) (range_with_len 0 8) passes.old }
    ensures idle { AllZip (IsIdle board.now) (range_with_len 0 8) passes.new }
{
    stamp_once(rt, board, &mut passes[place], number)
}

// Turns of the passes 6, 1, 6 and 3; the other five never take one.
fn some_take_turns<R: Wait>(rt: &R, board: &Board<Stamps>, passes: &mut [Pass<Stamps>]) -> bool
    requires idle { AllZip (IsIdle board.now) (range_with_len 0 8) passes.old }
    ensures idle { AllZip (IsIdle board.now) (range_with_len 0 8) passes.new }
{
    let mut all_added = true;
    for (number, place) in [(0, 6), (1, 1), (2, 6), (3, 3)] {
        if place < passes.len() {
            all_added = stamp_at(rt, board, passes, place, number) && all_added;
        }
    }
    all_added
}

// The state of a board with eight passes.
fn close_eight(board: Board<Stamps>, passes: Vec<Pass<Stamps>>) -> Stamps
    requires count { pass_count board ≡ 8 }
    requires idle { AllZip (IsIdle board) (range_with_len 0 8) passes.items }
{
    board.close(passes)
}

// The numbers of a maker's entries rise from 0 in single steps.
fn in_order(list: &[Stamp], maker: u32) -> bool {
    let mut next = 0u64;
    for stamp in list {
        if stamp.maker == maker {
            if u64::from(stamp.number) != next {
                return false;
            }
            next += 1;
        }
    }
    next == 100
}

#[test]
fn two_threads_take_turns(rt: HostRuntime) -> Result<(), Fail> {
    let list = Vec::with_capacity(rt.alloc(), 200)?;
    let Ok((board, mut passes)) = Board::open(rt.alloc(), Stamps { list }, 2) else {
        panic!(rt; "there was no memory")
    };
    let (Some(mut second), Some(mut first)) = (passes.pop(), passes.pop()) else {
        panic!(rt; "there are two passes")
    };
    let (by_first, by_second) = thread::join_mut(
        &rt,
        &mut || stamp_often(&rt, &board, &mut first, 100),
        &mut || stamp_often(&rt, &board, &mut second, 100),
    );
    assert!(rt; by_first && by_second);
    assert!(rt; first.number() == 0 && second.number() == 1);
    let Stamps { list } = close_two(rt.alloc(), board, first, second)?;
    assert!(rt; list.len() == 200);
    assert!(rt; in_order(&list, 1) && in_order(&list, 2));
    Ok(())
}

#[test]
fn one_turn_after_the_other(rt: HostRuntime) -> Result<(), Fail> {
    let list = Vec::new(rt.alloc());
    let Ok((board, mut passes)) = Board::open(rt.alloc(), Stamps { list }, 2) else {
        panic!(rt; "there was no memory")
    };
    let (Some(mut second), Some(mut first)) = (passes.pop(), passes.pop()) else {
        panic!(rt; "there are two passes")
    };
    let Ok(mut held) = board.try_take(&mut first) else {
        panic!(rt; "the turn was free")
    };
    match board.try_take(&mut second) {
        Ok(other) => {
            board.give(&mut second, other);
            panic!(rt; "the turn was taken")
        }
        Err(busy) => assert!(rt; busy.by == 1),
    }
    let stamp = Stamp {
        maker: 1,
        number: 7,
    };
    assert!(rt; held.state().add(stamp));
    board.give(&mut first, held);
    assert!(rt; board.count(&mut second) == 1);
    let Ok(mut held) = board.try_take(&mut second) else {
        panic!(rt; "the turn was given back")
    };
    assert!(rt; held.state().list.as_slice() == [stamp].as_slice());
    board.give(&mut second, held);
    assert!(rt; first.seen_length() == 1 && second.seen_length() == 1);
    let Stamps { list } = close_two(rt.alloc(), board, first, second)?;
    assert!(rt; list.as_slice() == [stamp].as_slice());
    Ok(())
}

// Of eight passes three take turns, and the entries are theirs, in the order of the turns.
#[test]
fn some_of_eight_take_turns(rt: HostRuntime) -> Result<(), Fail> {
    let list = Vec::with_capacity(rt.alloc(), 4)?;
    let Ok((board, mut passes)) = Board::open(rt.alloc(), Stamps { list }, 8) else {
        panic!(rt; "there was no memory")
    };
    assert!(rt; some_take_turns(&rt, &board, &mut passes));
    let Stamps { list } = close_eight(board, passes);
    let expected = [(7, 0), (2, 1), (7, 2), (4, 3)];
    assert_eq!(rt; list.len(), expected.len());
    for (stamp, (maker, number)) in list.iter().zip(expected.iter()) {
        assert_eq!(rt;
            (stamp.maker, stamp.number),
            (*maker, *number),
            "the stamp {number} of {maker}"
        );
    }
    Ok(())
}

// Where memory is refused the state comes back, with the room that it had.
#[test]
fn refused_memory_gives_the_state_back(rt: HostRuntime) -> Result<(), Fail> {
    let list = Vec::with_capacity(rt.alloc(), 7)?;
    match Board::open(rt.alloc(), Stamps { list }, 3) {
        Ok((_board, passes)) => assert_eq!(rt; passes.len(), 3),
        Err(BoardFault::OutOfMemory { state }) => assert!(rt; state.list.capacity() >= 7),
    }
    Ok(())
}
