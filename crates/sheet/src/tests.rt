// What a board takes and refuses, at the edges.
use crate::board::Board;
use crate::edit::Edit;
use crate::pair::{Direction, Pair};
use fault::Fault;
use std::process::Abort;
use std::test::Fail;

// The words of kinds 2 and 3 with no fields.
const KINDS: [u32; 2] = [0x2000_0000, 0x3000_0000];

// A board with two rooms, the first west of the second.
fn joined() -> Result<Board, Fail> {
    let mut board = Board::new();
    board.enter(0x1000_0007)?;
    board.enter(0x1000_0009)?;
    board.enter(0x2000_0102)?;
    Ok(board)
}

// A board with so many rooms, at most 200, each with its number as its use.
fn furnished(rooms: u32) -> Result<Board, Fail> {
    let mut board = Board::new();
    for room in 1..=rooms.min(200) {
        board.enter(0x1000_0000 + room)?;
    }
    Ok(board)
}

// The board holds just these uses and these pairs, in their order.
fn holds(rt: &impl Abort, board: &Board, uses: &[u8], words: &[u32]) {
    assert_eq!(rt; board.rooms(), uses.len());
    assert_eq!(rt; board.pairs(), words.len());
    for (i, purpose) in uses.iter().enumerate() {
        assert_eq!(rt; board.use_of(i + 1), Some(*purpose));
    }
    for (i, word) in words.iter().enumerate() {
        assert_eq!(rt; board.pair_word(i), Some(*word));
    }
}

// The word is neither entered nor struck, for this reason.
fn refused(rt: &impl Abort, board: &mut Board, word: u32, fault: Fault) {
    assert_eq!(rt; board.enter(word), Err(fault), "enter {word:08x}");
    assert_eq!(rt; board.strike(word), Err(fault), "strike {word:08x}");
}

#[test]
fn refuses_other_kinds(rt: HostRuntime) -> Result<(), Fail> {
    let mut board = joined()?;
    for kind in [0, 4, 5, 6, 7, 8, 9, 10, 11, 12, 13, 14, 15u32] {
        refused(&rt, &mut board, (kind << 28) + 0x0102, Fault::WrongKind);
        refused(
            &rt,
            &mut board,
            (kind << 28) + 0x0fff_ffff,
            Fault::WrongKind,
        );
    }
    assert_eq!(rt; board.strike(0x1000_0007), Err(Fault::WrongKind));
    assert_eq!(rt; board.strike(0x1000_0102), Err(Fault::WrongKind));
    holds(&rt, &board, &[7, 9], &[0x2000_0102]);
    Ok(())
}

#[test]
fn takes_uses_from_1_to_255(rt: HostRuntime) {
    let mut board = Board::new();
    assert_eq!(rt; board.enter(0x1000_0000), Err(Fault::OutOfRange));
    assert_eq!(rt; board.enter(0x1000_0001), Ok(()));
    assert_eq!(rt; board.enter(0x1000_00ff), Ok(()));
    for bit in 8..28u32 {
        assert_eq!(rt;
            board.enter(0x1000_0007 + (1 << bit)),
            Err(Fault::OutOfRange),
            "{}",
            bit
        );
    }
    holds(&rt, &board, &[1, 255], &[]);
}

#[test]
fn refuses_pairs_out_of_range(rt: HostRuntime) -> Result<(), Fail> {
    let mut board = joined()?;
    for kind in KINDS {
        for bit in 16..28u32 {
            refused(
                &rt,
                &mut board,
                kind + 0x0102 + (1 << bit),
                Fault::OutOfRange,
            );
        }
        // room 0, and rooms that are not held, as the first, as the second, and as both
        for rooms in [
            0x0002, 0x0100, 0x0000, 0x0302, 0x0103, 0x0303, 0xff01, 0x01ff,
        ] {
            refused(&rt, &mut board, kind + rooms, Fault::OutOfRange);
        }
    }
    holds(&rt, &board, &[7, 9], &[0x2000_0102]);
    Ok(())
}

#[test]
fn holds_200_rooms(rt: HostRuntime) -> Result<(), Fail> {
    let mut board = furnished(199)?;
    refused(&rt, &mut board, 0x2000_01c8, Fault::OutOfRange);
    assert_eq!(rt; board.enter(0x1000_00c8), Ok(()));
    assert_eq!(rt; board.enter(0x1000_0007), Err(Fault::Full));
    assert_eq!(rt; board.enter(0x1000_0000), Err(Fault::OutOfRange));
    assert_eq!(rt; board.rooms(), 200);
    for room in 1..=200u8 {
        assert_eq!(rt; board.use_of(usize::from(room)), Some(room));
    }
    assert_eq!(rt; board.use_of(201), None);
    refused(&rt, &mut board, 0x2000_01c9, Fault::OutOfRange);
    assert_eq!(rt; board.enter(0x2000_01c8), Ok(()));
    Ok(())
}

#[test]
fn holds_600_pairs(rt: HostRuntime) -> Result<(), Fail> {
    let mut board = furnished(200)?;
    for (first, last) in [(1, 200), (2, 200), (3, 200), (4, 10u32)] {
        for second in first + 1..=last {
            assert_eq!(rt; board.enter(0x2000_0000 + first * 256 + second), Ok(()));
        }
    }
    assert_eq!(rt; board.pairs(), 600);
    // a new pair, a room with itself, and rooms that are joined
    for rooms in [0x040b, 0x0505, 0x0102, 0x0201, 0x040a] {
        assert_eq!(rt; board.enter(0x2000_0000 + rooms), Err(Fault::Full));
        assert_eq!(rt; board.enter(0x3000_0000 + rooms), Err(Fault::Full));
    }
    assert_eq!(rt; board.enter(0x2000_0001), Err(Fault::OutOfRange));
    assert_eq!(rt; board.pairs(), 600);
    assert_eq!(rt; board.pair_word(599), Some(0x2000_040a));
    assert_eq!(rt; board.pair_word(600), None);
    assert_eq!(rt; board.strike(0x2000_0102), Ok(()));
    assert_eq!(rt; board.pair_word(598), Some(0x2000_040a));
    assert_eq!(rt; board.pair_word(599), None);
    assert_eq!(rt; board.enter(0x3000_0201), Ok(()));
    assert_eq!(rt; board.pair_word(599), Some(0x3000_0201));
    Ok(())
}

#[test]
fn joins_two_rooms_once(rt: HostRuntime) {
    let mut board = Board::new();
    for purpose in [7, 9, 11] {
        assert_eq!(rt; board.enter(0x1000_0000 + purpose), Ok(()));
    }
    assert_eq!(rt; board.enter(0x2000_0102), Ok(()));
    assert_eq!(rt; board.enter(0x3000_0203), Ok(()));
    for kind in KINDS {
        for rooms in [0x0101, 0x0202, 0x0303] {
            assert_eq!(rt; board.enter(kind + rooms), Err(Fault::SameRoom));
        }
        for rooms in [0x0102, 0x0201, 0x0203, 0x0302] {
            assert_eq!(rt; board.enter(kind + rooms), Err(Fault::AlreadyJoined));
        }
    }
    assert_eq!(rt; board.enter(0x3000_0301), Ok(()));
    holds(
        &rt,
        &board,
        &[7, 9, 11],
        &[0x2000_0102, 0x3000_0203, 0x3000_0301],
    );
}

#[test]
fn strikes_only_what_is_held(rt: HostRuntime) -> Result<(), Fail> {
    let mut board = joined()?;
    assert_eq!(rt; board.enter(0x1000_000b), Ok(()));
    // the other kind, the rooms exchanged, both, rooms with no pair, a room with itself
    for word in [
        0x3000_0102,
        0x2000_0201,
        0x3000_0201,
        0x2000_0103,
        0x2000_0101,
    ] {
        assert_eq!(rt; board.strike(word), Err(Fault::NotHeld), "{}", word);
    }
    holds(&rt, &board, &[7, 9, 11], &[0x2000_0102]);
    assert_eq!(rt; board.strike(0x2000_0102), Ok(()));
    assert_eq!(rt; board.strike(0x2000_0102), Err(Fault::NotHeld));
    holds(&rt, &board, &[7, 9, 11], &[]);
    Ok(())
}

#[test]
fn keeps_the_order_of_the_pairs(rt: HostRuntime) -> Result<(), Fail> {
    let mut board = furnished(4)?;
    let [a, b, c, d] = [0x2000_0102, 0x3000_0103, 0x2000_0402, 0x3000_0304];
    for word in [a, b, c, d] {
        assert_eq!(rt; board.enter(word), Ok(()));
    }
    assert_eq!(rt; board.strike(b), Ok(()));
    holds(&rt, &board, &[1, 2, 3, 4], &[a, c, d]);
    assert_eq!(rt; board.enter(b), Ok(()));
    holds(&rt, &board, &[1, 2, 3, 4], &[a, c, d, b]);
    assert_eq!(rt; board.strike(a), Ok(()));
    holds(&rt, &board, &[1, 2, 3, 4], &[c, d, b]);
    assert_eq!(rt; board.strike(b), Ok(()));
    holds(&rt, &board, &[1, 2, 3, 4], &[c, d]);
    assert_eq!(rt; board.enter(a), Ok(()));
    holds(&rt, &board, &[1, 2, 3, 4], &[c, d, a]);
    Ok(())
}

#[test]
fn refused_calls_change_nothing(rt: HostRuntime) -> Result<(), Fail> {
    let mut board = joined()?;
    let rows = [
        (Edit::Enter(0x4000_0102), Fault::WrongKind),
        (Edit::Strike(0x1000_0007), Fault::WrongKind),
        (Edit::Enter(0x1000_0100), Fault::OutOfRange),
        (Edit::Enter(0x3000_0003), Fault::OutOfRange),
        (Edit::Strike(0x2001_0102), Fault::OutOfRange),
        (Edit::Enter(0x2000_0202), Fault::SameRoom),
        (Edit::Enter(0x3000_0201), Fault::AlreadyJoined),
        (Edit::Strike(0x3000_0102), Fault::NotHeld),
    ];
    for (call, fault) in rows {
        assert_eq!(rt; board.apply(call), Err(fault), "{call:?}");
        holds(&rt, &board, &[7, 9], &[0x2000_0102]);
    }
    assert_eq!(rt; board.apply(Edit::Strike(0x2000_0102)), Ok(()));
    assert_eq!(rt; board.apply(Edit::Enter(0x1000_000b)), Ok(()));
    assert_eq!(rt; board.apply(Edit::Enter(0x3000_0301)), Ok(()));
    holds(&rt, &board, &[7, 9, 11], &[0x3000_0301]);
    Ok(())
}

// No room and no pair is read past the last.
fn ends(rt: &impl Abort, board: &Board, rooms: usize, pairs: usize) {
    assert_eq!(rt; board.rooms(), rooms);
    assert_eq!(rt; board.pairs(), pairs);
    for room in [0, board.rooms() + 1, usize::MAX] {
        assert_eq!(rt; board.use_of(room), None);
    }
    for place in [board.pairs(), usize::MAX] {
        assert_eq!(rt; board.pair(place), None);
        assert_eq!(rt; board.pair_word(place), None);
    }
}

#[test]
fn reads_nothing_out_of_range(rt: HostRuntime) -> Result<(), Fail> {
    ends(&rt, &Board::new(), 0, 0);
    ends(&rt, &joined()?, 2, 1);
    ends(&rt, &furnished(200)?, 200, 0);
    Ok(())
}

fn pair(direction: Direction, first: u8, second: u8) -> Pair {
    Pair {
        direction,
        first,
        second,
    }
}

#[test]
fn pairs_have_words(rt: HostRuntime) -> Result<(), Fail> {
    let mut board = joined()?;
    assert_eq!(rt; board.enter(0x1000_000b), Ok(()));
    assert_eq!(rt; board.enter(0x3000_0301), Ok(()));
    let beside = pair(Direction::Beside, 1, 2);
    let above = pair(Direction::Above, 3, 1);
    assert_eq!(rt; board.pair_list(), [beside, above].as_slice());
    assert_eq!(rt; [board.pair(0), board.pair(1)], [Some(beside), Some(above)]);
    assert_eq!(rt; [beside.word(), above.word()], [0x2000_0102, 0x3000_0301]);
    assert_eq!(rt; pair(Direction::Above, 255, 0).word(), 0x3000_ff00);
    assert_eq!(rt; [beside.direction as u8, above.direction as u8], [0, 1]);
    Ok(())
}

#[test]
fn pairs_are_told_apart(rt: HostRuntime) {
    let held = pair(Direction::Beside, 1, 2);
    let rows = [
        (Direction::Beside, 1, 2, true, true),
        (Direction::Above, 1, 2, true, false),
        (Direction::Beside, 2, 1, true, false),
        (Direction::Above, 2, 1, true, false),
        (Direction::Beside, 1, 3, false, false),
        (Direction::Beside, 3, 2, false, false),
        (Direction::Beside, 1, 1, false, false),
        (Direction::Beside, 2, 2, false, false),
    ];
    for (direction, first, second, joins, same) in rows {
        let other = pair(direction, first, second);
        assert_eq!(rt; held.joins_same_rooms(other), joins);
        assert_eq!(rt; held.is_same(other), same);
    }
}
