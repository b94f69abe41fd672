// What each refusal tells.
use crate::{Axis, Corner, Fault, Side};
use std::process::Abort;
use std::test::Fail;

// A refusal's number, room and spot.
fn tells(rt: &impl Abort, fault: Fault, told: [u8; 3]) {
    assert_eq!(rt;
        [fault.number(), fault.room(), fault.spot()],
        told,
        "{fault:?}"
    );
}

#[test]
fn most_name_no_room(rt: HostRuntime) {
    let rows = [
        (Fault::WrongKind, 1),
        (Fault::OutOfRange, 2),
        (Fault::Full, 3),
        (Fault::SameRoom, 4),
        (Fault::AlreadyJoined, 5),
        (Fault::NotHeld, 6),
        (Fault::NoRooms, 7),
        (Fault::BadDoor, 8),
        (Fault::TooShort, 10),
        (Fault::TooWide, 14),
        (Fault::TooDeep, 15),
    ];
    for (fault, number) in rows {
        tells(&rt, fault, [number, 0, 0]);
    }
}

#[test]
fn some_name_a_room(rt: HostRuntime) {
    for room in [0, 1, 200, 255] {
        let side = Side::East;
        let corner = Corner::SouthWest;
        let axis = Axis::Down;
        tells(&rt, Fault::UnknownUse { room }, [9, room, 0]);
        tells(&rt, Fault::NotInOrder { room, side }, [11, room, 1]);
        tells(&rt, Fault::NotClosed { room, corner }, [12, room, 3]);
        tells(&rt, Fault::Looped { room, axis }, [13, room, 1]);
    }
}

#[test]
fn each_spot_has_its_number(rt: HostRuntime) {
    let room = 7;
    for (side, spot) in [
        (Side::North, 0),
        (Side::East, 1),
        (Side::South, 2),
        (Side::West, 3),
    ] {
        tells(&rt, Fault::NotInOrder { room, side }, [11, room, spot]);
    }
    let corners = [
        (Corner::NorthWest, 0),
        (Corner::NorthEast, 1),
        (Corner::SouthEast, 2),
        (Corner::SouthWest, 3),
    ];
    for (corner, spot) in corners {
        tells(&rt, Fault::NotClosed { room, corner }, [12, room, spot]);
    }
    for (axis, spot) in [(Axis::Across, 0), (Axis::Down, 1)] {
        tells(&rt, Fault::Looped { room, axis }, [13, room, spot]);
    }
}

#[test]
fn a_fault_is_written_as_its_line(rt: HostRuntime) -> Result<(), Fail> {
    let side = Side::West;
    let rows = [
        (Fault::WrongKind, "fault 1 0 0"),
        (Fault::UnknownUse { room: 200 }, "fault 9 200 0"),
        (Fault::NotInOrder { room: 0, side }, "fault 11 0 3"),
        (Fault::TooDeep, "fault 15 0 0"),
    ];
    for (fault, text) in rows {
        assert_eq!(rt; fault.to_string(rt.alloc())?.as_str(), text);
    }
    Ok(())
}
