use crate::floor::Floor;
use crate::grid_floor::GridFloor;
use crate::lane_floor::LaneFloor;
use crate::lane_row::LaneRow;
use crate::refusal::FloorRefusal;
use crate::step::Step;
use shut::Shut;
use std::test::Fail;

mod shut;

#[test]
fn a_place_has_eight_moves(rt: HostRuntime) -> Result<(), Fail> {
    let row = LaneRow {
        from: 0,
        to: 1,
        line: 300,
    };
    let floor = LaneFloor::new(2, &[row; 8])?;
    assert_eq!(rt; floor.move_count(0), 8);
    assert_eq!(rt; floor.move_count(1), 0);
    assert_eq!(rt; floor.step(0, 7), Some(Step { to: 1, line: 300 }));
    assert_eq!(rt; floor.step(0, 8), None);
    assert_eq!(rt;
        LaneFloor::new(2, &[row; 9]).err(),
        Some(FloorRefusal::BadRow(8))
    );
    Ok(())
}

#[test]
fn a_floor_has_1_to_128_places(rt: HostRuntime) -> Result<(), Fail> {
    assert_eq!(rt; LaneFloor::empty(0).err(), Some(FloorRefusal::BadSize));
    assert_eq!(rt; LaneFloor::empty(128)?.places(), 128);
    assert_eq!(rt; LaneFloor::empty(129).err(), Some(FloorRefusal::BadSize));
    assert_eq!(rt;
        GridFloor::new(3, 2, &[0; 5]).err(),
        Some(FloorRefusal::BadSize)
    );
    assert_eq!(rt;
        GridFloor::new(1 << 63, 2, &[]).err(),
        Some(FloorRefusal::BadSize)
    );
    Ok(())
}

#[test]
fn a_cell_has_open_neighbours(rt: HostRuntime) -> Result<(), Fail> {
    let floor = GridFloor::new(3, 2, &[7, 255, 9, 4, 5, 6])?;
    assert_eq!(rt; floor.move_count(1), 0);
    assert_eq!(rt; floor.move_count(4), 3);
    assert_eq!(rt; floor.step(4, 0), Some(Step { to: 3, line: 4 }));
    assert_eq!(rt; floor.step(4, 1), Some(Step { to: 5, line: 6 }));
    assert_eq!(rt; floor.step(4, 2), Some(Step { to: 4, line: 5 }));
    let shut = Shut {
        below: floor,
        place: 4,
    };
    assert_eq!(rt; shut.move_count(4), 0);
    assert_eq!(rt; shut.step(5, 0), Some(Step { to: 2, line: 9 }));
    Ok(())
}
