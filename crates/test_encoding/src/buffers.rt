//! Sources and sinks over slices.
use ber_core::{Broken, Pieces, Room, Sink, Source};

#[test]
fn pieces_move_a_few_octets_at_a_time_and_break(rt: HostRuntime) {
    let octets = [1, 2, 3, 4];
    let mut buffer = [0; 8];
    let mut pieces = Pieces::new(&octets, 2, Some(3));
    assert!(rt; pieces.take(&mut buffer) == Ok(2) && buffer[..2] == [1, 2]);
    assert!(rt; pieces.take(&mut buffer) == Ok(1) && buffer[..2] == [3, 2] && !pieces.broken());
    assert!(rt; pieces.take(&mut buffer) == Err(Broken) && pieces.broken());
    let mut whole = Pieces::new(&octets, 9, None);
    assert!(rt; whole.take(&mut buffer) == Ok(4) && whole.take(&mut buffer) == Ok(0));
}

#[test]
fn room_takes_a_few_octets_at_a_time_and_breaks(rt: HostRuntime) {
    let mut room: Room<4> = Room::new(3, None);
    let taken = [
        room.put(&[1, 2, 3, 4, 5]),
        room.put(&[4, 5]),
        room.put(&[]),
        room.put(&[5]),
    ];
    assert!(rt; taken == [Ok(3), Ok(1), Ok(0), Err(Broken)]);
    assert!(rt; room.broken() && room.octets() == [1, 2, 3, 4].as_slice());
    let mut short: Room<4> = Room::new(3, Some(1));
    assert!(rt; short.put(&[1, 2]) == Ok(1) && short.put(&[2]) == Err(Broken));
    assert!(rt; short.octets() == [1].as_slice());
}
