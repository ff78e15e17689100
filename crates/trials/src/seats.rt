//! Seats, lapses and kept seats: the ledger's own answers, and rooms that players leave and come back to.
use crate::turns::{id, play, play_in};
use room_model::SeatFault;
use seat_ledger::SeatLedger;
use std::alloc::Global;
use std::process::Abort;
use std::test::Fail;

// ---- the ledger alone

#[test]
fn a_reservation_that_lapsed_is_not_taken(rt: HostRuntime) -> Result<(), Fail> {
    let mut seats = SeatLedger::new(rt.alloc(), 1)?;
    assert_eq!(rt; seats.reserve(id(b'a'), 10), Ok(()));
    assert_eq!(rt; seats.expire(9), None);
    assert_eq!(rt; seats.expire(10), Some(id(b'a')));
    assert_eq!(rt; seats.reserve(id(b'b'), 20), Ok(()));
    assert_eq!(rt; seats.take(id(b'a'), id(b'x')), Err(SeatFault::NoSeat));
    Ok(())
}

// A kept seat with a token.
fn kept(rt: &impl Abort, seats: &mut SeatLedger) -> Result<(), Fail> {
    assert_eq!(rt; seats.reserve(id(b'a'), 10), Ok(()));
    assert_eq!(rt; seats.take(id(b'a'), id(b'x')), Ok(()));
    assert_eq!(rt; seats.keep(id(b'a'), 20), Ok(()));
    Ok(())
}

#[test]
fn a_kept_seat_is_taken_by_its_token(rt: HostRuntime) -> Result<(), Fail> {
    let mut seats = SeatLedger::new(rt.alloc(), 1)?;
    kept(&rt, &mut seats)?;
    assert_eq!(rt;
        seats.retake(id(b'a'), id(b'y'), id(b'z')),
        Err(SeatFault::WrongToken)
    );
    assert_eq!(rt;
        seats.retake(id(b'a'), id(b'x'), id(b'x')),
        Err(SeatFault::IdInUse)
    );
    assert_eq!(rt; seats.retake(id(b'a'), id(b'x'), id(b'y')), Ok(()));
    Ok(())
}

#[test]
fn a_lock_is_tested_before_the_places(rt: HostRuntime) -> Result<(), Fail> {
    let mut seats = SeatLedger::new(rt.alloc(), 1)?;
    kept(&rt, &mut seats)?;
    assert_eq!(rt; seats.reserve(id(b'b'), 10), Err(SeatFault::Full));
    seats.set_locked(true);
    assert_eq!(rt; seats.reserve(id(b'b'), 10), Err(SeatFault::Locked));
    Ok(())
}

// ---- rooms, by what they give

const PLAYERS: &str =
    "class State\nfield players map Player\nclass Player\nfield name string\nfield gold number view\nroot State\n";

// Of two places one is reserved and never opened.
const LAPSE: &str = "
come a = a entered; a 0a0961616161616161616106736368656d61
reserve b 15000
moment 14999
reserve c 29999 = not taken
moment 15000
reserve c 30000
open b y = b has no seat
open c y = c entered; c 0a0979797979797979797906736368656d61
reserve b 31000 = not taken
";

#[test]
fn a_lapsed_reservation_is_given_to_the_next(rt: HostRuntime) -> Result<(), Fail> {
    play_in(&rt, rt.alloc(), PLAYERS, 2, LAPSE)
}

// The only place is kept. The whole state comes anew, and an old token opens nothing.
const BACK: &str = "
reserve a; open a x = a entered; a 0a0978787878787878787806736368656d61
acknowledge a; tick = a 0e
lose a 100 = a dropped
lose a 101 = not taken
reserve b 200 = not taken
open a z = a has no seat
return a x x = a: token in use
return a x y = a back; a 0a0979797979797979797906736368656d61
tick
makefor 0 0; put 0 0 #1 = made 1
acknowledge a; tick = a 0e8001
lose a 300 = a dropped
return a x z = a has no seat
moment 20299
return a y z = a back; a 0a097a7a7a7a7a7a7a7a7a06736368656d61
lose a 400 = a dropped
moment 20400 = a left
return a z y = a has no seat
reserve b 30000
";

#[test]
fn a_player_goes_and_comes_back(rt: HostRuntime) -> Result<(), Fail> {
    play_in(&rt, rt.alloc(), PLAYERS, 1, BACK)
}

// Gold that a client sees stays seen over a drop, and what was put meanwhile comes with the whole state. Pairs of rows that
// went are gone.
const GOLD: &str = "
come a = a entered; a 0a0961616161616161616106736368656d61
come b = b entered; b 0a0962626262626262626206736368656d61
makefor 0 0; put 0 0 #1; make 1; put 2 0 'a; put 2 1 7; putkey 1 s1 #2 = made 1; made 2
make 1; put 3 1 5; putkey 1 s2 #3 = made 3
viewadd a 2; viewadd a 3
tick = a 0e8001ff018000a2733102d5018001a2733203d501ff0280a161ff028107ff038105; b 0e8001ff018000a2733102d5018001a2733203d501ff0280a161
lose a 100 = a dropped
put 2 1 9; delkey 1 s2; viewadd b 2
tick = b 0fff014001ff028109
viewadd a 3 = refused: no such reference
viewdel a 2; viewadd a 2
return a a y = a back; a 0a0979797979797979797906736368656d61
acknowledge a; tick = a 0e8001ff018000a2733102d501ff0280a161ff028109
put 2 1 8
tick = a 0fff020108; b 0fff020108
";

#[test]
fn what_a_player_may_see_stays_over_a_drop(rt: HostRuntime) -> Result<(), Fail> {
    play(&rt, rt.alloc(), PLAYERS, GOLD)
}

// Of several that lapse at one moment the least lapse comes first, and of equal ones the earlier reserved.
const LAPSES: &str = "
reserve a 500
reserve b 300
come c = c entered; c 0a0963636363636363636306736368656d61
come d = d entered; d 0a0964646464646464646406736368656d61
lose d 100; lose c 100 = d dropped; c dropped
return c d x = c has no seat
moment 299
reserve e 900 = not taken
moment 500
open a x = a has no seat
come e = e entered; e 0a0965656565656565656506736368656d61
come f = f entered; f 0a0966666666666666666606736368656d61
keep e 100; lose e 20000 = e dropped
moment 20100 = c left; d left; e left
moment 20100
";

#[test]
fn seats_lapse_in_their_order(rt: HostRuntime) -> Result<(), Fail> {
    play(&rt, rt.alloc(), PLAYERS, LAPSES)
}

// A client is kicked at each stage, and one leaves.
const ENDS: &str = "
reserve a; kick a 4001 = a left
reserve a; open a x = a entered; a 0a0978787878787878787806736368656d61
kick a 4001 = a closed 4001; a left
come a = a entered; a 0a0961616161616161616106736368656d61
kick a 4001 = a closed 4001; a left
come a = a entered; a 0a0961616161616161616106736368656d61
tick = a 0e
kick a 4002 = a closed 4002; a left
come a = a entered; a 0a0961616161616161616106736368656d61
lose a 100; kick a 4001 = a dropped; a left
kick a 4001 = refused: no such session in the room
leave a = not taken
come a = a entered; a 0a0961616161616161616106736368656d61
leave a = a closed 4000; a left
tick
";

#[test]
fn a_client_ends_at_each_stage(rt: HostRuntime) -> Result<(), Fail> {
    play(&rt, rt.alloc(), PLAYERS, ENDS)
}

// The time for which a seat is kept, and the lock.
const TIMES: &str = "
keep a 5 = refused: no such session in the room
reserve a 15000
keep a 5 = refused: the session is in no state for this
open a x = a entered; a 0a0978787878787878787806736368656d61
keep a 3600001 = not taken
keep a 0; lose a 100 = a left
come b = b entered; b 0a0962626262626262626206736368656d61
keep b 3600000; lose b 100 = b dropped
keep b 5
moment 3600099
moment 3600100 = b left
lock
reserve c 4000000 = not taken
unlock
reserve c 4000000
moment 18014398509481984 = not taken
reserve d 18014398509481984 = not taken
reserve d 18014398509481983
lose d 100 = not taken
moment 18014398509481983
open d x = d has no seat
";

#[test]
fn seats_are_kept_for_their_time(rt: HostRuntime) -> Result<(), Fail> {
    play(&rt, rt.alloc(), PLAYERS, TIMES)
}
