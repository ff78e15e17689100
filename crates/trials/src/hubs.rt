//! Hubs by their bytes: what comes to a hub, and what it gives at it.
use crate::closed_room::ClosedRoom;
use crate::hub_script::play;
use room_core::Room;
use room_like::RoomLike;
use std::alloc::Global;
use std::process::Abort;
use std::test::Fail;

// Rooms of two places and of one, whose seats are kept for 20 seconds, and rooms of two that are found by their mode and
// keep none.
const HEADING: &str = "class State
field gold number
root State
process proc00001
room duel max 2 seat 15000 patch 50 keep 20000
room solo max 1 seat 15000 patch 50 keep 20000
room team max 2 seat 15000 patch 50 keep 0 filter mode
";

// A hub of these rooms gives what a script says.
fn played<R: RoomLike>(rt: &impl Abort, alloc: Global, script: &str) -> Result<(), Fail> {
    play::<R>(rt, alloc, HEADING, script)?;
    Ok(())
}

// A reservation that lapses gives its place to the next.
const LAPSED: &str = "
at 0
ask 1 /matchmake/create/duel {} room00001 sess00001 = created room00001 duel; reply 1 {\"room\":{\"clients\":1,\"maxClients\":2,\"name\":\"duel\",\"processId\":\"proc00001\",\"roomId\":\"room00001\"},\"sessionId\":\"sess00001\"}
open 2 /proc00001/room00001?sessionId=sess00001 tok000001 = joined room00001 sess00001; send 2 0a09746f6b30303030303106736368656d61
ask 1 /matchmake/joinById/room00001 {} room00002 sess00002 = reply 1 {\"room\":{\"clients\":2,\"maxClients\":2,\"name\":\"duel\",\"processId\":\"proc00001\",\"roomId\":\"room00001\"},\"sessionId\":\"sess00002\"}
at 14999
ask 3 /matchmake/joinById/room00001 {} room00002 sess00003 = reply 3 {\"code\":4212,\"error\":\"room room00001 is locked\"}
at 15000
open 4 /proc00001/room00001?sessionId=sess00002 tok000002 = send 4 0bcd7610ac736561742065787069726564; close 4 4002
ask 3 /matchmake/joinById/room00001 {} room00002 sess00003 = reply 3 {\"room\":{\"clients\":2,\"maxClients\":2,\"name\":\"duel\",\"processId\":\"proc00001\",\"roomId\":\"room00001\"},\"sessionId\":\"sess00003\"}
";

#[test]
fn a_reservation_lapses(rt: HostRuntime) -> Result<(), Fail> {
    played::<Room>(&rt, rt.alloc(), LAPSED)
}

// A client drops, and comes back by its token, once.
const RETURNED: &str = "
ask 1 /matchmake/create/solo {} room00001 sess00001; open 2 /proc00001/room00001?sessionId=sess00001 tok000001 = created room00001 solo; reply 1 {\"room\":{\"clients\":1,\"maxClients\":1,\"name\":\"solo\",\"processId\":\"proc00001\",\"roomId\":\"room00001\"},\"sessionId\":\"sess00001\"}; joined room00001 sess00001; send 2 0a09746f6b30303030303106736368656d61
frame 2 0a; act room00001 put 0 0 5; tick room00001 = send 2 0e8005
at 100
drop 2 = dropped room00001 sess00001
ask 3 /matchmake/joinById/room00001 {} room00002 sess00002 = reply 3 {\"code\":4212,\"error\":\"room room00001 is locked\"}
ask 4 /matchmake/reconnect/room00001 {\"reconnectionToken\":\"tok000001\"} room00002 sess00002 = reply 4 {\"room\":{\"clients\":1,\"maxClients\":1,\"name\":\"solo\",\"processId\":\"proc00001\",\"roomId\":\"room00001\"},\"sessionId\":\"sess00001\"}
open 5 /proc00001/room00001?sessionId=sess00001&reconnectionToken=tok000001 tok000002 = returned room00001 sess00001; send 5 0a09746f6b30303030303206736368656d61
tick room00001
frame 5 0a
tick room00001 = send 5 0e8005
ask 4 /matchmake/reconnect/room00001 {\"reconnectionToken\":\"tok000001\"} room00002 sess00002 = reply 4 {\"code\":4214,\"error\":\"seat expired\"}
open 6 /proc00001/room00001?sessionId=sess00001&reconnectionToken=tok000001 tok000003 = send 6 0bcd7610ac736561742065787069726564; close 6 4002
drop 5 = dropped room00001 sess00001
at 20100 = left room00001 sess00001; disposed room00001
ask 4 /matchmake/reconnect/room00001 {\"reconnectionToken\":\"tok000002\"} room00002 sess00002 = reply 4 {\"code\":4212,\"error\":\"room room00001 not found\"}
";

#[test]
fn a_client_comes_back(rt: HostRuntime) -> Result<(), Fail> {
    played::<Room>(&rt, rt.alloc(), RETURNED)
}

// What clients say, and what can't be read.
const SAID: &str = "
ask 1 /matchmake/create/duel {} room00001 sess00001; open 2 /proc00001/room00001?sessionId=sess00001 tok000001 = created room00001 duel; reply 1 {\"room\":{\"clients\":1,\"maxClients\":2,\"name\":\"duel\",\"processId\":\"proc00001\",\"roomId\":\"room00001\"},\"sessionId\":\"sess00001\"}; joined room00001 sess00001; send 2 0a09746f6b30303030303106736368656d61
frame 2 0da46d6f766581a17801 = message room00001 sess00001 'move 81a17801
frame 2 0da46d6f7665ca3f800000 = send 2 0bcd7910af696e76616c6964207061796c6f6164
frame 2 0a00; frame 2 0d; frame 2 63; frame 2 - = send 2 0bcd7910af696e76616c6964207061796c6f6164; send 2 0bcd7910af696e76616c6964207061796c6f6164; send 2 0bcd7910af696e76616c6964207061796c6f6164; send 2 0bcd7910af696e76616c6964207061796c6f6164
frame 2 1103ff = rawmessage room00001 sess00001 3 ff
act room00001 send sess00001 'chat 03; act room00001 raw sess00001 7 ffff; act room00001 toall 1 c0
frame 2 0a; tick room00001 = send 2 0e; send 2 0da46368617403; send 2 1107ffff; send 2 0d01c0
act room00001 send sess00001 'chat 04 = send 2 0da46368617404
";

#[test]
fn messages_go_both_ways(rt: HostRuntime) -> Result<(), Fail> {
    played::<Room>(&rt, rt.alloc(), SAID)
}

// Requests that get no seat.
const REFUSED: &str = "
ask 1 /matchmake/swap/duel {} room00001 sess00001 = reply 1 {\"code\":4210,\"error\":\"no method\"}
ask 1 /matchmake/swap/duel [] room00001 sess00001 = reply 1 {\"code\":4210,\"error\":\"no method\"}
ask 1 /matchmake/create/duel [] room00001 sess00001 = reply 1 {\"code\":4217,\"error\":\"invalid payload\"}
ask 1 /matchmake/create/duel { room00001 sess00001 = reply 1 {\"code\":4217,\"error\":\"invalid payload\"}
ask 1 /matchmake/create/duel 1 room00001 sess00001 = reply 1 {\"code\":4217,\"error\":\"invalid payload\"}
ask 1 /matchmake/create/duel %FF room00001 sess00001 = reply 1 {\"code\":4217,\"error\":\"invalid payload\"}
ask 1 /matchmake/create/duel {}x room00001 sess00001 = reply 1 {\"code\":4217,\"error\":\"invalid payload\"}
ask 1 /matchmake/create/duel {\"a\":-} room00001 sess00001 = reply 1 {\"code\":4217,\"error\":\"invalid payload\"}
ask 1 /matchmake/join/chess {} room00001 sess00001 = reply 1 {\"code\":4210,\"error\":\"no handler\"}
ask 1 /matchmake/join/duel {} room00001 sess00001 = reply 1 {\"code\":4211,\"error\":\"no room meets the criteria\"}
ask 1 /matchmake/joinById/nope {} room00001 sess00001 = reply 1 {\"code\":4212,\"error\":\"room nope not found\"}
ask 1 /matchmake/reconnect/room00001 {} room00001 sess00001 = reply 1 {\"code\":4217,\"error\":\"invalid payload\"}
ask 1 /matchmake/create/solo {} room00001 sess00001 = created room00001 solo; reply 1 {\"room\":{\"clients\":1,\"maxClients\":1,\"name\":\"solo\",\"processId\":\"proc00001\",\"roomId\":\"room00001\"},\"sessionId\":\"sess00001\"}
ask 1 /matchmake/create/duel {} room00001 sess00002 = reply 1 {\"code\":4213,\"error\":\"id room00001 is in use\"}
ask 1 /matchmake/create/duel {} sess00001 sess00002 = reply 1 {\"code\":4213,\"error\":\"id sess00001 is in use\"}
ask 1 /matchmake/create/duel {} room00002 sess00001 = reply 1 {\"code\":4213,\"error\":\"id sess00001 is in use\"}
ask 1 /matchmake/create/duel {} room00002 room00001 = reply 1 {\"code\":4213,\"error\":\"id room00001 is in use\"}
act room00001 lock; ask 1 /matchmake/joinById/room00001 {} room00002 sess00002 = reply 1 {\"code\":4212,\"error\":\"room room00001 is locked\"}
";

#[test]
fn requests_are_refused(rt: HostRuntime) -> Result<(), Fail> {
    played::<Room>(&rt, rt.alloc(), REFUSED)
}

// Rooms of a mode.
const MODES: &str = "
ask 1 /matchmake/create/team {\"mode\":\"a\"} room00001 sess00001 = created room00001 team; reply 1 {\"room\":{\"clients\":1,\"maxClients\":2,\"name\":\"team\",\"processId\":\"proc00001\",\"roomId\":\"room00001\"},\"sessionId\":\"sess00001\"}
ask 1 /matchmake/join/team {\"mode\":\"b\"} room00002 sess00002 = reply 1 {\"code\":4211,\"error\":\"no room meets the criteria\"}
ask 1 /matchmake/joinOrCreate/team {\"mode\":\"b\"} room00002 sess00002 = created room00002 team; reply 1 {\"room\":{\"clients\":1,\"maxClients\":2,\"name\":\"team\",\"processId\":\"proc00001\",\"roomId\":\"room00002\"},\"sessionId\":\"sess00002\"}
ask 1 /matchmake/joinOrCreate/team {\"mode\":\"a\"} room00003 sess00003 = reply 1 {\"room\":{\"clients\":2,\"maxClients\":2,\"name\":\"team\",\"processId\":\"proc00001\",\"roomId\":\"room00001\"},\"sessionId\":\"sess00003\"}
ask 1 /matchmake/joinOrCreate/team {\"mode\":\"a\"} room00003 sess00004 = created room00003 team; reply 1 {\"room\":{\"clients\":1,\"maxClients\":2,\"name\":\"team\",\"processId\":\"proc00001\",\"roomId\":\"room00003\"},\"sessionId\":\"sess00004\"}
ask 1 /matchmake/join/team {} room00004 sess00005 = reply 1 {\"code\":4211,\"error\":\"no room meets the criteria\"}
";

#[test]
fn rooms_are_found_by_their_mode(rt: HostRuntime) -> Result<(), Fail> {
    played::<Room>(&rt, rt.alloc(), MODES)
}

// What goes no further than the hub.
const UNKNOWN: &str = "
ask 1 /matchmake/create/duel {} room00001 sess00001; open 2 /proc00001/room00001?sessionId=sess00001 tok000001 = created room00001 duel; reply 1 {\"room\":{\"clients\":1,\"maxClients\":2,\"name\":\"duel\",\"processId\":\"proc00001\",\"roomId\":\"room00001\"},\"sessionId\":\"sess00001\"}; joined room00001 sess00001; send 2 0a09746f6b30303030303106736368656d61
ask 1 /matchmake/joinById/room00001 {} room00002 sess00002; open 2 /proc00001/room00001?sessionId=sess00002 tok000002 = reply 1 {\"room\":{\"clients\":2,\"maxClients\":2,\"name\":\"duel\",\"processId\":\"proc00001\",\"roomId\":\"room00001\"},\"sessionId\":\"sess00002\"}; refused conn-in-use
frame 9 0a; drop 9; tick room00009; act room00009 lock; act room00001 kick sess00009 4001 = refused no-conn; refused no-conn; refused no-room; refused no-room; refused no-session
open 3 /proc00001/room00009?sessionId=sess00002 tok000002; open 3 /proc00009/room00001?sessionId=sess00002 tok000002; open 3 / tok000002 = send 3 0bcd7410ac6e6f207375636820726f6f6d; close 3 4002; send 3 0bcd7410ac6e6f207375636820726f6f6d; close 3 4002; send 3 0bcd7410ac6e6f207375636820726f6f6d; close 3 4002
open 3 /proc00001/room00001?sessionId=sess00009 tok000002; open 3 /proc00001/room00001?sessionId=sess00002 tok000001 = send 3 0bcd7610ac736561742065787069726564; close 3 4002; send 3 0bcd7510b6696420746f6b30303030303120697320696e20757365; close 3 4002
bad 4; bad 2; frame 2 0a; tick room00001 = close 4 1002; close 2 1002; send 2 0e
";

#[test]
fn unknown_names_are_refused(rt: HostRuntime) -> Result<(), Fail> {
    played::<Room>(&rt, rt.alloc(), UNKNOWN)
}

// Two rooms and three clients: a drop, a kick, a leave, a lapse in each room at one moment, and rooms that end.
const WHOLE: &str = "
ask 1 /matchmake/joinOrCreate/duel {} room00001 sess00001; open 2 /proc00001/room00001?sessionId=sess00001 tok000001 = created room00001 duel; reply 1 {\"room\":{\"clients\":1,\"maxClients\":2,\"name\":\"duel\",\"processId\":\"proc00001\",\"roomId\":\"room00001\"},\"sessionId\":\"sess00001\"}; joined room00001 sess00001; send 2 0a09746f6b30303030303106736368656d61
ask 1 /matchmake/joinOrCreate/duel {} room00002 sess00002; open 3 /proc00001/room00001?sessionId=sess00002 tok000002 = reply 1 {\"room\":{\"clients\":2,\"maxClients\":2,\"name\":\"duel\",\"processId\":\"proc00001\",\"roomId\":\"room00001\"},\"sessionId\":\"sess00002\"}; joined room00001 sess00002; send 3 0a09746f6b30303030303206736368656d61
ask 1 /matchmake/joinOrCreate/duel {} room00002 sess00003; open 4 /proc00001/room00002?sessionId=sess00003 tok000001 = created room00002 duel; reply 1 {\"room\":{\"clients\":1,\"maxClients\":2,\"name\":\"duel\",\"processId\":\"proc00001\",\"roomId\":\"room00002\"},\"sessionId\":\"sess00003\"}; joined room00002 sess00003; send 4 0a09746f6b30303030303106736368656d61
frame 2 0a; frame 3 0a; frame 4 0a; act room00001 put 0 0 5; tick room00001; tick room00002 = send 2 0e8005; send 3 0e8005; send 4 0e
drop 2; drop 4 = dropped room00001 sess00001; dropped room00002 sess00003
act room00001 put 0 0 6; tick room00001; tick room00002 = send 3 0f0006
at 10000; act room00001 kick sess00002 4001 = close 3 4001; left room00001 sess00002
frame 3 0a = refused no-conn
at 20000 = left room00001 sess00001; left room00002 sess00003; disposed room00001; disposed room00002
ask 1 /matchmake/create/solo {} room00001 sess00001; ask 1 /matchmake/create/solo {} room00002 sess00002 = created room00001 solo; reply 1 {\"room\":{\"clients\":1,\"maxClients\":1,\"name\":\"solo\",\"processId\":\"proc00001\",\"roomId\":\"room00001\"},\"sessionId\":\"sess00001\"}; created room00002 solo; reply 1 {\"room\":{\"clients\":1,\"maxClients\":1,\"name\":\"solo\",\"processId\":\"proc00001\",\"roomId\":\"room00002\"},\"sessionId\":\"sess00002\"}
at 36000 = disposed room00001; disposed room00002
at 7
";

#[test]
fn two_rooms_and_three_clients(rt: HostRuntime) -> Result<(), Fail> {
    played::<Room>(&rt, rt.alloc(), WHOLE)
}

// A hub of rooms that let nobody in: it rests on what its rooms do.
const CLOSED: &str = "
ask 1 /matchmake/create/duel {} room00001 sess00001 = created room00001 duel; reply 1 {\"room\":{\"clients\":0,\"maxClients\":2,\"name\":\"duel\",\"processId\":\"proc00001\",\"roomId\":\"room00001\"},\"sessionId\":\"sess00001\"}; disposed room00001
open 2 /proc00001/room00001?sessionId=sess00001 tok000001 = send 2 0bcd7410ac6e6f207375636820726f6f6d; close 2 4002
";

#[test]
fn rooms_may_be_others(rt: HostRuntime) -> Result<(), Fail> {
    played::<ClosedRoom>(&rt, rt.alloc(), CLOSED)
}
