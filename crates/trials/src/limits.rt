//! The limits at their numbers, through a hub: what is taken last, and what is refused after it. One schedule brings each
//! word of refusal that a schedule can bring.
use crate::hub_script::play;
use crate::table::GAME;
use room_core::Room;
use std::test::Fail;

const ROOMS: &str = "process proc00001
room hall max 64 seat 15000 patch 50 keep 20000
room duel max 2 seat 15000 patch 50 keep 20000
";

// ---- what a room may have

// Five rooms with a client each.
const OPENED: &str = "
1 to 5: ask 9 /matchmake/create/hall {} room0000$ sess0000$
1 to 5: open $ /proc00001/room0000$?sessionId=sess0000$ token000$
";

// A game with as many places and bytes of text as a room has: numbers 1, texts 2, tags 3, players 4 and cards in hand 5
// in its fields, an empty name, a tag, player 6 under a key of two bytes, and card 7 in hand.
const GAME_OF_ALL: &str = "
act room00001 makefor 0 4; act room00001 put 0 4 #1 = made room00001 1
act room00001 makefor 0 5; act room00001 put 0 5 #2 = made room00001 2
act room00001 makefor 0 6; act room00001 put 0 6 #3 = made room00001 3
act room00001 makefor 0 7; act room00001 put 0 7 #4 = made room00001 4
act room00001 makefor 0 8; act room00001 put 0 8 #5 = made room00001 5
act room00001 make 1; act room00001 putkey 4 's1 #6 = made room00001 6
act room00001 make 2; act room00001 push 5 #7 = made room00001 7
act room00001 add 3 'a; act room00001 put 0 1 '
";

// Texts of 4,096 bytes, until there are 4,194,304.
const TEXTS: &str = "
act room00001 push 2 '(x*4097) = refused text-too-long
act room00001 add 3 '(%C3%A9*2049) = refused text-too-long
act room00001 putkey 4 '(x*4097) #6 = refused text-too-long
act room00001 push 2 '(x*4093)
1 to 1023: act room00001 push 2 '(x*4096)
act room00001 push 2 'a = refused text-full
act room00001 put 0 1 'a = refused text-full
act room00001 add 3 'b = refused text-full
act room00001 putkey 4 'a #6 = refused text-full
// The empty text takes no byte, and a key none that is there. What is replaced is taken off before.
act room00001 push 2 '; act room00001 delat 2 1024; act room00001 setat 2 1 '(%C3%A9*2048)
act room00001 setat 2 0 '(x*4090); act room00001 putkey 4 'abc #6; act room00001 putkey 4 'abc #6
act room00001 delkey 4 'abc; act room00001 put 0 1 'ab; act room00001 put 0 1 'abc; act room00001 put 0 1 '
act room00001 add 3 'abc; act room00001 del 3 'abc; act room00001 setat 2 0 '(x*4093)
act room00001 push 2 'a = refused text-full
";

// Numbers, until there are 65,536 places: six in the root, an item of the players, of the hand and of the tags, and 1,024
// texts.
const PLACES: &str = "
1 to 64502: act room00001 push 1 1
act room00001 push 1 1
act room00001 push 1 1 = refused places-full
act room00001 put 0 3 #6 = refused places-full
";

// Of two causes the first.
const FIRST: &str = "
// No field; no item.
act room00001 put 0 13 #8 = refused no-ref
act room00001 push 0 #8 = refused no-ref
act room00001 del 3 #8 = refused no-ref
act room00001 unset 0 13 = refused no-field
// Another type, out of range, and in another position.
act room00001 setat 1 64503 'a = refused no-item
act room00001 setat 1 64503 2147483648 = refused no-item
act room00001 setat 5 1 #7 = refused no-item
// A cycle; no place, no byte and too long.
act room00001 put 0 3 #0 = refused wrong-type
act room00001 push 1 '(x*4097) = refused wrong-type
// No place.
act room00001 push 1 2147483648 = refused out-of-range
act room00001 put 0 2 #0 = refused cycle
act room00001 push 5 #7 = refused duplicate
// No byte, and too long.
act room00001 push 2 'a = refused places-full
act room00001 push 2 '(x*4097) = refused places-full
act room00001 add 3 '(x*4097) = refused places-full
// Too long.
act room00001 setat 2 1 '(x*4097) = refused text-full
act room00001 put 0 1 '(x*4097) = refused text-full
// What is there adds neither a place nor a byte.
act room00001 add 3 'a = refused present
act room00001 setat 1 0 2; act room00001 delat 1 0
act room00001 push 2 '(x*4097) = refused text-full
act room00001 putkey 4 '(x*4097) #6 = refused text-full
";

// The places of an array that nothing holds, and the bytes of its texts, are there until it is swept.
const SWEPT: &str = "
act room00001 unset 0 4; act room00001 put 0 3 #6; act room00001 push 1 1
act room00001 push 1 1 = refused places-full
act room00001 unset 0 5
act room00001 add 3 'b = refused text-full
tick room00001
act room00001 add 3 '(x*4096); act room00001 put 0 1 '(x*4096)
act room00001 push 1 1 = refused no-ref
";

// 16,384 rows: the root and five others are there.
const ROWS: &str = "
1 to 16377: act room00001 make 2
act room00001 make 2 = made room00001 16385
act room00001 make 2 = refused instances-full
act room00001 makefor 0 4 = refused instances-full
act room00001 make 4 = refused no-field
act room00001 put 0 0 1
tick room00001
act room00001 make 2 = made room00001 16386
";

// ---- what a client may have

// A view of 65,536 pairs: 2,048 rows, each under the 32 tags from -1 to 30.
const VIEW: &str = "
act room00002 makefor 0 9; act room00002 put 0 9 #1 = made room00002 1
2 to 2047: act room00002 make 2
2 to 2047: act room00002 push 1 #$
act room00002 viewadd sess00002 0 -1
0 to 29: tick room00002; act room00002 viewadd sess00002 0 $
tick room00002
act room00002 viewadd sess00002 0 30
act room00002 viewadd sess00002 2 31 = refused view-full
// What is there counts once. What left counts until the tick, and may come again.
act room00002 viewadd sess00002 0 30; act room00002 viewdel sess00002 2 30
act room00002 viewadd sess00002 2 31 = refused view-full
act room00002 viewadd sess00002 2 30; act room00002 viewdel sess00002 2 30; tick room00002
act room00002 viewadd sess00002 2 31
act room00002 viewadd sess00002 2 30 = refused view-full
";

// 256 messages wait, and come behind the full state. A message to all passes over the one for whom so many wait.
const QUEUE: &str = "
0 to 255: act room00003 send sess00003 $ c0
act room00003 send sess00003 1 c0; act room00003 raw sess00003 1 - = refused queue-full; refused queue-full
act room00003 toall 1 c0
frame 3 0a; tick room00003 = send.. 4105 bytes
act room00003 send sess00003 1 c0 = send 3 0d01c0
";

// Frames of 65,536 bytes, and of one more.
const FRAMES: &str = "
frame 4 1101(00*65534) = rawmessage.. 131101 bytes
frame 4 0d01c5fffb(00*65531) = message.. 131098 bytes
frame 4 1101(00*65535) = send 4 0bcd7910af696e76616c6964207061796c6f6164
frame 4 0d01c5fffc(00*65532) = send 4 0bcd7910af696e76616c6964207061796c6f6164
frame 4 0a; tick room00004 = send 4 0e
";

// Rooms, connections and sessions that aren't there, or that are.
const UNKNOWN: &str = "
tick room00009; act room00009 lock = refused no-room; refused no-room
frame 9 0a; drop 9 = refused no-conn; refused no-conn
open 5 /proc00001/room00005?sessionId=sess00005 token0006 = refused conn-in-use
act room00005 kick sess00009 4001 = refused no-session
ask 9 /matchmake/joinById/room00005 {} room00009 sess00009 = reply 9 {\"room\":{\"clients\":2,\"maxClients\":64,\"name\":\"hall\",\"processId\":\"proc00001\",\"roomId\":\"room00005\"},\"sessionId\":\"sess00009\"}
act room00005 send sess00009 1 c0; act room00005 viewadd sess00009 0 -1 = refused not-here; refused not-here
";

const SCHEDULE: [&str; 11] = [
    OPENED,
    GAME_OF_ALL,
    TEXTS,
    PLACES,
    FIRST,
    SWEPT,
    ROWS,
    VIEW,
    QUEUE,
    FRAMES,
    UNKNOWN,
];

// The words of all refusals that a schedule brings. That numbers are spent (`refs-spent` and `numbers-spent`) is told after
// 2^31 commands, and out of memory is no refusal of a hub.
const WORDS: [&str; 19] = [
    "no-room",
    "no-conn",
    "conn-in-use",
    "no-session",
    "not-here",
    "queue-full",
    "view-full",
    "no-ref",
    "no-field",
    "no-item",
    "wrong-type",
    "out-of-range",
    "cycle",
    "duplicate",
    "instances-full",
    "places-full",
    "text-full",
    "text-too-long",
    "present",
];

// Whether a word of refusal stands in what a hub gave.
fn is_refused(answers: &str, word: &str) -> bool {
    answers
        .split("; ")
        .any(|answer| answer.strip_prefix("refused ") == Some(word))
}

#[test]
fn each_refusal_comes_at_its_limit(rt: HostRuntime) -> Result<(), Fail> {
    let alloc = rt.alloc();
    let heading = format!(in alloc; "{GAME}{ROOMS}")?;
    let script = SCHEDULE.join(alloc, "")?;
    let answers = play::<Room>(&rt, alloc, &heading, &script)?;
    for word in WORDS {
        assert!(rt; is_refused(&answers, word), "{word}");
    }
    Ok(())
}

// ---- what a room and a hub may have

const SMALL: &str = "class State
field gold number
root State
process proc00001
room hall max 64 seat 15000 patch 50 keep 20000
room duel max 2 seat 15000 patch 50 keep 20000
";

// 64 places of a room.
const CROWD: &str = "
10001 to 10063: ask 9 /matchmake/joinOrCreate/hall {} hall$ sess$
ask 9 /matchmake/join/hall {} hall10064 sess10064 = reply 9 {\"room\":{\"clients\":64,\"maxClients\":64,\"name\":\"hall\",\"processId\":\"proc00001\",\"roomId\":\"hall10001\"},\"sessionId\":\"sess10064\"}
ask 9 /matchmake/join/hall {} hall10065 sess10065 = reply 9 {\"code\":4211,\"error\":\"no room meets the criteria\"}
ask 9 /matchmake/joinById/hall10001 {} hall10065 sess10065 = reply 9 {\"code\":4212,\"error\":\"room hall10001 is locked\"}
ask 9 /matchmake/joinOrCreate/hall {} hall10065 sess10065 = created hall10065 hall; reply 9 {\"room\":{\"clients\":1,\"maxClients\":64,\"name\":\"hall\",\"processId\":\"proc00001\",\"roomId\":\"hall10065\"},\"sessionId\":\"sess10065\"}
";

// A hub of some thousand rooms: the last is as the first.
const MANY: &str = "
20001 to 22000: ask 9 /matchmake/create/duel {} room$ sess$
open 1 /proc00001/room20001?sessionId=sess20001 token0001 = joined room20001 sess20001; send 1 0a09746f6b656e3030303106736368656d61
open 2 /proc00001/room21001?sessionId=sess21001 token0002 = joined room21001 sess21001; send 2 0a09746f6b656e3030303206736368656d61
open 3 /proc00001/room22000?sessionId=sess22000 token0003 = joined room22000 sess22000; send 3 0a09746f6b656e3030303306736368656d61
frame 1 0a; act room20001 put 0 0 5; tick room20001 = send 1 0e8005
frame 2 0a; act room21001 put 0 0 5; tick room21001 = send 2 0e8005
frame 3 0a; act room22000 put 0 0 5; tick room22000 = send 3 0e8005
ask 9 /matchmake/joinById/room22000 {} room30000 sess30000 = reply 9 {\"room\":{\"clients\":2,\"maxClients\":2,\"name\":\"duel\",\"processId\":\"proc00001\",\"roomId\":\"room22000\"},\"sessionId\":\"sess30000\"}
ask 9 /matchmake/joinById/room22000 {} room30001 sess30001 = reply 9 {\"code\":4212,\"error\":\"room room22000 is locked\"}
ask 9 /matchmake/join/duel {} room30001 sess30001 = reply 9 {\"room\":{\"clients\":2,\"maxClients\":2,\"name\":\"duel\",\"processId\":\"proc00001\",\"roomId\":\"room20001\"},\"sessionId\":\"sess30001\"}
";

#[test]
fn a_room_has_64_places(rt: HostRuntime) -> Result<(), Fail> {
    play::<Room>(&rt, rt.alloc(), SMALL, CROWD)?;
    Ok(())
}

#[test]
fn a_hub_has_some_thousand_rooms(rt: HostRuntime) -> Result<(), Fail> {
    play::<Room>(&rt, rt.alloc(), SMALL, MANY)?;
    Ok(())
}
