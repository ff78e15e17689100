//! Messages: the frames of clients, and what the owner of a room tells them.
use crate::turns::play;
use client_frames::{FrameFault, read_client};
use std::test::Fail;

const STATE: &str = "class State\nfield gold number\nroot State\n";

// What clients send: names and numbers for kinds, payloads of MessagePack or none, raw bytes, and what can't be read.
const FRAMES: &str = "
reserve a; open a a = a entered; a 0a0961616161616161616106736368656d61
frame a 0da36d6f7603 = a says mov 03
acknowledge a; frame a 0d05a0 = a says #5 a0
tick = a 0e
frame a 0d05 = a says #5 
frame a 0da0c0 = a says  c0
frame a 11a36d6f76ffff = a sends mov ffff
frame a 11d0fb = a sends #-5 
acknowledge a
frame a 0a00 = a 0bcd7910af696e76616c6964207061796c6f6164
frame a - = a 0bcd7910af696e76616c6964207061796c6f6164
frame a 63 = a 0bcd7910af696e76616c6964207061796c6f6164
frame a 0d = a 0bcd7910af696e76616c6964207061796c6f6164
frame a 0d05c1 = a 0bcd7910af696e76616c6964207061796c6f6164
frame a 0d050303 = a 0bcd7910af696e76616c6964207061796c6f6164
frame a 0d05cb3ff0000000000000 = a 0bcd7910af696e76616c6964207061796c6f6164
frame a 0c00 = a 0bcd7910af696e76616c6964207061796c6f6164
frame a 0c = a closed 4000; a left
frame a 0a = not taken
";

#[test]
fn what_clients_send(rt: HostRuntime) -> Result<(), Fail> {
    play(&rt, rt.alloc(), STATE, FRAMES)
}

// Messages wait for the full state and come behind it; a drop empties what waits. Clients without a connection hear none.
const MESSAGES: &str = "
send a chat 03 = refused: no such session in the room
reserve a; send a chat 03 = refused: the session is in no state for this
open a a = a entered; a 0a0961616161616161616106736368656d61
send a chat 03; raw a #7 ffff
acknowledge a; send a chat -
put 0 0 5; tick = a 0e8005; a 0da46368617403; a 1107ffff; a 0da463686174
send a chat 04 = a 0da46368617404
raw a #-1 - = a 11ff
come b = b entered; b 0a0962626262626262626206736368656d61
reserve c; open c c = c entered; c 0a0963636363636363636306736368656d61
reserve d
all #1 c0 = a 0d01c0
put 0 0 6; tick = a 0f0006; b 0e8006; b 0d01c0
send b chat 05; lose b 100; send b chat 06 = b 0da46368617405; b dropped; refused: the session is in no state for this
lose c 100 = c dropped
all #2 - = a 0d02
return c c x = c back; c 0a0978787878787878787806736368656d61
acknowledge c; tick = c 0e8006
";

#[test]
fn messages_wait_for_the_full_state(rt: HostRuntime) -> Result<(), Fail> {
    play(&rt, rt.alloc(), STATE, MESSAGES)
}

// ---- frames alone

// What a frame of one byte is refused with.
fn fault_of(code: u8) -> Option<FrameFault> {
    match code {
        10 | 12 => None,
        13 | 17 => Some(FrameFault::Bad(1)),
        code => Some(FrameFault::UnknownCode(code)),
    }
}

#[test]
fn each_frame_of_one_byte(rt: HostRuntime) -> Result<(), Fail> {
    for code in 0..=u8::MAX {
        let found = read_client(rt.alloc(), &[code]).err();
        assert_eq!(rt; found, fault_of(code));
    }
    Ok(())
}
