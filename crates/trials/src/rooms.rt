//! Rooms by their bytes: what happens, and what the room gives at it.
use crate::turns::play;
use std::test::Fail;

// ---- players, of whom a client sees the gold of its own

const PLAYERS: &str =
    "class State\nfield players map Player\nclass Player\nfield name string\nfield gold number view\nroot State\n";

const GOLD: &str = "
come a = a entered; a 0a0961616161616161616106736368656d61
come b = b entered; b 0a0962626262626262626206736368656d61
makefor 0 0; put 0 0 #1; make 1; put 2 0 'a; put 2 1 7; putkey 1 s1 #2 = made 1; made 2
tick = a 0e8001ff018000a2733102d501ff0280a161; b 0e8001ff018000a2733102d501ff0280a161
viewadd a 2
tick = a 0fff028107
tick
put 2 1 9; viewadd b 2
tick = a 0fff020109; b 0fff028109
viewdel a 2
tick = a 0fff0241
// What is as it was at the last tick isn't sent.
viewadd a 2; viewdel a 2; put 2 1 8; put 2 1 9
tick
delkey 1 s1
tick = a 0fff014000; b 0fff014000
viewadd a 2 = refused: no such reference
";

#[test]
fn gold_is_for_its_owner(rt: HostRuntime) -> Result<(), Fail> {
    play(&rt, rt.alloc(), PLAYERS, GOLD)
}

// At one tick a client that sees the gold, one that doesn't, and one whose full state is due.
const THREE: &str = "
come a = a entered; a 0a0961616161616161616106736368656d61
come b = b entered; b 0a0962626262626262626206736368656d61
makefor 0 0; put 0 0 #1; make 1; put 2 0 'a; put 2 1 7; putkey 1 s1 #2 = made 1; made 2
viewadd a 2
tick = a 0e8001ff018000a2733102d501ff0280a161ff028107; b 0e8001ff018000a2733102d501ff0280a161
come c = c entered; c 0a0963636363636363636306736368656d61
put 2 0 'b; put 2 1 9
tick = a 0fff0200a162ff020109; b 0fff0200a162; c 0e8001ff018000a2733102d501ff0280a162
";

#[test]
fn three_clients_at_one_tick(rt: HostRuntime) -> Result<(), Fail> {
    play(&rt, rt.alloc(), PLAYERS, THREE)
}

const ENTERING: &str = "
reserve a
tick
viewadd a 0 = refused: the session is in no state for this
open a x = a entered; a 0a0978787878787878787806736368656d61
viewadd a 0
tick
open a y = a has no seat
open b y = b has no seat
reserve b
open b x = b: token in use
acknowledge a
tick = a 0e
acknowledge a
tick
open b y = b entered; b 0a0979797979797979797906736368656d61
makefor 0 0; put 0 0 #1 = made 1
tick = a 0f8001
acknowledge b
tick = b 0e8001
viewadd a 7 = refused: no such reference
viewdel a 7 = refused: no such reference
viewadd c 0 = refused: no such session in the room
viewdel c 0 = refused: no such session in the room
put 0 1 1 = refused: no such field
";

#[test]
fn a_full_state_comes_behind_the_acknowledgement(rt: HostRuntime) -> Result<(), Fail> {
    play(&rt, rt.alloc(), PLAYERS, ENTERING)
}

// ---- a set, an array and a number

const LISTS: &str =
    "class State\nfield tags set string\nfield list array number\nfield n uint16\nroot State\n";

const LESS: &str = "
come a = a entered; a 0a0961616161616161616106736368656d61
makefor 0 0; put 0 0 #1; makefor 0 1; put 0 1 #2; put 0 2 513 = made 1; made 2
add 1 'a; add 1 'b; push 2 1; push 2 2; push 2 3
tick = a 0e80018102820102ff018000a1618001a162ff020a800001800102800203
del 1 'a
tick = a 0fff014000
delat 2 0
tick = a 0fff020000020001034002
put 0 2 514; put 0 2 513
tick
";

#[test]
fn a_set_and_an_array_lose_their_first(rt: HostRuntime) -> Result<(), Fail> {
    play(&rt, rt.alloc(), LISTS, LESS)
}

// ---- cards in hand, each of which a client sees or doesn't

const HAND: &str =
    "class State\nfield hand array Card view\nclass Card\nfield rank number\nroot State\n";

// Of two cards, the second one with a rank, a client sees the second, another both, and two none. Then a third one sees
// the first, the fourth sees the hand, and the cards change places.
const CARDS: &str = "
come a = a entered; a 0a0961616161616161616106736368656d61
come b = b entered; b 0a0962626262626262626206736368656d61
come c = c entered; c 0a0963636363636363636306736368656d61
come d = d entered; d 0a0964646464646464646406736368656d61
makefor 0 0; put 0 0 #1; make 1; make 1; put 3 0 5; push 1 #2; push 1 #3 = made 1; made 2; made 3
viewadd a 3; viewadd b 2; viewadd b 3
tick = a 0e8001ff01810303d501ff038005; b 0e8001ff01810202d501810303d501ff038005; c 0e8001; d 0e8001
viewadd c 2; viewadd d 1
tick = c 0fff01810202d501; d 0fff01810202d501810303d501ff038005
delat 1 0; push 1 #2
tick = b 0fff010a810303d501810202d501; d 0fff010a810303d501810202d501
";

#[test]
fn cards_are_seen_one_by_one_and_change_places(rt: HostRuntime) -> Result<(), Fail> {
    play(&rt, rt.alloc(), HAND, CARDS)
}

const FIRST_CARD: &str = "
come a = a entered; a 0a0961616161616161616106736368656d61
makefor 0 0; put 0 0 #1; make 1; make 1; push 1 #2; push 1 #3 = made 1; made 2; made 3
viewadd a 1
tick = a 0e8001ff01810202d501810303d501
delat 1 0
tick = a 0fff012102
";

#[test]
fn a_hand_loses_its_first_card(rt: HostRuntime) -> Result<(), Fail> {
    play(&rt, rt.alloc(), HAND, FIRST_CARD)
}

// ---- rows that move

const MAPS: &str =
    "class State\nfield a map Player\nfield b map Player\nclass Player\nfield name string\nroot State\n";

const MOVED: &str = "
come a = a entered; a 0a0961616161616161616106736368656d61
makefor 0 0; put 0 0 #1; makefor 0 1; put 0 1 #2 = made 1; made 2
make 1; put 3 0 'n; putkey 1 p #3 = made 3
tick = a 0e80018102ff018000a17003d501ff0380a16e
delkey 1 p; putkey 2 q #3
tick = a 0fff014000ff028000a17103d501
";

#[test]
fn a_moved_player_keeps_its_name(rt: HostRuntime) -> Result<(), Fail> {
    play(&rt, rt.alloc(), MAPS, MOVED)
}

const BOXES: &str =
    "class State\nfield secret Box view\nfield shown Box\nclass Box\nfield list array number\nroot State\n";

// A box with a list comes out of a hidden field. It is told anew to whom saw it already.
const OPENED: &str = "
come a = a entered; a 0a0961616161616161616106736368656d61
come b = b entered; b 0a0962626262626262626206736368656d61
make 1; put 0 0 #1; makefor 1 0; put 1 0 #2; push 2 1; push 2 2 = made 1; made 2
viewadd a 1
tick = a 0eff008001d501ff018002ff020a800001800102; b 0e
put 0 1 #1
tick = a 0f8101d501ff018002ff020a800001800102; b 0f8101d501ff018002ff020a800001800102
unset 0 0
tick = a 0fff0040
";

#[test]
fn a_box_comes_out_of_a_hidden_field(rt: HostRuntime) -> Result<(), Fail> {
    play(&rt, rt.alloc(), BOXES, OPENED)
}
