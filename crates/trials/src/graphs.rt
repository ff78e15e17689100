//! Rows that hold each other: held, swept, read and led to in a table, and reached, freed and shown as plain rows.
use crate::script::{rows_text, schema_of};
use crate::table::{GAME, NODES, numbers_text, rows_after, run};
use plain_rows::{freed, freed_of, permitted, reached};
use schema_model::{Pair, RefNum, Tag};
use std::test::Fail;

// ---- in a table

// The root holds 5, which holds 3, whose array 1 holds 4 and 2, which holds 6, as the root's array 7 does too. 8, which
// nothing holds, holds the root.
const SWEEPS: &str = "
sweep
makefor 0 1 = made 1
5 times make 0 = made 6
makefor 0 1; make 0 = made 7; made 8
put 0 0 #5; put 5 0 #3; put 3 1 #1; push 1 #4; push 1 #2; put 2 0 #6; put 0 1 #7; push 7 #6; put 8 0 #0
push 1 #0 = Cycle
put 6 0 #8 = Cycle
sweep = 8
sweep
unset 0 0
sweep = 1 2 3 4 5
put 0 0 #5 = NoRef
push 1 #6 = NoRef
// Let go, and held again before the sweep.
delat 7 0; put 0 0 #6
sweep
// In two positions of the array, of which one goes and then the other.
make 0; push 7 #9; push 7 #9; delat 7 0 = made 9
sweep
clear 7; make 0; put 0 0 #10 = made 10
sweep = 6 9
unset 0 0; unset 0 1
sweep = 7 10
make 0 = made 11
";

#[test]
fn a_sweep_frees_what_nothing_holds(rt: HostRuntime) -> Result<(), Fail> {
    run(&rt, rt.alloc(), NODES, SWEEPS)
}

// Numbers are row 1, tags 2, players 3. A key or a value that comes back has a new number, and a key that is there keeps
// its number.
const LOOKS: &str = "
makefor 0 4; put 0 4 #1; makefor 0 6; put 0 6 #2; makefor 0 7; put 0 7 #3 = made 1; made 2; made 3
make 1; put 4 1 7; put 4 2 true; putkey 3 s1 #4; make 1; putkey 3 s2 #5 = made 4; made 5
add 2 'a; add 2 'b; push 1 1; push 1 2; push 1 3; delat 1 0
field 0 4; field 4 0; field 4 1; field 4 2; field 6 0; item 0 0 = #1; nothing; 7; true; nothing; nothing
at 1 0; at 1 1; at 1 2; item 1 0 = 2; 3; nothing; nothing
item 2 0; item 2 1; at 2 0; item 3 0; item 3 1; field 3 0 = 'a; 'b; nothing; #4; #5; nothing
delkey 3 s1; putkey 3 s2 #4; putkey 3 s1 #5; clear 2; add 2 'a
item 3 0; item 3 1; item 3 2; item 2 0; item 2 2 = nothing; #4; #5; nothing; 'a
// Sets of numbers 6, of truths 7 and of players 8 hold a value once.
makefor 0 10; makefor 0 11; makefor 0 12 = made 6; made 7; made 8
add 6 -1; add 6 -1; add 6 0; item 6 0; item 6 1 = Present; -1; 0
add 7 true; add 7 false; add 7 true; del 7 true; item 7 0; item 7 1 = Present; nothing; false
add 8 #4; add 8 #5; add 8 #4; del 8 #4; del 8 #4; add 8 #4; item 8 2 = Present; NoItem; #4
";

#[test]
fn places_of_each_kind_are_read(rt: HostRuntime) -> Result<(), Fail> {
    run(&rt, rt.alloc(), GAME, LOOKS)
}

// Player 4 is under two keys of the map 1, and leads the game and another; card 5 is in the hand 2 and in the pile 3.
const HOLDERS: &str = "
makefor 0 7; put 0 7 #1; makefor 0 8; put 0 8 #2; makefor 0 9; put 0 9 #3 = made 1; made 2; made 3
make 1; putkey 1 s1 #4; putkey 1 s2 #4 = made 4
make 2; make 2; push 3 #5; push 2 #5; push 3 #5 = made 5; made 6
holders 0
holders 4 = 1 1
holders 5 = 2 3 3
delkey 1 s1; make 0; put 7 3 #4; put 7 2 #0; put 0 3 #4; setat 3 1 #6; setat 2 0 #5 = made 7
holders 0 = 7
holders 4 = 0 1 7
holders 5 = 2 3
sweep = 7
unset 0 3; clear 3; delat 2 0
holders 0
holders 4 = 1
holders 5
";

#[test]
fn a_row_knows_its_holders(rt: HostRuntime) -> Result<(), Fail> {
    run(&rt, rt.alloc(), GAME, HOLDERS)
}

// The hand 2 is under the tag -1, all other fields that hold rows are untagged: the card 6 in it is behind the root under
// -1 alone, but the card 5, which lies in the pile 3 too, always. Behind a collection are all its items.
const BEHIND: &str = "
makefor 0 7; put 0 7 #1; makefor 0 8; put 0 8 #2; makefor 0 9; put 0 9 #3 = made 1; made 2; made 3
make 1; putkey 1 s1 #4; make 2; make 2; push 3 #5; push 2 #6; push 2 #5 = made 4; made 5; made 6
make 0; put 7 2 #0; put 7 3 #4 = made 7
behind 0 -1 = 0 1 2 3 4 5 6
behind 0 3 = 0 1 3 4 5
behind 2 3 = 2 5 6
behind 7 3 = 0 1 3 4 5 7
behind 8 -1 = no row
sweep = 7
behind 7 3 = no row
";

#[test]
fn a_tag_leads_on_to_what_is_behind_a_row(rt: HostRuntime) -> Result<(), Fail> {
    run(&rt, rt.alloc(), GAME, BEHIND)
}

// ---- as plain rows

// The root holds 2, which holds 3, as 4 does, which is held by 1 alone; and nothing holds 1.
const LINKS: &str =
    "make 0; make 0; make 0; make 0; put 0 0 #2; put 2 0 #3; put 1 0 #4; put 4 0 #3";

#[test]
fn rows_are_reached_and_freed(rt: HostRuntime) -> Result<(), Fail> {
    let alloc = rt.alloc();
    let rows = rows_after(alloc, &schema_of(alloc, NODES)?, LINKS)?;
    for (from, expected) in [(0, "0 2 3"), (1, "1 3 4"), (3, "3"), (9, "9")] {
        let found = reached(alloc, &rows, RefNum(from))?;
        assert_eq!(rt; numbers_text(alloc, &found)?.as_str(), expected);
    }
    let left = freed(alloc, &rows)?;
    assert_eq!(rt; rows_text(alloc, &left)?.as_str(), "0(0=#2 )2(0=#3 )3()");
    for rows in [rows, left] {
        let left = freed_of(alloc, rows)?;
        assert_eq!(rt; rows_text(alloc, &left)?.as_str(), "0(0=#2 )2(0=#3 )3()");
    }
    Ok(())
}

// A board with a number for all and a hidden one, a card, an array of cards and a set of marks.
const BOARD: &str =
    "class Board\nfield a number\nfield b number view\nfield card Card view 3\nfield cards array Card view 3\nfield marks set number view\nclass Card\nfield rank number\nclass Sealed : Card\nfield seal number view 4\nroot Board\n";

// Of the cards 3 and 5 in the array 2, the first is sealed and the second empty.
const WHOLE: &str =
    "put 0 0 1; put 0 1 1; make 1; put 1 0 1; put 0 2 #1; makefor 0 3; put 0 3 #2; make 2; put 3 0 1; put 3 1 1; push 2 #3; makefor 0 4; put 0 4 #4; add 4 7; make 1; push 2 #5";

// Members, and what they may see.
const VIEWS: [(&[(u32, i16)], &str); 8] = [
    (&[], "0(0=1 3=#2 )2()"),
    (&[(6, 3), (3, 4)], "0(0=1 3=#2 )2()"),
    (&[(3, 3)], "0(0=1 3=#2 )2(#3 )3.2(0=1 )"),
    (&[(0, -1)], "0(0=1 1=1 3=#2 4=#4 )2()4(0:7 )"),
    (&[(3, 4), (2, 3)], "0(0=1 3=#2 )2(#3 #5 )3.2(0=1 1=1 )5.1()"),
    (&[(1, 3)], "0(0=1 2=#1 3=#2 )1.1(0=1 )2()"),
    (&[(4, -1)], "0(0=1 3=#2 4=#4 )2()4(0:7 )"),
    (&[(5, 3), (0, 3)], "0(0=1 2=#1 3=#2 )1.1(0=1 )2(#5 )5.1()"),
];

#[test]
fn members_see_what_they_may(rt: HostRuntime) -> Result<(), Fail> {
    let schema = schema_of(rt.alloc(), BOARD)?;
    let rows = rows_after(rt.alloc(), &schema, WHOLE)?;
    for (members, expected) in VIEWS {
        let mut pairs = Vec::new(rt.alloc());
        for (who, tag) in members {
            let (who, tag) = (RefNum(*who), Tag(*tag));
            pairs.push(Pair { who, tag })?;
        }
        let view = permitted(rt.alloc(), &schema, &rows, pairs.as_slice())?;
        assert_eq!(rt; rows_text(rt.alloc(), &view)?.as_str(), expected);
    }
    Ok(())
}
