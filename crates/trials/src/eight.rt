//! Eight clients over fifty ticks with random commands and view edits: what each decodes is what it may see.
ghost use Rattle.std.specs.Prelude.{◌≡◌, ◌<◌};

use crate::game::Game;
use crate::script::{command_of, schema_of};
use crate::turns::{coming, id};
use lists::{Memory, Text};
use rand_core::utils::NextWord;
use rand_pcg::Pcg32;
use room_core::{Act, RoomEvent, RoomLike, RoomOut};
use schema_model::{Home, Id, Pair, RefNum, Tag, TypeNum, Value};
use state_model::{Command, Row, RowEntry, Rows};
use std::alloc::Global;
use std::marker::Brand;
use std::process::Abort;
use std::sync::ledger::{Blank, Ledger};
use std::test::Fail;
use steps::Steps;

const TABLE: &str =
    "class State\nfield hands map Hand\nfield round uint16\nclass Hand\nfield open array Card\nfield hidden array Card view\nfield owner string\nclass Card\nfield rank uint8\nfield mark int8 view 3\nroot State\n";

// Two hands, each with both its arrays.
const START: &str =
    "makefor 0 0; put 0 0 #1; make 1; make 1; putkey 1 north #2; putkey 1 south #3; makefor 1 0; put 2 0 #4; makefor 1 1; put 2 1 #5; makefor 1 0; put 3 0 #6; makefor 1 1; put 3 1 #7";

const CLIENTS: u8 = 8;

const TICKS: u32 = 50;

// How many changes there are between two ticks.
const CHANGES: u32 = 12;

const KEYS: [&str; 4] = ["north", "east", "south", "west"];

fn random_key(alloc: Global, random: &mut Pcg32) -> Result<Text, Memory> {
    Text::from_text(alloc, KEYS[(random.next_word() % 4) as usize])
}

fn random_row<'a>(random: &mut Pcg32, rows: &'a Rows) -> Option<&'a RowEntry> {
    let rows = rows.as_slice();
    rows.get(random.next_word() as usize % rows.len().max(1))
}

// Of two random rows the later one, so that hands last.
fn later_row<'a>(random: &mut Pcg32, rows: &'a Rows) -> Option<&'a RowEntry> {
    let first = random_row(random, rows)?;
    let second = random_row(random, rows)?;
    if first.who < second.who {
        Some(second)
    } else {
        Some(first)
    }
}

// Makes a row that a holder may hold: a collection for the field of an instance, a hand for the map, a card for an array.
fn making(holder: &Row, field: u8) -> Command {
    match holder {
        Row::Struct(class, _) => Command::MakeFor(Home {
            class: *class,
            field,
        }),
        Row::Map(_, _) => Command::Make(TypeNum(1)),
        Row::Array(_, _) | Row::Set(_, _) => Command::Make(TypeNum(2)),
    }
}

// A holder holds a row. The room refuses what it doesn't allow.
fn holding(
    alloc: Global,
    random: &mut Pcg32,
    holder: &RowEntry,
    field: u8,
    who: RefNum,
) -> Result<Command, Memory> {
    let link = Value::Link(who);
    Ok(match &holder.row {
        Row::Struct(_, _) => Command::Put(holder.who, field, link),
        Row::Map(_, _) => Command::PutKey(holder.who, random_key(alloc, random)?, link),
        Row::Array(_, _) | Row::Set(_, _) => match random.next_word() % 3 {
            0 => Command::SetAt(holder.who, u32::from(field), link),
            _ => Command::Push(holder.who, link),
        },
    })
}

// A field of an instance gets a number, and a collection loses an item.
fn changing(
    alloc: Global,
    random: &mut Pcg32,
    holder: &RowEntry,
    field: u8,
) -> Result<Command, Memory> {
    let number = Value::Whole(i128::from(random.next_word() % 100));
    Ok(match &holder.row {
        Row::Struct(_, _) => Command::Put(holder.who, field, number),
        Row::Map(_, _) => Command::DelKey(holder.who, random_key(alloc, random)?),
        Row::Array(_, _) | Row::Set(_, _) => Command::DelAt(holder.who, u32::from(field)),
    })
}

// A random view edit: a row is added under a tag, or taken out.
fn random_edit(random: &mut Pcg32, session: Id, who: RefNum) -> Act {
    let tag = match random.next_word() % 2 {
        0 => Tag(-1),
        _ => Tag(3),
    };
    match random.next_word() % 3 {
        0 => Act::ViewDel(session, Pair { who, tag }),
        _ => Act::ViewAdd(session, Pair { who, tag }),
    }
}

// Does a command, and gives the row that it makes.
fn perform<L: Ledger>(
    rt: &impl Abort,
    alloc: Global,
    game: &mut Game,
    command: Command,
    steps: &mut Steps<L>,
) -> Result<Option<RefNum>, Fail> {
    let event = RoomEvent::Act(Act::State(command));
    match game.give(rt, alloc, &event, steps)?.as_slice() {
        [RoomOut::Made(who)] => Ok(Some(*who)),
        _ => Ok(None),
    }
}

// A random change of a row: it holds a new row or one that is there, or loses something. What the root holds stays.
fn change<L: Ledger>(
    rt: &impl Abort,
    alloc: Global,
    game: &mut Game,
    random: &mut Pcg32,
    steps: &mut Steps<L>,
) -> Result<(), Fail> {
    let rows = game.room.state().rows()?;
    let holder = later_row(random, &rows).ok_or("no rows")?;
    let other = random_row(random, &rows).ok_or("no rows")?;
    change_row(rt, alloc, game, random, holder, other.who, steps)
}

fn change_row<L: Ledger>(
    rt: &impl Abort,
    alloc: Global,
    game: &mut Game,
    random: &mut Pcg32,
    holder: &RowEntry,
    other: RefNum,
    steps: &mut Steps<L>,
) -> Result<(), Fail> {
    let field = (random.next_word() % 3) as u8;
    let held = match random.next_word() % 8 {
        0..=3 => perform(rt, alloc, game, making(&holder.row, field), steps)?,
        4 => Some(other),
        _ => None,
    };
    let command = match held {
        Some(who) if holder.who.0 != 0 => holding(alloc, random, holder, field, who)?,
        _ => changing(alloc, random, holder, field)?,
    };
    perform(rt, alloc, game, command, steps)?;
    Ok(())
}

// A view edit for each client that has come.
fn edit_all<L: Ledger>(
    rt: &impl Abort,
    alloc: Global,
    game: &mut Game,
    random: &mut Pcg32,
    steps: &mut Steps<L>,
) -> Result<(), Fail> {
    let rows = game.room.state().rows()?;
    for number in 0..CLIENTS {
        let session = id(b'a' + number);
        match random_row(random, &rows) {
            Some(entry) if game.room.has_session(session) => {
                let act = random_edit(random, session, entry.who);
                game.give(rt, alloc, &RoomEvent::Act(act), steps)?;
            }
            _ => {}
        }
    }
    Ok(())
}

// At every third tick the next client comes.
fn come_next<L: Ledger>(
    rt: &impl Abort,
    alloc: Global,
    game: &mut Game,
    tick: u32,
    steps: &mut Steps<L>,
) -> Result<(), Fail> {
    let number = tick / 3;
    if tick % 3 != 0 || number >= u32::from(CLIENTS) {
        return Ok(());
    }
    for event in &coming(alloc, id(b'a' + number as u8))? {
        game.give(rt, alloc, event, steps)?;
    }
    Ok(())
}

fn pass_all<L: Ledger>(
    rt: &impl Abort,
    alloc: Global,
    game: &mut Game,
    blank: Blank,
) -> Result<(), Fail>
    requires name { blank.name ≡ L.name }
    requires parts { blank.parts ≡ L.parts }
    requires some { 0 < blank.parts }
{
    let mut steps = Steps::<L>::new(blank);
    let mut random = Pcg32::new(7, 11);
    for text in START.split("; ") {
        perform(rt, alloc, game, command_of(alloc, text)?, &mut steps)?;
    }
    for tick in 0..TICKS {
        pass(rt, alloc, game, &mut random, tick, &mut steps)?;
    }
    let rows = game.room.state().rows()?;
    assert!(rt; rows.as_slice().len() > 16, "the state stayed small");
    Ok(())
}

fn pass<L: Ledger>(
    rt: &impl Abort,
    alloc: Global,
    game: &mut Game,
    random: &mut Pcg32,
    tick: u32,
    steps: &mut Steps<L>,
) -> Result<(), Fail> {
    for _ in 0..CHANGES {
        change(rt, alloc, game, random, steps)?;
    }
    come_next(rt, alloc, game, tick, steps)?;
    edit_all(rt, alloc, game, random, steps)?;
    game.give(rt, alloc, &RoomEvent::Tick, steps)?;
    Ok(())
}

#[test]
fn each_client_decodes_what_it_may_see(rt: HostRuntime) -> Result<(), Fail> {
    let schema = schema_of(rt.alloc(), TABLE)?;
    let mut game = Game::new(rt.alloc(), &schema, u32::from(CLIENTS))?;
    pass_all::<Brand>(&rt, rt.alloc(), &mut game, Blank::new(1))
}
