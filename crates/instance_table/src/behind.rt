//! What is behind a row.
ghost use Rattle.std.specs.Prelude.{◌≡◌, ◌≤◌, ◌<◌, ◌+◌, ◌++◌, [], IfOk, OnErr, OnOk, length, true};
ghost use Rattle.std.specs.Option.{option_to_list};
ghost use Rattle.state_model.specs.Members.{leads_on, row_through, rows_through};
ghost use Rattle.state_model.specs.Places.{tag_of};
ghost use Rattle.state_model.specs.Reached.{reached};
ghost use Rattle.state_model.specs.Rows.{held_in, is_live, place_count, rows_of, values_in};
ghost use Rattle.state_model.specs.Sound.{are_sound};
ghost use Rattle.state_model.specs.declared.row.Row.TheVariants as row;
ghost use Rattle.plain_rows.specs.Links.{held_at};
ghost use Rattle.instance_table.specs.Behind.{LacksRoom, held_through, places_at};
ghost use Rattle.instance_table.specs.Bodies.{row_of};
ghost use Rattle.instance_table.specs.Nodes.{rows_in};

use crate::body::Body;
use crate::fixed_room::FixedRoom;
use crate::links::link_of;
use crate::nodes::Nodes;
use crate::walk_room::{MemoryRoom, WalkRoom};
use schema_model::{Memory, RefNum, Schema, Tag, TypeNum};
use state_model::FieldValue;
use std::alloc::Global;
use std::sync::ledger::Ledger;
use steps::Steps;

// A field of a class leads on for a tag: it is untagged, or has this tag.
fn leads_on(schema: &Schema, class: TypeNum, field: u8, tag: Tag) -> bool
    ensures { result ≡ leads_on tag (tag_of schema.now class field) }
{
    let Some(declared) = schema.field(class, field) else {
        return true;
    };
    match declared.tag {
        Some(own) => tag == own,
        None => true,
    }
}

// The link in a field, where the field leads on.
fn link_through(schema: &Schema, class: TypeNum, field: &FieldValue, tag: Tag) -> Option<RefNum>
    ensures { option_to_list result ≡ held_through schema.now tag class field.now }
{
    if leads_on(schema, class, field.field, tag) {
        link_of(Some(&field.value))
    } else {
        None
    }
}

// The link waits, where there is one.
fn add_link<R: WalkRoom>(link: Option<RefNum>, room: &mut R) -> Result<(), Memory>
    ensures links { OnOk result (R.waiting_in room.new ≡ R.waiting_in room.old ++ option_to_list link) }
    ensures seen { R.seen_in room.new ≡ R.seen_in room.old }
    ensures lacks { OnErr result (R.sure_waiting < length (R.waiting_in room.old) + length (option_to_list link)) }
{
    if let Some(who) = link {
        room.wait(who)?;
    }
    Ok(())
}

// The links in the fields of an instance that lead on wait. Each field is a step.
fn add_field_links<R: WalkRoom, L: Ledger>(
    schema: &Schema,
    class: TypeNum,
    fields: &[FieldValue],
    tag: Tag,
    room: &mut R,
    steps: &mut Steps<L>,
) -> Result<(), Memory>
    ensures links { OnOk result (
        R.waiting_in room.new ≡ R.waiting_in room.old ++ held_in (row_through schema.now tag (row.Struct class fields.now))) }
    ensures seen { R.seen_in room.new ≡ R.seen_in room.old }
    ensures lacks { OnErr result (
        R.sure_waiting < length (R.waiting_in room.old) + length (held_in (row_through schema.now tag (row.Struct class fields.now)))) }
    ensures cost { OnOk result (steps.new ≡ steps.old + length fields.now) }
    ensures most { steps.new ≤ steps.old + length fields.now }
{
    for field in fields {
        steps.tick();
        add_link(link_through(schema, class, field, tag), room)?;
    }
    Ok(())
}

// The links in all places of a row wait. Each place is a step.
fn add_all_links<R: WalkRoom, L: Ledger>(
    body: &Body,
    room: &mut R,
    steps: &mut Steps<L>,
) -> Result<(), Memory>
    ensures links { OnOk result (R.waiting_in room.new ≡ R.waiting_in room.old ++ held_in (row_of body.now)) }
    ensures seen { R.seen_in room.new ≡ R.seen_in room.old }
    ensures lacks { OnErr result (R.sure_waiting < length (R.waiting_in room.old) + length (held_in (row_of body.now))) }
    ensures cost { OnOk result (steps.new ≡ steps.old + length (values_in (row_of body.now))) }
    ensures most { steps.new ≤ steps.old + length (values_in (row_of body.now)) }
{
    let count = body.len();
    let mut behind = None;
    for n in 0..count {
        steps.tick();
        let (value, next) = body.value_nth(n, behind);
        add_link(link_of(value), room)?;
        behind = next;
    }
    Ok(())
}

// The links in the places of a row that lead on wait. Each place is a step, also where it doesn't lead on.
fn add_links_through<R: WalkRoom, L: Ledger>(
    schema: &Schema,
    body: &Body,
    tag: Tag,
    room: &mut R,
    steps: &mut Steps<L>,
) -> Result<(), Memory>
    ensures links { OnOk result (
        R.waiting_in room.new ≡ R.waiting_in room.old ++ held_in (row_through schema.now tag (row_of body.now))) }
    ensures seen { R.seen_in room.new ≡ R.seen_in room.old }
    ensures lacks { OnErr result (
        R.sure_waiting < length (R.waiting_in room.old) + length (held_in (row_through schema.now tag (row_of body.now)))) }
    ensures cost { OnOk result (steps.new ≡ steps.old + length (values_in (row_of body.now))) }
    ensures most { steps.new ≤ steps.old + length (values_in (row_of body.now)) }
{
    match body {
        Body::Struct(class, fields) => add_field_links(
            schema,
            *class,
            fields.as_slice(),
            tag,
            room,
            steps,
        ),
        Body::Map(..) | Body::Array(..) | Body::Set(..) => add_all_links(body, room, steps),
    }
}

// The same for the row of a number, where there is one.
fn add_links_of<R: WalkRoom, L: Ledger>(
    schema: &Schema,
    nodes: &Nodes,
    who: RefNum,
    tag: Tag,
    room: &mut R,
    steps: &mut Steps<L>,
) -> Result<(), Memory>
    ensures links { OnOk result (
        R.waiting_in room.new ≡ R.waiting_in room.old ++ held_at (rows_through schema.now tag (rows_in nodes.now)) who) }
    ensures seen { R.seen_in room.new ≡ R.seen_in room.old }
    ensures lacks { OnErr result (
        R.sure_waiting < length (R.waiting_in room.old) + length (held_at (rows_through schema.now tag (rows_in nodes.now)) who)) }
    ensures cost { OnOk result (steps.new ≡ steps.old + places_at (rows_in nodes.now) who) }
    ensures most { steps.new ≤ steps.old + places_at (rows_in nodes.now) who }
{
    match nodes.get(who) {
        Some(node) => add_links_through(schema, &node.body, tag, room, steps),
        None => Ok(()),
    }
}

// The number and every number that is reached from it through places that lead on for a tag are seen. Each place of the
// rows that it comes to is a step.
fn walk_behind<R: WalkRoom, L: Ledger>(
    schema: &Schema,
    nodes: &Nodes,
    from: RefNum,
    tag: Tag,
    room: &mut R,
    steps: &mut Steps<L>,
) -> Result<(), Memory>
    requires unseen { R.seen_in room.old ≡ [] }
    requires idle { R.waiting_in room.old ≡ [] }
    ensures seen { OnOk result (R.seen_in room.new ≡ reached (rows_through schema.now tag (rows_in nodes.now)) from) }
    ensures lacks { OnErr result (
        LacksRoom R.sure_seen R.sure_waiting (rows_through schema.now tag (rows_in nodes.now)) from) }
    ensures cost { OnOk result (
        let numbers = reached (rows_through schema.now tag (rows_in nodes.now)) from in
        steps.new ≡ steps.old + place_count (rows_of numbers (rows_in nodes.now))) }
    ensures most { let numbers = reached (rows_through schema.now tag (rows_in nodes.now)) from in
        steps.new ≤ steps.old + place_count (rows_of numbers (rows_in nodes.now)) }
{
    nodes.know_rising();
    room.wait(from)?;
    while let Some(who) = room.next() {
        if room.see(who)? {
            add_links_of(schema, nodes, who, tag, room, steps)?;
        }
    }
    Ok(())
}

/// The number and every number that is reached from it through places that lead on for a tag, rising. Each place of the
/// rows that it comes to is a step.
pub fn numbers_behind<L: Ledger>(
    alloc: Global,
    schema: &Schema,
    nodes: &Nodes,
    from: RefNum,
    tag: Tag,
    steps: &mut Steps<L>,
) -> Result<Vec<RefNum>, Memory>
    ensures value { IfOk result (λ ns. ns.items ≡ reached (rows_through schema.now tag (rows_in nodes.now)) from) }
    ensures cost { OnOk result (
        let numbers = reached (rows_through schema.now tag (rows_in nodes.now)) from in
        steps.new ≡ steps.old + place_count (rows_of numbers (rows_in nodes.now))) }
    ensures most { let numbers = reached (rows_through schema.now tag (rows_in nodes.now)) from in
        steps.new ≤ steps.old + place_count (rows_of numbers (rows_in nodes.now)) }
{
    let mut room = MemoryRoom::new(alloc);
    walk_behind(schema, nodes, from, tag, &mut room, steps)?;
    room.seen(alloc)
}

/// The same, in a room that stands in itself. It takes no memory.
pub fn see_behind<L: Ledger>(
    schema: &Schema,
    nodes: &Nodes,
    from: RefNum,
    tag: Tag,
    room: &mut FixedRoom,
    steps: &mut Steps<L>,
)
    requires unseen { room.old.seen ≡ [] }
    requires idle { room.old.waiting ≡ [] }
    requires sound { are_sound schema.now (rows_in nodes.now) ≡ true }
    requires live { is_live (rows_in nodes.now) from ≡ true }
    requires rows { length nodes.now ≤ 16384 }
    requires places { place_count (rows_in nodes.now) ≤ 65536 }
    ensures seen { room.new.seen ≡ reached (rows_through schema.now tag (rows_in nodes.now)) from }
    ensures cost { let numbers = reached (rows_through schema.now tag (rows_in nodes.now)) from in
        steps.new ≡ steps.old + place_count (rows_of numbers (rows_in nodes.now)) }
{
    match walk_behind(schema, nodes, from, tag, room, steps) {
        Ok(()) => {}
        Err(Memory) => unreachable!(),
    }
}
