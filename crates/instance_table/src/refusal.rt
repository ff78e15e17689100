//! What a command comes to: the first cause for which it is refused, in their order, or what it does.
ghost use Rattle.std.specs.Prelude.{◌≡◌, ◌≤◌, ◌&&◌, not, Some, false, length, nat_lt, option_and_then, option_copied, true};
ghost use Rattle.std.specs.Option.{option_map, option_map_or};
ghost use Rattle.schema_model.specs.Classes.{Schema as Classes};
ghost use Rattle.state_model.specs.Reached.{is_among};
ghost use Rattle.state_model.specs.Rows.{is_live, row_at};
ghost use Rattle.state_model.specs.Sound.{are_sound};
ghost use Rattle.state_model.specs.State.{last_number, places_limit, text_limit};
ghost use Rattle.state_model.specs.Commands.{first_cause, gives_number, holder_of, is_cycle, is_duplicate, is_no_ref, row_for, value_put, expected_for};
ghost use Rattle.command_laws.specs.Accounts.{replaced, row_text};
ghost use Rattle.instance_table.specs.declared.plan.Verdict.TheVariants.{Makes, Refused};
ghost use Rattle.instance_table.specs.Amounts.{is_text_full, limit_causes, link_causes, make_causes, text_after, value_causes};
ghost use Rattle.instance_table.specs.Bodies.{next_in, row_of};
ghost use Rattle.instance_table.specs.Changes.{link_in, value_named};
ghost use Rattle.instance_table.specs.Found.{IsJudged, IsPlanned, is_absent, item_number};
ghost use Rattle.instance_table.specs.Nodes.{node_at, rows_in};
ghost use Rattle.instance_table.specs.Table.{IsExact, IsTable};

use crate::amounts::place_text_after;
use crate::body::Body;
use crate::cause;
use crate::found::{Found, look_up};
use crate::graph::Graph;
use crate::links::link_of;
use crate::nodes::Nodes;
use crate::parts::{holder_of, value_put};
use crate::plan::{Located, Plan, Verdict};
use crate::roomy_list::RoomyList;
use crate::totals::Totals;
use crate::typed::type_cause;
use crate::walk::reaches;
use schema_model::{LAST_NUMBER, RefNum, Schema, Value};
use state_model::{Command, Expected, TableFault, is_filtered};
use std::alloc::Global;

/// How many rows a room may have.
const ROWS_LIMIT: usize = 16_384;

/// How many places a room may have.
const PLACES_LIMIT: usize = 65_536;

/// How many bytes all text values and map keys of a room may be.
const TEXT_LIMIT: u128 = 4_194_304;

// Whether a number isn't live.
fn is_dead(nodes: &Nodes, who: RefNum) -> bool
    ensures { result ≡ not (is_live (rows_in nodes.now) who) }
{
    nodes.get(who).is_none()
}

// The link that has to be live: of the value that is put, or of the value that is taken out of a set.
fn named_link(command: &Command) -> Option<RefNum>
    ensures { result ≡ link_in (value_named command.now) }
{
    match command {
        Command::Del(_, value) => link_of(Some(value)),
        _ => link_of(value_put(command)),
    }
}

// Whether the holder or the linked number isn't live.
fn is_no_ref(nodes: &Nodes, command: &Command, body: Option<&Body>) -> bool
    requires { option_map row_of (option_copied body) ≡ row_for (rows_in nodes.now) command.now }
    ensures { result ≡ is_no_ref (rows_in nodes.now) command.now }
{
    let Some(_) = holder_of(command) else {
        return false;
    };
    let Some(_) = body else {
        return true;
    };
    match named_link(command) {
        Some(link) => is_dead(nodes, link),
        None => false,
    }
}

// The first cause in what the command puts into a row.
fn value_cause(
    schema: &Schema,
    nodes: &Nodes,
    command: &Command,
    body: &Body,
    found: &Found<'_>,
    expected: &Option<Expected>,
) -> Option<TableFault>
    requires absent { found.now.absent ≡ is_absent command.now (row_of body.now) }
    requires expected { expected.now ≡ expected_for schema.now command.now (Some (row_of body.now)) }
    ensures { result ≡ first_cause (value_causes schema.now (rows_in nodes.now) command.now (row_of body.now)) }
{
    if cause::is_no_item(command, body, found) {
        return Some(TableFault::NoItem);
    }
    type_cause(schema, nodes, value_put(command), expected)
}

// Whether the instance that a command links to reaches the row that it changes.
fn is_cycle(alloc: Global, spare: &mut RoomyList, nodes: &Nodes, command: &Command) -> bool
    requires sound { (schema : Classes) × (are_sound schema (rows_in nodes.now) ≡ true) }
    requires exact { IsExact nodes.now }
    requires room { length nodes.now ≤ spare.old.room }
    ensures value { result ≡ is_cycle (rows_in nodes.now) (holder_of command.now) (value_put command.now) }
    ensures kept { spare.old.room ≤ spare.new.room }
{
    match (holder_of(command), link_of(value_put(command))) {
        (Some(holder), Some(link)) => reaches(alloc, spare, nodes, link, holder),
        _ => false,
    }
}

// Whether a place of a holder holds a row.
fn holds(nodes: &Nodes, holder: RefNum, who: RefNum) -> bool
    ensures { result ≡ option_map_or (λ n. is_among holder n.holders) (node_at nodes.now who) false }
{
    match nodes.get(who) {
        Some(node) => node.holders.has(holder),
        None => false,
    }
}

// Whether the instance that a command puts stands at another position of a filtered array. Who holds the instance tells
// it without a look at the array.
fn is_duplicate(
    schema: &Schema,
    nodes: &Nodes,
    holder: RefNum,
    command: &Command,
    body: &Body,
) -> bool
    requires sound { are_sound schema.now (rows_in nodes.now) ≡ true }
    requires exact { IsExact nodes.now }
    requires there { row_at (rows_in nodes.now) holder ≡ Some (row_of body.now) }
    ensures { result ≡ is_duplicate schema.now command.now (Some (row_of body.now)) }
{
    let Body::Array(home, values) = body else {
        return false;
    };
    if !is_filtered(schema, *home) {
        return false;
    }
    match command {
        Command::Push(_, Value::Link(who)) => holds(nodes, holder, *who),
        Command::SetAt(_, at, Value::Link(who)) => link_of(values.get(*at)) != Some(*who)
            && holds(nodes, holder, *who),
        _ => false,
    }
}

// The first cause in the instance that the command links to.
fn link_cause(
    alloc: Global,
    spare: &mut RoomyList,
    schema: &Schema,
    nodes: &Nodes,
    holder: RefNum,
    command: &Command,
    body: &Body,
) -> Option<TableFault>
    requires sound { are_sound schema.now (rows_in nodes.now) ≡ true }
    requires exact { IsExact nodes.now }
    requires there { row_at (rows_in nodes.now) holder ≡ Some (row_of body.now) }
    requires room { length nodes.now ≤ spare.old.room }
    ensures value { result ≡ first_cause (link_causes schema.now (rows_in nodes.now) command.now (row_of body.now)) }
    ensures kept { spare.old.room ≤ spare.new.room }
{
    if is_cycle(alloc, spare, nodes, command) {
        return Some(TableFault::Cycle);
    }
    if is_duplicate(schema, nodes, holder, command, body) {
        return Some(TableFault::Duplicate);
    }
    None
}

// Whether there would be too many bytes of text.
fn is_text_full(text: usize, command: &Command, body: &Body, found: &Found<'_>) -> bool
    requires absent { found.now.absent ≡ is_absent command.now (row_of body.now) }
    requires value { option_copied found.now.value ≡ replaced command.now (row_of body.now) }
    ensures { result ≡ is_text_full command.now (row_of body.now) text }
{
    value_put(command).is_some()
        && !cause::is_present(command, body, found)
        && place_text_after(text, command, body, found) > TEXT_LIMIT
}

// Whether the command gives an item number and none is left.
fn is_number_spent(command: &Command, body: &Body, found: &Found<'_>) -> bool
    requires { found.now.absent ≡ is_absent command.now (row_of body.now) }
    ensures { result ≡ (gives_number command.now (Some (row_of body.now)) && nat_lt last_number (next_in body.now)) }
{
    let next = match body {
        Body::Map(_, items) => items.given(),
        Body::Set(_, items) => items.given(),
        Body::Struct(..) | Body::Array(..) => 0,
    };
    cause::gives_number(command, body, found) && next > LAST_NUMBER
}

// The first cause in the limits.
fn limit_cause(
    totals: Totals,
    command: &Command,
    body: &Body,
    found: &Found<'_>,
) -> Option<TableFault>
    requires absent { found.now.absent ≡ is_absent command.now (row_of body.now) }
    requires value { option_copied found.now.value ≡ replaced command.now (row_of body.now) }
    ensures { result ≡ first_cause (limit_causes command.now (row_of body.now) totals.places totals.text (next_in body.now)) }
{
    if cause::adds_place(command, body, found) && totals.places >= PLACES_LIMIT {
        return Some(TableFault::PlacesFull);
    }
    if is_text_full(totals.text, command, body, found) {
        return Some(TableFault::TextFull);
    }
    if cause::is_long(command) {
        return Some(TableFault::TextTooLong);
    }
    if is_number_spent(command, body, found) {
        return Some(TableFault::NumbersSpent);
    }
    if cause::is_present(command, body, found) {
        return Some(TableFault::Present);
    }
    None
}

// What a command that changes no row comes to.
fn judge_make(rows: usize, given: u32) -> Verdict
    ensures { result ≡ option_map_or Refused (first_cause (make_causes rows given)) Makes }
{
    if rows >= ROWS_LIMIT {
        return Verdict::Refused(TableFault::InstancesFull);
    }
    if given >= LAST_NUMBER {
        return Verdict::Refused(TableFault::RefsSpent);
    }
    Verdict::Makes
}

// Where the row that a command changes stands, if there is one.
fn place_for(nodes: &Nodes, command: &Command) -> usize {
    match holder_of(command) {
        Some(holder) => nodes.place(holder),
        None => 0,
    }
}

// The row that a command changes, which is thought to stand at a place.
fn body_for<'a>(nodes: &'a Nodes, place: usize, command: &Command) -> Option<&'a Body>
    ensures body { option_copied result ≡ option_map (λ n. n.body) (option_and_then (node_at nodes.now) (holder_of command.now)) }
    ensures row { option_map row_of (option_copied result) ≡ row_for (rows_in nodes.now) command.now }
{
    let node = nodes.get_near(place, holder_of(command)?)?;
    Some(&node.body)
}

// What a command that isn't refused does to a row.
fn plan(place: usize, totals: Totals, command: &Command, body: &Body, found: &Found<'_>) -> Plan
    requires absent { found.now.absent ≡ is_absent command.now (row_of body.now) }
    requires number { found.now.number ≡ item_number command.now (row_of body.now) }
    requires value { option_copied found.now.value ≡ replaced command.now (row_of body.now) }
    requires places { totals.places ≤ places_limit }
    requires text { row_text (row_of body.now) ≤ text_limit }
    requires few { text_after command.now (row_of body.now) totals.text ≤ text_limit }
    ensures { IsPlanned command.now (row_of body.now) totals.places totals.text result }
{
    Plan {
        located: Located {
            place,
            number: found.number,
        },
        before: link_of(found.value),
        totals: totals.after(command, body, found),
    }
}

/// What a command comes to: the first cause for which it is refused, or what it does. The spare list has room for all
/// rows, so that this is known whatever memory does.
pub fn judge(
    alloc: Global,
    spare: &mut RoomyList,
    schema: &Schema,
    graph: &Graph,
    given: u32,
    totals: Totals,
    command: &Command,
) -> Verdict
    requires table { IsTable schema.now graph.now.nodes given totals.places totals.text }
    requires room { length graph.now.nodes ≤ spare.old.room }
    ensures value { IsJudged schema.now graph.now.nodes given totals.places totals.text command.now result }
    ensures kept { spare.old.room ≤ spare.new.room }
{
    let nodes = graph.nodes();
    let place = place_for(nodes, command);
    let body = body_for(nodes, place, command);
    if is_no_ref(nodes, command, body) {
        return Verdict::Refused(TableFault::NoRef);
    }
    let expected = cause::expected_for(schema, command, body);
    if cause::is_no_field(schema, command, body, &expected) {
        return Verdict::Refused(TableFault::NoField);
    }
    let (Some(holder), Some(body)) = (holder_of(command), body) else {
        return judge_make(nodes.len(), given);
    };
    let found = look_up(command, body);
    if let Some(fault) = value_cause(schema, nodes, command, body, &found, &expected) {
        return Verdict::Refused(fault);
    }
    if let Some(fault) = link_cause(alloc, spare, schema, nodes, holder, command, body) {
        return Verdict::Refused(fault);
    }
    if let Some(fault) = limit_cause(totals, command, body, &found) {
        return Verdict::Refused(fault);
    }
    Verdict::Changes(holder, plan(place, totals, command, body, &found))
}
