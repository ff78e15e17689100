//! Openings that are refused.
ghost use Rattle.std.specs.Prelude.{◌≡◌, ◌++◌, ◌<◌, ◌^◌, length, IfOk, IsTrue, OnOk};
ghost use Rattle.hub_model.specs.Dealt.{in_use_text, refused_opening};
ghost use Rattle.schema_model.specs.Ids.{is_id};

use client_frames::error_frame;
use frame_model::codes::WITH_ERROR;
use hub_model::{HubOut, HubOuts};
use lists::{Memory, Text};
use schema_model::{ConnNum, Id, id_text};
use std::alloc::Global;

/// Tells a connection why its opening is refused, and closes it.
pub fn refuse_opening(
    alloc: Global,
    conn: ConnNum,
    code: u16,
    text: &str,
    outs: &mut HubOuts,
) -> Result<(), Memory>
    requires { length text.now < 2 ^ 32 }
    ensures { OnOk result (outs.new ≡ outs.old ++ refused_opening conn code text.now) }
{
    let frame = error_frame(alloc, code, text)?;
    outs.push(HubOut::Send(conn, frame))?;
    outs.push(HubOut::Close(conn, WITH_ERROR))
}

/// The text that an id is in use.
pub fn in_use_text(alloc: Global, id: &Id) -> Result<Text, Memory>
    requires { IsTrue (is_id id.now) }
    ensures value { IfOk result (λ text. text ≡ in_use_text id.now) }
    ensures short { IfOk result (λ text. length text < 2 ^ 32) }
{
    let id = id_text(id);
    Ok(Text::from_string(format!(in alloc; "id {id} is in use")?))
}
