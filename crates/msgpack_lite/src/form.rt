//! What the first byte of a value tells.
ghost use Rattle.std.specs.Prelude.{◌≡◌, ◌≤◌, ◌<◌};
ghost use Rattle.frame_model.specs.Packs.{form_of, marked_form};

use frame_model::form::{Form, Length, Size};

/// What the first byte of a value tells.
#[tactic(auto, unfolding(frame_model::specs::Packs::form_of))]
pub fn form_of(first: u8) -> Form
    ensures { result ≡ form_of first }
{
    match first {
        0x00..=0x7f => Form::Small(first as i8),
        0x80..=0x8f => Form::Map(Length::Told(first - 0x80)),
        0x90..=0x9f => Form::List(Length::Told(first - 0x90)),
        0xa0..=0xbf => Form::Text(Length::Told(first - 0xa0)),
        0xe0..=0xff => Form::Small((i16::from(first) - 256) as i8),
        _ => marked_form(first),
    }
}

// A first byte from c0 to df.
fn marked_form(first: u8) -> Form
    requires from { 192 ≤ first }
    requires to { first < 224 }
    ensures { result ≡ marked_form first }
{
    match first {
        0xc0 => Form::Nil,
        0xc1 => Form::Reserved,
        0xc2 => Form::Truth(false),
        0xc3 => Form::Truth(true),
        0xc4 => Form::Binary(Length::Behind(Size::One)),
        0xc5 => Form::Binary(Length::Behind(Size::Two)),
        0xc6 => Form::Binary(Length::Behind(Size::Four)),
        0xca | 0xcb => Form::Float,
        0xcc => Form::Unsigned(Size::One),
        0xcd => Form::Unsigned(Size::Two),
        0xce => Form::Unsigned(Size::Four),
        0xcf => Form::Unsigned(Size::Eight),
        0xd0 => Form::Signed(Size::One),
        0xd1 => Form::Signed(Size::Two),
        0xd2 => Form::Signed(Size::Four),
        0xd3 => Form::Signed(Size::Eight),
        0xd9 => Form::Text(Length::Behind(Size::One)),
        0xda => Form::Text(Length::Behind(Size::Two)),
        0xdb => Form::Text(Length::Behind(Size::Four)),
        0xdc => Form::List(Length::Behind(Size::Two)),
        0xdd => Form::List(Length::Behind(Size::Four)),
        0xde => Form::Map(Length::Behind(Size::Two)),
        0xdf => Form::Map(Length::Behind(Size::Four)),
        _ => Form::Extension,
    }
}
