//! The words of a frame that a client refuses.
ghost use Rattle.std.specs.Prelude.{◌≡◌, IfOk};
ghost use Rattle.room_server.specs.Frames.{form_words, frame_words, refused, refused_at, refused_by, scalar_words, state_words};

use frame_model::FrameFault;
use life_model::ClientFault;
use lists::{Memory, Text};
use schema_model::ReadFault;
use std::alloc::Global;
use wire_model::OpFault;

/// The words of a frame that a client refuses, with the place and the byte where there are such.
pub fn frame_words(alloc: Global, fault: ClientFault) -> Result<Text, Memory>
    ensures { IfOk result (λ words. words ≡ frame_words fault) }
{
    match fault {
        ClientFault::Frame(fault) => form_words(alloc, fault),
        ClientFault::State(fault) => state_words(alloc, fault),
        ClientFault::BeforeFull => refused(alloc, "before-full"),
        ClientFault::Closed => refused(alloc, "closed"),
        ClientFault::Memory => refused(alloc, "memory"),
    }
}

// Bytes that are no frame.
fn form_words(alloc: Global, fault: FrameFault) -> Result<Text, Memory>
    ensures { IfOk result (λ words. words ≡ form_words fault) }
{
    match fault {
        FrameFault::Empty => refused(alloc, "empty"),
        FrameFault::UnknownCode(byte) => refused_at(alloc, "unknown-code", usize::from(byte)),
        FrameFault::Bad(place) => refused_at(alloc, "bad", place),
        FrameFault::TooLong => refused(alloc, "too-long"),
        FrameFault::Memory => refused(alloc, "memory"),
    }
}

// State bytes that are refused.
fn state_words(alloc: Global, fault: OpFault) -> Result<Text, Memory>
    ensures { IfOk result (λ words. words ≡ state_words fault) }
{
    match fault {
        OpFault::Scalar(fault) => scalar_words(alloc, fault),
        OpFault::UnknownRef(place) => refused_at(alloc, "unknown-ref", place),
        OpFault::UnknownField(place) => refused_at(alloc, "unknown-field", place),
        OpFault::UnknownType(place) => refused_at(alloc, "unknown-type", place),
        OpFault::UnknownOp(place, byte) => refused_by(alloc, "unknown-op", place, byte),
        OpFault::Unsupported(place, byte) => refused_by(alloc, "unsupported", place, byte),
        OpFault::NoItem(place) => refused_at(alloc, "no-item", place),
        OpFault::WrongClass(place) => refused_at(alloc, "wrong-class", place),
        OpFault::Memory => refused(alloc, "memory"),
    }
}

// Bytes of a scalar that are refused.
fn scalar_words(alloc: Global, fault: ReadFault) -> Result<Text, Memory>
    ensures { IfOk result (λ words. words ≡ scalar_words fault) }
{
    match fault {
        ReadFault::Short(place) => refused_at(alloc, "short", place),
        ReadFault::Fractional(place) => refused_at(alloc, "fractional", place),
        ReadFault::TooWide(place) => refused_at(alloc, "too-wide", place),
        ReadFault::BadText(place) => refused_at(alloc, "bad-text", place),
        ReadFault::BadForm(place) => refused_at(alloc, "bad-form", place),
    }
}

fn refused(alloc: Global, word: &str) -> Result<Text, Memory>
    ensures { IfOk result (λ words. words ≡ refused word.now) }
{
    let words = format!(in alloc; "frame {word}")?;
    Ok(Text::from_string(words))
}

fn refused_at(alloc: Global, word: &str, place: usize) -> Result<Text, Memory>
    ensures { IfOk result (λ words. words ≡ refused_at word.now place) }
{
    let words = format!(in alloc; "frame {word} {place}")?;
    Ok(Text::from_string(words))
}

fn refused_by(alloc: Global, word: &str, place: usize, byte: u8) -> Result<Text, Memory>
    ensures { IfOk result (λ words. words ≡ refused_by word.now place byte) }
{
    let words = format!(in alloc; "frame {word} {place} {byte}")?;
    Ok(Text::from_string(words))
}
