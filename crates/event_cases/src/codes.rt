//! Payloads of a journal: events and models that bytes spell, and the first fault of those that spell none.

ghost use Rattle.std.specs.Option.{ForSome};
ghost use Rattle.event_codec.specs.Codes.{IsCodable};
ghost use Rattle.event_codec.specs.Models.{IsUpper};

use crate::groups::{GROUPS, GROUPS_IN_TWO, show_group};
use crate::in_two::{IN_A_BYTE_MORE, IN_TWO, PAST_THEIR_TYPES};
use crate::printing::show_event;
use event_codec::{CodecError, Enc, decode, decode_model, encode, encode_model};
use node_events::Event;
use std::alloc::{AllocError, Global};
use std::io;

/// Payloads of encoding 1 in hexadecimal digits, a blank before each field.
const EVENTS: [&str; 21] = [
    "03 01000000 0200000000000000",
    "03 01000000 0200000000000000 07",
    "03 01000000 02000000000000",
    "03 ffffffff",
    "09 01000000 0200000000000000",
    "01 01 00 0000000000000000",
    "02 01000000 07000000 fdffffffffffffffffffffffffffffff 02000000000000000000000000000000",
    "02 01000000 07000000 fcffffffffffffffffffffffffffffff 02000000000000000000000000000000",
    "02 01000000 07000000 00000000000000000000000000000000",
    "02 01000000 07000000 00000000000000000000000000000080",
    "02 01000000 07000000 03000000000000000000000000000000 0200",
    "02 01000000 07000000 03000000000000000000000000000000 feffffffffffffffffffffffffffffff",
    "02 02000000 07000000 01000000000000000000000000000000 01000000000000000000000000000000 07000000",
    "04 01000000 02000000 fbffffffffffffff 00 04000000 02000000 01000000000000000000000000000000 02000000000000000000000000000000 00000000000000000000000000000000 01000000000000000000000000000000",
    "04 01000000 02000000 fbffffffffffffff 01 04000000 03000000",
    "04 01000000 02000000 fbffffffffffffff 02 04000000",
    "04 01000000 02000000 fbffffffffffffff 03",
    "05 03000000 00 01000000 00000000 01000000000000000000000000000000 03000000000000000000000000000000",
    "05 03000000 01 01 00000000",
    "05 03000000 01 02",
    "05 03000000 02 07000000",
];

/// Records of models in the same form.
const MODELS: [&str; 8] = [
    "01 01 01 2c01000000000000 4e414d45",
    "01 01 00 0000000000000000",
    "01 01 01 00ca9a3b00000000",
    "01 01 01 01ca9a3b00000000",
    "01 01 00 0100000000000000",
    "01 01 02",
    "01 02",
    "01 01 00 00000000000000",
];

/// Puts the digits of a text's fields together.
fn push_fields(digits: &mut String, text: &str) -> Result<(), AllocError> {
    for field in text.split(' ') {
        digits.push_str(field)?;
    }
    Ok(())
}

/// The digits of a text without its blanks.
fn digits_of(alloc: Global, text: &str) -> Result<String, AllocError> {
    let mut digits = String::new(alloc);
    push_fields(&mut digits, text)?;
    Ok(digits)
}

/// The bytes of hexadecimal digits.
fn decoded(alloc: Global, digits: &str) -> io::Result<Vec<u8>> {
    match hex::decode(alloc, digits.as_bytes()) {
        Ok(bytes) => Ok(bytes),
        Err(_) => Err(io::Error::other("a text of other digits")),
    }
}

/// The bytes of a text in hexadecimal digits.
fn bytes_of(alloc: Global, text: &str) -> io::Result<Vec<u8>> {
    let digits = digits_of(alloc, text)?;
    decoded(alloc, &digits)
}

/// Whether an event is spelled by these bytes.
fn is_spelled(alloc: Global, enc: Enc, event: &Event, bytes: &[u8]) -> Result<bool, AllocError>
    requires { IsCodable enc event.now }
{
    let spelled = encode(alloc, enc, event)?;
    Ok(spelled.as_slice() == bytes)
}

/// Prints an event and whether it is spelled by these bytes.
fn show_spelled<R: Print + Alloc<A = Global>>(
    rt: &R,
    enc: Enc,
    event: &Event,
    bytes: &[u8],
) -> io::Result<()>
    requires { IsCodable enc event.now }
{
    show_event(rt, event)?;
    let is_same = is_spelled(rt.alloc(), enc, event, bytes)?;
    println!(rt; "  spelled so: {is_same}")
}

/// Prints why a payload spells no event.
pub(crate) fn show_fault<R: Print>(rt: &R, text: &str, fault: CodecError) -> io::Result<()> {
    match fault {
        CodecError::Fault(fault) => println!(rt; "payload {text}: {fault:?}"),
        CodecError::Memory => Err(io::Error::from(io::ErrorKind::OutOfMemory)),
    }
}

/// Prints the event that bytes spell and whether it is spelled so, or their first fault.
fn show_event_of<R: Print + Alloc<A = Global>>(
    rt: &R,
    enc: Enc,
    text: &str,
    bytes: &[u8],
) -> io::Result<()> {
    match decode(rt.alloc(), enc, bytes) {
        Ok(event) => show_spelled(rt, enc, &event, bytes),
        Err(fault) => show_fault(rt, text, fault),
    }
}

/// Whether a model's record is these bytes.
fn is_record(
    alloc: Global,
    text: &[u8],
    upper: Option<i64>,
    bytes: &[u8],
) -> Result<bool, AllocError>
    requires { ForSome upper IsUpper }
{
    let spelled = encode_model(alloc, text, upper)?;
    Ok(spelled.as_slice() == bytes)
}

/// Prints a model and whether its record is these bytes.
fn show_record<R: Print + Alloc<A = Global>>(
    rt: &R,
    text: &[u8],
    upper: Option<i64>,
    bytes: &[u8],
) -> io::Result<()>
    requires { ForSome upper IsUpper }
{
    let is_same = is_record(rt.alloc(), text, upper, bytes)?;
    let size = text.len();
    println!(rt; "model of {size} bytes, upper {upper:?}, spelled so: {is_same}")
}

/// Prints the model whose record these bytes are and whether it is spelled so, or their first fault.
fn show_model_of<R: Print + Alloc<A = Global>>(rt: &R, text: &str, bytes: &[u8]) -> io::Result<()> {
    match decode_model(bytes) {
        Ok(model) => show_record(rt, model.text, model.upper, bytes),
        Err(fault) => println!(rt; "model {text}: {fault:?}"),
    }
}

/// What a payload is read as.
#[derive(Clone, Copy)]
enum Kind {
    Event(Enc),
    Model,
    Group(Enc),
}

/// Prints what the bytes of a payload spell.
fn show_bytes<R: Print + Alloc<A = Global>>(
    rt: &R,
    kind: Kind,
    text: &str,
    bytes: &[u8],
) -> io::Result<()> {
    match kind {
        Kind::Event(enc) => show_event_of(rt, enc, text, bytes),
        Kind::Model => show_model_of(rt, text, bytes),
        Kind::Group(enc) => show_group(rt, enc, text, bytes),
    }
}

/// Prints what a payload spells.
fn show_payload<R: Print + Alloc<A = Global>>(rt: &R, kind: Kind, text: &str) -> io::Result<()> {
    let bytes = bytes_of(rt.alloc(), text)?;
    show_bytes(rt, kind, text, &bytes)
}

/// Prints what payloads spell.
fn show_payloads<R: Print + Alloc<A = Global>>(
    rt: &R,
    kind: Kind,
    texts: &[&str],
) -> io::Result<()> {
    for text in texts {
        show_payload(rt, kind, text)?;
    }
    Ok(())
}

/// Prints what payloads spell as events, as models and as groups.
pub(crate) fn show<R: Print + Alloc<A = Global>>(rt: &R) -> io::Result<()> {
    show_payloads(rt, Kind::Event(Enc::One), &EVENTS)?;
    show_payloads(rt, Kind::Model, &MODELS)?;
    show_payloads(rt, Kind::Group(Enc::One), &GROUPS)?;
    show_payloads(rt, Kind::Event(Enc::Two), &IN_TWO)?;
    show_payloads(rt, Kind::Event(Enc::Two), &IN_A_BYTE_MORE)?;
    show_payloads(rt, Kind::Event(Enc::Two), &PAST_THEIR_TYPES)?;
    show_payloads(rt, Kind::Group(Enc::Two), &GROUPS_IN_TWO)
}
