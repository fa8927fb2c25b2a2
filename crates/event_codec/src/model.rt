//! The record of a model.

ghost use Rattle.std.specs.Prelude.{◌≡◌, ℤ, List, ℕ, Option, Ok, IfOk, IfSome};
ghost use Rattle.std.specs.Option.{ForSome};
ghost use Rattle.event_codec.specs.ReadResults.{Reads};
ghost use Rattle.event_codec.specs.Models.{model_code, IsUpper, is_upper, known_at, upper_at, model_of, GivesModel};

use crate::cursor::Cursor;
use crate::enc::Enc;
use crate::fault::CodecFault;
use crate::put::{put_flag, put_i64};
use crate::tags::MODEL;
use problem::LARGEST_BOUND;
use std::alloc::{AllocError, Global};

/// The one format of a model's record.
const FORMAT: u8 = 1;

/// The record of a model: what a search of it begins with. It has no limit of the search (docs/DECISIONS.md, entry 46).
#[derive(Clone, Copy, Debug, Drop, PartialEq, Eq)]
pub struct ModelRecord<'a> {
    /// The model's text.
    pub text: &'a [u8],
    /// The bound for columns that lack one, from 0 to `LARGEST_BOUND`, if one was given.
    pub upper: Option<i64>,
}

/// The payload of a model's text and the upper bound, from 0 to `LARGEST_BOUND`, for columns that lack one. The one error is want of memory.
pub fn encode_model(alloc: Global, text: &[u8], upper: Option<i64>) -> Result<Vec<u8>, AllocError>
    requires { ForSome upper IsUpper }
    ensures { IfOk result (λ v. v.items ≡ model_code text.now upper) }
{
    let mut out = Vec::new(alloc);
    out.push(MODEL)?;
    out.push(FORMAT)?;
    match upper {
        None => {
            put_flag(&mut out, false)?;
            put_i64(&mut out, Enc::One, 0)?;
        }
        Some(upper) => {
            put_flag(&mut out, true)?;
            put_i64(&mut out, Enc::One, upper)?;
        }
    }
    out.extend_from_slice(text)?;
    Ok(out)
}

/// Whether the number may stand behind the flag.
fn is_upper(flag: bool, upper: i64) -> bool
    ensures { result ≡ is_upper flag upper }
{
    if flag {
        0 <= upper && upper <= i64::from(LARGEST_BOUND)
    } else {
        upper == 0
    }
}

/// A byte that has to be this one.
#[tactic(auto, unfolding(crate::specs::Models::known_at))]
fn known(cursor: &mut Cursor<'_>, byte: u8) -> Result<(), CodecFault>
    ensures { Reads result cursor.new (known_at byte cursor.old) }
{
    let at = cursor.at();
    if cursor.byte()? != byte {
        return Err(CodecFault::BadTag { at });
    }
    Ok(())
}

/// A flag and an upper bound, which is 0 where there is none.
#[tactic(auto, unfolding(crate::specs::Models::upper_at))]
fn upper(cursor: &mut Cursor<'_>) -> Result<Option<i64>, CodecFault>
    ensures { Reads result cursor.new (upper_at cursor.old) }
{
    let flag = cursor.flag()?;
    let at = cursor.at();
    let upper = cursor.i64(Enc::One)?;
    if !is_upper(flag, upper) {
        return Err(CodecFault::BadValue { at });
    }
    Ok(if flag { Some(upper) } else { None })
}

/// The model that a payload spells.
#[tactic(auto, unfolding(crate::specs::Models::model_of))]
fn whole_model(bytes: &[u8]) -> Result<ModelRecord<'_>, CodecFault>
    ensures { GivesModel result (model_of bytes.now) }
{
    let mut cursor = Cursor::new(bytes);
    known(&mut cursor, MODEL)?;
    known(&mut cursor, FORMAT)?;
    let upper = upper(&mut cursor)?;
    Ok(ModelRecord {
        text: cursor.rest(),
        upper,
    })
}

/// The model that a payload is the record of. A fault is the first one from left to right. Nothing is copied.
pub fn decode_model(bytes: &[u8]) -> Result<ModelRecord<'_>, CodecFault>
    // What is read is a model, and the bytes are its record.
    ensures found { IfOk result (λ m. IfSome m.upper IsUpper × (bytes.now ≡ model_code m.text.now m.upper)) }
    // What the bytes are the record of is read.
    ensures only { (text : List ℕ) (upper : Option ℤ) → IfSome upper IsUpper → bytes.now ≡ model_code text upper
        → GivesModel result (Ok (record { text = text; upper = upper })) }
    // Which fault it is.
    ensures exact { GivesModel result (model_of bytes.now) }
{
    whole_model(bytes)
}
