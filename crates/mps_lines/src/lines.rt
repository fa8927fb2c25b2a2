//! The lines of a text in free MPS: each ends with LF or CR LF, or with the text. Comments and lines of blanks alone are passed over.

ghost use Rattle.std.specs.Prelude.{◌≡◌, ℕ, ◌+◌, ◌-◌, ◌<◌, ◌≤◌, ◌∷◌, [], map, length, take, drop, Bool, true, List, ◌++◌, not, ◌==◌, IfOk, OnErr, MatchOption, ◌^◌, is_some, false};
ghost use Rattle.std.specs.List.{list_all, position_or_len};
ghost use Rattle.mps_lines.specs.Lines.{is_blank, is_passed_over, begins_blank, begins_with, kept_fields, raw_lines, line_of, numbered};
ghost use Rattle.mps_lines.specs.Ends.{without_cr};
ghost use Rattle.mps_lines.specs.Left.{left, room, text_len, with_first, lines_of};

use std::alloc::{AllocError, Global};

/// Whether a byte is a blank or a tab.
fn is_blank(byte: u8) -> bool
    ensures { result ≡ is_blank byte }
{
    byte == b' ' || byte == b'\t'
}

/// Whether a line begins with a byte.
fn begins_with(byte: u8, line: &[u8]) -> bool
    ensures { result ≡ begins_with byte line.now }
{
    !line.is_empty() && line[0] == byte
}

/// Whether each byte is a blank or a tab.
fn all_blank(line: &[u8]) -> bool
    ensures { result ≡ list_all is_blank line.now }
{
    for byte in line {
        if !is_blank(*byte) {
            return false;
        }
    }
    true
}

/// Whether a line is passed over.
fn is_passed_over(line: &[u8]) -> bool
    ensures { result ≡ is_passed_over line.now }
{
    begins_with(b'*', line) || all_blank(line)
}

/// Whether a line begins with a blank or a tab.
fn begins_blank(line: &[u8]) -> bool
    ensures { result ≡ begins_blank line.now }
{
    match line {
        [b' ' | b'\t', ..] => true,
        _ => false,
    }
}

/// The first six fields of a line. No line needs more than five, so these tell where there are too many,
/// and a line of very many fields takes no more memory than any other.
fn kept_fields<'a>(alloc: Global, line: &'a [u8]) -> Result<Vec<&'a [u8]>, AllocError>
    ensures { IfOk result (λ v. map (λ f. f.now) v.items ≡ kept_fields line.now) }
{
    // Room for all of them at once, since each line of a text comes here.
    let mut fields = Vec::with_capacity(alloc, 6)?;
    fields.extend(
        line.split(|b| *b == b' ' || *b == b'\t')
            .filter(|field| !(field.len() == 0))
            .take(6),
    )?;
    Ok(fields)
}

/// Where the first LF stands, or the length.
fn line_len(text: &[u8]) -> usize
    ensures value { result ≡ position_or_len (λ b. b == 10) text.now }
    ensures bound { result ≤ length text.now }
{
    let mut at = 0;
    while at < text.len() && text[at] != 10 {
        at += 1;
    }
    at
}

/// A line without the CR that ends it before a LF.
fn without_cr(line: &[u8]) -> &[u8]
    ensures { result.now ≡ without_cr line.now }
{
    if line.is_empty() {
        return line;
    }
    let last = line.len() - 1;
    if line[last] == 13 {
        &line[..last]
    } else {
        line
    }
}

/// The first line of a text that isn't empty, and what follows its end.
fn cut(text: &[u8]) -> (&[u8], &[u8])
    requires { 0 < length text.now }
    ensures lines { raw_lines text.now ≡ result.0.now ∷ raw_lines result.1.now }
    ensures shorter { length result.1.now < length text.now }
{
    let at = line_len(text);
    if at == text.len() {
        return (text, &text[at..]);
    }
    (without_cr(&text[..at]), &text[at + 1..])
}

/// A line that isn't passed over: its number from 1, whether it is a data line, and its first fields.
#[derive(Drop)]
pub struct Line<'a> {
    /// The line's number in the text.
    pub number: u64,
    /// Whether the line begins with a blank or a tab.
    pub is_data: bool,
    /// The first six fields in order; each isn't empty. No line needs more than five.
    pub fields: Vec<&'a [u8]>,
}

/// The lines of a text that are left.
#[derive(Drop)]
pub struct Lines<'a> {
    text: &'a [u8],
    number: u64,
}

impl<'a> Lines<'a> {
    /// All lines of a text.
    pub fn of(text: &'a [u8]) -> Lines<'a>
        ensures lines { left result ≡ lines_of text.now }
        ensures room { room result ≡ 1 + length text.now }
    {
        Lines { text, number: 1 }
    }

    /// The next line that isn't passed over. The one error is want of memory; after it the same lines are left.
    pub fn next(&mut self, alloc: Global) -> Result<Option<Line<'a>>, AllocError>
        requires { room self.old < 2 ^ 64 }
        ensures lines { IfOk result (λ line. left self.old ≡ with_first line (left self.new)) }
        ensures end { IfOk result (λ line. is_some line ≡ false → left self.old ≡ []) }
        ensures err { OnErr result (left self.new ≡ left self.old) }
        ensures room { room self.new ≤ room self.old }
        ensures shorter { IfOk result (λ line. is_some line ≡ true → text_len self.new < text_len self.old) }
    {
        while !self.text.is_empty() {
            let (line, rest) = cut(self.text);
            if !is_passed_over(line) {
                let fields = kept_fields(alloc, line)?;
                let number = self.number;
                self.text = rest;
                self.number += 1;
                return Ok(Some(Line {
                    number,
                    is_data: begins_blank(line),
                    fields,
                }));
            }
            self.text = rest;
            self.number += 1;
        }
        Ok(None)
    }
}
