// What is shown of a case that differs.

use crate::case::{Case, Expected};
use crate::outcome::Outcome;
use std::io;

/// Shows lines, each of them behind a mark.
fn show_lines<R: Print>(rt: &R, text: &str) -> io::Result<()> {
    for line in text.lines() {
        println!(rt; "    | {line}")?;
    }
    Ok(())
}

/// Shows the lines of bytes.
fn show_bytes<R: Print>(rt: &R, bytes: &[u8]) -> io::Result<()> {
    match str::from_utf8(bytes) {
        Ok(text) => show_lines(rt, text),
        Err(_) => println!(rt; "    | (bytes that are no text)"),
    }
}

/// Shows which certificate a case expects.
fn show_expected<R: Print>(rt: &R, certificate: Option<&str>) -> io::Result<()> {
    let Some(lines) = certificate else {
        return println!(rt; "  expected no certificate");
    };
    println!(rt; "  expected the certificate")?;
    show_lines(rt, lines)
}

/// Shows the certificates of a case, where they differ.
fn show_certificates<R: Print>(
    rt: &R,
    expected: &Expected<'_>,
    seen: &Outcome<'_>,
) -> io::Result<()> {
    if seen.is_certified(expected) {
        return Ok(());
    }
    show_expected(rt, expected.certificate)?;
    println!(rt; "  got the certificate")?;
    show_bytes(rt, seen.certificate)
}

/// Shows what a case expects and what it got.
pub(crate) fn show_difference<R: Print>(
    rt: &R,
    path: &str,
    case: &Case<'_>,
    seen: &Outcome<'_>,
) -> io::Result<()> {
    let (title, expected, status) = (case.title, case.expected.status, seen.status);
    println!(rt; "{path}: {title}\n  expected status {expected}")?;
    show_lines(rt, case.expected.lines)?;
    println!(rt; "  got status {status}")?;
    show_bytes(rt, seen.lines)?;
    show_certificates(rt, &case.expected, seen)
}
