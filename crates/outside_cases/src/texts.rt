// How bytes are printed.

use std::io;

/// Prints words, the text that bytes are, and words behind it. What calls this holds no text, which would cost its proof more than all else.
pub(crate) fn show_text<R: Print>(
    rt: &R,
    before: &str,
    bytes: &[u8],
    after: &str,
) -> io::Result<()> {
    let text = str::from_utf8(bytes).unwrap_or("(bytes that are no text)");
    print!(rt; "{before}{text:?}{after}")
}
