// What a run answers.

ghost use Rattle.std.specs.Prelude.{◌≡◌, ◌≢◌, ◌++◌, ◌∷◌, [], true, None, IfSome};

use crate::case::Expected;

/// What a run answered.
#[derive(Clone, Copy)]
pub struct Outcome<'a> {
    pub status: u8,
    pub lines: &'a [u8],
    pub certificate: &'a [u8],
}

/// Whether bytes are these lines, which stand without the end of the last one.
fn are_lines(bytes: &[u8], lines: &str) -> bool
    ensures some { result ≡ true → lines.now ≢ [] → bytes.now ≡ lines.now ++ 10 ∷ [] }
    ensures none { result ≡ true → lines.now ≡ [] → bytes.now ≡ [] }
{
    match bytes.split_last() {
        Some((last, before)) => {
            !lines.is_empty() && *last == b'\n' && before == lines.as_bytes()
        }
        None => lines.is_empty(),
    }
}

impl Outcome<'_> {
    /// Whether the certificate is what a case expects.
    pub fn is_certified(&self, expected: &Expected<'_>) -> bool
        ensures some { result ≡ true → IfSome expected.now.certificate (λ c. c.now ≢ [] → self.now.certificate.now ≡ c.now ++ 10 ∷ []) }
        ensures none { result ≡ true → IfSome expected.now.certificate (λ c. c.now ≡ [] → self.now.certificate.now ≡ []) }
        ensures free { result ≡ true → expected.now.certificate ≡ None → self.now.status ≢ 0 → self.now.certificate.now ≡ [] }
    {
        match expected.certificate {
            Some(certificate) => are_lines(self.certificate, certificate),
            None => self.status == 0 || self.certificate.is_empty(),
        }
    }

    /// Whether this is what a case expects.
    pub fn meets(&self, expected: &Expected<'_>) -> bool
        ensures status { result ≡ true → self.now.status ≡ expected.now.status }
        ensures lines { result ≡ true → expected.now.lines.now ≢ [] → self.now.lines.now ≡ expected.now.lines.now ++ 10 ∷ [] }
        ensures no_lines { result ≡ true → expected.now.lines.now ≡ [] → self.now.lines.now ≡ [] }
        ensures certificate { result ≡ true → IfSome expected.now.certificate (λ c. c.now ≢ [] → self.now.certificate.now ≡ c.now ++ 10 ∷ []) }
        ensures no_certificate { result ≡ true → IfSome expected.now.certificate (λ c. c.now ≡ [] → self.now.certificate.now ≡ []) }
        ensures none { result ≡ true → expected.now.certificate ≡ None → self.now.status ≢ 0 → self.now.certificate.now ≡ [] }
    {
        self.is_certified(expected)
            && self.status == expected.status
            && are_lines(self.lines, expected.lines)
    }
}
