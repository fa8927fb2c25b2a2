// The numbers that one column may take.
ghost use Rattle.std.specs.Prelude.{◌≡◌, int_lt};
ghost use Rattle.std.specs.Ordering.{int_eq};
ghost use Rattle.problem_box.specs.Boxes.{is_within};

/// The whole numbers from `lo` to `hi`; none where `lo` is above `hi`.
#[derive(Clone, Copy, Debug, PartialEq, Eq)]
pub struct Span {
    /// The lower bound.
    pub lo: i64,
    /// The upper bound.
    pub hi: i64,
}

impl Span {
    /// Whether a number lies between the bounds.
    pub fn holds(&self, number: i64) -> bool
        ensures { result ≡ is_within self.now number }
    {
        self.lo <= number && number <= self.hi
    }

    /// Whether no number lies between the bounds.
    pub fn is_empty(&self) -> bool
        ensures { result ≡ int_lt self.now.hi self.now.lo }
    {
        self.hi < self.lo
    }

    /// Whether exactly one number lies between the bounds.
    pub fn is_fixed(&self) -> bool
        ensures { result ≡ int_eq self.now.lo self.now.hi }
    {
        self.lo == self.hi
    }

    /// Whether more than one number lies between the bounds.
    pub fn is_free(&self) -> bool
        ensures { result ≡ int_lt self.now.lo self.now.hi }
    {
        self.lo < self.hi
    }

    /// The span with another upper bound.
    pub fn with_high(self, bound: i64) -> Span
        ensures { result ≡ record self { hi = bound } }
    {
        Span {
            lo: self.lo,
            hi: bound,
        }
    }

    /// The span with another lower bound.
    pub fn with_low(self, bound: i64) -> Span
        ensures { result ≡ record self { lo = bound } }
    {
        Span {
            lo: bound,
            hi: self.hi,
        }
    }
}
