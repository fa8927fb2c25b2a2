//! Small models.

/// Minimise 3x where x is at least 1, and is 2.
pub const ONE: &str =
    "NAME one\nROWS\n N obj\n G r\nCOLUMNS\n m 'MARKER' 'INTORG'\n x obj 3 r 1\n m 'MARKER' 'INTEND'\nRHS\n rhs r 1\nBOUNDS\n FX b x 2\nENDATA\n";

/// Minimise x where 2x is at least 11 and x at most 5: no point is feasible.
pub const FAR: &str =
    "NAME far\nROWS\n N obj\n G r\nCOLUMNS\n m 'MARKER' 'INTORG'\n x obj 1 r 2\n m 'MARKER' 'INTEND'\nRHS\n rhs r 11\nBOUNDS\n UP b x 5\nENDATA\n";

/// Minimise x, which is at least 3 and at most 2: the box is empty.
pub const EMPTY: &str =
    "NAME empty\nROWS\n N obj\nCOLUMNS\n m 'MARKER' 'INTORG'\n x obj 1\n m 'MARKER' 'INTEND'\nBOUNDS\n LO b x 3\n UP b x 2\nENDATA\n";

/// Maximise 6a + 5b + 6c + 5d where 3a + b + 5c + d is at most 3, with columns 0 or 1: without cuts it takes five nodes. The greatest value is 10, and the
/// third node gives 6.
pub const MOST: &str =
    "NAME most\nOBJSENSE MAX\nROWS\n N obj\n L room\nCOLUMNS\n m 'MARKER' 'INTORG'\n a obj 6 room 3\n b obj 5 room 1\n c obj 6 room 5\n d obj 5 room 1\n m 'MARKER' 'INTEND'\nRHS\n rhs room 3\nBOUNDS\n BV b a\n BV b b\n BV b c\n BV b d\nENDATA\n";

/// 2x + 2y = 3, with columns 0 or 1: it takes five nodes without cuts, and no point is feasible.
pub const ODD: &str =
    "NAME odd\nROWS\n N obj\n E r\nCOLUMNS\n m 'MARKER' 'INTORG'\n x r 2\n y r 2\n m 'MARKER' 'INTEND'\nRHS\n rhs r 3\nBOUNDS\n UP b x 1\n UP b y 1\nENDATA\n";
