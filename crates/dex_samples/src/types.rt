//! Types as constants.

use program_types::{Desc, Str};

/// `LA;`.
pub const A: Desc<'static> = Desc {
    text: Str {
        units: &[0x4c, 0x41, 0x3b],
    },
};

/// `LAB;`.
pub const AB: Desc<'static> = Desc {
    text: Str {
        units: &[0x4c, 0x41, 0x42, 0x3b],
    },
};

/// `LB;`.
pub const B: Desc<'static> = Desc {
    text: Str {
        units: &[0x4c, 0x42, 0x3b],
    },
};

/// `I`.
pub const INT: Desc<'static> = Desc {
    text: Str { units: &[0x49] },
};

/// `[I`.
pub const INTS: Desc<'static> = Desc {
    text: Str {
        units: &[0x5b, 0x49],
    },
};

/// `J`.
pub const LONG: Desc<'static> = Desc {
    text: Str { units: &[0x4a] },
};

/// `[J`.
pub const LONGS: Desc<'static> = Desc {
    text: Str {
        units: &[0x5b, 0x4a],
    },
};

/// `V`.
pub const VOID: Desc<'static> = Desc {
    text: Str { units: &[0x56] },
};
