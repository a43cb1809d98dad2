// What a layout is: where its six fields stand in the word and what their numbers mean.
//
// Ported from timeglyph's src/registry.rs (Apache-2.0; see NOTICE), and changed.
ghost use Rattle.std.specs.Prelude.{◌≡◌};
ghost use Rattle.layouts.specs.Layouts.{pair_layout};

use byte_orders::Order;

// How the number that is stored in a field gives the field's value, before its offset and step.
#[derive(Clone, Copy, Debug, PartialEq, Eq)]
pub enum Digits {
    // The number itself. Places and widths are in bits.
    Bits,
    // A pair of decimal digits. Places and widths are in pairs.
    Pairs,
    // A pair of decimal digits in the other order.
    SwappedPairs,
    // A semi-octet: the low nibble is the tens and the high nibble the units. Places and widths are in bits.
    SemiOctets,
}

// `width` places from `place` on. The field's value is `offset` and `step` times what is stored.
#[derive(Clone, Copy, Debug, PartialEq, Eq)]
pub struct Field {
    pub place: u32,
    pub width: u32,
    pub offset: u64,
    pub step: u64,
}

#[derive(Clone, Copy, Debug, PartialEq, Eq)]
pub struct Layout {
    pub digits: Digits,
    pub order: Order,
    // Whether the low byte is a zone. (Kept: a flag: an enum of two is no plainer.)
    pub zoned: bool,
    // A word's bits, once in order, are below this.
    pub words: u64,
    // The last year that is written. The first is the year's offset.
    pub last: u64,
    pub year: Field,
    pub month: Field,
    pub day: Field,
    pub hour: Field,
    pub minute: Field,
    pub second: Field,
}

pub const FAT_DOS: Layout = Layout {
    digits: Digits::Bits,
    order: Order::Straight,
    zoned: false,
    words: 4294967296,
    last: 2107,
    year: Field {
        place: 25,
        width: 7,
        offset: 1980,
        step: 1,
    },
    month: Field {
        place: 21,
        width: 4,
        offset: 0,
        step: 1,
    },
    day: Field {
        place: 16,
        width: 5,
        offset: 0,
        step: 1,
    },
    hour: Field {
        place: 11,
        width: 5,
        offset: 0,
        step: 1,
    },
    minute: Field {
        place: 5,
        width: 6,
        offset: 0,
        step: 1,
    },
    second: Field {
        place: 0,
        width: 5,
        offset: 0,
        step: 2,
    },
};

pub const DTTM: Layout = Layout {
    digits: Digits::Bits,
    order: Order::Straight,
    zoned: false,
    words: 4294967296,
    last: 2411,
    year: Field {
        place: 20,
        width: 9,
        offset: 1900,
        step: 1,
    },
    month: Field {
        place: 16,
        width: 4,
        offset: 0,
        step: 1,
    },
    day: Field {
        place: 11,
        width: 5,
        offset: 0,
        step: 1,
    },
    hour: Field {
        place: 6,
        width: 5,
        offset: 0,
        step: 1,
    },
    minute: Field {
        place: 0,
        width: 6,
        offset: 0,
        step: 1,
    },
    second: Field {
        place: 0,
        width: 0,
        offset: 0,
        step: 60,
    },
};

pub const BIT_DATE: Layout = Layout {
    digits: Digits::Bits,
    order: Order::Reversed,
    zoned: false,
    words: 4294967296,
    last: 4095,
    year: Field {
        place: 20,
        width: 12,
        offset: 0,
        step: 1,
    },
    month: Field {
        place: 16,
        width: 4,
        offset: 0,
        step: 1,
    },
    day: Field {
        place: 11,
        width: 5,
        offset: 0,
        step: 1,
    },
    hour: Field {
        place: 6,
        width: 5,
        offset: 0,
        step: 1,
    },
    minute: Field {
        place: 0,
        width: 6,
        offset: 0,
        step: 1,
    },
    second: Field {
        place: 0,
        width: 0,
        offset: 0,
        step: 60,
    },
};

pub const BIT_DEC: Layout = Layout {
    digits: Digits::Bits,
    order: Order::Straight,
    zoned: false,
    words: 34359738368,
    last: 9999,
    year: Field {
        place: 20,
        width: 15,
        offset: 0,
        step: 1,
    },
    month: Field {
        place: 16,
        width: 4,
        offset: 0,
        step: 1,
    },
    day: Field {
        place: 11,
        width: 5,
        offset: 0,
        step: 1,
    },
    hour: Field {
        place: 6,
        width: 5,
        offset: 0,
        step: 1,
    },
    minute: Field {
        place: 0,
        width: 6,
        offset: 0,
        step: 1,
    },
    second: Field {
        place: 0,
        width: 0,
        offset: 0,
        step: 60,
    },
};

pub const BCD: Layout = Layout {
    digits: Digits::Pairs,
    order: Order::Straight,
    zoned: false,
    words: 1000000000000,
    last: 2099,
    year: Field {
        place: 5,
        width: 1,
        offset: 2000,
        step: 1,
    },
    month: Field {
        place: 4,
        width: 1,
        offset: 0,
        step: 1,
    },
    day: Field {
        place: 3,
        width: 1,
        offset: 0,
        step: 1,
    },
    hour: Field {
        place: 2,
        width: 1,
        offset: 0,
        step: 1,
    },
    minute: Field {
        place: 1,
        width: 1,
        offset: 0,
        step: 1,
    },
    second: Field {
        place: 0,
        width: 1,
        offset: 0,
        step: 1,
    },
};

pub const MOTO: Layout = Layout {
    digits: Digits::Bits,
    order: Order::Straight,
    zoned: false,
    words: 281474976710656,
    last: 2225,
    year: Field {
        place: 40,
        width: 8,
        offset: 1970,
        step: 1,
    },
    month: Field {
        place: 32,
        width: 8,
        offset: 0,
        step: 1,
    },
    day: Field {
        place: 24,
        width: 8,
        offset: 0,
        step: 1,
    },
    hour: Field {
        place: 16,
        width: 8,
        offset: 0,
        step: 1,
    },
    minute: Field {
        place: 8,
        width: 8,
        offset: 0,
        step: 1,
    },
    second: Field {
        place: 0,
        width: 8,
        offset: 0,
        step: 1,
    },
};

pub const SYMANTEC: Layout = Layout {
    digits: Digits::Bits,
    order: Order::Straight,
    zoned: false,
    words: 281474976710656,
    last: 2225,
    year: Field {
        place: 40,
        width: 8,
        offset: 1970,
        step: 1,
    },
    month: Field {
        place: 32,
        width: 8,
        offset: 1,
        step: 1,
    },
    day: Field {
        place: 24,
        width: 8,
        offset: 0,
        step: 1,
    },
    hour: Field {
        place: 16,
        width: 8,
        offset: 0,
        step: 1,
    },
    minute: Field {
        place: 8,
        width: 8,
        offset: 0,
        step: 1,
    },
    second: Field {
        place: 0,
        width: 8,
        offset: 0,
        step: 1,
    },
};

pub const DVR: Layout = Layout {
    digits: Digits::Bits,
    order: Order::Straight,
    zoned: false,
    words: 4294967296,
    last: 2063,
    year: Field {
        place: 26,
        width: 6,
        offset: 2000,
        step: 1,
    },
    month: Field {
        place: 22,
        width: 4,
        offset: 0,
        step: 1,
    },
    day: Field {
        place: 17,
        width: 5,
        offset: 0,
        step: 1,
    },
    hour: Field {
        place: 12,
        width: 5,
        offset: 0,
        step: 1,
    },
    minute: Field {
        place: 6,
        width: 6,
        offset: 0,
        step: 1,
    },
    second: Field {
        place: 0,
        width: 6,
        offset: 0,
        step: 1,
    },
};

pub const NS40: Layout = Layout {
    digits: Digits::Bits,
    order: Order::Straight,
    zoned: false,
    words: 36028797018963968,
    last: 9999,
    year: Field {
        place: 40,
        width: 16,
        offset: 0,
        step: 1,
    },
    month: Field {
        place: 32,
        width: 8,
        offset: 0,
        step: 1,
    },
    day: Field {
        place: 24,
        width: 8,
        offset: 0,
        step: 1,
    },
    hour: Field {
        place: 16,
        width: 8,
        offset: 0,
        step: 1,
    },
    minute: Field {
        place: 8,
        width: 8,
        offset: 0,
        step: 1,
    },
    second: Field {
        place: 0,
        width: 8,
        offset: 0,
        step: 1,
    },
};

pub const NS40_LE: Layout = Layout {
    digits: Digits::Bits,
    order: Order::YearSwapped,
    zoned: false,
    words: 36028797018963968,
    last: 9999,
    year: Field {
        place: 40,
        width: 16,
        offset: 0,
        step: 1,
    },
    month: Field {
        place: 32,
        width: 8,
        offset: 0,
        step: 1,
    },
    day: Field {
        place: 24,
        width: 8,
        offset: 0,
        step: 1,
    },
    hour: Field {
        place: 16,
        width: 8,
        offset: 0,
        step: 1,
    },
    minute: Field {
        place: 8,
        width: 8,
        offset: 0,
        step: 1,
    },
    second: Field {
        place: 0,
        width: 8,
        offset: 0,
        step: 1,
    },
};

pub const LOG_TIME: Layout = Layout {
    digits: Digits::Bits,
    order: Order::Straight,
    zoned: false,
    words: 9223372036854775808,
    last: 2155,
    year: Field {
        place: 16,
        width: 8,
        offset: 1900,
        step: 1,
    },
    month: Field {
        place: 24,
        width: 8,
        offset: 0,
        step: 1,
    },
    day: Field {
        place: 32,
        width: 8,
        offset: 0,
        step: 1,
    },
    hour: Field {
        place: 40,
        width: 8,
        offset: 0,
        step: 1,
    },
    minute: Field {
        place: 48,
        width: 8,
        offset: 0,
        step: 1,
    },
    second: Field {
        place: 56,
        width: 8,
        offset: 0,
        step: 1,
    },
};

pub const SEMI_OCTET: Layout = Layout {
    digits: Digits::SwappedPairs,
    order: Order::Straight,
    zoned: false,
    words: 1000000000000,
    last: 2099,
    year: Field {
        place: 5,
        width: 1,
        offset: 2000,
        step: 1,
    },
    month: Field {
        place: 4,
        width: 1,
        offset: 0,
        step: 1,
    },
    day: Field {
        place: 3,
        width: 1,
        offset: 0,
        step: 1,
    },
    hour: Field {
        place: 2,
        width: 1,
        offset: 0,
        step: 1,
    },
    minute: Field {
        place: 1,
        width: 1,
        offset: 0,
        step: 1,
    },
    second: Field {
        place: 0,
        width: 1,
        offset: 0,
        step: 1,
    },
};

pub const GSM: Layout = Layout {
    digits: Digits::SemiOctets,
    order: Order::Straight,
    zoned: true,
    words: 72057594037927936,
    last: 2099,
    year: Field {
        place: 48,
        width: 8,
        offset: 2000,
        step: 1,
    },
    month: Field {
        place: 40,
        width: 8,
        offset: 0,
        step: 1,
    },
    day: Field {
        place: 32,
        width: 8,
        offset: 0,
        step: 1,
    },
    hour: Field {
        place: 24,
        width: 8,
        offset: 0,
        step: 1,
    },
    minute: Field {
        place: 16,
        width: 8,
        offset: 0,
        step: 1,
    },
    second: Field {
        place: 8,
        width: 8,
        offset: 0,
        step: 1,
    },
};

// The two layouts of decimal pairs, which differ in the order of the digits alone.
//
// Kept: a flag, since it is a call that stands (docs/CONTRACTS.md).
pub fn pair_layout(swapped: bool) -> Layout
    ensures { result ≡ pair_layout swapped }
{
    if swapped {
        return SEMI_OCTET;
    }
    BCD
}
