//! What is done again and again.

/// How long a list is: a constant of the code, as in a program that knows how many packets it
/// takes at once.
#[derive(Clone, Copy, PartialEq, Eq)]
pub enum Width {
    One,
    Eight,
    ThirtyTwo,
}

impl Width {
    /// How many elements that are.
    fn elements(self) -> u64 {
        match self {
            Width::One => 1,
            Width::Eight => 8,
            Width::ThirtyTwo => 32,
        }
    }
}

/// The greatest width.
pub const MOST_WIDE: usize = 32;

/// What a round is.
#[derive(Clone, Copy, PartialEq, Eq)]
pub enum Kind {
    /// A list of this width off the bare stack, and back.
    Stack(Width),
    /// A get of this width by a worker, and the put of the same.
    Elements(Width),
    /// An alloc, and the free of its packet.
    Alloc,
    /// A bulk of 32, and the free of each packet.
    Bulk,
    /// 240 allocs, and then the frees, the oldest packet first.
    Kept,
    /// A clone of a packet of this many segments, and its free.
    Clone(u32),
}

const KINDS: [(&str, Kind); 10] = [
    ("stk1", Kind::Stack(Width::One)),
    ("stk8", Kind::Stack(Width::Eight)),
    ("stk32", Kind::Stack(Width::ThirtyTwo)),
    ("get1", Kind::Elements(Width::One)),
    ("get32", Kind::Elements(Width::ThirtyTwo)),
    ("pkt1", Kind::Alloc),
    ("pkt32", Kind::Bulk),
    ("pkt240", Kind::Kept),
    ("clone1", Kind::Clone(1)),
    ("clone4", Kind::Clone(4)),
];

/// What a name stands for.
pub fn kind_of(name: &str) -> Option<Kind> {
    for (known, kind) in KINDS {
        if name == known {
            return Some(kind);
        }
    }
    None
}

/// The name of a kind.
pub fn name_of(kind: Kind) -> &'static str {
    for (name, known) in KINDS {
        if kind == known {
            return name;
        }
    }
    ""
}

impl Kind {
    /// How many elements a round gets and puts back.
    pub fn size(self) -> u64 {
        match self {
            Kind::Stack(width) | Kind::Elements(width) => width.elements(),
            Kind::Alloc => 1,
            Kind::Bulk => 32,
            Kind::Kept => 240,
            Kind::Clone(segments) => u64::from(segments),
        }
    }
}
