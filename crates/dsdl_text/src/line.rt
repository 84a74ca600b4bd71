use arrayvec::ArrayVec;

/// The name of a type or of a field: a letter and then letters, digits and `_`.
pub type Name = ArrayVec<u8, 40>;

/// How many values of its type a field has.
#[derive(Clone, Copy, Debug, Default, PartialEq, Eq)]
pub enum Shape {
    /// One, `type name`.
    #[default]
    One,

    /// As many as that, 1 to 255, `type[N] name`.
    Exactly(u8),

    /// At most as many as that, 1 to 255, `type[<=N] name`.
    UpTo(u8),
}

/// A line of a text.
#[derive(Debug, Drop, PartialEq, Eq)]
pub enum Line {
    /// A line with nothing but spaces and a remark.
    Empty,

    /// `@ Name`, which begins a type.
    Section {
        name: Name,
    },

    /// `---`, which begins the second part of a type, as the response of a service.
    Divider,

    /// `voidB`, so many bits of no meaning, 1 to 64.
    Void {
        bits: u8,
    },

    /// `type name`, `type[N] name` or `type[<=N] name`.
    Field {
        type_name: Name,
        shape: Shape,
        name: Name,
    },

    /// `type name = number`; the value is `None` where it is of 2^64 or more.
    Constant {
        type_name: Name,
        name: Name,
        value: Option<u64>,
    },
}
