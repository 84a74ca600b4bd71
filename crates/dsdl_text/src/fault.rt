/// Why a line is refused.
#[derive(Clone, Copy, Debug, PartialEq, Eq)]
pub enum LineFault {
    /// The line has no form, or stands before the first type.
    Form,

    /// There is no such type, or it is of no use here.
    Unknown,

    /// The name stands there already, or the type has two parts already.
    Twice,

    /// The constant does not fit its type.
    Range,

    /// There are 16 types already, or 32 fields in the part.
    Many,
}
