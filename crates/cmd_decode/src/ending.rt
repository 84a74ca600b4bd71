use dsdl_text::Texts;

/// What a text came to.
#[derive(Drop)]
pub(crate) enum Ending {
    /// It was read to its end.
    Whole(Texts),

    /// The line with this number is the first that is none, or has a fault.
    Bad(u64),

    /// Behind as many lines as may come more bytes come.
    Beyond,
}
