use bus_rows::Told;

/// A step that was made, and what it told.
#[derive(Drop)]
pub(crate) struct NumberedStep {
    pub(crate) number: u64,
    pub(crate) told: Told,
}
