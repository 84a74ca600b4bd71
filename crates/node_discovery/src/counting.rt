/// Which queries count against a node that answers none of them.
#[derive(Clone, Copy)]
pub enum Counting {
    /// Those of its spell: a node that comes anew is counted anew.
    OfSpell,

    /// Those since its last answer, in whatever spell.
    SinceAnswer,
}
