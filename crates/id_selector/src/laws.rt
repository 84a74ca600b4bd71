//! Laws of the definitions, each the contract of a function that does nothing.

ghost use Rattle.std.specs.Prelude.{◌≡◌, ℕ, List, Bool, Option};
ghost use Rattle.id_selector.specs.Choice.{chosen, IsChoice};

/// The ID that is computed is the choice, and nothing else is.
pub fn chosen_is_the_choice()
    ensures is { (taken : List Bool) (preferred : ℕ) →
        IsChoice taken preferred (chosen taken preferred) }
    ensures only { (taken : List Bool) (preferred : ℕ) (other : Option ℕ) →
        IsChoice taken preferred other →
        other ≡ chosen taken preferred }
{}
