//! Laws of the definitions, each the contract of a function that does nothing.

ghost use Rattle.std.specs.Prelude.{◌≡◌, ◌≤◌, ◌<◌, ◌^◌, ◌++◌, ℕ, Bool, List, Some, length};
ghost use Rattle.dsdl_text.specs.declared.line.Line.{Line};
ghost use Rattle.dsdl_text.specs.Layout.{Layout};
ghost use Rattle.dsdl_text.specs.Lines.{Reads};
ghost use Rattle.dsdl_text.specs.Numbers.{count_width, number_of, numbers_of};
ghost use Rattle.dsdl_text.specs.Text.{TakesLines, Text};
ghost use Rattle.dsdl_text.specs.Writing.{HasNumbers};

/// A line reads as one value at the most.
pub fn a_line_has_one_value()
    ensures { (a b : Line) (bytes : List ℕ) → Reads a bytes → Reads b bytes → a ≡ b }
{}

/// The lines of a text determine what they make of it.
pub fn a_text_is_determined_by_its_lines()
    ensures { (before a b : Text) (lines : List Line) → TakesLines before lines a →
        TakesLines before lines b → a ≡ b }
{}

/// Lines are taken one behind the other.
pub fn lines_follow_lines()
    ensures joined { (before between after : Text) (first second : List Line) →
        TakesLines before first between → TakesLines between second after →
        TakesLines before (first ++ second) after }
    ensures split { (before after : Text) (first second : List Line) →
        TakesLines before (first ++ second) after →
        (between : Text) × TakesLines before first between × TakesLines between second after }
{}

/// The bits of a count hold the highest one, and fewer do not.
pub fn counts_have_the_least_width()
    ensures holds { (most : ℕ) → most < 256 → most < 2 ^ count_width most }
    ensures least { (most width : ℕ) → 1 ≤ most → most < 256 → most < 2 ^ width →
        count_width most ≤ width }
{}

/// The numbers that are read of a payload are those whose bits it has, and it has the bits of no others.
pub fn a_payload_has_the_bits_of_its_numbers()
    ensures has { (part : List Layout) (payload numbers : List ℕ) →
        numbers_of part payload ≡ Some numbers → HasNumbers part payload numbers }
    ensures no_others { (part : List Layout) (payload numbers : List ℕ) →
        HasNumbers part payload numbers → numbers_of part payload ≡ Some numbers }
{}

/// So many bits that are one number are the same bits.
pub fn a_number_has_one_list_of_bits()
    ensures { (a b : List Bool) → length a ≡ length b → number_of a ≡ number_of b → a ≡ b }
{}
