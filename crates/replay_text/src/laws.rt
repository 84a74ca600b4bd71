//! Laws of the definitions, each the contract of a function that does nothing.

ghost use Rattle.std.specs.Prelude.{◌≡◌, ◌≢◌, ◌<◌, ◌≤◌, ◌++◌, ◌∷◌, [], ℕ, List, All, length};
ghost use Rattle.bus_rows.specs.declared.row.Row.{Row};
ghost use Rattle.replay_text.specs.Schedule.{IsRow, Reads, row_text};
ghost use Rattle.replay_text.specs.Lines.{BeginsWith, NoRowBegins, ReadsRows};

use can_frame::laws::frames_are_their_parts;

/// A line reads as at most one row.
pub fn a_line_has_one_row()
    ensures { (a b : Row) (line : List ℕ) → Reads a line → Reads b line → a ≡ b }
{
    frames_are_their_parts();
}

/// The text of a row reads as that row.
pub fn a_row_is_read_again()
    ensures { (row : Row) → IsRow row → Reads row (row_text row) }
{}

/// The line of a row has at most 74 bytes, and no line feed in it.
pub fn lines_of_rows_are_short()
    ensures short { (row : Row) (line : List ℕ) → Reads row line → length line ≤ 74 }
    ensures one_line { (row : Row) (line : List ℕ) → Reads row line → All (λ byte. byte ≢ 10) line }
{}

/// What the bytes up to a line feed say of the row that begins some bytes: with a line feed behind them
/// they are its line; with none, or above 120 bytes, no row begins with them.
pub fn a_line_ends_with_a_line_feed()
    ensures begins { (row : Row) (line rest : List ℕ) → Reads row line →
        BeginsWith row (line ++ 10 ∷ rest) rest }
    ensures only { (row : Row) (line rest next : List ℕ) → All (λ byte. byte ≢ 10) line →
        BeginsWith row (line ++ 10 ∷ rest) next
        → Reads row line × (next ≡ rest) }
    ensures unended { (row : Row) (line next : List ℕ) → All (λ byte. byte ≢ 10) line →
        BeginsWith row line next → ⊥ }
    ensures long { (row : Row) (line rest next : List ℕ) → All (λ byte. byte ≢ 10) line →
        120 < length line
        → BeginsWith row (line ++ rest) next → ⊥ }
{}

/// Rows that are read one after the other are read together.
pub fn rows_follow_rows()
    ensures { (a b : List Row) (bytes middle rest : List ℕ) → ReadsRows a bytes middle →
        ReadsRows b middle rest → ReadsRows (a ++ b) bytes rest }
{}

/// Bytes are read in one way: where no row begins what is left, the rows and what is left are determined.
pub fn rows_are_read_in_one_way()
    ensures rows { (a b : List Row) (bytes rest other : List ℕ) → ReadsRows a bytes rest →
        ReadsRows b bytes other
        → NoRowBegins rest → NoRowBegins other → (a ≡ b) × (rest ≡ other) }
    ensures at_the_end { NoRowBegins [] }
{
    a_line_has_one_row();
}
