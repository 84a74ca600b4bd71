ghost use Rattle.std.specs.Prelude.{◌≡◌, ◌≤◌, ◌++◌, length, codes, decimal};

use replay_text::Line;

/// The line of a word of at most 20 bytes, which ends in a space, and a number.
pub fn number_line(word: &[u8], number: u64) -> Line
    requires { length word.now ≤ 20 }
    ensures short { length result ≤ 400 }
    ensures text { result ≡ word.now ++ decimal number ++ codes "\n" }
{
    let mut line = Line::new();
    line.text(word);
    line.number(number);
    line.text(b"\n");
    line
}

/// The line of a word of at most 20 bytes, which ends in a space, and two numbers.
pub fn numbers_line(word: &[u8], first: u64, second: u64) -> Line
    requires { length word.now ≤ 20 }
    ensures short { length result ≤ 400 }
    ensures text { result ≡
        word.now ++ decimal first ++ codes " " ++ decimal second ++ codes "\n" }
{
    let mut line = Line::new();
    line.text(word);
    line.number(first);
    line.field(second);
    line.text(b"\n");
    line
}
