ghost use Rattle.std.specs.Prelude.{◌≡◌, ◌≤◌, ℕ, List, [], length};
ghost use Rattle.can_frame.specs.Sizes.{longest_payload};
ghost use Rattle.dsdl_text.specs.Text.{Text, types_in};
ghost use Rattle.dsdl_text.specs.Reader.{data_types};

use crate::ending::Ending;
use cmd_io::Status;
use dsdl_text::{Numbers, Texts};

/// What is answered to a text and a payload.
#[derive(Drop)]
pub(crate) enum Answer {
    /// These numbers.
    Value(Numbers),

    /// The text has no such part.
    NoPart,

    /// The payload has no reading under the part.
    NoValue,

    /// The line with this number is the first that is none, or has a fault.
    BadLine(u64),

    /// The text has more lines than may come.
    Beyond,
}

impl Answer {
    ghost use Rattle.cmd_decode.specs.Report.{Says, status_of};
    ghost use Rattle.cmd_decode.specs.Taking.{TextEndsAs};

    /// What is answered where a text came to this.
    pub fn new(ending: Ending, name: &[u8], part: u8, payload: &[u8]) -> Answer
        requires { length payload.now ≤ longest_payload }
        ensures { (now : Text) (count : ℕ) (rest : List ℕ) → TextEndsAs ending now count rest →
            Says name.now part payload.now now count rest result }
    {
        match ending {
            Ending::Whole(texts) => Answer::of_whole(&texts, name, part, payload),
            Ending::Bad(row) => Answer::BadLine(row),
            Ending::Beyond => Answer::Beyond,
        }
    }

    /// What is answered by these types.
    fn of_whole(texts: &Texts, name: &[u8], part: u8, payload: &[u8]) -> Answer
        requires { length payload.now ≤ longest_payload }
        ensures { (now : Text) (count : ℕ) (rest : List ℕ) → rest ≡ [] →
            data_types texts.now ≡ types_in now →
            Says name.now part payload.now now count rest result }
    {
        let Some(at) = texts.find(name, part) else {
            return Answer::NoPart;
        };
        match texts.decode(at, payload) {
            Some(numbers) => Answer::Value(numbers),
            None => Answer::NoValue,
        }
    }

    /// The status of a run that answers so.
    pub fn status(&self) -> Status
        ensures { result ≡ status_of self.now }
    {
        match self {
            Answer::Value(_) => Status::Done,
            Answer::NoPart => Status::NoPart,
            Answer::NoValue => Status::NoValue,
            Answer::BadLine(row) => Status::BadRow(*row),
            Answer::Beyond => Status::Limit(1001),
        }
    }
}
