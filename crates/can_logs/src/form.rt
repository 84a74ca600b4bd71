ghost use Rattle.std.specs.Prelude.{◌≡◌, ◌≤◌, ◌==◌, IfSome, IsNone, Some, codes, length};
ghost use Rattle.std.specs.List.{prefix_len};
ghost use Rattle.can_logs.specs.Candump as candump;
ghost use Rattle.can_logs.specs.declared.candump.LogLine.{LogLine as LogLineValue};
ghost use Rattle.can_logs.specs.declared.form.Form.{Form as FormValue};
ghost use Rattle.can_logs.specs.declared.form.Line.{Line as LineValue};
ghost use Rattle.can_logs.specs.Forms.{Says, bells, end_of, form_word, frame_line, of_candump, of_slcan};

use crate::candump::{LogLine, read_candump, write_candump};
use crate::slcan::{SlLine, read_slcan, write_slcan};
use arrayvec::ArrayVec;
use can_frame::Frame;

/// How the lines of a log are written.
#[derive(Clone, Copy, Debug, PartialEq, Eq)]
pub enum Form {
    /// As `candump` writes them: a line ends with a line feed.
    Candump,

    /// As a serial adapter does: a line ends with a carriage return, and the adapter's bells (byte 7) may
    /// stand before it.
    Slcan,
}

/// A frame of a log, and what its line says of it.
#[derive(Debug, Drop, PartialEq, Eq)]
pub struct Logged {
    /// The moment: seconds of up to ten digits, and millionths of a second. 0 for an adapter.
    pub sec: u64,
    pub micros: u32,

    /// The name of the interface, 1 to 15 bytes. `slcan0` for an adapter.
    pub iface: ArrayVec<u8, 15>,

    pub frame: Frame,

    /// The time stamp of an adapter, where it gives one.
    pub stamp: Option<u16>,
}

/// What a line is.
#[derive(Drop)]
pub enum Line {
    /// That of a frame.
    Frame(Logged),

    /// One of something else.
    Skipped,
}

/// The adapter's bell.
const BELL: u8 = 7;

impl Form {
    /// The form that a word names, `candump` or `slcan`; `None` where it names none.
    pub fn of_word(word: &str) -> Option<Form>
        ensures some { IfSome result (λ form. word.now ≡ form_word form) }
        ensures none { IsNone result → (form : FormValue) → word.now ≡ form_word form → ⊥ }
    {
        if word == "candump" {
            return Some(Form::Candump);
        }
        if word == "slcan" {
            return Some(Form::Slcan);
        }
        None
    }

    /// The byte that ends a line.
    pub fn end(self) -> u8
        ensures { result ≡ end_of self }
    {
        match self {
            Form::Candump => b'\n',
            Form::Slcan => b'\r',
        }
    }

    /// How many bells stand before what a line says.
    pub fn bells(self, bytes: &[u8]) -> usize
        ensures count { result ≡ bells self bytes.now }
        ensures within { result ≤ length bytes.now }
    {
        match self {
            Form::Candump => 0,
            Form::Slcan => ringing(bytes),
        }
    }

    /// What a line reads as, without its bells and its end.
    pub fn read(self, line: &[u8]) -> Option<Line>
        ensures found { IfSome result (λ said. Says self said line.now) }
        ensures only { (said : LineValue) → Says self said line.now → result ≡ Some said }
    {
        match self {
            Form::Candump => match read_candump(line) {
                Some(read) => Some(from_candump(read)),
                None => None,
            },
            Form::Slcan => match read_slcan(line) {
                Some(read) => Some(from_slcan(read)),
                None => None,
            },
        }
    }

    /// The line of a frame, with its end.
    pub fn write(self, logged: Logged) -> ArrayVec<u8, 80>
        requires { candump.IsWritable
            (LogLineValue.Data logged.sec logged.micros logged.iface logged.frame) }
        ensures line { result.items ≡ frame_line self logged }
        ensures short { length result.items ≤ 62 }
    {
        match self {
            Form::Candump => candump_line(logged),
            Form::Slcan => slcan_line(logged),
        }
    }
}

/// How many bells stand at the front of the bytes.
fn ringing(bytes: &[u8]) -> usize
    ensures count { result ≡ prefix_len (λ byte. byte == 7) bytes.now }
    ensures within { result ≤ length bytes.now }
{
    bytes
        .iter()
        .position(|byte| *byte != BELL)
        .unwrap_or(bytes.len())
}

fn from_candump(line: LogLine) -> Line
    ensures { result ≡ of_candump line }
{
    match line {
        LogLine::Data {
            sec,
            micros,
            iface,
            frame,
        } => Line::Frame(Logged {
            sec,
            micros,
            iface,
            frame,
            stamp: None,
        }),
        LogLine::Skipped => Line::Skipped,
    }
}

fn from_slcan(line: SlLine) -> Line
    ensures { result ≡ of_slcan line }
{
    match line {
        SlLine::Data { frame, stamp } => Line::Frame(Logged {
            sec: 0,
            micros: 0,
            iface: adapter_name(),
            frame,
            stamp,
        }),
        SlLine::Skipped => Line::Skipped,
    }
}

/// The name under which the frames of an adapter are written.
fn adapter_name() -> ArrayVec<u8, 15>
    ensures { result.items ≡ codes "slcan0" }
{
    match ArrayVec::try_from(b"slcan0".as_slice()) {
        Ok(name) => name,
        Err(_) => unreachable!(),
    }
}

fn candump_line(logged: Logged) -> ArrayVec<u8, 80>
    requires { candump.IsWritable
        (LogLineValue.Data logged.sec logged.micros logged.iface logged.frame) }
    ensures line { result.items ≡ frame_line Form.Candump logged }
    ensures short { length result.items ≤ 62 }
{
    let mut line = write_candump(&LogLine::Data {
        sec: logged.sec,
        micros: logged.micros,
        iface: logged.iface,
        frame: logged.frame,
    });
    line.push(b'\n');
    line
}

fn slcan_line(logged: Logged) -> ArrayVec<u8, 80>
    ensures line { result.items ≡ frame_line Form.Slcan logged }
    ensures short { length result.items ≤ 31 }
{
    let text = write_slcan(&SlLine::Data {
        frame: logged.frame,
        stamp: logged.stamp,
    });
    let mut line = ArrayVec::new();
    line.try_extend_from_slice(&text).unwrap();
    line.push(b'\r');
    line
}
