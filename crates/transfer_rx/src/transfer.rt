ghost use Rattle.std.specs.Prelude.{◌≡◌, []};
ghost use Rattle.transfer_rx.specs.Heard.{heading_of};

use arrayvec::ArrayVec;
use can_frame::sizes::LONGEST_PAYLOAD;
use can_frame::{Ident, Kind, Mark, Why};

/// A transfer that came whole.
#[derive(Debug, Drop, PartialEq, Eq)]
pub struct Transfer {
    /// The fields of the last frame's identifier.
    pub ident: Ident,

    /// The transfer ID, 0 to 31.
    pub id: u8,

    pub payload: ArrayVec<u8, LONGEST_PAYLOAD>,

    /// The mark of the last frame.
    pub mark: Mark,

    /// Whether the marks of its frames have one step, and the places 0, 1, 2 and so on.
    pub whole: bool,
}

/// A transfer but for its payload.
#[derive(Clone, Copy, Debug, PartialEq, Eq)]
pub struct Heading {
    /// The fields of the last frame's identifier.
    pub ident: Ident,

    /// The transfer ID, 0 to 31.
    pub id: u8,

    /// The mark of the last frame.
    pub mark: Mark,

    /// Whether the marks of its frames have one step, and the places 0, 1, 2 and so on.
    pub whole: bool,
}

/// What a frame led to, with the transfer that it delivered.
#[derive(Debug, Drop, PartialEq, Eq)]
pub enum Took {
    /// It was the last frame of a transfer.
    Delivered(Transfer),

    /// It is the next frame of a transfer that goes on.
    Part,

    Dropped(Why),
}

/// What a frame led to. The receiver keeps a transfer that was delivered.
#[derive(Clone, Copy, Debug, PartialEq, Eq)]
pub enum Heard {
    /// It was the last frame of a transfer.
    Delivered,

    /// It is the next frame of a transfer that goes on.
    Part,

    Dropped(Why),
}

impl Transfer {
    /// A message without bytes, for a place that no transfer was put to yet.
    pub(crate) fn blank() -> Transfer
        ensures { result.payload.items ≡ [] }
    {
        Transfer {
            ident: Ident {
                priority: 0,
                kind: Kind::Message,
                number: 0,
                source: 1,
                dest: 0,
                discriminator: 0,
            },
            id: 0,
            payload: ArrayVec::new(),
            mark: Mark {
                step: 0,
                re: 0,
                place: 0,
            },
            whole: false,
        }
    }

    /// Becomes the transfer with this heading, still without bytes.
    pub(crate) fn begin(&mut self, heading: Heading)
        ensures heading { heading_of self.new ≡ heading }
        ensures payload { self.new.payload.items ≡ [] }
    {
        self.ident = heading.ident;
        self.id = heading.id;
        self.payload.clear();
        self.mark = heading.mark;
        self.whole = heading.whole;
    }

    /// The same transfer again.
    pub(crate) fn copy(&self) -> Transfer
        ensures { result ≡ self.now }
    {
        let mut payload = ArrayVec::new();
        match payload.try_extend_from_slice(self.payload.as_slice()) {
            Ok(()) => {}
            Err(_) => unreachable!(),
        }
        Transfer {
            ident: self.ident,
            id: self.id,
            payload,
            mark: self.mark,
            whole: self.whole,
        }
    }
}
