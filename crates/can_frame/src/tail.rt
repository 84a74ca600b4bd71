ghost use Rattle.std.specs.Prelude.{◌≡◌, ◌<◌};
ghost use Rattle.can_frame.specs.Tail.{tail_byte, tail_of};

/// The last byte of a frame: whether it is the first and the last frame of its transfer, the toggle
/// bit, and the transfer ID, 0 to 31 (UAVCAN v0 specification, "Payload data: tail byte").
#[derive(Clone, Copy, Debug, PartialEq, Eq)]
pub struct Tail {
    pub start: bool,
    pub end: bool,
    pub toggle: bool,
    pub id: u8,
}

impl Tail {
    pub fn read(byte: u8) -> Tail
        ensures fields { result ≡ tail_of byte }
        ensures id { result.id < 32 }
        ensures written_again { byte ≡ tail_byte result }
    {
        Tail {
            start: byte / 128 % 2 == 1,
            end: byte / 64 % 2 == 1,
            toggle: byte / 32 % 2 == 1,
            id: byte % 32,
        }
    }

    pub fn write(self) -> u8
        requires { self.id < 32 }
        ensures byte { result ≡ tail_byte self }
        ensures read_again { self ≡ tail_of result }
    {
        let start = if self.start { 128 } else { 0 };
        let end = if self.end { 64 } else { 0 };
        let toggle = if self.toggle { 32 } else { 0 };
        start + end + toggle + self.id
    }
}
