ghost use Rattle.std.specs.Prelude.{◌≡◌, ◌↔◌, ◌⊎◌, ◌≤◌, ◌+◌, true, List};
ghost use Rattle.can_link.specs.Packet.{IsSameFrame};
ghost use Rattle.can_link.specs.Way.{Clears, Echoes, Gone, IsClear, IsLate, IsLatest, MayBeWritten, StaysOrEnds, longest_pause};
ghost use Rattle.can_link.specs.Socket.{Gives};
ghost use Rattle.outside.specs.Contents.{WhereTold};
ghost use Rattle.outside.specs.declared.received.RawFrame.{RawFrame};
ghost use Rattle.outside.specs.declared.received.Received.{Received};
ghost use Rattle.outside.specs.declared.received.Received.TheVariants.{Nothing};

use crate::inboxes::Inboxes;
use crate::socket::{Socket, Written};
use outside::{Clock, RawFrame, Received};

/// How often the socket is read for an echo before a further frame is lost. Where nothing comes, each time waits a
/// millisecond at most.
const READS: u8 = 64;

/// An echo that is later than this, in milliseconds, ends the member: nobody acknowledges, and what the interface holds
/// may come out at any time.
const LATE: u64 = 500;

/// The same on a slow bus, where others that go first may have the wire for longer.
const LATE_WHERE_SLOW: u64 = 1000;

/// A bus with no more bits in a second is slow.
const SLOW: u32 = 125_000;

/// A frame is lost where more milliseconds have passed since the bus was used before: its process was stopped between the
/// look at the clock that let it pass and here.
const LONGEST_PAUSE: u64 = 1000;

/// A frame that is on its way, the place of the member that sent it, and the reading before it was written.
#[derive(Clone, Copy)]
pub struct Sent {
    frame: RawFrame,
    place: usize,
    since: u64,
}

/// A socket of a CAN bus that gives back what is sent on it once it was on the bus, and the members of a process that
/// share it. What one of them sends the others hear, once it was on the bus.
///
/// One frame is on its way at a time: so no controller changes the order of frames, and where nobody acknowledges one
/// frame waits in the interface, and no more. Once its echo is late, [`CanBus::recv`] fails, and nothing is written
/// until the echo comes. The frame itself stays in the interface until somebody takes that down, and up again.
#[derive(Drop)]
pub struct CanBus<S, C> {
    socket: S,
    clock: C,
    inboxes: Inboxes,

    /// The frame whose echo has not come yet.
    on_its_way: Option<Sent>,

    /// The reading at the last call.
    last: u64,

    /// After so many milliseconds an echo is late.
    late: u64,
}

impl<S: Socket, C: Clock> CanBus<S, C> {
    /// The bus behind this socket, whose echoes are waited for by this clock: for longer where the bit rate is known to be
    /// low. Nothing is on its way.
    pub fn new(socket: S, mut clock: C, bit_rate: Option<u32>) -> CanBus<S, C>
        ensures socket { result.socket ≡ socket }
        ensures way { result.on_its_way ≡ None }
        ensures late { IsLatest bit_rate result.late }
    {
        let last = clock.now();
        CanBus {
            socket,
            clock,
            inboxes: Inboxes::new(),
            on_its_way: None,
            last,
            late: latest(bit_rate),
        }
    }

    /// Whether the echo of a frame was late at the last call.
    pub fn is_late(&self) -> bool
        ensures { (result ≡ true) ↔ IsLate self.now.late self.now.last self.now.on_its_way }
    {
        match self.on_its_way {
            Some(sent) => self.last.saturating_sub(sent.since) > self.late,
            None => false,
        }
    }

    /// What has come for the member at a place. None where the socket failed, and where nothing came and the echo of a
    /// frame is late.
    #[tactic(auto, using(crate::proofs::Clearing::read_where_told, crate::proofs::Clearing::clears_at_first))]
    pub fn recv(&mut self, place: usize) -> Option<Received>
        ensures clears { WhereTold {A = List Received} (Clears self.old.on_its_way self.new.on_its_way)
            (S.coming self.old.socket) (S.coming self.new.socket) }
        ensures way { StaysOrEnds self.old.on_its_way self.new.on_its_way }
        ensures taken { S.taken self.new.socket ≡ S.taken self.old.socket }
        ensures limit { self.new.late ≡ self.old.late }
        // Where nothing came, no echo is late.
        ensures late { result ≡ Some Nothing → IsLate self.new.late self.new.last self.new.on_its_way → ⊥ }
    {
        self.last = self.clock.now();
        if let Some(frame) = self.inboxes.next(place) {
            return Some(Received::Frame(frame));
        }
        match self.read()? {
            Received::Frame(_) => match self.inboxes.next(place) {
                Some(frame) => Some(Received::Frame(frame)),
                None => Some(Received::Junk),
            },
            Received::Junk => Some(Received::Junk),
            Received::Nothing => {
                if self.is_late() {
                    None
                } else {
                    Some(Received::Nothing)
                }
            }
        }
    }

    /// Sends a frame of the member at a place, once the frame before it was on the bus. It is lost where the way is not
    /// clear in time, where the process was stopped meanwhile, and where the interface has no room. It tells whether the
    /// socket works.
    #[tactic(auto, using(crate::proofs::Clearing::is_clear))]
    pub fn send(&mut self, place: usize, frame: &RawFrame) -> bool
        ensures taken { WhereTold {A = List RawFrame} (MayBeWritten
            (record { frame = frame.now; place = place; since = self.new.last })
            self.old.on_its_way self.new.on_its_way) (S.taken self.old.socket) (S.taken self.new.socket) }
        // Nothing is written where the process was stopped since the call before, nor while another frame is on its way.
        ensures pause { (S.taken self.new.socket ≡ S.taken self.old.socket)
            ⊎ (self.new.last ≤ self.old.last + longest_pause) }
        ensures clear { (S.taken self.new.socket ≡ S.taken self.old.socket)
            ⊎ WhereTold {A = List Received} (IsClear self.old.on_its_way)
            (S.coming self.old.socket) (S.coming self.new.socket) }
        ensures limit { self.new.late ≡ self.old.late }
    {
        let before = self.last;
        if !self.clear_the_way() {
            return false;
        }
        self.last = self.clock.now();
        if self.on_its_way.is_some() || self.last.saturating_sub(before) > LONGEST_PAUSE {
            return true;
        }
        match self.socket.write(frame) {
            Written::Taken => {
                self.on_its_way = Some(Sent {
                    frame: *frame,
                    place,
                    since: self.last,
                });
                true
            }
            Written::Lost => true,
            Written::Failed => false,
        }
    }

    /// Reads until nothing is on its way, and keeps what comes meanwhile. It tells whether the socket works.
    #[tactic(auto, using(crate::proofs::Clearing::read_where_told, crate::proofs::Clearing::clears_at_first))]
    fn clear_the_way(&mut self) -> bool
        ensures way { StaysOrEnds self.old.on_its_way self.new.on_its_way }
        ensures clears { WhereTold {A = List Received} (Clears self.old.on_its_way self.new.on_its_way)
            (S.coming self.old.socket) (S.coming self.new.socket) }
        ensures taken { S.taken self.new.socket ≡ S.taken self.old.socket }
        ensures last { self.new.last ≡ self.old.last }
        ensures limit { self.new.late ≡ self.old.late }
    {
        for _ in 0..READS {
            if self.on_its_way.is_none() {
                break;
            }
            match self.read() {
                Some(Received::Nothing) => self.socket.wait(),
                Some(Received::Frame(_) | Received::Junk) => {}
                None => return false,
            }
        }
        true
    }

    /// Reads once. A frame waits for the members then: an echo for all but its sender.
    fn read(&mut self) -> Option<Received>
        ensures items { WhereTold {A = List Received} (Gives result)
            (S.coming self.old.socket) (S.coming self.new.socket) }
        ensures way { Gone result self.old.on_its_way self.new.on_its_way }
        ensures taken { S.taken self.new.socket ≡ S.taken self.old.socket }
        ensures last { self.new.last ≡ self.old.last }
        ensures limit { self.new.late ≡ self.old.late }
    {
        let received = self.socket.read()?;
        if let Received::Frame(frame) = received {
            let sender = echo_of(&mut self.on_its_way, &frame);
            self.inboxes.hand_on(&frame, sender);
        }
        Some(received)
    }
}

/// After how many milliseconds an echo is late, on a bus with this bit rate, if it is known.
fn latest(bit_rate: Option<u32>) -> u64
    ensures { IsLatest bit_rate result }
{
    match bit_rate {
        Some(rate) if rate <= SLOW => LATE_WHERE_SLOW,
        _ => LATE,
    }
}

/// The place of the member that sent this frame, if it is the one on its way, which is over then.
fn echo_of(on_its_way: &mut Option<Sent>, frame: &RawFrame) -> Option<usize>
    ensures { Echoes frame.now on_its_way.old result on_its_way.new }
{
    let sent = (*on_its_way)?;
    if !is_same(frame, &sent.frame) {
        return None;
    }
    *on_its_way = None;
    Some(sent.place)
}

/// Whether two frames have the same identifier and the same data.
fn is_same(frame: &RawFrame, other: &RawFrame) -> bool
    ensures { (result ≡ true) ↔ IsSameFrame frame.now other.now }
{
    frame.id == other.id
        && frame.len == other.len
        && (0..usize::from(frame.len)).all(|i| frame.bytes.get(i) == other.bytes.get(i))
}
