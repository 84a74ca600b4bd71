ghost use Rattle.std.specs.Prelude.{◌≡◌, ◌<◌, ◌≤◌, ℕ, IfSome};
ghost use Rattle.can_frame.specs.Sizes.{node_ids};
ghost use Rattle.told_link.specs.Voice as voices;
ghost use Rattle.told_link.specs.declared.voice.Voice.TheVariants.{Answer, Member};

use crate::allocator_uid::answers_as_allocator;
use alloc_spec::is_of_members;
use can_frame::{APPEND_ENTRIES, Ident};
use outside::RawFrame;

/// The first number that is no identifier, which has 29 bits.
const FIRST_WIDE: u32 = 1 << 29;

/// The most data bytes of a frame.
const MOST_DATA: u8 = 8;

/// Whose a frame is, to a member that is told the list of its cluster.
#[derive(Clone, Copy, Debug, PartialEq, Eq)]
pub enum Voice {
    /// It shows that a premise is broken: that lists differ, say, or that a member runs twice.
    Stranger,

    /// It answers a call of AppendEntries of this member, and is of the other member with this node ID.
    Answer(u8),

    /// It is another frame of the other member with this node ID.
    Member(u8),

    /// Of anybody else.
    Other,
}

/// Whose a frame is to the member `me`, which is told this list. An empty list stands for none, and nobody is known.
pub fn voice_of(me: u8, ids: &[u8], frame: &RawFrame) -> Voice
    ensures voice { result ≡ voices.voice_of me ids.now frame.now }
    ensures answer { (id : ℕ) → result ≡ Answer id → id < node_ids }
    ensures member { (id : ℕ) → result ≡ Member id → id < node_ids }
{
    if ids.is_empty() {
        return Voice::Other;
    }
    match fields_of(frame) {
        Some(ident) => voice_with(me, ids, frame, ident),
        None => Voice::Other,
    }
}

/// The fields of the identifier of a frame of UAVCAN v0.
pub fn fields_of(frame: &RawFrame) -> Option<Ident>
    ensures fields { result ≡ voices.fields_of frame.now }
    ensures source { IfSome result (λ ident. ident.source < node_ids) }
    ensures size { IfSome result (λ ident. (0 < frame.now.len) × (frame.now.len ≤ 8)) }
{
    if frame.id >= FIRST_WIDE || frame.len == 0 || frame.len > MOST_DATA {
        return None;
    }
    Ident::read(frame.id)
}

fn voice_with(me: u8, ids: &[u8], frame: &RawFrame, ident: Ident) -> Voice
    requires source { ident.source < node_ids }
    requires size { (0 < frame.now.len) × (frame.now.len ≤ 8) }
    ensures voice { result ≡ voices.voice_by me ids.now frame.now ident.kind ident }
    ensures answer { (id : ℕ) → result ≡ Answer id → id < node_ids }
    ensures member { (id : ℕ) → result ≡ Member id → id < node_ids }
{
    if ident.kind.is_anonymous() {
        return Voice::Other;
    }
    if ident.source == me {
        return Voice::Stranger;
    }
    if ids.contains(&ident.source) {
        voice_of_listed(me, ident)
    } else {
        voice_of_unlisted(me, frame, ident)
    }
}

fn voice_of_listed(me: u8, ident: Ident) -> Voice
    ensures { result ≡ voices.voice_of_listed me ident }
{
    if ident.kind.is_response() && ident.number == APPEND_ENTRIES.number && ident.dest == me {
        Voice::Answer(ident.source)
    } else {
        Voice::Member(ident.source)
    }
}

fn voice_of_unlisted(me: u8, frame: &RawFrame, ident: Ident) -> Voice
    requires { (0 < frame.now.len) × (frame.now.len ≤ 8) }
    ensures { result ≡ voices.voice_of_unlisted me frame.now ident }
{
    if is_of_members(ident.kind, ident.number) || answers_as_allocator(me, frame, ident) {
        Voice::Stranger
    } else {
        Voice::Other
    }
}
