ghost use Rattle.std.specs.Prelude.{◌≡◌, ◌≤◌, ◌<◌, ◌↔◌, ◌∷◌, [], ℕ, List, decimal, length, map, slice_index, EachIndex, IfSome, IsNone, IsTrue, ◌==◌};
ghost use Rattle.std.specs.List.{Contains, position_or_len};
ghost use Rattle.can_frame.specs.Sizes.{most_members};
ghost use Rattle.raft_model.specs.Lists.{In};
ghost use Rattle.allocator_app.specs.declared.told.Told.{Told};
ghost use Rattle.allocator_app.specs.Told.{AreAmong, IsCluster, Spells, commas, list_of, list_parts, rest_of, size_of};

use crate::words::number_within;
use alloc_spec::are_members;
use arrayvec::ArrayVec;
use can_frame::sizes::MOST_MEMBERS;
use replay_text::read_number;

/// How long a process that is told its members, and ran one of them before, rests before its first turn, in
/// milliseconds. It counts its transfer IDs from 0, as the one before it did, and calls nobody for the first 2,000 ms
/// after its opening. A call of the one before and the answer to it are on their way for 3,500 ms each at most: 1,000 ms
/// in the link of each process, and 1,500 in bridges and on the bus. So both are over by then, with 500 ms to spare for
/// clocks.
pub const REST: u64 = 5500;

/// What the members of a cluster are told of it.
#[derive(Debug, Drop, PartialEq, Eq)]
pub enum Told {
    /// How many members it has, 1 to 5.
    Size(u8),

    /// The node IDs of its members, 1 to 5 different ones of 1 to 125.
    Members(ArrayVec<u8, MOST_MEMBERS>),
}

impl Told {
    /// How many members the cluster has.
    pub fn size(&self) -> u8
        requires { size_of self.now ≤ most_members }
        ensures { result ≡ size_of self.now }
    {
        match self {
            Told::Size(size) => *size,
            Told::Members(members) => members.len() as u8,
        }
    }

    /// The node IDs of the members, where these are told; else none.
    pub fn list(&self) -> &[u8]
        ensures list { result.now ≡ list_of self.now }
        ensures size { length result.now ≤ size_of self.now }
    {
        match self {
            Told::Size(_) => &[],
            Told::Members(members) => members.as_slice(),
        }
    }

    /// How long a process whose members are told this rests before its first turn, in milliseconds: [`REST`] where they
    /// are told a list and one of them ran before, else 0.
    pub fn rest(&self, ran_before: bool) -> u64
        ensures { result ≡ rest_of self.now ran_before }
    {
        match self {
            Told::Size(_) => 0,
            Told::Members(_) => if ran_before { REST } else { 0 },
        }
    }

    /// Whether these nodes can be among the members.
    pub(crate) fn has_room_for(&self, ids: &[u8]) -> bool
        ensures { IsTrue result ↔ AreAmong self.now ids.now }
    {
        match self {
            Told::Size(size) => ids.len() <= usize::from(*size),
            Told::Members(members) => are_in(members, ids),
        }
    }
}

/// Whether all of these node IDs are members.
fn are_in(members: &[u8], ids: &[u8]) -> bool
    ensures { IsTrue result ↔ EachIndex ids.now (λ i. Contains members.now (slice_index ids.now i)) }
{
    for id in ids {
        if !members.contains(id) {
            return false;
        }
    }
    true
}

/// What this word tells the members of a cluster: their number, or a list of them.
pub(crate) fn read_told(word: &[u8]) -> Option<Told>
    ensures some { IfSome result (λ told. Spells told word.now × IsCluster told) }
    ensures none { IsNone result → (told : Told) → IsCluster told → Spells told word.now → ⊥ }
{
    if let Some(size) = number_within(word, 1, MOST_MEMBERS as u64) {
        return Some(Told::Size(size as u8));
    }
    let members = read_list(word)?;
    if !are_members(&members) {
        return None;
    }
    Some(Told::Members(members))
}

/// The numbers, each up to 255, that the word of a list has.
fn read_list(word: &[u8]) -> Option<ArrayVec<u8, MOST_MEMBERS>>
    ensures some { IfSome result (λ ids. commas word.now ≡ list_parts ids.items) }
    ensures bytes { IfSome result (λ ids. EachIndex ids.items (λ i. slice_index ids.items i < 256)) }
    ensures none { IsNone result → (ids : List ℕ) → length ids ≤ most_members →
        ((n : ℕ) → In n ids → n ≤ 255) → commas word.now ≡ list_parts ids → ⊥ }
{
    if let Some(one) = before_last_comma(word) {
        let id = read_number(one, 255)?;
        let mut ids = ArrayVec::new();
        ids.push(id as u8);
        return Some(ids);
    }
    let ids = read_parts(word)?;
    if ids.len() < 2 {
        return None;
    }
    Some(ids)
}

/// What stands before a comma that ends the word, where it is the only one.
fn before_last_comma(word: &[u8]) -> Option<&[u8]>
    ensures some { IfSome result (λ one. commas word.now ≡ one.now ∷ [] ∷ []) }
    ensures none { IsNone result → (one : List ℕ) → commas word.now ≡ one ∷ [] ∷ [] → ⊥ }
{
    let Some((one, rest)) = split_comma(word) else {
        return None;
    };
    match rest {
        [] => Some(one),
        [_, ..] => None,
    }
}

/// The numbers, each up to 255, of at most five parts of a word.
fn read_parts(word: &[u8]) -> Option<ArrayVec<u8, MOST_MEMBERS>>
    ensures some { IfSome result (λ ids. commas word.now ≡ map decimal ids.items) }
    ensures bytes { IfSome result (λ ids. EachIndex ids.items (λ i. slice_index ids.items i < 256)) }
    ensures none { IsNone result → (ids : List ℕ) → length ids ≤ most_members →
        ((n : ℕ) → In n ids → n ≤ 255) → commas word.now ≡ map decimal ids → ⊥ }
{
    let mut ids = ArrayVec::new();
    let mut rest = word;
    while let Some((part, more)) = split_comma(rest) {
        let id = read_number(part, 255)?;
        ids.try_push(id as u8).ok()?;
        rest = more;
    }
    let id = read_number(rest, 255)?;
    ids.try_push(id as u8).ok()?;
    Some(ids)
}

/// The first part of a word and what stands behind the comma after it; `None` where there is no comma.
fn split_comma(word: &[u8]) -> Option<(&[u8], &[u8])>
    ensures some { IfSome result (λ parts. commas word.now ≡ parts.0.now ∷ commas parts.1.now) }
    ensures shorter { IfSome result (λ parts. length parts.1.now < length word.now) }
    ensures none { IsNone result → commas word.now ≡ word.now ∷ [] }
{
    let end = comma_or_end(word);
    if end == word.len() {
        return None;
    }
    Some((&word[..end], &word[end + 1..]))
}

fn comma_or_end(word: &[u8]) -> usize
    ensures place { result ≡ position_or_len (λ byte. byte == 44) word.now }
    ensures within { result ≤ length word.now }
{
    word.iter()
        .position(|&byte| byte == b',')
        .unwrap_or(word.len())
}
