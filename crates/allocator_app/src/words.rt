ghost use Rattle.std.specs.Prelude.{◌≡◌, ◌≤◌, ◌<◌, ◌↔◌, ◌⊎◌, [], ℕ, Bool, List, map, string_bytes, decimal, length, slice_index, EachIndex, IfSome, IsNone, IsTrue};
ghost use Rattle.can_frame.specs.Sizes.{longest_payload, most_members};
ghost use Rattle.can_logs.specs.declared.form.Form.{Form as FormValue};
ghost use Rattle.dsdl_text.specs.Words as text_words;
ghost use Rattle.raft_model.specs.Lists.{In};
ghost use Rattle.alloc_spec.specs.ClusterMembers.{AreMembers};
ghost use Rattle.allocator_app.specs.declared.told.Told.{Told};
ghost use Rattle.allocator_app.specs.Words.{AreFew, AreOfNew, IsAudit, IsConvert, IsDecode, IsNew, IsNewAbove, IsNode, IsPlan, IsReplace, IsReplay, IsSize, IsSoak, IsWatch, MayLose, SpellsPayload};

use crate::plans::Plan;
use crate::told::read_told;
use alloc_spec::are_members;
use arrayvec::ArrayVec;
use can_frame::sizes::{LONGEST_PAYLOAD, MOST_MEMBERS};
use can_logs::Form;
use dsdl_text::is_name;
use replay_text::{read_bytes, read_number};

/// The plan of the words, without the program's name; `None` where they are none of
/// `replay <rows> <id>..`, `node <members> <base> <turns> <id>..`, `soak <seed> <rounds> <size>`,
/// `soak <seed> <rounds> configured <size>`, `new <id>..`, `new above <term> <id>..`, `replace <lost> <id>..`,
/// `audit <id>..`, `watch <format> <lines> <id>..`, `convert <format> <format> <lines>` and
/// `decode <name> <part> <hex>`.
pub fn plan(words: &[String]) -> Option<Plan>
    ensures some { IfSome result (λ plan. IsPlan plan (map string_bytes words.now)) }
    ensures none { IsNone result → (plan : Plan) → IsPlan plan (map string_bytes words.now) → ⊥ }
{
    if let Some(plan) = replay_plan(words) {
        return Some(plan);
    }
    if let Some(plan) = node_plan(words) {
        return Some(plan);
    }
    if let Some(plan) = soak_plan(words) {
        return Some(plan);
    }
    if let Some(plan) = new_plan(words) {
        return Some(plan);
    }
    if let Some(plan) = replace_plan(words) {
        return Some(plan);
    }
    if let Some(plan) = audit_plan(words) {
        return Some(plan);
    }
    if let Some(plan) = watch_plan(words) {
        return Some(plan);
    }
    if let Some(plan) = convert_plan(words) {
        return Some(plan);
    }
    decode_plan(words)
}

fn replay_plan(words: &[String]) -> Option<Plan>
    ensures some { IfSome result (λ plan. IsPlan plan (map string_bytes words.now)) }
    ensures none { IsNone result → (rows : ℕ) (ids : List ℕ) →
        IsReplay rows ids (map string_bytes words.now) → ⊥ }
{
    let [mode, rows, ids @ ..] = words else {
        return None;
    };
    if mode.as_str() != "replay" {
        return None;
    }
    let rows = number_within(rows.as_bytes(), 1, 1_000_000)?;
    let ids = read_members(ids)?;
    Some(Plan::Replay { rows, ids })
}

fn node_plan(words: &[String]) -> Option<Plan>
    ensures some { IfSome result (λ plan. IsPlan plan (map string_bytes words.now)) }
    ensures none { IsNone result → (told : Told) (base turns : ℕ) (ids : List ℕ) →
        IsNode told base turns ids (map string_bytes words.now) → ⊥ }
{
    let [mode, told, base, turns, ids @ ..] = words else {
        return None;
    };
    if mode.as_str() != "node" {
        return None;
    }
    let told = read_told(told.as_bytes())?;
    let base = number_within(base.as_bytes(), 1_024, 65_410)? as u16;
    let turns = read_number(turns.as_bytes(), 1_000_000_000)?;
    let ids = read_members(ids)?;
    if !told.has_room_for(&ids) {
        return None;
    }
    Some(Plan::Node {
        told,
        base,
        turns,
        ids,
    })
}

fn soak_plan(words: &[String]) -> Option<Plan>
    ensures some { IfSome result (λ plan. IsPlan plan (map string_bytes words.now)) }
    ensures none { IsNone result → (told : Bool) (seed rounds size : ℕ) →
        IsSoak told seed rounds size (map string_bytes words.now) → ⊥ }
{
    let [mode, seed, rounds, members @ ..] = words else {
        return None;
    };
    if mode.as_str() != "soak" {
        return None;
    }
    let seed = read_number(seed.as_bytes(), u64::MAX)?;
    let rounds = read_number(rounds.as_bytes(), 20_000)?;
    let (told, size) = read_cluster(members)?;
    Some(Plan::Soak {
        told,
        seed,
        rounds,
        size,
    })
}

/// Whether members are told who they are, and how many there are.
fn read_cluster(words: &[String]) -> Option<(bool, u8)>
    ensures some { IfSome result (λ read. IsSize read.0 read.1 (map string_bytes words.now)) }
    ensures none { IsNone result → (told : Bool) (size : ℕ) →
        IsSize told size (map string_bytes words.now) → ⊥ }
{
    if let [size] = words {
        let size = number_within(size.as_bytes(), 1, MOST_MEMBERS as u64)? as u8;
        return Some((false, size));
    }
    let [kind, size] = words else {
        return None;
    };
    if kind.as_str() != "configured" {
        return None;
    }
    let size = number_within(size.as_bytes(), 1, MOST_MEMBERS as u64)? as u8;
    Some((true, size))
}

fn new_plan(words: &[String]) -> Option<Plan>
    ensures some { IfSome result (λ plan. IsPlan plan (map string_bytes words.now)) }
    ensures none { IsNone result → (term : ℕ) (ids : List ℕ) →
        IsNew term ids (map string_bytes words.now) → ⊥ }
{
    let [mode, stores @ ..] = words else {
        return None;
    };
    if mode.as_str() != "new" {
        return None;
    }
    let (term, ids) = read_start(stores)?;
    Some(Plan::New { term, ids })
}

/// The term above which stores are made, 0 where the words have none, and whose they are.
fn read_start(words: &[String]) -> Option<(u32, ArrayVec<u8, MOST_MEMBERS>)>
    ensures some { IfSome result (λ read. AreOfNew read.0 read.1.items (map string_bytes words.now)) }
    ensures none { IsNone result → (term : ℕ) (ids : List ℕ) →
        AreOfNew term ids (map string_bytes words.now) → ⊥ }
{
    if let Some(above) = read_above(words) {
        return Some(above);
    }
    let ids = read_members(words)?;
    Some((0, ids))
}

/// The term that the words have, and the members behind it.
fn read_above(words: &[String]) -> Option<(u32, ArrayVec<u8, MOST_MEMBERS>)>
    ensures some { IfSome result (λ read. IsNewAbove read.0 read.1.items (map string_bytes words.now)) }
    ensures none { IsNone result → (term : ℕ) (ids : List ℕ) →
        IsNewAbove term ids (map string_bytes words.now) → ⊥ }
{
    let [word, term, ids @ ..] = words else {
        return None;
    };
    if word.as_str() != "above" {
        return None;
    }
    let term = number_within(term.as_bytes(), 1, 500_000)? as u32;
    let ids = read_members(ids)?;
    Some((term, ids))
}

fn replace_plan(words: &[String]) -> Option<Plan>
    ensures some { IfSome result (λ plan. IsPlan plan (map string_bytes words.now)) }
    ensures none { IsNone result → (lost : ℕ) (ids : List ℕ) →
        IsReplace lost ids (map string_bytes words.now) → ⊥ }
{
    let [mode, lost, ids @ ..] = words else {
        return None;
    };
    if mode.as_str() != "replace" {
        return None;
    }
    let lost = number_within(lost.as_bytes(), 1, 125)? as u8;
    let ids = read_members(ids)?;
    if !may_lose(&ids, lost) {
        return None;
    }
    Some(Plan::Replace { lost, ids })
}

/// Whether these members are two at least, and this node is one of them.
fn may_lose(ids: &[u8], lost: u8) -> bool
    ensures { IsTrue result ↔ MayLose ids.now lost }
{
    ids.len() >= 2 && ids.contains(&lost)
}

fn audit_plan(words: &[String]) -> Option<Plan>
    ensures some { IfSome result (λ plan. IsPlan plan (map string_bytes words.now)) }
    ensures none { IsNone result → (ids : List ℕ) →
        IsAudit ids (map string_bytes words.now) → ⊥ }
{
    let [mode, ids @ ..] = words else {
        return None;
    };
    if mode.as_str() != "audit" {
        return None;
    }
    let ids = read_members(ids)?;
    Some(Plan::Audit { ids })
}

fn watch_plan(words: &[String]) -> Option<Plan>
    ensures some { IfSome result (λ plan. IsPlan plan (map string_bytes words.now)) }
    ensures none { IsNone result → (form : FormValue) (lines : ℕ) (ids : List ℕ) →
        IsWatch form lines ids (map string_bytes words.now) → ⊥ }
{
    let [mode, format, lines, ids @ ..] = words else {
        return None;
    };
    if mode.as_str() != "watch" {
        return None;
    }
    let form = Form::of_word(format.as_str())?;
    let lines = number_within(lines.as_bytes(), 1, 1_000_000)?;
    let ids = read_few(ids)?;
    Some(Plan::Watch { form, lines, ids })
}

fn convert_plan(words: &[String]) -> Option<Plan>
    ensures some { IfSome result (λ plan. IsPlan plan (map string_bytes words.now)) }
    ensures none { IsNone result → (from to : FormValue) (lines : ℕ) →
        IsConvert from to lines (map string_bytes words.now) → ⊥ }
{
    let [mode, from, to, lines] = words else {
        return None;
    };
    if mode.as_str() != "convert" {
        return None;
    }
    let from = Form::of_word(from.as_str())?;
    let to = Form::of_word(to.as_str())?;
    let lines = number_within(lines.as_bytes(), 1, 1_000_000)?;
    Some(Plan::Convert { from, to, lines })
}

fn decode_plan(words: &[String]) -> Option<Plan>
    ensures some { IfSome result (λ plan. IsPlan plan (map string_bytes words.now)) }
    ensures none { IsNone result → (name : List ℕ) (part : ℕ) (payload : List ℕ) →
        IsDecode name part payload (map string_bytes words.now) → ⊥ }
{
    let [mode, name, part, digits] = words else {
        return None;
    };
    if mode.as_str() != "decode" {
        return None;
    }
    let name = read_name(name.as_bytes())?;
    let part = number_within(part.as_bytes(), 1, 2)? as u8;
    let payload = read_payload(digits.as_bytes())?;
    Some(Plan::Decode {
        name,
        part,
        payload,
    })
}

/// The name of a type.
fn read_name(word: &[u8]) -> Option<ArrayVec<u8, 40>>
    ensures some { IfSome result (λ name. (name.items ≡ word.now) × IsTrue (text_words.is_name word.now)) }
    ensures none { IsNone result → IsTrue (text_words.is_name word.now) → ⊥ }
{
    if !is_name(word) {
        return None;
    }
    let mut name = ArrayVec::new();
    name.try_extend_from_slice(word).ok()?;
    Some(name)
}

/// The bytes of a payload that a word spells.
fn read_payload(word: &[u8]) -> Option<ArrayVec<u8, LONGEST_PAYLOAD>>
    ensures some { IfSome result (λ payload. (length payload.items ≤ longest_payload) ×
        SpellsPayload payload.items word.now) }
    ensures none { IsNone result → (payload : List ℕ) → length payload ≤ longest_payload →
        SpellsPayload payload word.now → ⊥ }
{
    if word == b"-".as_slice() {
        return Some(ArrayVec::new());
    }
    let payload = read_bytes::<LONGEST_PAYLOAD>(word)?;
    if payload.is_empty() {
        return None;
    }
    Some(payload)
}

/// None, or the members of a cluster that the words spell.
fn read_few(words: &[String]) -> Option<ArrayVec<u8, MOST_MEMBERS>>
    ensures some { IfSome result (λ ids. map string_bytes words.now ≡ map decimal ids.items) }
    ensures few { IfSome result (λ ids. AreFew ids.items) }
    ensures none { IsNone result → (ids : List ℕ) → AreFew ids →
        map string_bytes words.now ≡ map decimal ids → ⊥ }
{
    if words.is_empty() {
        return Some(ArrayVec::new());
    }
    read_members(words)
}

/// The members of a cluster that the words spell.
fn read_members(words: &[String]) -> Option<ArrayVec<u8, MOST_MEMBERS>>
    ensures some { IfSome result (λ ids. map string_bytes words.now ≡ map decimal ids.items) }
    ensures members { IfSome result (λ ids. AreMembers ids.items) }
    ensures none { IsNone result → (ids : List ℕ) → AreMembers ids →
        map string_bytes words.now ≡ map decimal ids → ⊥ }
    ensures only { IfSome result (λ own. (ids : List ℕ) → AreMembers ids →
        map string_bytes words.now ≡ map decimal ids → own.items ≡ ids) }
{
    let ids = read_ids(words)?;
    if !are_members(&ids) {
        return None;
    }
    Some(ids)
}

/// The numbers of at most five words, each up to 255.
fn read_ids(words: &[String]) -> Option<ArrayVec<u8, MOST_MEMBERS>>
    ensures some { IfSome result (λ ids. map string_bytes words.now ≡ map decimal ids.items) }
    ensures bytes { IfSome result (λ ids. EachIndex ids.items (λ i. slice_index ids.items i < 256)) }
    ensures none { IsNone result → (ids : List ℕ) → length ids ≤ most_members →
        ((n : ℕ) → In n ids → n ≤ 255) →
        map string_bytes words.now ≡ map decimal ids → ⊥ }
{
    let mut ids = ArrayVec::new();
    for word in words {
        let id = read_number(word.as_bytes(), 255)?;
        ids.try_push(id as u8).ok()?;
    }
    Some(ids)
}

/// The number, of `least` to `most`, that a word spells.
pub(crate) fn number_within(word: &[u8], least: u64, most: u64) -> Option<u64>
    ensures some { IfSome result (λ n. (least ≤ n) × (n ≤ most) × (word.now ≡ decimal n)) }
    ensures none { IsNone result → (n : ℕ) → least ≤ n → n ≤ most → word.now ≡ decimal n → ⊥ }
{
    let n = read_number(word, most)?;
    if n < least {
        return None;
    }
    Some(n)
}
