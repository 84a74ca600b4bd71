ghost use Rattle.std.specs.Prelude.{◌≡◌, ◌↔◌, IfSome, IsNone, IsTrue};
ghost use Rattle.mirrored_disk.specs.Record.{HasRecord, image_in, number_in, record_of};

use arrayvec::ArrayVec;
use block_device::USED;
use disk_model::IMAGE;
use sha2::{Digest, Sha256};

/// How many bytes the head of a record has.
pub const HEAD: usize = 16;

/// How many bytes its number has, behind the head.
const NUMBER: usize = 8;

/// The record of an image.
#[tactic(auto, unfolding(crate::specs::Record::record_of, crate::specs::Record::body_of))]
pub fn record_with(head: &[u8; HEAD], number: u64, image: &[u8; IMAGE]) -> [u8; USED]
    ensures { result ≡ record_of head.now number image.now }
{
    let digits = number.to_le_bytes();
    let mut record: ArrayVec<u8, USED> = ArrayVec::new();
    record.try_extend_from_slice(head).unwrap();
    record.try_extend_from_slice(&digits).unwrap();
    record.try_extend_from_slice(image).unwrap();
    let digest = Sha256::digest(record.as_slice());
    record.try_extend_from_slice(&digest).unwrap();
    match record.into_inner() {
        Ok(bytes) => bytes,
        Err(_) => unreachable!(),
    }
}

/// The number of the record that a block has. None where it has no record with this head.
#[tactic(auto, unfolding(crate::specs::Record::number_in))]
pub fn number_of(bytes: &[u8; USED], head: &[u8; HEAD]) -> Option<u64>
    ensures found { IfSome result (λ number. HasRecord head.now bytes.now) }
    ensures number { IfSome result (λ number. number_in bytes.now ≡ number) }
    ensures none { IsNone result → HasRecord head.now bytes.now → ⊥ }
{
    if !has_record(bytes, head) {
        return None;
    }
    let (_, rest) = bytes.split_at(HEAD);
    let (digits, _) = rest.split_at(NUMBER);
    let mut number = [0; NUMBER];
    number.copy_from_slice(digits);
    Some(u64::from_le_bytes(number))
}

/// Whether a block has a record with this head.
fn has_record(bytes: &[u8; USED], head: &[u8; HEAD]) -> bool
    ensures { IsTrue result ↔ HasRecord head.now bytes.now }
{
    let (named, _) = bytes.split_at(HEAD);
    let (body, check) = bytes.split_at(HEAD + NUMBER + IMAGE);
    let digest = Sha256::digest(body);
    named == head.as_slice() && check == digest.as_slice()
}

/// Fills `image` with the image that a block has.
#[tactic(auto, unfolding(crate::specs::Record::image_in))]
pub fn image_of(bytes: &[u8; USED], image: &mut [u8; IMAGE])
    ensures { image_in bytes.now ≡ image.new }
{
    let (_, rest) = bytes.split_at(HEAD + NUMBER);
    let (kept, _) = rest.split_at(IMAGE);
    image.copy_from_slice(kept);
}
