ghost use Rattle.std.specs.Prelude.{◌≡◌, ◌≤◌, ◌<◌, ◌↔◌, length, IfSome, IsSome, IsNone};
ghost use Rattle.arrayvec.specs.ArrayVec.{array_vec_len};
ghost use Rattle.kv_store.specs.Image.{copy_bytes, key_count, length_byte, value_in, value_limit};

use arrayvec::ArrayVec;
use disk_model::IMAGE;

/// How many keys a store has.
pub const KEYS: usize = 132;

/// How many bytes a value has at most.
pub const VALUE: usize = 32;

/// How many bytes a copy of a value has on the disk: its length and `VALUE` bytes.
pub const COPY_SIZE: usize = 33;

/// How many bytes a key has on the disk: its selector and two copies.
pub const KEY_SIZE: usize = 67;

/// What a store keeps for a key: up to 32 bytes.
pub type Value = ArrayVec<u8, 32>;

/// An image of a disk, read key by key.
pub struct Image;

impl Image {
    /// The value that an image has for a key. None where the length of the copy that its selector chooses
    /// is too large.
    pub fn value(image: &[u8; IMAGE], key: u8) -> Option<Value>
        requires { key < key_count }
        ensures found { IfSome result (λ value. value.items ≡ value_in image.now key) }
        ensures short { IfSome result (λ value. array_vec_len value ≤ value_limit) }
        ensures none { IsNone result ↔ (value_limit < length_byte image.now key) }
    {
        read_value(image, key as usize)
    }
}

/// A value of these bytes.
pub fn value_of(bytes: &[u8]) -> Value
    requires { length bytes.now ≤ value_limit }
    ensures { result.items ≡ bytes.now }
{
    let mut value = Value::new();
    value.try_extend_from_slice(bytes).unwrap();
    value
}

/// The value in the copy of a key that its selector chooses. None where its length is too large.
pub fn read_value(image: &[u8; IMAGE], key: usize) -> Option<Value>
    requires { key < key_count }
    ensures found { IfSome result (λ value. value.items ≡ value_in image.now key) }
    ensures short { IsSome result → length_byte image.now key ≤ value_limit }
    ensures long { IsNone result → value_limit < length_byte image.now key }
{
    let at = KEY_SIZE * key + 1 + COPY_SIZE * (image[KEY_SIZE * key] % 2) as usize;
    let length = image[at] as usize;
    if length > VALUE {
        return None;
    }
    Some(value_of(&image[at + 1..at + 1 + length]))
}

/// The bytes that a copy of a value has on the disk.
pub fn copy_of(value: &Value) -> [u8; COPY_SIZE]
    requires { array_vec_len value.now ≤ value_limit }
    ensures { result ≡ copy_bytes value.now.items }
{
    let mut copy = [0; COPY_SIZE];
    let (first, rest) = copy.split_at_mut(1);
    first[0] = value.len() as u8;
    rest[..value.len()].copy_from_slice(value);
    copy
}
