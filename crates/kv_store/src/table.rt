ghost use Rattle.std.specs.Prelude.{◌≡◌, ◌≢◌, ◌≤◌, ◌<◌, ℕ, [], IfOk, IfErr, OnOk, length, slice_index};
ghost use Rattle.arrayvec.specs.ArrayVec.{array_vec_len};
ghost use Rattle.kv_store.specs.Image.{StandsFor, IsFirstDamaged, chosen_copy, key_count, put_in, value_limit};
ghost use Rattle.kv_store.specs.Table.{value_at};

use crate::value::{KEY_SIZE, KEYS, Value, read_value};
use arrayvec::ArrayVec;
use disk_model::IMAGE;

/// The value of each key, and which of its copies its selector chooses.
#[derive(Drop)]
pub struct Table {
    values: ArrayVec<Value, KEYS>,
    copies: [u8; KEYS],
    ghost full: { array_vec_len values ≡ key_count },
    ghost short: { (key : ℕ) → length (value_at values.items key) ≤ value_limit },
    ghost bits: { (key : ℕ) → slice_index copies key < 2 },
}

impl Table {
    ghost use Rattle.kv_store.specs.TableViews.{table_map, table_copy};

    /// The table that an image stands for. The error is the first key that is damaged.
    pub fn read(image: &[u8; IMAGE]) -> Result<Table, u8>
        ensures map { IfOk result (λ table. StandsFor image.now (table_map table)) }
        ensures copies { IfOk result (λ table. (key : ℕ) → key < key_count →
            chosen_copy image.now key ≡ table_copy table key) }
        ensures damaged { IfErr result (λ key. IsFirstDamaged image.now key) }
    {
        let mut table = Table::empty();
        table.refill(image)?;
        Ok(table)
    }

    /// Becomes the table that an image stands for. The error is the first key that is damaged; then the table
    /// is that of no image.
    pub(crate) fn refill(&mut self, image: &[u8; IMAGE]) -> Result<(), u8>
        ensures map { OnOk result (StandsFor image.now (table_map self.new)) }
        ensures copies { OnOk result ((key : ℕ) → key < key_count →
            chosen_copy image.now key ≡ table_copy self.new key) }
        ensures damaged { IfErr result (λ key. IsFirstDamaged image.now key) }
    {
        for key in 0..KEYS {
            match read_value(image, key) {
                Some(value) => self.set(key as u8, image[KEY_SIZE * key] % 2, value),
                None => return Err(key as u8),
            }
        }
        Ok(())
    }

    /// The table of a store in which nothing was put.
    pub fn empty() -> Table
        ensures map { (key : ℕ) → table_map result key ≡ [] }
        ensures copies { (key : ℕ) → table_copy result key ≡ 0 }
    {
        let mut values: ArrayVec<Value, KEYS> = ArrayVec::new();
        for _ in 0..KEYS {
            values.push(Value::new());
        }
        Table {
            values,
            copies: [0; KEYS],
        }
    }

    pub fn get(&self, key: u8) -> &Value
        requires { key < key_count }
        ensures value { result.now.items ≡ table_map self.now key }
        ensures short { array_vec_len result.now ≤ value_limit }
    {
        &self.values[key as usize]
    }

    /// The copy of a key that its selector chooses.
    pub fn copy(&self, key: u8) -> u8
        requires { key < key_count }
        ensures copy { result ≡ table_copy self.now key }
        ensures bit { result < 2 }
    {
        self.copies[key as usize]
    }

    pub fn set(&mut self, key: u8, copy: u8, value: Value)
        requires key { key < key_count }
        requires copy { copy < 2 }
        requires short { array_vec_len value ≤ value_limit }
        ensures map { (k : ℕ) →
            table_map self.new k ≡ put_in (table_map self.old) key value.items k }
        ensures copy { table_copy self.new key ≡ copy }
        ensures others { (k : ℕ) → k ≢ key → table_copy self.new k ≡ table_copy self.old k }
    {
        self.copies[key as usize] = copy;
        self.values[key as usize] = value;
    }
}
