//! Laws of the definitions, each the contract of a function that does nothing.

ghost use Rattle.std.specs.Prelude.{◌≡◌, ◌≤◌, ◌<◌, ◌-◌, ℕ, Bool, List, None, true, length};
ghost use Rattle.disk_model.specs.declared.calls.Calls.{Calls};
ghost use Rattle.disk_model.specs.declared.memory.MemoryDisk.{MemoryDisk};
ghost use Rattle.disk_model.specs.Contents.{IsSettled};
ghost use Rattle.disk_model.specs.Device.{Makes};
ghost use Rattle.disk_model.specs.Memory.{DoesInMemory, Restarts, memory_calls, memory_contents};
ghost use Rattle.disk_model.specs.Pattern.{IsUsable};
ghost use Rattle.kv_store.specs.Image.{AlwaysStandsFor, IsFirstDamaged, StandsFor, key_count, open_calls, put_calls, put_in, value_limit};
ghost use Rattle.kv_store.specs.KeyDisk.{IsOn, IsReady, KeyDisk, Shows, is_opened, is_put, opened_on, put_on, restarted_on};
ghost use Rattle.outside.specs.declared.pattern.Pattern.{Pattern};
ghost use Rattle.kv_store.specs.StoreViews.{store_disk, store_fault, store_map};
ghost use Rattle.kv_store.specs.declared.store.Store.{Store};

use disk_model::Disk;

/// An image stands for one map, or has one first damaged key.
pub fn an_image_stands_for_one_map()
    ensures map { (image : List ℕ) (a b : ℕ → List ℕ) → StandsFor image a → StandsFor image b →
        (key : ℕ) → key < key_count → a key ≡ b key }
    ensures damaged { (image : List ℕ) (a b : ℕ) → IsFirstDamaged image a →
        IsFirstDamaged image b → a ≡ b }
    ensures either { (image : List ℕ) (map : ℕ → List ℕ) (key : ℕ) → StandsFor image map →
        IsFirstDamaged image key → ⊥ }
{}

/// Whatever a stop leaves of the disk of a store stands for its map, while the store is open and no put has
/// failed.
pub fn a_store_is_durable<D: Disk>()
    ensures { (store : Store D D.Disk) → store_fault store ≡ None →
        D.tells (store_disk store) ≡ true →
        AlwaysStandsFor (D.contents (store_disk store)) (store_map store) }
{}

/// The disk by keys, step by step: where a disk in memory is the one that a shelf tells of, it still is
/// after a put, an opening, a restart and a change of its settings, and these device calls succeed exactly
/// where the shelf says.
pub fn the_disk_by_keys()
    ensures put { (old new : MemoryDisk) (key_disk : KeyDisk (ℕ → List ℕ)) (key : ℕ) (value : List ℕ)
        (ok : Bool) →
        IsReady old key_disk → key < key_count → length value ≤ value_limit →
        Makes DoesInMemory (put_calls key (1 - key_disk.copies key) value) ok old new →
        let after = put_on key (put_in key_disk.store key value) key_disk in
        IsOn new after × (ok ≡ is_put key_disk.calls) × (ok ≡ true → IsReady new after) }
    ensures opened { (old new : MemoryDisk) (key_disk : KeyDisk (ℕ → List ℕ)) (ok : Bool) →
        IsOn old key_disk →
        Makes DoesInMemory open_calls ok old new →
        IsOn new (opened_on key_disk) × (ok ≡ is_opened key_disk.calls)
        × (ok ≡ true → IsReady new (opened_on key_disk)) }
    ensures restarted { (old new : MemoryDisk) (key_disk : KeyDisk (ℕ → List ℕ)) (pattern : Pattern) →
        IsOn old key_disk → IsUsable pattern →
        Restarts pattern old new → IsReady new (restarted_on pattern key_disk) }
    ensures set { (old new : MemoryDisk) (key_disk : KeyDisk (ℕ → List ℕ)) (calls : Calls) →
        IsOn old key_disk →
        memory_contents new ≡ memory_contents old → memory_calls new ≡ calls →
        IsOn new (record key_disk { calls = calls }) }
    ensures begun { (disk : MemoryDisk) (map : ℕ → List ℕ) (copies : ℕ → ℕ) →
        Shows (memory_contents disk).seen map copies → ((key : ℕ) → copies key < 2) →
        IsSettled (memory_contents disk) →
        IsReady disk
        (record { store = map; copies = copies; unsynced = None; calls = memory_calls disk }) }
{}
