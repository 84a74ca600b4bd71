//! Laws of the definitions, each the contract of a function that does nothing.

ghost use Rattle.std.specs.Prelude.{◌≡◌, ℕ, ◌+◌, ◌<◌, ◌≤◌, ◌^◌, ◌++◌, [], Bool, List, true, false, Option, None, drop, length, slice_index, take};
ghost use Rattle.disk_model.specs.declared.calls.Calls.{Calls};
ghost use Rattle.disk_model.specs.declared.memory.MemoryDisk.{MemoryDisk};
ghost use Rattle.disk_model.specs.Calls.{acts};
ghost use Rattle.disk_model.specs.Contents.{IsSettled};
ghost use Rattle.disk_model.specs.Device.{Makes};
ghost use Rattle.disk_model.specs.Memory.{DoesInMemory, Restarts, memory_calls, memory_contents};
ghost use Rattle.disk_model.specs.Pattern.{IsUsable};
ghost use Rattle.kv_store.specs.Image.{chosen_copy, key_count, open_calls};
ghost use Rattle.kv_store.specs.KeyDisk.{KeyDisk, is_opened, opened_on, restarted_on};
ghost use Rattle.outside.specs.declared.pattern.Pattern.{Pattern};
ghost use Rattle.outside.specs.declared.pattern.Pattern.TheVariants.{New};
ghost use Rattle.raft_log.specs.DeviceCalls.{copies_after, device_calls};
ghost use Rattle.raft_log.specs.Opening.{FailsToOpen, IsReadAs, OpensTo, opening_calls};
ghost use Rattle.raft_log.specs.KeyDisk.{IsOn, IsKeyDisk, IsReady, are_put, done_on, found_by, is_open_on, opening_done, opening_on, puts_on};
ghost use Rattle.kv_store.specs.declared.fault.Fault.{Fault};
ghost use Rattle.raft_log.specs.Allowed.{AreAllowed};
ghost use Rattle.raft_log.specs.Calls.{FaultIsSticky, WritesInOrder};
ghost use Rattle.raft_log.specs.declared.durable.Durable.{Durable};
ghost use Rattle.raft_log.specs.declared.stored.Stored.{Stored as Reading};
ghost use Rattle.raft_log.specs.Reading.{IsReadFrom};
ghost use Rattle.raft_log.specs.DurableViews.{durable_copies, durable_disk, durable_fault, durable_state};
ghost use Rattle.raft_log.specs.MayFollow.{IsKept, IsStorable};
ghost use Rattle.raft_log.specs.Rules.{AlwaysStandsForState, IsDamagedAt, StandsForState};
ghost use Rattle.raft_log.specs.Stored.{AfterSome, Put, Stored, after_puts, opening_puts};

use disk_model::{Disk, MemoryDisk};

/// An image stands for one state, or has one first damaged key.
pub fn an_image_stands_for_one_state()
    ensures state { (image : List ℕ) (a b : Stored) → StandsForState image a →
        StandsForState image b → a ≡ b }
    ensures damaged { (image : List ℕ) (a b : ℕ) → IsDamagedAt image a → IsDamagedAt image b →
        a ≡ b }
    ensures either { (image : List ℕ) (state : Stored) (key : ℕ) → StandsForState image state →
        IsDamagedAt image key → ⊥ }
{}

/// Of an image one thing is read.
pub fn an_image_is_read_one_way()
    ensures same { (image : List ℕ) (a b : Reading) → IsReadFrom image a → IsReadFrom image b →
        a ≡ b }
    ensures either { (image : List ℕ) (read : Reading) (key : ℕ) → IsReadFrom image read →
        IsDamagedAt image key → ⊥ }
{}

/// What an image stands for is storable: its whole log is injective.
pub fn a_stored_state_is_storable()
    ensures { (image : List ℕ) (state : Stored) → StandsForState image state → IsStorable state }
{}

/// An image of zeros stands for the state that a run begins with.
pub fn zeros_are_the_first_state()
    ensures { (image : List ℕ) → ((i : ℕ) → slice_index image i ≡ 0) →
        StandsForState image (record {
          term = 0;
          vote = 0;
          log = [];
          commit = 0;
          origins = [];
          version = 0;
        }) }
{}

/// Whatever a stop leaves of the disk stands for the state, while it is open and no put has failed.
pub fn a_state_is_durable<D: Disk>()
    ensures { (durable : Durable D D.Disk) → durable_fault durable ≡ None →
        D.tells (durable_disk durable) ≡ true →
        AlwaysStandsForState (D.contents (durable_disk durable)) (durable_state durable) }
{
    kv_store::laws::a_store_is_durable::<D>();
}

/// What a member has stored is storable, and its term has 32 bits.
pub fn a_durable_state_is_kept<D: Disk>()
    ensures { (durable : Durable D D.Disk) → IsKept (durable_state durable) }
{}

/// Allowed puts leave such a state.
pub fn allowed_puts_leave_a_kept_state()
    ensures { (puts : List Put) (state : Stored) → AreAllowed puts state None → IsKept state →
        IsKept (after_puts puts state) }
{}

/// An opening's puts may all be made. After some of the first of them all that is read of the state is as it
/// was, so an image that a stop leaves of an opening stands for a state that is read as the one it found; and
/// an opening makes the others. With version 2 there are none, and after all of them it is 2.
pub fn an_opening_goes_on()
    ensures allowed { (image : List ℕ) (state : Stored) → StandsForState image state →
        state.term < 2 ^ 32 →
        AreAllowed (opening_puts state) state None }
    ensures same { (state : Stored) (count : ℕ) →
        IsReadAs (after_puts (take count (opening_puts state)) state) state }
    ensures others { (state : Stored) (count : ℕ) →
        opening_puts (after_puts (take count (opening_puts state)) state) ≡
        drop count (opening_puts state) }
    ensures left { (image : List ℕ) (state : Stored) →
        AfterSome (StandsForState image) (opening_puts state) state →
        (found : Stored) × StandsForState image found × IsReadAs found state }
    ensures nothing { (state : Stored) → state.version ≡ 2 → opening_puts state ≡ [] }
    ensures version { (state : Stored) → (after_puts (opening_puts state) state).version ≡ 2 }
{}

/// Puts that were made by two calls, one after the other, are those of both. Where the first call failed
/// there is no second, and a call without puts changes nothing.
pub fn puts_in_turn<D: Disk>()
    ensures nothing { (durable : Durable D D.Disk) → WritesInOrder [] durable durable true }
    ensures still { (durable : Durable D D.Disk) → durable_fault durable ≡ None →
        FaultIsSticky durable durable None }
    ensures joined { (xs ys : List Put) (old mid new : Durable D D.Disk) (ok : Bool) →
        WritesInOrder xs old mid true → (durable_fault old ≡ None → FaultIsSticky old mid None) →
        WritesInOrder ys mid new ok → WritesInOrder (xs ++ ys) old new ok }
    ensures kept { (old mid new : Durable D D.Disk) (failed : Option Fault) →
        FaultIsSticky old mid None → (durable_fault mid ≡ None → FaultIsSticky mid new failed) →
        FaultIsSticky old new failed }
    ensures cut_off { (xs ys : List Put) (old new : Durable D D.Disk) →
        WritesInOrder xs old new false → WritesInOrder (xs ++ ys) old new false }
    ensures allowed { (xs ys : List Put) (state : Stored) →
        AreAllowed xs state None → AreAllowed ys (after_puts xs state) None →
        AreAllowed (xs ++ ys) state None }
{
    a_state_is_durable::<D>();
}

/// The disk by keys with stored states: where a disk in memory is the one that a shelf tells of, it still
/// is after puts, an opening, a restart and a change of its settings, and these device calls succeed
/// exactly where the shelf says. An opening finds the state of the shelf. A restart after puts, those of an
/// opening among them, finds those done that were, and the one that failed where its selector was written
/// and is kept.
pub fn the_disk_by_states()
    ensures found { (disk : MemoryDisk) (key_disk : KeyDisk Stored) → IsOn disk key_disk →
        StandsForState (memory_contents disk).seen key_disk.store ×
        ((key : ℕ) → key < key_count →
        chosen_copy (memory_contents disk).seen key ≡ key_disk.copies key) }
    ensures puts { (old new : MemoryDisk) (key_disk : KeyDisk Stored) (copies : ℕ → ℕ)
        (puts : List Put) (ok : Bool) → IsReady old key_disk →
        ((key : ℕ) → key < key_count → copies key ≡ key_disk.copies key) →
        AreAllowed puts key_disk.store None →
        Makes DoesInMemory (device_calls puts key_disk.store copies) ok old new →
        IsOn new (puts_on puts key_disk) × (ok ≡ are_put puts key_disk.calls) ×
        (ok ≡ true → IsReady new (puts_on puts key_disk)) }
    ensures done { (key_disk : KeyDisk Stored) (puts : List Put) → are_put puts key_disk.calls ≡ true →
        ((puts_on puts key_disk).store ≡ after_puts puts key_disk.store) ×
        ((puts_on puts key_disk).copies ≡ copies_after puts key_disk.store key_disk.copies) }
    ensures counted { (puts : List Put) (calls : Calls) → done_on puts calls ≤ length puts ×
        (are_put puts calls ≡ true → done_on puts calls ≡ length puts) ×
        (are_put puts calls ≡ false → done_on puts calls < length puts) }
    ensures found_again { (puts : List Put) (key_disk : KeyDisk Stored) (pattern : Pattern) →
        key_disk.unsynced ≡ None → let after = puts_on puts key_disk in
        let count = done_on puts key_disk.calls + found_by pattern after in
        (restarted_on pattern after).store ≡ after_puts (take count puts) key_disk.store }
    ensures opened { (old new : MemoryDisk) (key_disk : KeyDisk Stored) (copies : ℕ → ℕ) (ok : Bool) →
        IsOn old key_disk → ((key : ℕ) → key < key_count → copies key ≡ key_disk.copies key) →
        key_disk.store.term < 2 ^ 32 →
        Makes DoesInMemory (opening_calls key_disk.store copies) ok old new →
        IsOn new (opening_on key_disk) × (ok ≡ is_open_on key_disk) ×
        (ok ≡ true → IsReady new (opening_on key_disk)) }
    ensures read { (old new : MemoryDisk) (key_disk : KeyDisk Stored) (ok : Bool) → IsOn old key_disk →
        Makes DoesInMemory open_calls ok old new → let after = opened_on key_disk in
        IsOn new after × (ok ≡ is_opened key_disk.calls) × (ok ≡ true → IsReady new after) }
    ensures restarted { (old new : MemoryDisk) (key_disk : KeyDisk Stored) (pattern : Pattern) →
        IsOn old key_disk → IsUsable pattern →
        Restarts pattern old new → IsReady new (restarted_on pattern key_disk) }
    ensures set { (old new : MemoryDisk) (key_disk : KeyDisk Stored) (calls : Calls) → IsOn old key_disk →
        memory_contents new ≡ memory_contents old → memory_calls new ≡ calls →
        IsOn new (record key_disk { calls = calls }) }
    ensures begun { (disk : MemoryDisk) (state : Stored) →
        StandsForState (memory_contents disk).seen state → IsSettled (memory_contents disk) →
        IsReady disk (record {
          store = state;
          unsynced = None;
          copies = λ key. chosen_copy (memory_contents disk).seen key;
          calls = memory_calls disk;
        }) }
{
    kv_store::laws::the_disk_by_keys();
}

/// A running member whose disk in memory a shelf tells of: its opening does to the shelf what an opening
/// does, its calls what their puts do, and after success its state and its copies are those of the shelf
/// again.
pub fn a_member_on_the_disk_by_states()
    ensures opened { (disk : MemoryDisk) (new : Durable MemoryDisk ⟦<MemoryDisk as Disk>⟧)
        (key_disk : KeyDisk Stored) → IsOn disk key_disk → OpensTo disk new → durable_fault new ≡ None →
        (is_open_on key_disk ≡ true) × IsKeyDisk new (opening_on key_disk) }
    ensures not_opened { (disk new : MemoryDisk) (key_disk : KeyDisk Stored) → IsOn disk key_disk →
        FailsToOpen ⟦<MemoryDisk as Disk>⟧ disk new →
        (is_open_on key_disk ≡ false) × IsOn new (opening_on key_disk) }
    ensures puts { (puts : List Put) (old new : Durable MemoryDisk ⟦<MemoryDisk as Disk>⟧)
        (key_disk : KeyDisk Stored) (ok : Bool) → IsKeyDisk old key_disk → WritesInOrder puts old new ok →
        (ok ≡ true → durable_fault new ≡ None) → let after = puts_on puts key_disk in
        IsOn (durable_disk new) after × (ok ≡ are_put puts key_disk.calls) ×
        (ok ≡ true → IsKeyDisk new after) }
    ensures set { (old new : Durable MemoryDisk ⟦<MemoryDisk as Disk>⟧) (key_disk : KeyDisk Stored)
        (calls : Calls) → IsKeyDisk old key_disk → durable_state new ≡ durable_state old →
        durable_copies new ≡ durable_copies old → durable_fault new ≡ durable_fault old →
        memory_contents (durable_disk new) ≡ memory_contents (durable_disk old) →
        memory_calls (durable_disk new) ≡ calls → IsKeyDisk new (record key_disk { calls = calls }) }
{
    an_image_stands_for_one_state();
    the_disk_by_states();
}

/// An opening on the disk by states. Where all its device calls act, its puts are done. A restart after it,
/// also where it was cut off, finds those done that were, and at most one more: the one that failed, where
/// its selector was written and is kept. The next opening makes the others. What reads give without a
/// restart is what a restart finds that keeps all that was written.
pub fn an_opening_on_the_disk_by_states()
    ensures done { (key_disk : KeyDisk Stored) → let puts = opening_puts key_disk.store in
        is_open_on key_disk ≡ true →
        ((opening_on key_disk).store ≡ after_puts puts key_disk.store) ×
        ((opening_on key_disk).copies ≡ copies_after puts key_disk.store key_disk.copies) }
    ensures counted { (key_disk : KeyDisk Stored) → let count = length (opening_puts key_disk.store) in
        opening_done key_disk ≤ count × (is_open_on key_disk ≡ true → opening_done key_disk ≡ count) ×
        (is_opened key_disk.calls ≡ true → is_open_on key_disk ≡ false → opening_done key_disk < count) }
    ensures found_again { (key_disk : KeyDisk Stored) (pattern : Pattern) →
        (acts key_disk.calls ≡ false → key_disk.unsynced ≡ None) → let after = opening_on key_disk in
        let count = opening_done key_disk + found_by pattern after in
        let puts = opening_puts key_disk.store in
        ((restarted_on pattern after).store ≡ after_puts (take count puts) key_disk.store) ×
        (opening_puts (restarted_on pattern after).store ≡ drop count puts) }
    ensures at_most_one { (key_disk : KeyDisk Stored) (pattern : Pattern) → found_by pattern key_disk ≤ 1 }
    ensures as_it_is { (key_disk : KeyDisk Stored) → (restarted_on New key_disk).store ≡ key_disk.store }
{}
