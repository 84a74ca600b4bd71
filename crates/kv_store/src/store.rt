ghost use Rattle.std.specs.Prelude.{◌≡◌, ◌≤◌, ◌<◌, ◌⊎◌, ◌-◌, ℕ, List, [], true, is_ok, Some, None, Err, OnOk, OnErr, IfOk, IfErr, IfSome, IsErr, IsSome};
ghost use Rattle.arrayvec.specs.ArrayVec.{array_vec_len};
ghost use Rattle.disk_model.specs.Contents.{MayLeave, AddsNoImage};
ghost use Rattle.disk_model.specs.Device.{Makes};
ghost use Rattle.kv_store.specs.Image.{StandsFor, AlwaysStandsFor, IsFirstDamaged, chosen_copy, key_count, open_calls, put_calls, put_in, turned, value_limit};
ghost use Rattle.kv_store.specs.Table.{Holds};
ghost use Rattle.kv_store.specs.TableViews.{table_map, table_copy};
ghost use Rattle.outside.specs.Faults.{Rose};

use crate::fault::{Fault, OpenFault, OpenRefused};
use crate::load::load;
use crate::replace::replace;
use crate::table::Table;
use crate::value::{Value, value_of};
use disk_model::{Disk, IMAGE, MemoryDisk};
use outside::{Failed, Pattern};

/// A map of 132 keys on a disk.
#[derive(Drop)]
pub struct Store<D: Disk> {
    disk: D,
    table: Table,

    /// What every put answers until the store is opened: the fault of the put that failed, or the count that
    /// the disk had when the store was closed. None while it is open.
    failed: Option<Fault>,
    ghost holds: { failed ≡ None → D.tells disk ≡ true →
        Holds (D.contents disk) (table_map table) (table_copy table) },
}

impl<D: Disk> Store<D> {
    ghost use Rattle.kv_store.specs.Opening.{was_read};
    ghost use Rattle.kv_store.specs.StoreViews.{store_map, store_disk, store_fault, store_copy, store_table};
    ghost use Rattle.kv_store.specs.declared.fault.Fault.{Fault};
    ghost use Rattle.kv_store.specs.declared.fault.OpenFault.TheVariants.{Fault as DiskFault, Damaged};

    /// The store that the disk holds, found by a sync and one read.
    ///
    /// The disk comes back with a refusal.
    pub fn open(disk: D) -> Result<Store<D>, OpenRefused<D>>
        // The map is that of what reads give, and of whatever a stop may leave from now on.
        ensures map { IfOk result (λ store. D.tells disk ≡ true →
            StandsFor (D.contents disk).seen (store_map store)) }
        ensures durable { IfOk result (λ store. D.tells disk ≡ true →
            AlwaysStandsFor (D.contents (store_disk store)) (store_map store)) }
        ensures copies { IfOk result (λ store. D.tells disk ≡ true → (key : ℕ) → key < key_count →
            store_copy store key ≡ chosen_copy (D.contents disk).seen key) }
        ensures works { IfOk result (λ store. store_fault store ≡ None) }

        // It refuses a disk of which a key is damaged, and one that failed in this call.
        ensures damaged { IfErr result (λ refused. (key : ℕ) → refused.why ≡ Damaged key →
            D.tells disk ≡ true →
            IsFirstDamaged (D.contents disk).seen key) }
        ensures fault { IfErr result (λ refused. (fault : Fault) → refused.why ≡ DiskFault fault →
            (fault.count ≡ D.faults refused.disk) × Rose (D.faults disk) (D.faults refused.disk)) }

        // An opening, also one that is refused, adds no image that a stop may leave.
        ensures images { IfOk result (λ store. D.tells disk ≡ true →
            AddsNoImage (D.contents disk) (D.contents (store_disk store))) }
        ensures refused { IfErr result (λ refused. D.tells disk ≡ true →
            AddsNoImage (D.contents disk) (D.contents refused.disk)) }
        ensures made { IfOk result (λ store. Makes D.does open_calls true disk (store_disk store)) }
        ensures refused_made { IfErr result
            (λ refused. Makes D.does open_calls (was_read refused.why) disk refused.disk) }
        ensures tells { IfOk result (λ store. D.tells (store_disk store) ≡ D.tells disk) }
        ensures refused_tells { IfErr result (λ refused. D.tells refused.disk ≡ D.tells disk) }
        ensures later { IfOk result (λ store. D.faults disk ≤ D.faults (store_disk store)) }
        ensures refused_later { IfErr result (λ refused. D.faults disk ≤ D.faults refused.disk) }
    {
        let mut store = Store::closed(disk);
        match store.reopen() {
            Ok(()) => Ok(store),
            Err(why) => Err(OpenRefused {
                disk: store.into_disk(),
                why,
            }),
        }
    }

    /// A store on a disk that was not read yet. It is closed: its values are empty, and every put answers
    /// a fault until it is opened.
    pub fn closed(disk: D) -> Store<D>
        ensures disk { store_disk result ≡ disk }
        ensures map { (key : ℕ) → store_map result key ≡ [] }
        ensures copies { (key : ℕ) → store_copy result key ≡ 0 }
        ensures closed { IsSome (store_fault result) }
        ensures count { IfSome (store_fault result) (λ fault. fault.count ≡ D.faults disk) }
    {
        let failed = Some(Fault {
            count: disk.faults(),
        });
        Store {
            disk,
            table: Table::empty(),
            failed,
        }
    }

    /// Opens the store that its disk holds where it stands, by a sync and one read, whatever values it had
    /// before. After a refusal it is closed: every put answers a fault until it is opened, and its values are
    /// not those of the disk.
    pub fn reopen(&mut self) -> Result<(), OpenFault>
        // The map is that of what reads give, and of whatever a stop may leave from now on.
        ensures map { OnOk result (D.tells (store_disk self.old) ≡ true →
            StandsFor (D.contents (store_disk self.old)).seen (store_map self.new)) }
        ensures durable { OnOk result (D.tells (store_disk self.old) ≡ true →
            AlwaysStandsFor (D.contents (store_disk self.new)) (store_map self.new)) }
        ensures copies { OnOk result (D.tells (store_disk self.old) ≡ true → (key : ℕ) →
            key < key_count →
            store_copy self.new key ≡ chosen_copy (D.contents (store_disk self.old)).seen key) }
        ensures works { OnOk result (store_fault self.new ≡ None) }

        // It refuses a disk of which a key is damaged, and one that failed in this call.
        ensures damaged { IfErr result (λ why. (key : ℕ) → why ≡ Damaged key →
            D.tells (store_disk self.old) ≡ true →
            IsFirstDamaged (D.contents (store_disk self.old)).seen key) }
        ensures fault { IfErr result (λ why. (fault : Fault) → why ≡ DiskFault fault →
            (fault.count ≡ D.faults (store_disk self.new))
            × Rose (D.faults (store_disk self.old)) (D.faults (store_disk self.new))) }
        ensures closed { IsErr result → IsSome (store_fault self.new) }

        // What it keeps after a refusal is the fault that it answers, and it has the count of the disk.
        ensures kept { IfErr result (λ why. (fault : Fault) → why ≡ DiskFault fault →
            store_fault self.new ≡ Some fault) }
        ensures count { OnErr result (IfSome (store_fault self.new) (λ fault.
            fault.count ≡ D.faults (store_disk self.new))) }

        // It adds no image that a stop may leave, also where it refuses.
        ensures images { D.tells (store_disk self.old) ≡ true →
            AddsNoImage (D.contents (store_disk self.old)) (D.contents (store_disk self.new)) }
        ensures made { OnOk result
            (Makes D.does open_calls true (store_disk self.old) (store_disk self.new)) }
        ensures refused_made { IfErr result (λ why.
            Makes D.does open_calls (was_read why) (store_disk self.old) (store_disk self.new)) }
        ensures tells { D.tells (store_disk self.new) ≡ D.tells (store_disk self.old) }
        ensures later { D.faults (store_disk self.old) ≤ D.faults (store_disk self.new) }
    {
        self.close();
        let mut image = [0; IMAGE];
        if load(&mut self.disk, &mut image).is_err() {
            return Err(OpenFault::Fault(self.shut()));
        }
        match self.table.refill(&image) {
            Ok(()) => {
                self.failed = None;
                Ok(())
            }
            Err(key) => {
                self.shut();
                Err(OpenFault::Damaged(key))
            }
        }
    }

    /// Closes the store: its values stay, and every put answers a fault until it is opened again.
    pub fn close(&mut self)
        ensures disk { store_disk self.new ≡ store_disk self.old }
        ensures table { store_table self.new ≡ store_table self.old }
        ensures closed { IsSome (store_fault self.new) }
        ensures count { IfSome (store_fault self.new) (λ fault.
            fault.count ≡ D.faults (store_disk self.old)) }
    {
        self.shut();
    }

    /// Closes the store, and answers the fault that every put answers from now on.
    fn shut(&mut self) -> Fault
        ensures disk { store_disk self.new ≡ store_disk self.old }
        ensures table { store_table self.new ≡ store_table self.old }
        ensures kept { store_fault self.new ≡ Some result }
        ensures count { result.count ≡ D.faults (store_disk self.old) }
    {
        let fault = Fault {
            count: self.disk.faults(),
        };
        self.failed = Some(fault);
        fault
    }

    /// The fault that every put answers. None while the store is open and no put has failed.
    pub fn fault(&self) -> Option<Fault>
        ensures { result ≡ store_fault self.now }
    {
        self.failed
    }

    /// The value of a key. One that was never put is empty. After a put that failed it is the value
    /// before that put.
    pub fn get(&self, key: u8) -> &Value
        requires { key < key_count }
        ensures value { result.now.items ≡ store_map self.now key }
        ensures short { array_vec_len result.now ≤ value_limit }
    {
        self.table.get(key)
    }

    /// The values of all keys, as `get` gives them.
    pub fn table(&self) -> &Table
        ensures { result.now ≡ store_table self.now }
    {
        &self.table
    }

    /// Replaces the value of a key by four device calls: the copy that is not chosen, a sync, the
    /// selector, a sync. After a fault every put answers it, and the store has to be opened again.
    pub fn put(&mut self, key: u8, value: &Value) -> Result<(), Fault>
        requires key { key < key_count }
        requires short { array_vec_len value.now ≤ value_limit }
        ensures put { OnOk result ((k : ℕ) →
            store_map self.new k ≡ put_in (store_map self.old) key value.now.items k) }
        ensures same { OnErr result (store_map self.new ≡ store_map self.old) }

        // A stop at any moment of the call leaves the old map or the new one.
        ensures stop { store_fault self.old ≡ None → D.tells (store_disk self.old) ≡ true →
            (image : List ℕ) → MayLeave (D.contents (store_disk self.new)) image →
            StandsFor image (store_map self.old)
            ⊎ StandsFor image (put_in (store_map self.old) key value.now.items) }

        // Once it has succeeded, a stop leaves the new map alone.
        ensures durable { OnOk result (D.tells (store_disk self.old) ≡ true →
            AlwaysStandsFor (D.contents (store_disk self.new)) (store_map self.new)) }

        // A fault has a cause in this call, or was there before; it is kept.
        ensures cause { store_fault self.old ≡ None → IfErr result (λ fault.
            (fault.count ≡ D.faults (store_disk self.new))
            × Rose (D.faults (store_disk self.old)) (D.faults (store_disk self.new))) }
        ensures closed { IfSome (store_fault self.old) (λ fault. (result ≡ Err fault)
            × (self.new ≡ self.old)) }
        ensures kept { IfErr result (λ fault. store_fault self.new ≡ Some fault) }
        ensures works { OnOk result (store_fault self.new ≡ None) }

        // These device calls were made, up to the first that failed.
        ensures made { store_fault self.old ≡ None →
            Makes D.does (put_calls key (1 - store_copy self.old key) value.now.items)
            (is_ok result)
            (store_disk self.old) (store_disk self.new) }
        ensures copies { OnOk result ((k : ℕ) →
            store_copy self.new k ≡ turned key (store_copy self.old) k) }
        ensures same_copies { OnErr result (store_copy self.new ≡ store_copy self.old) }
        ensures tells { D.tells (store_disk self.new) ≡ D.tells (store_disk self.old) }
        ensures later { D.faults (store_disk self.old) ≤ D.faults (store_disk self.new) }
    {
        if let Some(fault) = self.failed {
            return Err(fault);
        }
        let copy = 1 - self.table.copy(key);
        match replace(&mut self.disk, key as usize, copy, value) {
            Ok(()) => {
                self.table.set(key, copy, value_of(value));
                Ok(())
            }
            Err(Failed) => {
                let fault = Fault {
                    count: self.disk.faults(),
                };
                self.failed = Some(fault);
                Err(fault)
            }
        }
    }

    /// Lets the store go and returns its disk, unchanged.
    pub fn into_disk(self) -> D
        ensures { result ≡ store_disk self }
    {
        self.disk
    }
}

impl Store<MemoryDisk> {
    ghost use Rattle.kv_store.specs.StoreViews.{store_map, store_disk, store_fault, store_copy, store_table};
    ghost use Rattle.disk_model.specs.Memory.{Restarts, memory_calls, memory_contents};
    ghost use Rattle.disk_model.specs.Pattern.{IsUsable};

    /// Calls `MemoryDisk::restart` of the disk, and closes the store: its values stay, and every put answers
    /// a fault until the store is opened again.
    ///
    /// `IsUsable` owes that a pattern of bytes has one byte at least.
    pub fn restart(&mut self, pattern: Pattern)
        requires { IsUsable pattern }
        ensures disk { Restarts pattern (store_disk self.old) (store_disk self.new) }
        ensures table { store_table self.new ≡ store_table self.old }
        ensures closed { IsSome (store_fault self.new) }
        ensures count { IfSome (store_fault self.new) (λ fault.
            fault.count ≡ (memory_calls (store_disk self.old)).faults) }
    {
        self.close();
        self.disk.restart(pattern);
    }

    /// Calls `MemoryDisk::stop_at` of the disk; nothing else changes.
    pub fn stop_at(&mut self, call: u64)
        ensures calls { memory_calls (store_disk self.new)
            ≡ record (memory_calls (store_disk self.old)) { stop_in = call } }
        ensures contents { memory_contents (store_disk self.new)
            ≡ memory_contents (store_disk self.old) }
        ensures map { store_map self.new ≡ store_map self.old }
        ensures copies { store_copy self.new ≡ store_copy self.old }
        ensures fault { store_fault self.new ≡ store_fault self.old }
    {
        self.disk.stop_at(call);
    }

    /// Calls `MemoryDisk::fail_at` of the disk; nothing else changes.
    pub fn fail_at(&mut self, call: u64)
        ensures calls { memory_calls (store_disk self.new)
            ≡ record (memory_calls (store_disk self.old)) { fail_in = call } }
        ensures contents { memory_contents (store_disk self.new)
            ≡ memory_contents (store_disk self.old) }
        ensures map { store_map self.new ≡ store_map self.old }
        ensures copies { store_copy self.new ≡ store_copy self.old }
        ensures fault { store_fault self.new ≡ store_fault self.old }
    {
        self.disk.fail_at(call);
    }

    /// Whether a device call has stopped the disk.
    pub fn stopped(&self) -> bool
        ensures { result ≡ (memory_calls (store_disk self.now)).stopped }
    {
        self.disk.stopped()
    }
}
