//! The store of 132 keys, by its device calls.

ghost use Rattle.std.specs.Prelude.{◌<◌, ⊤, [], false};
ghost use Rattle.std.proofs.Common.{refl};
ghost use Rattle.std.proofs.lemmas.Bool.{false≢true};

use crate::same::{is, same};
use arrayvec::ArrayVec;
use disk_model::Disk;
use kv_store::{Store, value_of};
use outside::Failed;

/// A disk of zeros that takes down the sizes of its device calls, 0 for a sync.
#[derive(Drop)]
struct Recorder {
    sizes: ArrayVec<usize, 8>,
}

impl Recorder {
    fn note(&mut self, size: usize) {
        if !self.sizes.is_full() {
            self.sizes.push(size);
        }
    }
}

impl Disk for Recorder {
    ghost tells = { λ disk. false };

    ghost contents = { λ disk. record { seen = []; stable = []; written = λ i. false } };

    ghost does = { λ old call ok new. ⊤ };

    ghost faults = { λ disk. 0 };

    ghost counts = { λ old new call done. refl };

    ghost sound = { λ disk told. absurd (false≢true told) };

    fn read(&mut self, _at: usize, buf: &mut [u8]) -> Result<(), Failed> {
        self.note(buf.len());
        buf.fill(0);
        Ok(())
    }

    fn write(&mut self, _at: usize, bytes: &[u8]) -> Result<(), Failed> {
        self.note(bytes.len());
        Ok(())
    }

    fn sync(&mut self) -> Result<(), Failed> {
        self.note(0);
        Ok(())
    }

    fn faults(&self) -> u64 {
        0
    }
}

#[test]
fn opening_and_a_put_make_these_device_calls(rt: HostRuntime) {
    let recorder = Recorder {
        sizes: ArrayVec::new(),
    };
    let Ok(mut store) = Store::open(recorder) else {
        assert!(rt; false);
        return;
    };
    assert!(rt; store.put(131, &value_of(&[1, 2])).is_ok());
    assert!(rt; is(&store.get(131), &[1, 2]));
    let sizes = store.into_disk().sizes;
    assert!(rt; same(&sizes.as_slice(), &[0, 8844, 33, 0, 1, 0].as_slice()));
}
