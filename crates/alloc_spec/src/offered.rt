ghost use Rattle.std.specs.Prelude.{◌≡◌, ◌≤◌, ◌<◌, ◌+◌, ◌++◌, ◌∷◌, []};
ghost use Rattle.arrayvec.specs.ArrayVec.{array_vec_len};
ghost use Rattle.can_frame.specs.declared.step.What.TheVariants.{Alloc};
ghost use Rattle.alloc_spec.specs.Exchange.{allocation_payload};
ghost use Rattle.alloc_spec.specs.StepState.{pairs_if_fitted};

use arrayvec::ArrayVec;
use can_frame::{NodeId, Sent, Uid, What};

/// What a step has offered so far, with the number of the step.
#[derive(Drop)]
pub struct Offered {
    pub step: u64,
    pub sent: ArrayVec<Sent, 12>,
    pub answers: ArrayVec<(Uid, NodeId), 2>,
}

impl Offered {
    pub fn new(step: u64) -> Offered
        ensures step { result.step ≡ step }
        ensures sent { result.sent.items ≡ [] }
        ensures answers { result.answers.items ≡ [] }
    {
        Offered {
            step,
            sent: ArrayVec::new(),
            answers: ArrayVec::new(),
        }
    }

    /// A transfer was offered to the queue.
    pub fn list(&mut self, what: What, to: u8, fitted: bool)
        requires { array_vec_len self.old.sent < 12 }
        ensures sent { self.new.sent.items ≡ self.old.sent.items ++ record
            { what = what; to = to; fitted = fitted } ∷ [] }
        ensures len { array_vec_len self.new.sent ≡ array_vec_len self.old.sent + 1 }
        ensures step { self.new.step ≡ self.old.step }
        ensures answers { self.new.answers ≡ self.old.answers }
    {
        self.sent.push(Sent { what, to, fitted });
    }

    /// The Allocation of a node ID to a unique ID was offered to the queue: its pair is given to the device
    /// where it fitted. Node ID 0 is given to nobody.
    pub fn list_allocation(&mut self, uid: &Uid, node: u8, fitted: bool)
        requires node { node < 128 }
        requires room { array_vec_len self.old.sent < 12 }
        requires pairs { array_vec_len self.old.answers < 2 }
        ensures sent { self.new.sent.items ≡ self.old.sent.items ++ record
            { what = Alloc; to = 0; fitted = fitted } ∷ [] }
        ensures answers { self.new.answers.items ≡ self.old.answers.items ++
            pairs_if_fitted fitted Alloc (allocation_payload node uid.now) }
        ensures len { array_vec_len self.new.sent ≡ array_vec_len self.old.sent + 1 }
        ensures most { array_vec_len self.new.answers ≤ array_vec_len self.old.answers + 1 }
        ensures step { self.new.step ≡ self.old.step }
    {
        self.list(What::Alloc, 0, fitted);
        if !fitted {
            return;
        }
        if let Some(node) = NodeId::new(node) {
            self.answers.push((*uid, node));
        }
    }
}
