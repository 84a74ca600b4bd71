use crate::told::Told;
use arrayvec::ArrayVec;
use can_frame::sizes::{LONGEST_PAYLOAD, MOST_MEMBERS};
use can_logs::Form;

/// What the words ask for.
#[derive(Debug, Drop, PartialEq, Eq)]
pub enum Plan {
    /// To run a cluster of these members, 1 to 5 of 1 to 125 each, over a schedule of at most so many
    /// rows, 1 to 1,000,000.
    Replay {
        rows: u64,
        ids: ArrayVec<u8, MOST_MEMBERS>,
    },

    /// To run these members of a cluster, which are told so much of it, for so many turns, at most
    /// 1,000,000,000. They are 1 to 5 of 1 to 125 each: at most as many as the cluster has, where they are told
    /// its size, and members of it, where they are told its members. The port of a member is its node ID above
    /// `base`, 1,024 to 65,410.
    Node {
        told: Told,
        base: u16,
        turns: u64,
        ids: ArrayVec<u8, MOST_MEMBERS>,
    },

    /// To run a cluster of the members 1 to `size`, 1 to 5, for so many rounds, at most 20,000, under
    /// stops, losses and repeats that are drawn from the seed. Each member is told who the members are, or their
    /// number alone.
    Soak {
        told: bool,
        seed: u64,
        rounds: u64,
        size: u8,
    },

    /// To make new stores for these nodes, 1 to 5 of 1 to 125 each, above this term, at most 500,000. It is 0 where
    /// the words have none.
    New {
        term: u32,
        ids: ArrayVec<u8, MOST_MEMBERS>,
    },

    /// To make the store of the lost one of these nodes, 2 to 5 of 1 to 125 each, from the leader's.
    Replace {
        lost: u8,
        ids: ArrayVec<u8, MOST_MEMBERS>,
    },

    /// To compare the stores of these nodes, 1 to 5 of 1 to 125 each.
    Audit {
        ids: ArrayVec<u8, MOST_MEMBERS>,
    },

    /// To list the transfers of a log of at most so many lines, 1 to 1,000,000: those that everyone receives and those
    /// to these nodes, up to 5 of 1 to 125.
    Watch {
        form: Form,
        lines: u64,
        ids: ArrayVec<u8, MOST_MEMBERS>,
    },

    /// To write a log of at most so many lines, 1 to 1,000,000, in another form or the same.
    Convert {
        from: Form,
        to: Form,
        lines: u64,
    },

    /// To take a payload apart under the part with this number, 1 or 2, of the type with this name, by a text
    /// that describes it.
    Decode {
        name: ArrayVec<u8, 40>,
        part: u8,
        payload: ArrayVec<u8, LONGEST_PAYLOAD>,
    },
}
