//! The Raft model of a cluster, and its laws. There is no code in it that runs.
//!
//! The members take moves and exchange messages that may be lost, repeated or late; a member may stop
//! anywhere, also between two of its puts. A member may take an answer to an earlier call for the answer to the
//! pending one where that answer refuses, or has a term below the member's own. The moves are those of the
//! Raft paper (Ongaro and Ousterhout, "In Search of an Understandable Consensus Algorithm", figure 2), with one
//! entry a request, the blank that a leader proposes, the limits and the stored commit index of our profile.
//!
//! What a reader must believe, in this order: `specs/Log`, `Messages`, `Server` (a plain server and its puts),
//! `History` and `Ledger` (what the model alone remembers), `Moves` (the table, row by row, over
//! `Moves/Elections`, `Appending` and `Leading`), `Stops` (a step and where it may stop), `Runs`, and
//! `Safety`, which is the claim. `Invariants` has the nine facts on which it rests. For who writes a server
//! there are `Decisions` (as functions), `Fit` (what each move keeps), `Duty` (what a finished step owes),
//! `Members` (counting over its own list) and `Handlers` (a step without the model's memory, and where it is
//! cut).
//!
//! [`laws::law_every_run`] is the theorem: after every lawful list of events, and after any number of the
//! puts of a step, all nine hold and the run is safe. Who shows that the steps of a server are lawful events
//! has all of it.
#![tactic(auto)]

pub mod laws;
