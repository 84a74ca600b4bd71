//! That no list of rows that do no harm leaves the allocators stuck: in the Raft model that it shows, each new
//! pair can still be told; and an allocator that is alone still leads and gives devices their node IDs, in rows. There
//! is no code in it that runs.
//!
//! Of each cluster: a pair whose unique ID and node ID stand in no stored log of a majority can still be committed and
//! told by that majority ([`laws::rows_are_never_stuck`]). "Can" means that events of the Raft model lead there; it is
//! not said that rows do, nor when.
//!
//! Of an allocator that is alone it is said of rows: some lawful ones lead to a leader whose whole log is committed
//! ([`laws::who_is_alone_leads`]), and to a device that holds a node ID ([`laws::who_is_alone_serves_devices`]). These
//! rows choose which frames come, what clocks read, and the random words.
//!
//! What comes in time is said of all rows of a calm bus (`specs/Calm`), and not of chosen ones. The allocator is ready,
//! and one device comes: it leads, has committed and told its whole log, has nothing to send but three frames of
//! NodeStatus at most, knows every node that is online, and owes no Discovery. From then on the two read their clocks,
//! send what waits, and receive each other's frames, each once and in order, and nobody else does anything. Then the
//! device holds its node ID within 2,100 ms ([`laws::who_is_alone_serves_in_time`]). Of the allocator's ticks nothing is
//! asked.
//!
//! The allocator comes to such a rest by itself on a quiet bus (`specs/CalmRecovery`): it is opened, reads its clock,
//! sends what waits, and nothing else happens. After its wait for an election, a period, and a period and a delay for
//! each entry that it had not committed, it has settled ([`laws::who_is_alone_rests_in_time`]); it tells one place in a
//! step, and only where its queue has room. A device that comes once it is ready is served as in calm
//! ([`laws::who_is_alone_recovers`]), and behind it the allocator has settled again
//! ([`laws::who_is_alone_stays_settled`]). Of an allocator that hears other nodes while it starts nothing is said here.
//!
//! None of this is empty: calm and quiet rows can always go on ([`laws::calm_goes_on`], [`laws::quiet_goes_on`]), and
//! chosen rows lead to a ready allocator ([`laws::who_is_alone_comes_to_rest`]).
#![tactic(auto)]

pub mod laws;
