//! A device on a calm bus of several members is served in time by a leader that has settled: one that the log knows
//! is told its node ID again, and a new one is recorded, committed and told. There is no code in it that runs.
//!
//! The calm is that of `service_calm`, and in it a member leads and the others follow, as `service_leader` says. A
//! leader that has committed and told its whole log stays so, until a request makes a new unique ID whole
//! ([`laws::who_has_settled_stays_settled`], `specs/Settled`); and its log stays, whether committed or not, until a
//! request makes it grow ([`laws::a_leaders_log_stays`], `specs/Recorded`).
//!
//! So a device that has just come is heard out ([`laws::devices_are_heard_out_in_calm`], `specs/Dialog`); and so is
//! one that asks already, from the middle of a calm on, whatever it has asked by then, unless it is told meanwhile or
//! the log grows ([`laws::asking_devices_are_heard_out_in_calm`], `specs/Asking`). One that has just come and that
//! the log knows holds its node ID then ([`laws::known_devices_are_told_in_calm`]). A new one is recorded with a node
//! ID that was left ([`laws::new_devices_are_recorded_in_calm`], `specs/Served`); the pair is committed
//! ([`laws::new_pairs_are_committed_in_calm`]), since the leader loses nothing meanwhile
//! ([`laws::leaders_lose_nothing_in_calm`]), and offered in the row in which it is committed
//! ([`laws::new_pairs_are_offered_in_calm`]). So the device holds this node ID
//! ([`laws::new_devices_are_served_in_calm`]); and the leader has settled with the pair, so that the next device may
//! come ([`laws::new_pairs_are_told_in_calm`], `specs/ServedTold`). The premises of the last two can be met together
//! ([`laws::devices_may_be_served`], `specs/ServedExample`).
//!
//! From the middle of a calm on, who is heard out by a leader that has settled is served too, whatever of the leader's
//! log its followers have ([`laws::heard_devices_are_served_in_calm`], `specs/AskingServed`).
//!
//! A leader that has just come to lead settles first: a quorum gets its log, its blank is committed, and each place
//! that was not told is told ([`laws::leaders_settle_in_calm`], `specs/Settles`). So does one that leads already,
//! unless a request of a device makes its log grow meanwhile: whoever leads has added its blank as soon as it might, or
//! waits with it ([`laws::who_leads_has_come_to_lead`]). What it needs besides, each member of a group without devices
//! keeps from its opening on, and beside devices all but that it has accepted no request
//! ([`laws::opened_members_are_tidy`], [`laws::members_stay_tidy`], `specs/Tidy`); and in a calm in which no Discovery
//! is due none comes ([`laws::discoveries_miss_nobody`]). The requests that members accept of the only device tell its
//! unique ID, whoever leads ([`laws::requests_are_the_devices`], `specs/Requests`).
//!
//! Who follows falls silent: the stage timeout, a period and a delay behind the moment from which another member leads
//! on, it has nothing to tell devices ([`laws::who_follows_falls_silent`], `specs/AskingKnown`).
//!
//! Why it holds: each kind of delivery leaves alone what the leader judges requests by (`proofs/SettledFrames`,
//! `proofs/SettledSteps`); the device and the leader take turns, and `proofs/DialogPhases` says whose turn it is and
//! what is under way; each answer to a device that asks already brings it on, until it asks anew and nothing else is
//! under way (`proofs/AskingTimes`); nobody else sends Allocations (`proofs/FollowersSay`); and a leader commits and
//! tells in one step (`proofs/ServedTells`). A leader that waits with its blank adds it in the step in which a quorum
//! is known to have its log (`proofs/SettlesOffice`).
//!
//! What a reader must believe: the files of `specs/`, and what they cite of `service_leader`, `service_calm` and below.
#![tactic(auto)]

pub mod laws;
