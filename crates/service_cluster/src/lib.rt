//! A cluster of several members on a calm bus comes back in time, and serves a device. There is no code in it that
//! runs.
//!
//! Whatever roles, terms and logs the members have when the calm begins, in which most of them run and are fit to
//! serve: one of them leads and no election comes any more ([`service_elections::laws::leaders_come`]), it has committed and
//! told its whole log in time ([`laws::clusters_come_back`], `specs/ComeBack`), and a device that asks holds a node ID
//! in time ([`laws::devices_are_served`]).
//!
//! It is sooner where the members of a group, which has a quorum of the cluster, have just been opened, and were told
//! who the members are. Where one of them wins an election ([`service_candidate::laws::elections_end`] and
//! [`service_candidate::laws::who_is_ahead_wins`] say when), it begins anew ([`laws::winners_begin_anew`]), no other
//! election comes, and it settles in time ([`laws::started_clusters_settle`], `specs/Restart`). So does a cluster
//! whose members are in step when they start ([`laws::clusters_in_step_settle`]).
//!
//! The premises of these laws can be met: those on clusters by two members that are started
//! ([`laws::clusters_may_start`], `specs/RestartExample`), and those on a device by the same beside a device
//! ([`laws::devices_may_be_served_from_power_on`], `specs/ServiceExample`). The rows are computed.
//!
//! Why it holds: behind the row in which the winner comes to lead all others follow (`proofs/Following`), and hear it
//! before their waits are over (`proofs/Elected`); each member was fit to serve from its opening on
//! (`proofs/Started`); and the logs are as they were stored (`proofs/Settling`). Where a leader is known, it settles
//! once more after a device's unique ID has been recorded (`proofs/Serves`), and then the device is heard out, and
//! told (`proofs/ServesHeard`).
//!
//! What a reader must believe: the files of `specs/`, and what they cite of `service_candidate`, `service_elections`,
//! `service_device` and below.
#![tactic(auto)]

pub mod laws;
