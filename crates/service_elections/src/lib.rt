//! Elections on a calm bus of several members end in time, whatever roles, terms and logs the members have when the
//! calm begins. There is no code in it that runs.
//!
//! The calm is that of `service_calm` (`specs/Running`): most of the cluster's members run and know all of it, the
//! rows do no harm, queues and receivers have room, and no two members stand for election within eight delays of each
//! other. In it one of them leads in time, and no election comes from then on ([`laws::leaders_come`],
//! `specs/Rounds`). Members that have just been opened, and were told who the members are, are a case of it
//! ([`laws::opened_members_go_on_calmly`], `specs/Opened`).
//!
//! Why it holds. Whatever changes a member was sent shortly before (`specs/Sent`): who votes was asked
//! ([`laws::who_votes_was_asked`]), who hears a leader was called ([`laws::who_hears_was_called`]), and who wins has
//! asked ([`laws::who_wins_has_asked`]). Who asks stands in the same row, once a call timeout and a period are over
//! ([`laws::who_asks_stands`]); and in silence nothing changes ([`laws::nothing_changes_in_silence`]).
//!
//! Who stands for election below the highest term is in it eight delays later, since all that it asked or called
//! answer with their terms ([`laws::standers_learn`]). So after one such standing of each member the next one is at
//! the top: it brings all members into its own term ([`laws::standers_are_heard`]), and in that term somebody leads
//! within two of the longest waits ([`laws::who_stands_at_the_top`]). For a member whose log is furthest votes for
//! none that is behind it, so it does not wait anew, and wins when it stands ([`laws::who_is_furthest_wins`]).
//!
//! And somebody stands in time, unless somebody leads ([`laws::somebody_stands_or_leads`]): who leads below the
//! highest term steps down ([`laws::leaders_below_step_down`]), who leads in it is heard by all
//! ([`laws::who_leads_at_the_top`]), and where nobody leads there is silence, in which each wait goes on until it is
//! over. Who leads then goes on calling each other member ([`laws::leaders_go_on_calling`], `specs/Calling`), and its
//! calls come back, whatever it led before ([`laws::calls_return_in_rounds`]).
//!
//! What a reader must believe: the files of `specs/`, and what they cite of `service_candidate` and below.
#![tactic(auto)]

pub mod laws;
