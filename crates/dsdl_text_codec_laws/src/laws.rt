//! Each law is the contract of a function that does nothing: under the text of a type a payload has the
//! numbers of the value that the type's codec reads, and no reading exactly where the codec reads none.

ghost use Rattle.std.specs.Prelude.{◌≡◌, codes};
ghost use Rattle.dsdl_codec.specs.Allocation.{allocation_of};
ghost use Rattle.dsdl_codec.specs.AppendAnswer.{append_answer_of};
ghost use Rattle.dsdl_codec.specs.AppendRequest.{append_request_of};
ghost use Rattle.dsdl_codec.specs.Discovery.{discovery_of};
ghost use Rattle.dsdl_codec.specs.NodeInfo.{node_info_of};
ghost use Rattle.dsdl_codec.specs.NodeStatus.{node_status_of};
ghost use Rattle.dsdl_codec.specs.Numbers as numbers;
ghost use Rattle.dsdl_codec.specs.VoteAnswer.{vote_answer_of};
ghost use Rattle.dsdl_codec.specs.VoteRequest.{vote_request_of};
ghost use Rattle.dsdl_text.specs.Text.{Text};
ghost use Rattle.dsdl_text_codec_laws.specs.Profile.{IsText, ReadAs, TextGivesNumbers, lines_of, profile};
ghost use Rattle.dsdl_text_codec_laws.specs.Published.{profile_lines};

use crate::text::PROFILE;

/// The lines of the profile are these, each with its names and numbers; none has a fault, and these are its types.
pub fn the_profile_is_a_text()
    ensures lines { ReadAs profile_lines (lines_of PROFILE.now) }
    ensures text { IsText PROFILE.now profile }
    ensures only { (text : Text) → IsText PROFILE.now text → text ≡ profile }
{}

/// An Allocation.
pub fn allocations()
    ensures { TextGivesNumbers PROFILE.now (codes "Allocation") 1 numbers.allocation_numbers allocation_of }
{}

/// A Discovery.
pub fn discoveries()
    ensures { TextGivesNumbers PROFILE.now (codes "Discovery") 1 numbers.discovery_numbers discovery_of }
{}

/// A request of AppendEntries.
pub fn append_requests()
    ensures { TextGivesNumbers PROFILE.now (codes "AppendEntries") 1 numbers.append_request_numbers append_request_of }
{}

/// A response of AppendEntries.
pub fn append_answers()
    ensures { TextGivesNumbers PROFILE.now (codes "AppendEntries") 2 numbers.append_answer_numbers append_answer_of }
{}

/// A request of RequestVote.
pub fn vote_requests()
    ensures { TextGivesNumbers PROFILE.now (codes "RequestVote") 1 numbers.vote_request_numbers vote_request_of }
{}

/// A response of RequestVote.
pub fn vote_answers()
    ensures { TextGivesNumbers PROFILE.now (codes "RequestVote") 2 numbers.vote_answer_numbers vote_answer_of }
{}

/// A NodeStatus.
pub fn node_statuses()
    ensures { TextGivesNumbers PROFILE.now (codes "NodeStatus") 1 numbers.node_status_numbers node_status_of }
{}

/// A response of GetNodeInfo.
pub fn node_infos()
    ensures { TextGivesNumbers PROFILE.now (codes "GetNodeInfo") 2 numbers.node_info_numbers node_info_of }
{}
