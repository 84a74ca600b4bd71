//! Laws of the definitions, each the contract of a function that does nothing: reading gives the value
//! that has the bytes, and what is written is read again.

ghost use Rattle.std.specs.Prelude.{◌≡◌, ◌<◌, ◌^◌, ℕ, List, Some};
ghost use Rattle.dsdl_codec.specs.Allocation.{IsAllocation, SpellsAllocation, allocation_bytes, allocation_of};
ghost use Rattle.dsdl_codec.specs.declared.allocation.Allocation.{Allocation};
ghost use Rattle.dsdl_codec.specs.AppendAnswer.{SpellsAppendAnswer, append_answer_bytes, append_answer_of};
ghost use Rattle.dsdl_codec.specs.declared.append_answer.AppendAnswer.{AppendAnswer};
ghost use Rattle.dsdl_codec.specs.AppendRequest.{IsAppendRequest, SpellsAppendRequest, append_request_bytes, append_request_of};
ghost use Rattle.dsdl_codec.specs.declared.append_request.AppendRequest.{AppendRequest};
ghost use Rattle.dsdl_codec.specs.Discovery.{IsDiscovery, SpellsDiscovery, discovery_bytes, discovery_of};
ghost use Rattle.dsdl_codec.specs.declared.discovery.Discovery.{Discovery};
ghost use Rattle.dsdl_codec.specs.NodeInfo.{IsNodeInfo, SpellsNodeInfo, node_info_bytes, node_info_of};
ghost use Rattle.dsdl_codec.specs.declared.node_info.NodeInfo.{NodeInfo};
ghost use Rattle.dsdl_codec.specs.NodeStatus.{IsNodeStatus, SpellsNodeStatus, node_status_bytes, node_status_of};
ghost use Rattle.dsdl_codec.specs.declared.node_status.NodeStatus.{NodeStatus};
ghost use Rattle.dsdl_codec.specs.VoteAnswer.{SpellsVoteAnswer, vote_answer_bytes, vote_answer_of};
ghost use Rattle.dsdl_codec.specs.declared.vote_answer.VoteAnswer.{VoteAnswer};
ghost use Rattle.dsdl_codec.specs.VoteRequest.{IsVoteRequest, SpellsVoteRequest, vote_request_bytes, vote_request_of};
ghost use Rattle.dsdl_codec.specs.declared.vote_request.VoteRequest.{VoteRequest};

/// The bytes of an Allocation are read as it.
pub fn allocations_both_ways()
    ensures is_read { (allocation : Allocation) (bytes : List ℕ) →
        SpellsAllocation allocation bytes →
        allocation_of bytes ≡ Some allocation }
    ensures read_again { (allocation : Allocation) → IsAllocation allocation →
        allocation_of (allocation_bytes allocation) ≡ Some allocation }
{}

/// The bytes of an AppendAnswer are read as it.
pub fn append_answers_both_ways()
    ensures is_read { (answer : AppendAnswer) (bytes : List ℕ) → SpellsAppendAnswer answer bytes →
        append_answer_of bytes ≡ Some answer }
    ensures read_again { (answer : AppendAnswer) → answer.term < 2 ^ 32 →
        append_answer_of (append_answer_bytes answer 0) ≡ Some answer }
{}

/// The bytes of an AppendRequest are read as it.
pub fn append_requests_both_ways()
    ensures is_read { (request : AppendRequest) (bytes : List ℕ) →
        SpellsAppendRequest request bytes →
        append_request_of bytes ≡ Some request }
    ensures read_again { (request : AppendRequest) → IsAppendRequest request →
        append_request_of (append_request_bytes request 0) ≡ Some request }
{}

/// The bytes of a Discovery are read as it.
pub fn discoveries_both_ways()
    ensures is_read { (discovery : Discovery) (bytes : List ℕ) → SpellsDiscovery discovery bytes →
        discovery_of bytes ≡ Some discovery }
    ensures read_again { (discovery : Discovery) → IsDiscovery discovery →
        discovery_of (discovery_bytes discovery) ≡ Some discovery }
{}

/// The bytes of a NodeInfo are read as it.
#[tactic(auto, using(crate::proofs::NodeInfos::node_info_of_spelled))]
pub fn node_infos_both_ways()
    ensures is_read { (info : NodeInfo) (bytes : List ℕ) → SpellsNodeInfo info bytes →
        node_info_of bytes ≡ Some info }
    ensures read_again { (info : NodeInfo) → IsNodeInfo info →
        node_info_of (node_info_bytes info) ≡ Some info }
{}

/// The bytes of a NodeStatus are read as it.
pub fn node_statuses_both_ways()
    ensures is_read { (status : NodeStatus) (bytes : List ℕ) → SpellsNodeStatus status bytes →
        node_status_of bytes ≡ Some status }
    ensures read_again { (status : NodeStatus) → IsNodeStatus status →
        node_status_of (node_status_bytes status) ≡ Some status }
{}

/// The bytes of a VoteAnswer are read as it.
pub fn vote_answers_both_ways()
    ensures is_read { (answer : VoteAnswer) (bytes : List ℕ) → SpellsVoteAnswer answer bytes →
        vote_answer_of bytes ≡ Some answer }
    ensures read_again { (answer : VoteAnswer) → answer.term < 2 ^ 32 →
        vote_answer_of (vote_answer_bytes answer 0) ≡ Some answer }
{}

/// The bytes of a VoteRequest are read as it.
pub fn vote_requests_both_ways()
    ensures is_read { (request : VoteRequest) (bytes : List ℕ) → SpellsVoteRequest request bytes →
        vote_request_of bytes ≡ Some request }
    ensures read_again { (request : VoteRequest) → IsVoteRequest request →
        vote_request_of (vote_request_bytes request) ≡ Some request }
{}
