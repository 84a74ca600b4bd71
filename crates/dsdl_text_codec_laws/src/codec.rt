ghost use Rattle.std.specs.Prelude.{◌≡◌};
ghost use Rattle.std.specs.Option.{option_map};

use dsdl_codec::{
    Allocation, AppendAnswer, AppendRequest, Discovery, NodeInfo, NodeStatus, Numbers, VoteAnswer,
    VoteRequest,
};

/// The codec of a part of a type.
#[derive(Clone, Copy, Debug, PartialEq, Eq)]
pub enum Codec {
    Allocation,
    Discovery,
    AppendRequest,
    AppendAnswer,
    VoteRequest,
    VoteAnswer,
    NodeStatus,
    NodeInfo,
}

impl Codec {
    ghost use Rattle.dsdl_text_codec_laws.specs.Codecs.{codec_numbers, codec_part, type_name};

    /// The name that the type has in the profile.
    pub fn type_name(self) -> &'static [u8]
        ensures { result.now ≡ type_name self }
    {
        match self {
            Codec::Allocation => b"Allocation",
            Codec::Discovery => b"Discovery",
            Codec::AppendRequest | Codec::AppendAnswer => b"AppendEntries",
            Codec::VoteRequest | Codec::VoteAnswer => b"RequestVote",
            Codec::NodeStatus => b"NodeStatus",
            Codec::NodeInfo => b"GetNodeInfo",
        }
    }

    /// Which part of the type it is, 1 or 2.
    pub fn part(self) -> u8
        ensures { result ≡ codec_part self }
    {
        match self {
            Codec::Allocation
            | Codec::Discovery
            | Codec::AppendRequest
            | Codec::VoteRequest
            | Codec::NodeStatus => 1,
            Codec::AppendAnswer | Codec::VoteAnswer | Codec::NodeInfo => 2,
        }
    }

    /// The numbers of the value that the payload is read as.
    pub fn numbers(self, payload: &[u8]) -> Option<Numbers>
        ensures { option_map (λ found. found.items) result ≡ codec_numbers self payload.now }
    {
        match self {
            Codec::Allocation => Some(Allocation::read(payload)?.numbers()),
            Codec::Discovery => Some(Discovery::read(payload)?.numbers()),
            Codec::AppendRequest => Some(AppendRequest::read(payload)?.numbers()),
            Codec::AppendAnswer => Some(AppendAnswer::read(payload)?.numbers()),
            Codec::VoteRequest => Some(VoteRequest::read(payload)?.numbers()),
            Codec::VoteAnswer => Some(VoteAnswer::read(payload)?.numbers()),
            Codec::NodeStatus => Some(NodeStatus::read(payload)?.numbers()),
            Codec::NodeInfo => Some(NodeInfo::read(payload)?.numbers()),
        }
    }
}
