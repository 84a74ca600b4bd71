ghost use Rattle.std.specs.Prelude.{◌≡◌, ◌≤◌, length};
ghost use Rattle.can_frame.specs.DataTypes as types;

use crate::{Kind, What};

/// A data type of the bus.
#[derive(Clone, Copy, Debug, PartialEq, Eq)]
pub struct DataType {
    pub number: u16,

    /// From it the CRC of each transfer begins.
    pub signature: u64,
}

/// Message type `uavcan.protocol.dynamic_node_id.Allocation`.
pub const ALLOCATION: DataType = DataType {
    number: 1,
    signature: 0x0b2a_8126_20a1_1d40,
};

/// Message type `uavcan.protocol.NodeStatus`.
pub const NODE_STATUS: DataType = DataType {
    number: 341,
    signature: 0x0f08_68d0_c1a7_c6f1,
};

/// Message type `uavcan.protocol.dynamic_node_id.server.Discovery`.
pub const DISCOVERY: DataType = DataType {
    number: 390,
    signature: 0x821a_e2f5_25f6_9f21,
};

/// Service type `uavcan.protocol.GetNodeInfo`.
pub const GET_NODE_INFO: DataType = DataType {
    number: 1,
    signature: 0xee46_8a81_21c4_6a9e,
};

/// Service type `uavcan.protocol.dynamic_node_id.server.AppendEntries`.
pub const APPEND_ENTRIES: DataType = DataType {
    number: 30,
    signature: 0x8032_c709_7b48_a3cc,
};

/// Service type `uavcan.protocol.dynamic_node_id.server.RequestVote`.
pub const REQUEST_VOTE: DataType = DataType {
    number: 31,
    signature: 0xcdde_07bb_89a5_6356,
};

/// What a transfer of an allocator is on the bus, and its name in a report.
#[derive(Clone, Copy)]
pub struct TransferType {
    pub kind: Kind,
    pub data_type: DataType,
    pub name: &'static [u8],
}

impl What {
    /// The row of this transfer in the table of data types.
    pub fn transfer_type(self) -> TransferType
        ensures kind { result.kind ≡ (types.type_of self).kind }
        ensures data_type { result.data_type ≡ (types.type_of self).data_type }
        ensures name { result.name.now ≡ (types.type_of self).name }
        ensures short { length result.name.now ≤ 5 }
    {
        match self {
            What::Alloc => row(Kind::Message, ALLOCATION, b"alloc"),
            What::Disc => row(Kind::Message, DISCOVERY, b"disc"),
            What::Stat => row(Kind::Message, NODE_STATUS, b"stat"),
            What::InfoQ => row(Kind::Request, GET_NODE_INFO, b"infoq"),
            What::Info => row(Kind::Response, GET_NODE_INFO, b"info"),
            What::VoteQ => row(Kind::Request, REQUEST_VOTE, b"voteq"),
            What::Vote => row(Kind::Response, REQUEST_VOTE, b"vote"),
            What::AppQ => row(Kind::Request, APPEND_ENTRIES, b"appq"),
            What::App => row(Kind::Response, APPEND_ENTRIES, b"app"),
        }
    }
}

fn row(kind: Kind, data_type: DataType, name: &'static [u8]) -> TransferType
    ensures { result ≡ record { kind = kind; data_type = data_type; name = name.entry } }
{
    TransferType {
        kind,
        data_type,
        name,
    }
}
