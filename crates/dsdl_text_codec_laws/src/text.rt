/// The types that allocators and allocatees exchange, of the namespaces `uavcan.protocol` and
/// `uavcan.protocol.dynamic_node_id` of UAVCAN v0. A service has its request in front of `---`.
pub const PROFILE: &[u8] = b"@ Entry
uint32 term
uint8[16] unique_id
void1
uint7 node_id
@ Allocation
uint16 MAX_REQUEST_PERIOD_MS = 1000
uint7 node_id
bool first_part_of_unique_id
uint8[<=16] unique_id
@ Discovery
uint8 configured_cluster_size
uint8[<=5] known_nodes
@ AppendEntries
uint32 term
uint32 prev_log_term
uint8 prev_log_index
uint8 leader_commit
Entry[<=1] entries
---
uint32 term
bool success
@ RequestVote
uint32 term
uint32 last_log_term
uint8 last_log_index
---
uint32 term
bool vote_granted
@ NodeStatus
uint32 uptime_sec
uint2 health
uint3 mode
uint3 sub_mode
uint16 vendor_specific_status_code
@ SoftwareVersion
uint8 major
uint8 minor
uint8 optional_field_flags
uint32 vcs_commit
uint64 image_crc
@ HardwareVersion
uint8 major
uint8 minor
uint8[16] unique_id
uint8[<=255] certificate_of_authenticity
@ GetNodeInfo
---
NodeStatus status
SoftwareVersion software_version
HardwareVersion hardware_version
uint8[<=80] name
";
