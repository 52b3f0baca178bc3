/// How many bytes a buffer has at least. The length of a ring's buffers is a multiple of it.
pub const SHORTEST_BUFFER: u32 = 64;

/// How many bytes a buffer has at most.
pub const LONGEST_BUFFER: u32 = 4096;

/// How many bytes a buffer of a link has.
pub const BUFFER_SIZE: usize = 512;

/// How many bytes a buffer of a domain's own pool has.
pub const POOL_BUFFER_SIZE: usize = 512;

/// How many bytes a frame has at most.
pub const LONGEST_FRAME: usize = 512;

/// How many bytes a message or a packet has at most.
pub const ITEM_SIZE: usize = 8192;

/// How many bytes of a message or a packet a letter of one frame carries at most.
pub const SINGLE_SIZE: usize = 488;

/// How many bytes of a message or a packet a part of it carries at most.
pub const PIECE_SIZE: usize = 484;

/// How many bytes the header of an RPMsg frame has (`struct rpmsg_hdr`).
pub const FRAME_HEADER_SIZE: usize = 16;

/// How many bytes the header of a letter has.
pub const LETTER_HEADER_SIZE: usize = 8;

/// How many bytes a name announcement has (`struct rpmsg_ns_msg`).
pub const NS_SIZE: usize = 40;

/// How many bytes the name of an announcement has at most.
pub const NAME_SIZE: usize = 31;

/// The address to which name announcements go (`RPMSG_NS_ADDR`).
pub const NAME_SERVICE_ADDRESS: u32 = 53;

/// The address of the first endpoint of a domain. Those below are reserved.
pub const FIRST_ADDRESS: u32 = 1024;

/// How many domains a board has at most. They are numbered from 0.
pub const MAX_DOMAINS: u8 = 8;

/// How many nodes a domain has at most. They are numbered from 0.
pub const MAX_NODES: u8 = 16;

/// How many endpoint records of a domain are in use at most.
pub const MAX_ENDPOINTS: usize = 64;

/// How many endpoints a domain ever creates at most.
pub const MAX_ENDPOINTS_EVER: u32 = 60_000;

/// How many requests a domain holds at most.
pub const MAX_REQUESTS: usize = 64;

/// How many channels a domain ever numbers at most.
pub const MAX_CHANNELS: u32 = 65_535;

/// How many names of one linked domain are known at most.
pub const NAMES_KNOWN: usize = 64;

/// How many replies are owed to one peer at most.
pub const MAX_OWED_REPLIES: usize = 64;

/// How many announcements are owed to one linked domain at most.
pub const MAX_OWED_ANNOUNCEMENTS: usize = 128;

/// How many buffers a ring has at most.
pub const MAX_RING_SIZE: u32 = 32_768;

/// How many buffers each ring of a board's link has at most.
pub const MAX_LINK_SIZE: u32 = 256;

/// How many buffers a domain has at most for messages inside it.
pub const MAX_POOL: u32 = 256;

/// How many frames a turn takes from a lane at most, and how many owed ones it puts.
pub const TURN_FRAMES: usize = 8;

/// The most bytes that a line of a scenario sends or asks for.
pub const MAX_ASKED: usize = 9000;
