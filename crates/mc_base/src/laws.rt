ghost use Rattle.std.specs.Prelude.{◌≡◌};
ghost use Rattle.mc_base.specs.Limits as limit;
ghost use Rattle.mc_base.specs.NameMap.{names_limit};

use crate::limits::{
    BUFFER_SIZE, FIRST_ADDRESS, FRAME_HEADER_SIZE, ITEM_SIZE, LETTER_HEADER_SIZE, LONGEST_BUFFER,
    LONGEST_FRAME, MAX_ASKED, MAX_CHANNELS, MAX_DOMAINS, MAX_ENDPOINTS, MAX_ENDPOINTS_EVER,
    MAX_LINK_SIZE, MAX_NODES, MAX_OWED_ANNOUNCEMENTS, MAX_OWED_REPLIES, MAX_POOL, MAX_REQUESTS,
    MAX_RING_SIZE, NAME_SERVICE_ADDRESS, NAME_SIZE, NAMES_KNOWN, NS_SIZE, PIECE_SIZE,
    POOL_BUFFER_SIZE, SHORTEST_BUFFER, SINGLE_SIZE, TURN_FRAMES,
};

/// Each constant is the number that the definitions rest on.
pub fn limits_are_those_defined()
    ensures shortest { SHORTEST_BUFFER ≡ limit.shortest_buffer }
    ensures longest { LONGEST_BUFFER ≡ limit.longest_buffer }
    ensures buffer { BUFFER_SIZE ≡ limit.buffer_size }
    ensures pool_buffer { POOL_BUFFER_SIZE ≡ limit.pool_buffer_size }
    ensures frame { LONGEST_FRAME ≡ limit.longest_frame }
    ensures item { ITEM_SIZE ≡ limit.item_size }
    ensures single { SINGLE_SIZE ≡ limit.single_size }
    ensures piece { PIECE_SIZE ≡ limit.piece_size }
    ensures frame_header { FRAME_HEADER_SIZE ≡ limit.frame_header_size }
    ensures letter_header { LETTER_HEADER_SIZE ≡ limit.letter_header_size }
    ensures announcement { NS_SIZE ≡ limit.announcement_size }
    ensures name { NAME_SIZE ≡ limit.name_size }
    ensures name_service { NAME_SERVICE_ADDRESS ≡ limit.name_service_address }
    ensures first_address { FIRST_ADDRESS ≡ limit.first_address }
    ensures endpoints { MAX_ENDPOINTS ≡ limit.record_limit }
    ensures creations { MAX_ENDPOINTS_EVER ≡ limit.creation_limit }
    ensures requests { MAX_REQUESTS ≡ limit.request_limit }
    ensures names { NAMES_KNOWN ≡ names_limit }
    ensures asked { MAX_ASKED ≡ limit.asked_limit }
    ensures domains { MAX_DOMAINS ≡ limit.domain_limit }
    ensures nodes { MAX_NODES ≡ limit.node_limit }
    ensures ring { MAX_RING_SIZE ≡ limit.ring_limit }
    ensures link { MAX_LINK_SIZE ≡ limit.link_limit }
    ensures pool { MAX_POOL ≡ limit.pool_limit }
    ensures channels { MAX_CHANNELS ≡ limit.channel_limit }
    ensures owed_replies { MAX_OWED_REPLIES ≡ limit.reply_limit }
    ensures owed_announcements { MAX_OWED_ANNOUNCEMENTS ≡ limit.announcement_limit }
    ensures turn { TURN_FRAMES ≡ limit.turn_limit }
{}
