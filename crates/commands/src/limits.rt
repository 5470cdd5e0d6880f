// The limits that both ends of the service share.
// The least packet size: with it the largest image fits into 65,536 packets.
pub const MIN_PACKET: usize = 16;

// The most bytes of a packet: Len2 in FA's reply.
pub const MAX_PACKET: usize = 512;

// The longest reply's data: FB's.
pub const MAX_REPLY: usize = 26;

// After number 65,535 no packet is next.
pub const MAX_NEXT: usize = 65536;

// The largest area, and so the longest image.
pub const MAX_AREA: usize = 1048576;
