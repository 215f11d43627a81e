// Limits on sizes, checked before anything is written.

// The most bytes that one picture may have (4 GiB).
pub const MAX_DECODED_PLANE_BYTES: usize = 4_294_967_296;

// The most bytes that a file may have (64 GiB).
pub const MAX_MMAP_BYTES: usize = 68_719_476_736;
