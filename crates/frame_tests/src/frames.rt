// Frames that several of these tests know. The bytes are from another program.

// END.
pub(crate) const END: &[u8; 10] = b"\x00\x00\x00\x00\x15\x00Pl\xc9\x9d";

// WRITE x from 5 "hi", in version 2.
pub(crate) const WRITE_OF_VERSION_2: &[u8] =
    b"\x15\x00\x00\x00\x0f\x00\x17\x15h\xc7\x0f\x00\x01\x00x\x12\x00\x08\x00\x05\x00\x00\x00\x00\x00\x00\x00\x13\x00hi";
