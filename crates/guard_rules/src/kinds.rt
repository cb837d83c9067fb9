// The kinds of guards.

/// What a guard allows. Such guards are this program's own.
#[derive(Debug, Clone, Copy, PartialEq, Eq)]
pub enum GuardSpec {
    /// So many bytes in WRITE commands, and no more.
    Bytes(u64),
    /// So many commands, and no more. Heads and END count.
    Commands(u64),
    /// No MKNOD.
    NoDevices,
    /// No WRITE of a byte or more, CLONE or TRUNCATE that ends above this place of its file,
    /// counted in bytes.
    End(u64),
}
