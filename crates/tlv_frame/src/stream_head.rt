// The header of a stream.
ghost use Rattle.std.specs.Prelude.{◌≡◌};
ghost use Rattle.send_model.specs.Spelling.{stream_header};
ghost use Rattle.send_model.specs.Reading.{stream_version};
ghost use Rattle.sx_base.specs.Answers.{Reads};

use sx_base::Refusal;

/// The header of a stream.
#[derive(Debug, Clone, Copy, PartialEq, Eq)]
pub struct StreamHead {
    /// The version of the protocol that the stream is written in.
    pub version: u32,
}

impl StreamHead {
    /// The header that these bytes are. BadMagic where they do not begin with the text of a stream,
    /// BadVersion where the version is neither 1 nor 2. Source: struct btrfs_stream_header in
    /// send.h of btrfs-progs.
    #[tactic(auto, unfolding(send_model::specs::Reading::stream_version, send_model::specs::Reading::number32))]
    pub fn read(bytes: &[u8; 17]) -> Result<StreamHead, Refusal>
        ensures exact { Reads (λ head. head.version) result (stream_version bytes.now) }
    {
        if !bytes.starts_with(b"btrfs-stream\0") {
            return Err(Refusal::BadMagic);
        }
        let version = u32::from_le_bytes([bytes[13], bytes[14], bytes[15], bytes[16]]);
        if version != 1 && version != 2 {
            return Err(Refusal::BadVersion(version));
        }
        Ok(StreamHead { version })
    }

    /// The header's bytes.
    #[tactic(auto, unfolding(send_model::specs::Spelling::stream_header))]
    pub fn bytes(self) -> [u8; 17]
        ensures bytes { result ≡ stream_header self.version }
    {
        let [a, b, c, d] = self.version.to_le_bytes();
        [
            b'b', b't', b'r', b'f', b's', b'-', b's', b't', b'r', b'e', b'a', b'm', 0, a, b, c, d,
        ]
    }
}
