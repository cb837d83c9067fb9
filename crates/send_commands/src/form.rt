// The forms of attributes.
ghost use Rattle.std.specs.Prelude.{◌≡◌};
ghost use Rattle.send_model.specs.Attribute as attribute;
ghost use Rattle.send_model.specs.Reading.{form_fits};
ghost use Rattle.send_commands.specs.Meaning.{form_meant};

use tlv_frame::attribute_numbers::*;

// What an attribute's bytes say.
#[derive(Clone, Copy)]
pub(crate) enum Form {
    // An identifier of sixteen bytes.
    Identifier,
    // A number of eight bytes.
    Number,
    // A number of four bytes.
    ShortNumber,
    // Eight bytes of seconds and four of nanoseconds.
    Moment,
    // Any bytes.
    Bytes,
    // The number is no attribute's.
    None,
}

impl Form {
    // The form of the attribute of this number. Source: tlv_get_.. in send-stream.c of btrfs-progs.
    #[tactic(auto, unfolding(send_model::specs::Attribute::form_of))]
    pub(crate) fn of(kind: u16) -> Form
        ensures form { form_meant result ≡ attribute.form_of kind }
    {
        match kind {
            UUID | CLONE_UUID => Form::Identifier,
            CTIME | MTIME | ATIME | OTIME => Form::Moment,
            XATTR_NAME | XATTR_DATA | PATH | PATH_TO | PATH_LINK | DATA | CLONE_PATH => Form::Bytes,
            FALLOCATE_MODE | COMPRESSION | ENCRYPTION => Form::ShortNumber,
            CTRANSID
            | INO
            | SIZE
            | MODE
            | UID
            | GID
            | RDEV
            | FILE_OFFSET
            | CLONE_CTRANSID
            | CLONE_OFFSET
            | CLONE_LEN
            | FILE_FLAGS
            | UNENCODED_FILE_LEN
            | UNENCODED_LEN
            | UNENCODED_OFFSET => Form::Number,
            _ => Form::None,
        }
    }

    // Whether bytes have the length of the form.
    pub(crate) fn fits(self, bytes: &[u8]) -> bool
        ensures { result ≡ form_fits (form_meant self) bytes.now }
    {
        match self {
            Form::Identifier => bytes.len() == 16,
            Form::Number => bytes.len() == 8,
            Form::ShortNumber => bytes.len() == 4,
            Form::Moment => bytes.len() == 12,
            Form::Bytes => true,
            Form::None => false,
        }
    }
}
