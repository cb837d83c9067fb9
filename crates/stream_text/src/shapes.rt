// How the values of attributes are written in a line.
ghost use Rattle.stream_text.specs.Shapes.{HasShape};

use tlv_frame::attribute_numbers::*;

// What the text of a value is.
#[derive(Debug, Clone, Copy, PartialEq, Eq)]
pub(crate) enum Shape {
    // An identifier with hyphens.
    Identifier,
    // Seconds, a point and nine digits.
    Moment,
    // Digits of bytes.
    Contents,
    // The escaped form of bytes.
    Escaped,
    // A decimal number of four bytes.
    ShortNumber,
    // An octal number of eight bytes.
    Octal,
    // A decimal number of eight bytes.
    Number,
}

// How a value of the attribute of this number is written, None where the number is no attribute's.
#[tactic(auto, unfolding(send_model::specs::Attribute::form_of))]
pub(crate) fn shape_of(kind: u16) -> Option<Shape>
    ensures shape { HasShape kind result }
{
    match kind {
        UUID | CLONE_UUID => Some(Shape::Identifier),
        CTIME | MTIME | ATIME | OTIME => Some(Shape::Moment),
        XATTR_DATA | DATA => Some(Shape::Contents),
        XATTR_NAME | PATH | PATH_TO | PATH_LINK | CLONE_PATH => Some(Shape::Escaped),
        FALLOCATE_MODE | COMPRESSION | ENCRYPTION => Some(Shape::ShortNumber),
        MODE => Some(Shape::Octal),
        CTRANSID
        | INO
        | SIZE
        | UID
        | GID
        | RDEV
        | FILE_OFFSET
        | CLONE_CTRANSID
        | CLONE_OFFSET
        | CLONE_LEN
        | FILE_FLAGS
        | UNENCODED_FILE_LEN
        | UNENCODED_LEN
        | UNENCODED_OFFSET => Some(Shape::Number),
        _ => None,
    }
}
