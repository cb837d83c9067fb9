// The numbers that a chain is drawn from.
ghost use Rattle.std.specs.Prelude.{◌≡◌, ◌<◌, ◌≤◌, ◌/◌, ◌%◌, ◌^◌};
ghost use Rattle.send_model.specs.Generated.{next_number, number_after};
ghost use Rattle.stream_gen.specs.Parts.{nth};

/// What is drawn for a part.
#[derive(Debug, Clone, Copy)]
pub struct Drawn {
    /// The file that is written, below 8.
    pub file: u64,
    /// Its block, below 3.
    pub block: u64,
    /// The byte that is written, below 256.
    pub byte: u8,
    /// The file that is cloned from, below 8.
    pub source: u64,
    /// Its block, below 3.
    pub source_block: u64,
    /// The file that is cloned to, below 8.
    pub goal: u64,
    /// Its block, below 3.
    pub goal_block: u64,
    /// The number after these draws.
    pub number: u64,
}

// The next number of 64 bits.
fn next_of(number: u64) -> u64
    ensures next { result ≡ next_number number }
{
    let wide = number as u128 * 6_364_136_223_846_793_005 + 1_442_695_040_888_963_407;
    (wide % 18_446_744_073_709_551_616) as u64
}

// What is drawn from a number: its upper 31 bits.
fn drawn_from(number: u64, below: u64) -> u64
    requires some { 1 ≤ below }
    ensures drawn { result ≡ number / 2 ^ 33 % below }
    ensures less { result < below }
{
    (number >> 33) % below
}

/// Draws for a part, seven times.
pub fn draw(number: u64) -> Drawn
    ensures file { result.file ≡ nth number 1 8 }
    ensures block { result.block ≡ nth number 2 3 }
    ensures byte { result.byte ≡ nth number 3 256 }
    ensures source { result.source ≡ nth number 4 8 }
    ensures source_block { result.source_block ≡ nth number 5 3 }
    ensures goal { result.goal ≡ nth number 6 8 }
    ensures goal_block { result.goal_block ≡ nth number 7 3 }
    ensures number { result.number ≡ number_after 7 number }
    ensures files { result.file < 8 }
    ensures blocks { result.block < 3 }
    ensures sources { result.source < 8 }
    ensures source_blocks { result.source_block < 3 }
    ensures goals { result.goal < 8 }
    ensures goal_blocks { result.goal_block < 3 }
{
    let first = next_of(number);
    let second = next_of(first);
    let third = next_of(second);
    let fourth = next_of(third);
    let fifth = next_of(fourth);
    let sixth = next_of(fifth);
    let seventh = next_of(sixth);
    Drawn {
        file: drawn_from(first, 8),
        block: drawn_from(second, 3),
        byte: drawn_from(third, 256) as u8,
        source: drawn_from(fourth, 8),
        source_block: drawn_from(fifth, 3),
        goal: drawn_from(sixth, 8),
        goal_block: drawn_from(seventh, 3),
        number: seventh,
    }
}
