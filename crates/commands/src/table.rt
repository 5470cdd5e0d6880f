// The command table of document 01.
ghost use Rattle.std.specs.Prelude.{◌≡◌, ◌==◌, find};
ghost use Rattle.commands.specs.Table.{table, RowOf, header_of, bad_header};

// Numbers, not an enum: `header_of`, `row_of` and all that is built on them take any command byte.
pub const F9: u8 = 0xF9;

pub const FA: u8 = 0xFA;

pub const FB: u8 = 0xFB;

pub const FC: u8 = 0xFC;

pub const FD: u8 = 0xFD;

pub const FE: u8 = 0xFE;

// A command: the version byte and the least and greatest data length from the module, and those of the reply (length 0: none).
#[derive(Clone, Copy)]
pub struct Row {
    pub command: u8,
    pub version: u8,
    pub least: usize,
    pub most: usize,
    pub reply_version: u8,
    pub reply_length: usize,
}

pub const COUNT: usize = 6;

pub const TABLE: [Row; COUNT] = [
    Row {
        command: F9,
        version: 0x00,
        least: 1,
        most: 1,
        reply_version: 0x00,
        reply_length: 0,
    },
    Row {
        command: FA,
        version: 0x00,
        least: 3,
        most: 3,
        reply_version: 0x00,
        reply_length: 7,
    },
    Row {
        command: FB,
        version: 0x10,
        least: 36,
        most: 36,
        reply_version: 0x10,
        reply_length: 26,
    },
    Row {
        command: FC,
        version: 0x00,
        least: 5,
        most: 5,
        reply_version: 0x00,
        reply_length: 5,
    },
    Row {
        command: FD,
        version: 0x10,
        least: 7,
        most: 519,
        reply_version: 0x00,
        reply_length: 2,
    },
    Row {
        command: FE,
        version: 0x00,
        least: 1,
        most: 1,
        reply_version: 0x00,
        reply_length: 2,
    },
];

#[derive(Clone, Copy, PartialEq, Eq)]
pub enum Header {
    // The command is not in the table.
    Unlisted,
    // Its version byte or data length is not the table's.
    Wrong,
    Right,
}

// What the table says of a frame from the module.
pub fn header_of(version: u8, command: u8, length: usize) -> Header
    ensures { result ≡ header_of version command length }
{
    match listed(command) {
        None => Header::Unlisted,
        Some(row) if bad_header(row, version, length) => Header::Wrong,
        Some(_) => Header::Right,
    }
}

fn bad_header(row: Row, version: u8, length: usize) -> bool
    ensures { result ≡ bad_header row version length }
{
    version != row.version || length < row.least || row.most < length
}

// A command's row; all zero where the table has none.
pub fn row_of(command: u8) -> Row
    ensures { RowOf command result }
{
    listed(command).unwrap_or(Row {
        command: 0,
        version: 0,
        least: 0,
        most: 0,
        reply_version: 0,
        reply_length: 0,
    })
}

// All rows: those of the definition, in its order.
#[tactic(auto, unfolding(crate::specs::Table::table))]
fn rows() -> &'static [Row]
    ensures { result.now ≡ table }
{
    &TABLE
}

// A command's row.
fn listed(command: u8) -> Option<Row>
    ensures { result ≡ find (λ row. row.command == command) table }
{
    rows().iter().copied().find(|row| row.command == command)
}
