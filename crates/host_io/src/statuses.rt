// The statuses of runs of which there is more to say than their message.

pub(crate) const DONE: u8 = 0;

pub(crate) const REFUSED: u8 = 1;

pub(crate) const USAGE: u8 = 2;

pub(crate) const INPUT_FAULT: u8 = 3;

pub(crate) const OUTPUT_FAULT: u8 = 4;

pub(crate) const STORE_FAULT: u8 = 5;

pub(crate) const NOT_STORE: u8 = 6;

pub(crate) const MISSING: u8 = 8;
