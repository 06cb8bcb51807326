// The ops of the statements, by the names of document 01 ("The program").
pub const SLEEP: u8 = 0x00;

pub const SET: u8 = 0x01;

pub const ADD: u8 = 0x02;

pub const DONE: u8 = 0x03;

pub const SEND: u8 = 0x04;

pub const LISTEN: u8 = 0x05;

pub const PAIR: u8 = 0x06;

pub const AGE: u8 = 0x07;

pub const ZERO: u8 = 0x08;

pub const ENTER: u8 = 0x09;

pub const TRIAL: u8 = 0x0A;

pub const LOW: u8 = 0x0B;

pub const HIGH: u8 = 0x0C;

pub const DATA_LOW: u8 = 0x0D;

pub const DATA_HIGH: u8 = 0x0E;

pub const KEEP: u8 = 0x0F;

pub const TAKE: u8 = 0x10;

pub const CHOOSE: u8 = 0x11;

// Document 02, wish 8: "A new statement 12, k = budget".
pub const BUDGET: u8 = 0x12;
