// Text of ASCII bytes: a line's words, decimal numbers and hexadecimal payloads, read and printed; and the CRC-32 of bytes.

#![tactic(auto)]

mod crc;
mod decimal;
mod hex;
mod words;

pub use crc::crc32;
pub use decimal::{number, put_decimal};
pub use hex::{is_payload, put_hex, unhex};
pub use words::{word, word_count};
