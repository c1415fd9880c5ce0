//! The places of faults.
ghost use Rattle.std.specs.Prelude.{◌≡◌, ◌<◌, ◌≤◌, ◌-◌, ◌^◌, fold, take, length};
ghost use Rattle.c_syntax.specs.Places as places;

use crate::error::CErr;
use crate::front::front;
use crate::token_list::is_separator;
use va_base::Place;

/// The place of the byte with this index, or of the end of the text.
fn place_at(bytes: &[u8], index: usize) -> Place
    requires { length bytes.now < 2 ^ 32 - 1 }
    ensures { result ≡ places.place_at bytes.now index }
{
    let mut place = Place {
        file: 0,
        line: 1,
        col: 1,
    };
    for (at, byte) in bytes.iter().enumerate() {
        if at == index {
            return place;
        }
        if *byte == b'\n' {
            place = Place {
                file: place.file,
                line: place.line + 1,
                col: 1,
            };
        } else {
            place = Place {
                file: place.file,
                line: place.line,
                col: place.col + 1,
            };
        }
    }
    place
}

/// The index of the first byte of a token, by the token's number, or of the end where there is no such token.
fn token_start(bytes: &[u8], number: usize) -> usize
    ensures { result ≡ places.token_start bytes.now number }
{
    let mut at = 0;
    let mut left = number;
    'bytes: while at < bytes.len() {
        if is_separator(bytes[at]) {
            at += 1;
        } else {
            let Some(token) = front(&bytes[at..]) else {
                return bytes.len();
            };
            if left == 0 {
                return at;
            }
            left -= 1;
            at += token.len;
        }
    }
    bytes.len()
}

/// The place of a fault in a text, whose file has the number 0; for want of memory it is that of the first byte. It takes no
/// memory.
pub fn place(bytes: &[u8], fault: &CErr) -> Place
    requires { length bytes.now < 2 ^ 32 - 1 }
    ensures { result ≡ places.fault_place bytes.now fault.now }
{
    match fault {
        CErr::BadByte(at) => place_at(bytes, *at),
        CErr::Syntax(number) => place_at(bytes, token_start(bytes, *number)),
        CErr::Form(number) => place_at(bytes, token_start(bytes, *number)),
        CErr::NoMemory => place_at(bytes, 0),
    }
}
