//! Numbers as texts, without memory.

ghost use Rattle.lk_report.specs.Goes.{Goes};
ghost use Rattle.lk_report.specs.Texts.{hex_text};
ghost use Rattle.std.specs.Prelude.{◌≡◌, ◌≤◌, ◌++◌, false, drop, decimal};
ghost use Rattle.std.specs.Fmt.{digits, digit_glyph};

use crate::saying::{Progress, say_bytes};
use crate::sinks::Sink;

// The digit of a number below 16.
fn digit(n: u64) -> u8
    requires { n ≤ 15 }
    ensures { result ≡ digit_glyph false n }
{
    let n = n as u8;
    if n < 10 { b'0' + n } else { b'a' + (n - 10) }
}

// Puts the number's digits at the end of the room, and gives the place where they begin.
fn put_digits(n: u64, base: u64, room: &mut [u8; 64]) -> usize
    requires low { 2 ≤ base }
    requires high { base ≤ 16 }
    ensures inside { result ≤ 64 }
    ensures digits { drop result room.new ≡ digits base false n }
{
    let mut start = 64;
    let mut rest = n;
    while start > 0 {
        start -= 1;
        room[start] = digit(rest % base);
        rest /= base;
        if rest == 0 {
            break;
        }
    }
    start
}

// Says a number's digits in the base.
fn say_digits<S: Sink>(says: &mut S, progress: Progress, n: u64, base: u64) -> Progress
    requires low { 2 ≤ base }
    requires high { base ≤ 16 }
    ensures { Goes (S.spoken says.old) (S.spoken says.new) (digits base false n) progress result }
{
    let mut room = [0; 64];
    let start = put_digits(n, base, &mut room);
    say_bytes(says, progress, &room[start..])
}

/// Says a number in decimal.
pub fn say_decimal<S: Sink>(says: &mut S, progress: Progress, n: u64) -> Progress
    ensures { Goes (S.spoken says.old) (S.spoken says.new) (decimal n) progress result }
{
    say_digits(says, progress, n, 10)
}

/// Says a number as `0x` and its hexadecimal digits.
pub fn say_hex<S: Sink>(says: &mut S, progress: Progress, n: u64) -> Progress
    ensures { Goes (S.spoken says.old) (S.spoken says.new) (hex_text n) progress result }
{
    let progress = say_bytes(says, progress, b"0x");
    say_digits(says, progress, n, 16)
}

/// Says these bytes and then a number in decimal.
pub fn say_numbered<S: Sink>(says: &mut S, progress: Progress, title: &[u8], n: u64) -> Progress
    ensures { Goes (S.spoken says.old) (S.spoken says.new) (title.now ++ decimal n) progress result }
{
    let progress = say_bytes(says, progress, title);
    say_decimal(says, progress, n)
}
