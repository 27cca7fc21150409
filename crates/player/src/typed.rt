// The lines behind `t`: a call of a type's own entry, the value by value.
use fields::answers;
use fields::held::{held, held_signed};
use std::io;
use std::io::Write;
use write_lines::Call;
use writing::Written;

// The entry of the type, with the value held at the type's ends; 64 bits where they are no other type's.
fn write(call: Call, room: &mut [u8]) -> Written {
    let Call {
        kind,
        value,
        format,
        options,
    } = call;
    match (kind.bits, kind.signed) {
        (8, false) => by_type::write(held::<u8>(value), format, options, room),
        (16, false) => by_type::write(held::<u16>(value), format, options, room),
        (32, false) => by_type::write(held::<u32>(value), format, options, room),
        (_, false) => by_type::write(value, format, options, room),
        (8, true) => by_type::write(
            held_signed::<i8>(value.cast_signed()),
            format,
            options,
            room,
        ),
        (16, true) => by_type::write(
            held_signed::<i16>(value.cast_signed()),
            format,
            options,
            room,
        ),
        (32, true) => by_type::write(
            held_signed::<i32>(value.cast_signed()),
            format,
            options,
            room,
        ),
        (_, true) => by_type::write(value.cast_signed(), format, options, room),
    }
}

// The 13 numbers of a call with its room.
#[inline(always)]
pub fn answer<W: Write>(row: &[u8], out: &mut W) -> io::Result<()> {
    match Call::of(row) {
        Some((call, Some(size))) => write_lines::over(size, out, move |room| write(call, room)),
        _ => answers::unknown(out),
    }
}
