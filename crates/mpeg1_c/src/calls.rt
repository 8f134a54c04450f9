// The three calls for C.
ghost use Rattle.std.specs.Prelude.{◌≡◌};
ghost use Rattle.memory.specs.Memory.{memory};
ghost use Rattle.mpeg1.specs.Calls.{host_result, host_output, without_clock, converts};
ghost use Rattle.mpeg1.specs.Calls.{HostOpens, HostDecodes, HostConverts};

use mpeg1::calls;

// RULES O: 0, or 1 to 6.
#[unsafe(no_mangle)]
pub extern "C" fn mpeg1_open(
    stream: &[u8],
    store: &mut [u8],
    numbers: &mut [usize],
    integers: &mut [i32],
    matrices: &mut [u8],
    clock: &mut [f64],
) -> u32
    ensures { HostOpens stream.now store.old
        (memory numbers.old integers.old matrices.old clock.old)
        (host_result result store.new (memory numbers.new integers.new matrices.new clock.new)) }
{
    calls::mpeg1_open(stream, store, numbers, integers, matrices, clock)
}

// RULES 8: 0 with the picture's numbers and time, or 1 to 9.
#[unsafe(no_mangle)]
pub extern "C" fn mpeg1_decode(
    stream: &[u8],
    store: &mut [u8],
    numbers: &mut [usize],
    integers: &mut [i32],
    matrices: &mut [u8],
    clock: &mut [f64],
    picture: &mut [usize],
    time: &mut f64,
) -> u32
    ensures { HostDecodes stream.now store.old
        (memory numbers.old integers.old matrices.old clock.old) picture.old time.old
        (host_output (host_result result store.new (memory numbers.new integers.new matrices.new clock.new))
        picture.new time.new) }
{
    calls::mpeg1_decode(
        stream, store, numbers, integers, matrices, clock, picture, time,
    )
}

// RULES 9: 0, or 2, 6, 10, 11.
#[unsafe(no_mangle)]
pub extern "C" fn mpeg1_write_rgb_scaled(
    store: &[u8],
    numbers: &[usize],
    integers: &[i32],
    matrices: &[u8],
    index: usize,
    area: &mut [u32],
    width: usize,
    height: usize,
) -> u32
    ensures { HostConverts store.now (without_clock numbers.now integers.now matrices.now)
        index area.old width height (converts result area.new) }
{
    calls::mpeg1_write_rgb_scaled(
        store, numbers, integers, matrices, index, area, width, height,
    )
}
