// Tables of whim bytes by their seeds, and what tools/whim_model.py gives for each.
use crate::host::Host;
use devices::{Disk, Pair, Recorder};
use std::test::Fail;
use whim_bus::WhimBus;

/// A table's seed, the Adler-32 of all that the host is shown in 24,000 turns, and how many bytes the film then holds.
struct Row(u32, u32, usize);

const ROWS: [Row; 32] = [
    Row(1, 0xe875d9cd, 384),
    Row(2, 0xb6339830, 640),
    Row(3, 0x0a97137a, 640),
    Row(4, 0xd3eec004, 768),
    Row(5, 0x2f0ba3a5, 384),
    Row(6, 0x5a92cb77, 0),
    Row(7, 0x8c3e6ae4, 1024),
    Row(8, 0x87802f32, 1024),
    Row(9, 0xca40638a, 1024),
    Row(10, 0xb8507c38, 1024),
    Row(11, 0x78f5570b, 640),
    Row(12, 0x572d70d9, 384),
    Row(13, 0x63692cc5, 1024),
    Row(14, 0xaac6a72d, 256),
    Row(15, 0x0b523ee4, 1024),
    Row(16, 0xd979c918, 1024),
    Row(17, 0x1631a15c, 1024),
    Row(18, 0xd8e74ecb, 1024),
    Row(19, 0x97a9f04e, 1024),
    Row(20, 0x1e427d9f, 768),
    Row(21, 0x1759e539, 1024),
    Row(22, 0xd28c964a, 128),
    Row(23, 0xaff2467f, 1024),
    Row(24, 0x5d1cbddc, 1024),
    Row(25, 0x1018045d, 1024),
    Row(26, 0xa9e59bc5, 1024),
    Row(27, 0x899bfccf, 640),
    Row(28, 0x1bfdbda9, 768),
    Row(29, 0x795ce7ec, 0),
    Row(30, 0x2d60c35b, 1024),
    Row(31, 0xf996e1f5, 1024),
    Row(32, 0x92467722, 128),
];

// 256 whim bytes by a linear congruential generator; five of six are made multiples of 4, so that data moves most of the time.
fn table(seed: u32) -> [u8; 256] {
    let mut whims = [0; 256];
    let mut x = seed;
    for whim in whims.iter_mut() {
        x = x.wrapping_mul(1_664_525).wrapping_add(1_013_904_223);
        *whim = if x / 65_536 % 6 == 0 {
            (x / 16_777_216) as u8
        } else {
            (x / 67_108_864 * 4) as u8
        };
    }
    whims
}

#[test]
fn shows_what_the_model_shows(rt: HostRuntime) -> Result<(), Fail> {
    for &Row(seed, checksum, film) in &ROWS {
        let shelf = Pair {
            first: Disk::new(rt.alloc(), 0, 8)?,
            second: Recorder::new(rt.alloc(), 3, 1024)?,
        };
        let mut bus = WhimBus::new(shelf, table(seed));
        let mut host = Host::new();
        for turn in 0..24_000 {
            host.turn(&mut bus, turn);
        }
        assert_eq!(rt;
            (seed, host.checksum(), bus.shelf().second.film().len()),
            (seed, checksum, film)
        );
    }
    Ok(())
}
