// Draws beside those that another ChaCha20 gives (the Python package `cryptography`).
use crate::check::Check;
use serve_policy::Draws;
use std::process::Abort;
use test_checks::check;

// A key, a node and its boot; and the draws with the numbers 1, 2, 3, 32 and 33: the generator makes 32 at a time.
type Row = (u64, u8, u64, [u64; 5]);

const ROWS: &[Row] = &[
    (
        7,
        1,
        1,
        [
            5_002_202_987_892_922,
            3_772_158_077_817_855,
            8_913_843_221_811_678,
            859_909_127_761_043,
            2_157_710_329_375_319,
        ],
    ),
    (
        7,
        2,
        1,
        [
            1_621_027_833_332_475,
            8_179_160_837_541_324,
            4_116_329_217_781_595,
            162_003_047_454_742,
            2_339_655_786_189_997,
        ],
    ),
    (
        7,
        1,
        2,
        [
            6_038_575_598_477_539,
            1_705_125_157_715_755,
            4_096_965_655_939_283,
            6_580_662_939_288_282,
            4_643_965_563_861_678,
        ],
    ),
    (
        0,
        3,
        1,
        [
            6_060_933_180_246_251,
            6_327_577_870_416_922,
            2_285_118_025_271_856,
            625_884_055_792_284,
            3_008_644_360_220_282,
        ],
    ),
    (
        18_446_744_073_709_551_615,
        7,
        281_474_976_710_655,
        [
            847_995_306_373_195,
            3_950_646_173_971_855,
            780_119_924_233_333,
            2_626_956_168_869_588,
            1_482_792_379_348_061,
        ],
    ),
    (
        72_623_859_790_382_856,
        5,
        4_660,
        [
            4_283_981_636_439_154,
            6_075_035_507_170_981,
            6_468_839_489_720_496,
            8_433_316_169_913_311,
            3_493_555_527_733_735,
        ],
    ),
];

// The draws with these numbers.
fn drawn(draws: &mut Draws) -> [u64; 5] {
    let first = draws.next().get();
    let second = draws.next().get();
    let third = draws.next().get();
    for _between in 4..32u8 {
        draws.next();
    }
    [first, second, third, draws.next().get(), draws.next().get()]
}

#[test]
fn draws_are_those_of_the_cipher(rt: HostRuntime) {
    for (key, node, boot, wanted) in ROWS {
        let mut draws = Draws::new(*key, *node, *boot);
        check!(&rt; drawn(&mut draws) == *wanted, (key, node, boot));
    }
}
