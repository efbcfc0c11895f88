use crate::expect::expect_same;
use job_gen::generate;
use std::test::Fail;

/// How every job begins, down to its first function.
const HEAD: &str = "version = 1\ncores = 4\nslot = 8\ncycles = 20000000\n\
    [[task]]\ncore = 0\nlang = \"c\"\nsource = '''\nint in[16];\nint out[1];\n";

/// The sum of the bytes, each times its place from 1 on, modulo 2^32.
fn checksum(bytes: &[u8]) -> u32 {
    let mut sum: u32 = 0;
    let mut place: u32 = 0;
    for byte in bytes {
        place = place.wrapping_add(1);
        sum = sum.wrapping_add(place.wrapping_mul(u32::from(*byte)));
    }
    sum
}

// The expected values come from the rules, written once more in another language.
#[test]
fn jobs_are_those_of_the_rules(rt: HostRuntime) -> Result<(), Fail> {
    let cases = [
        (
            0,
            "int f0(int x) { int y = x; if ((x & 6) == 0) { y = x * 256 + 708; } else { y = (x ^ 708) - 256; } return y; }\n",
            "\n'''\ninput = [680, 19504, 19441, 18597, 56555, 50255, 55801, 34567, 54069, 1909, 36604, 10255, 920, 20060, 25701, 56773]\n",
            13030,
            1238577872,
        ),
        (
            1,
            "int f0(int x) { int y = x; if ((x & 0) == 0) { y = x * 200 + 46; } else { y = (x ^ 46) - 200; } return y; }\n",
            "\n'''\ninput = [53262, 51607, 40268, 34959, 49669, 33076, 17221, 40211, 22162, 51033, 11192, 54045, 38410, 10278, 24720, 48174]\n",
            13047,
            1251056712,
        ),
        (
            4294967295,
            "int f0(int x) { int y = x; if ((x & 5) == 0) { y = x * 311 + 835; } else { y = (x ^ 835) - 311; } return y; }\n",
            "\n'''\ninput = [13634, 52938, 64150, 2235, 63440, 1898, 28844, 28923, 20440, 18321, 62016, 32001, 28965, 29843, 26683, 65372]\n",
            13046,
            1250704204,
        ),
    ];
    for (n, function, input, length, sum) in cases {
        let alloc = rt.alloc();
        let text = generate(alloc, n)?;
        let begin = format!(in alloc; "{HEAD}{function}")?;
        let begins = text.as_slice().starts_with(begin.as_bytes());
        let ends = text.as_slice().ends_with(input.as_bytes());
        expect_same(&rt, (n, begins, ends), (n, true, true));
        expect_same(&rt, (text.len(), checksum(text.as_slice())), (length, sum));
    }
    Ok(())
}
