//! Kernels in C, each with inputs, and what they give by gcc for the same texts with the input as first values: the
//! value of `main`, and the words of `out`. No run has an overrun.

/// A kernel, its bound by a schedule with one instruction in each bundle, a bundle that does nothing after each load
/// and each product, and idle delay slots, on a core alone with slots of 6 cycles; and its runs.
pub struct Kernel {
    pub text: &'static str,
    pub straight: u64,
    pub runs: &'static [Run],
}

/// An input and its results. Words are in decimal, with blanks between them.
pub struct Run {
    pub input: &'static str,
    pub value: i32,
    pub out: &'static str,
}

pub static KERNELS: [Kernel; 8] = [
    Kernel {
        text: r#"/* Binary search in a table of 64 squares; one answer for each key. */
int in[8];
int table[64];
int out[8];

int find(int key)
{
    int low = 0; int high = 63;
    _Pragma("loopbound min 1 max 7")
    while (low <= high) {
        int mid = (low + high) / 2;
        if (table[mid] == key) { return mid; }
        if (table[mid] < key) { low = mid + 1; } else { high = mid - 1; }
    }
    return -1 - low;
}

int main()
{
    int i = 0; int hits = 0;
    _Pragma("loopbound min 64 max 64")
    for (i = 0; i < 64; i = i + 1) { table[i] = i * i; }
    _Pragma("loopbound min 8 max 8")
    for (i = 0; i < 8; i = i + 1) {
        int r = find(in[i]);
        out[i] = r;
        if (r >= 0) { hits = hits + 1; }
    }
    return hits;
}"#,
        straight: 52_501,
        runs: &[
            Run {
                input: "",
                value: 8,
                out: "0 0 0 0 0 0 0 0",
            },
            Run {
                input: "3249 1539 773 2980 324 501 2309 3481",
                value: 3,
                out: "57 -41 -29 -56 18 -24 -50 59",
            },
            Run {
                input: "3600 64 2269 144 1690 2941 3136 3249",
                value: 5,
                out: "60 8 -49 12 -43 -56 56 57",
            },
        ],
    },
    Kernel {
        text: r#"/* Fletcher-32 over halves of words and an internet checksum of the same data. */
int in[24];
unsigned out[2];

int main()
{
    unsigned a = 0xffff; unsigned b = 0xffff; unsigned net = 0; int i = 0;
    _Pragma("loopbound min 24 max 24")
    for (i = 0; i < 24; i = i + 1) {
        unsigned w = in[i];
        int part = 0;
        _Pragma("loopbound min 2 max 2")
        for (part = 0; part < 2; part = part + 1) {
            unsigned half = w & 0xffff;
            if (part == 0) { half = w >> 16; }
            a = a + half;
            b = b + a;
            net = net + half;
            a = (a & 0xffff) + (a >> 16);
            b = (b & 0xffff) + (b >> 16);
        }
    }
    a = (a & 0xffff) + (a >> 16);
    b = (b & 0xffff) + (b >> 16);
    _Pragma("loopbound min 0 max 3")
    while (net >> 16) { net = (net & 0xffff) + (net >> 16); }
    out[0] = b << 16 | a;
    out[1] = ~net & 0xffff;
    return out[0] ^ out[1];
}"#,
        straight: 9_940,
        runs: &[
            Run {
                input: "",
                value: -65536,
                out: "4294967295 65535",
            },
            Run {
                input: "572 -32291 27378 -20749 31720 9063 -2598 -6418 5627 26290 11357 17062 -5694 -25902 \
                    12870 -15088 -20809 15382 -30123 -17309 29757 -1369 -14198 6018",
                value: -122224641,
                out: "4172677680 64975",
            },
            Run {
                input: "-31893 -14454 14866 13095 -13546 -30289 -2659 23936 26079 -368 18502 18106 5323 6095 \
                    -21864 31897 2445 13436 -16300 28195 -1866 30731 -15783 13569",
                value: 319487999,
                out: "319454192 33807",
            },
        ],
    },
    Kernel {
        text: r#"/* CRC-32 of the first in[0] words, byte by byte, and of a fixed message. */
int in[17];
unsigned out[3];

unsigned step(unsigned crc, unsigned octet)
{
    int k = 0;
    crc = crc ^ (octet & 255u);
    _Pragma("loopbound min 8 max 8")
    for (k = 0; k < 8; k = k + 1) {
        if (crc & 1u) { crc = (crc >> 1) ^ 0xEDB88320u; } else { crc = crc >> 1; }
    }
    return crc;
}

int main()
{
    unsigned crc = 0xFFFFFFFFu; int i = 0; int n = in[0] & 15;
    _Pragma("loopbound min 0 max 15")
    while (i < n) {
        unsigned w = in[i + 1];
        int shift = 24;
        _Pragma("loopbound min 4 max 4")
        while (shift >= 0) {
            crc = step(crc, w >> shift);
            shift = shift - 8;
        }
        i = i + 1;
    }
    out[0] = ~crc;
    crc = 0xFFFFFFFFu;
    _Pragma("loopbound min 9 max 9")
    for (i = 0; i < 9; i = i + 1) { crc = step(crc, 49 + i); }
    out[1] = ~crc;
    out[2] = out[0] ^ out[1];
    return out[1] == 0xCBF43926u;
}"#,
        straight: 179_091,
        runs: &[
            Run {
                input: "15 586154822 3349669638 1459014648 1365188252 627051118 1112989276 568527393 \
                    4290741827 2127220007 2164754614 2042656250 3875529725 2361789308 734703505 \
                    2226801166 3580500281",
                value: 1,
                out: "3556233823 3421780262 402910073",
            },
            Run {
                input: "1 825373492",
                value: 1,
                out: "2615402659 3421780262 1343740293",
            },
            Run {
                input: "7 -1 -1 -1 -1 -1 -1 -1",
                value: 1,
                out: "2162369309 3421780262 1259805243",
            },
        ],
    },
    Kernel {
        text: r#"/* 16-tap low-pass filter in Q15 over 48 samples, with saturation. */
int in[48];
int h[16] = {-77, -153, 0, 601, 1652, 3009, 4355, 5337, 5337, 4355, 3009, 1652, 601, 0, -153, -77};
_SPM int line[16];
int out[48];

int saturate(int x)
{
    if (x > 32767) { x = 32767; } else if (x < -32768) { x = -32768; }
    return x;
}

int main()
{
    int n = 0; int k = 0; int peak = 0;
    #pragma loopbound min 48 max 48
    for (n = 0; n < 48; n = n + 1) {
        int acc = 1 << 14;
        line[n & 15] = in[n];
        #pragma loopbound min 16 max 16
        for (k = 0; k < 16; k = k + 1) {
            acc = acc + h[k] * line[(n - k) & 15];
        }
        int y = saturate(acc >> 15);
        out[n] = y;
        if (y < 0) { y = -y; }
        if (y > peak) { peak = y; }
    }
    return peak;
}"#,
        straight: 140_480,
        runs: &[
            Run {
                input: "",
                value: 0,
                out: "0 0 0 0 0 0 0 0 0 0 0 0 0 0 0 0 0 0 0 0 0 0 0 0 0 0 0 0 0 0 0 0 0 0 0 0 0 0 0 0 0 0 \
                    0 0 0 0 0 0",
            },
            Run {
                input: "-19417 32056 23640 -19089 10981 -29345 -31182 -17406 -28230 -2669 26451 -126 12857 \
                    15966 -23607 -17400 -24236 -634 126 26202 27825 32727 -26996 -27529 27762 -21942 \
                    -8946 -12047 -4389 -653 -6425 -1509 4814 -27430 -15607 12601 27010 8409 24671 31792 \
                    -32548 6445 -17372 14403 -6886 4383 -13458 -9429",
                value: 13928,
                out: "46 15 -205 -422 -328 284 1415 2694 3610 3049 42 -4496 -9342 -13024 -13928 -11718 \
                    -7090 -1903 1553 2283 512 -2883 -5607 -5779 -3118 1254 5569 8174 7900 4811 522 -2993 \
                    -5561 -6865 -6691 -5826 -5167 -5077 -5150 -4919 -3967 -1599 2361 6523 9372 10132 \
                    8790 5584",
            },
            Run {
                input: "-25062 -2051 591 -9222 -28317 -31345 -18724 -8153 -18827 29617 27279 3014 -3019 \
                    -25079 24298 -68 4506 10709 7903 -591 12927 31641 23208 -24250 -5941 -6020 -4299 \
                    32500 28574 9904 -13177 27033 19697 -24320 -29467 -13887 29309 -4209 -26525 30530 \
                    912 -32455 -18465 27811 -27402 -3234 -17232 -30585",
                value: 15102,
                out: "59 122 8 -441 -1192 -2188 -3468 -5178 -7104 -9300 -11917 -14263 -15102 -13519 -9773 \
                    -4865 137 3797 4992 4400 3257 2704 2863 3763 5539 7482 8864 9342 8703 6828 4339 2619 \
                    2593 4204 7113 9901 10870 9488 6568 2799 -1248 -4066 -4647 -3681 -2627 -2111 -1836 \
                    -2458",
            },
        ],
    },
    Kernel {
        text: r#"/* A frame receiver: start byte 126, length, payload, sum; byte 125 escapes the next one by 32. */
int in[40];
int out[10];

int main()
{
    int state = 0; int escape = 0; int left = 0; int sum = 0; int good = 0; int bad = 0; int i = 0;
    #pragma loopbound min 40 max 40
    for (i = 0; i < 40; i = i + 1) {
        int c = in[i] & 255;
        if (c == 126) {
            if (state > 0 && state < 4) { bad = bad + 1; }
            state = 1; escape = 0; sum = 0;
            continue;
        }
        if (c == 125 && !escape) { escape = 1; continue; }
        if (escape) { c = c ^ 32; escape = 0; }
        if (state == 1) {
            if (c == 0 || c > 8) { bad = bad + 1; state = 0; } else { left = c; sum = c; state = 2; }
        } else if (state == 2) {
            sum = sum + c;
            out[2 + ((good + left) & 7)] = c;
            left = left - 1;
            if (left == 0) { state = 3; }
        } else if (state == 3) {
            if ((sum & 255) == c) { good = good + 1; } else { bad = bad + 1; }
            state = 0;
        } else {
            state = 0;
        }
    }
    out[0] = good;
    out[1] = bad;
    return state;
}"#,
        straight: 21_043,
        runs: &[
            Run {
                input: "",
                value: 0,
                out: "0 0 0 0 0 0 0 0 0 0",
            },
            Run {
                input: "126 3 10 20 30 63 126 2 125 94 125 93 255 1 126 9 126 1 5 7 126 4 1 125 5 3 2 3 3 \
                    125 1 126 5 5 125 2 3 126 125 126",
                value: 1,
                out: "1 6 0 30 2 3 3 34 5 0",
            },
            Run {
                input: "1 1 1 2 2 1 125 125 126 2 125 1 1 3 2 2 2 2 3 2 126 2 1 125 126 1 1 126 126 2 1 125 \
                    125 126 126 125 125 126 126 3",
                value: 2,
                out: "0 8 0 93 1 0 0 0 0 0",
            },
        ],
    },
    Kernel {
        text: r#"/* Insertion sort of 20 numbers. */
int in[20];
int out[20];

int main()
{
    int i = 0; int moves = 0;
    _Pragma("loopbound min 20 max 20")
    for (i = 0; i < 20; i = i + 1) {
        int v = in[i];
        int j = i;
        _Pragma("loopbound min 0 max 20")
        while (j > 0) {
            if (out[j - 1] <= v) { break; }
            out[j] = out[j - 1];
            j = j - 1;
            moves = moves + 1;
        }
        out[j] = v;
    }
    return moves;
}"#,
        straight: 58_207,
        runs: &[
            Run {
                input: "-3469 -19359 -24297 -12038 -28182 20761 18278 -29167 -25994 19160 13518 19538 -9896 \
                    -15645 -28685 481 9777 -31963 7256 30940",
                value: 87,
                out: "-31963 -29167 -28685 -28182 -25994 -24297 -19359 -15645 -12038 -9896 -3469 481 7256 \
                    9777 13518 18278 19160 19538 20761 30940",
            },
            Run {
                input: "20 19 18 17 16 15 14 13 12 11 10 9 8 7 6 5 4 3 2 1",
                value: 190,
                out: "1 2 3 4 5 6 7 8 9 10 11 12 13 14 15 16 17 18 19 20",
            },
            Run {
                input: "0 1 2 3 4 5 6 7 8 9 10 11 12 13 14 15 16 17 18 19",
                value: 0,
                out: "0 1 2 3 4 5 6 7 8 9 10 11 12 13 14 15 16 17 18 19",
            },
        ],
    },
    Kernel {
        text: r#"/* Integer square roots, digit by digit and by Newton, and the length of vectors. */
int in[8];
unsigned out[8];

unsigned root(unsigned x)
{
    unsigned r = 0; unsigned bit = 1u << 30; int k = 0;
    _Pragma("loopbound min 16 max 16")
    for (k = 0; k < 16; k = k + 1) {
        if (x >= r + bit) { x = x - (r + bit); r = (r >> 1) + bit; } else { r = r >> 1; }
        bit = bit >> 2;
    }
    return r;
}

unsigned newton(unsigned x)
{
    if (x < 2) { return x; }
    unsigned r = 65535;
    _Pragma("loopbound min 1 max 32")
    while (r > x / r) { r = (r + x / r) >> 1; }
    return r;
}

int main()
{
    int i = 0; int same = 0;
    _Pragma("loopbound min 8 max 8")
    while (i < 8) {
        unsigned a = root(in[i]); unsigned b = newton(in[i]);
        out[i] = a;
        if (a == b) { same = same + 1; }
        i = i + 1;
    }
    int s = 0;
    _Pragma("loopbound min 4 max 4")
    for (i = 0; i < 8; i = i + 2) {
        int x = in[i] % 10000; int y = in[i + 1] % 10000;
        int len = root(x * x + y * y);
        s = s + len;
    }
    return s * 10 + same;
}"#,
        straight: 296_397,
        runs: &[
            Run {
                input: "",
                value: 8,
                out: "0 0 0 0 0 0 0 0",
            },
            Run {
                input: "1303137197 956 1823892031 802 991704682 689 1522043139 1116117211",
                value: 220398,
                out: "36098 30 42707 28 31491 26 39013 33408",
            },
            Run {
                input: "433 1279051093 604 752 464 630 510 767",
                value: 38428,
                out: "20 35763 24 27 21 25 22 27",
            },
        ],
    },
    Kernel {
        text: r#"/* Moving median of five. */
int in[30];
int out[26];
_SPM int w[5];

int main()
{
    int i = 0; int changes = 0;
    _Pragma("loopbound min 26 max 26")
    for (i = 0; i < 26; i = i + 1) {
        int k = 0;
        _Pragma("loopbound min 5 max 5")
        for (k = 0; k < 5; k = k + 1) {
            int v = in[i + k]; int j = k - 1;
            _Pragma("loopbound min 0 max 4")
            while (j >= 0) {
                if (w[j] <= v) { break; }
                w[j + 1] = w[j];
                j = j - 1;
            }
            w[j + 1] = v;
        }
        out[i] = w[2];
        if (out[i] != in[i + 2]) { changes = changes + 1; }
    }
    return changes;
}"#,
        straight: 69_369,
        runs: &[
            Run {
                input: "",
                value: 0,
                out: "0 0 0 0 0 0 0 0 0 0 0 0 0 0 0 0 0 0 0 0 0 0 0 0 0 0",
            },
            Run {
                input: "-17045 -5330 20069 -11213 22564 -18124 1054 -14087 2037 12465 -17636 -1200 7016 \
                    -4933 -5332 19379 32688 30597 22073 22969 -26012 -9546 28076 -17080 -25976 -7383 \
                    -2041 -5892 18442 -1085",
                value: 21,
                out: "-5330 -5330 1054 -11213 1054 1054 1054 -1200 2037 -1200 -4933 -1200 7016 19379 22073 \
                    22969 22969 22073 22073 -9546 -17080 -9546 -7383 -7383 -5892 -2041",
            },
            Run {
                input: "-10901 -12195 -530 19548 -22017 -4594 4207 -32435 -3278 -18148 7336 32721 -13083 \
                    11696 -8493 24294 -14585 -27335 -28835 11902 31395 14620 -9399 30732 -22603 22954 \
                    15421 -32533 -17477 -24025",
                value: 19,
                out: "-10901 -4594 -530 -4594 -4594 -4594 -3278 -3278 -3278 7336 7336 11696 -8493 -8493 \
                    -14585 -14585 -14585 11902 11902 14620 14620 14620 15421 15421 -17477 -17477",
            },
        ],
    },
];
